//! Laws of checked programs and of their runs.

ghost use Rattle.oat_check.specs.Keeping.{
  ConsistentStatesGoOn,
  OperationsAreLow,
  ReferencesAreKnown,
  RunsStartConsistent,
  StepsAreLawful,
  WordsAreTyped,
};
ghost use Rattle.oat_check.specs.RuleLaws.{AcceptedExactly, FaultsStand, LinesAreAllowed};
ghost use Rattle.oat_check.specs.RunLaws.{
  CallsAreCounted,
  CallsAreCut,
  CallsGoBack,
  CellWordsAreThere,
  CellsAreWords,
  CellsHaveWords,
  ElementsAreNumbered,
  EndedRunsStay,
  RunsAreConsistent,
  RunsAreShort,
  RunsPass,
  RunsStack,
  WordsAreFew,
};
ghost use Rattle.oat_check.specs.Worked.{
  AttestedLoopIsShown,
  DeepCallsAreShown,
  ElementsAreShown,
  IdleIsShown,
  OperationsAreAsSaid,
  RulesAreTried,
  TwoCallsAreShown,
};

/// Just the programs that keep all rules have no first fault.
pub fn accepted_exactly()
    ensures { AcceptedExactly }
{}

/// The rule that a fault tells is broken at its place.
pub fn faults_stand()
    ensures { FaultsStand }
{}

/// Each line of a checked program is allowed.
pub fn lines_are_allowed()
    ensures { LinesAreAllowed }
{}

/// A consistent state stands at a line, and a return there has a caller.
pub fn consistent_states_go_on()
    ensures { ConsistentStatesGoOn }
{}

/// An operation's frame lies directly above main's.
pub fn operations_are_low()
    ensures { OperationsAreLow }
{}

/// A run starts in a consistent state.
pub fn runs_start_consistent()
    ensures { RunsStartConsistent }
{}

/// A step from a consistent state leads to one, and its events keep the two rules.
pub fn steps_are_lawful()
    ensures { StepsAreLawful }
{}

/// A run that has ended stays as it is.
pub fn ended_runs_stay()
    ensures { EndedRunsStay }
{}

/// Each state of a run is consistent.
pub fn runs_are_consistent()
    ensures { RunsAreConsistent }
{}

/// Operations never nest, and each load gives the value of the last store.
pub fn runs_pass()
    ensures { RunsPass }
{}

/// In an operation each return goes back to the last open call.
pub fn runs_stack()
    ensures { RunsStack }
{}

/// The path of each completed call goes back as it called.
pub fn calls_go_back()
    ensures { CallsGoBack }
{}

/// The completed calls are the first ones.
pub fn calls_are_counted()
    ensures { CallsAreCounted }
{}

/// Taken up event by event, the completed calls are the same.
pub fn calls_are_cut()
    ensures { CallsAreCut }
{}

/// A step adds at most one edge to a path, one load and one output.
pub fn runs_are_short()
    ensures { RunsAreShort }
{}

/// What an element holds is at its number among the words, or among the cells.
pub fn elements_are_numbered()
    ensures { ElementsAreNumbered }
{}

/// Each cell holds what its word holds.
pub fn cells_are_words()
    ensures { CellsAreWords }
{}

/// The word of a cell is there.
pub fn cell_words_are_there()
    ensures { CellWordsAreThere }
{}

/// The word of an element's cell is that of the element.
pub fn cells_have_words()
    ensures { CellsHaveWords }
{}

/// Words are numbered below 65,536.
pub fn words_are_few()
    ensures { WordsAreFew }
{}

/// A reference is null, or of a function that a `ref` names.
pub fn references_are_known()
    ensures { ReferencesAreKnown }
{}

/// A word of global data has a value of its type.
pub fn words_are_typed()
    ensures { WordsAreTyped }
{}

/// An operation that does nothing.
pub fn idle_is_shown()
    ensures { IdleIsShown }
{}

/// Two calls of one operation.
pub fn two_calls_are_shown()
    ensures { TwoCallsAreShown }
{}

/// Elements of a critical array.
pub fn elements_are_shown()
    ensures { ElementsAreShown }
{}

/// An attested loop.
pub fn attested_loop_is_shown()
    ensures { AttestedLoopIsShown }
{}

/// At most 256 calls are active.
pub fn deep_calls_are_shown()
    ensures { DeepCallsAreShown }
{}

/// Operations on numbers at their ends.
pub fn operations_are_as_said()
    ensures { OperationsAreAsSaid }
{}

/// Each rule of a line, broken and kept.
pub fn rules_are_tried()
    ensures { RulesAreTried }
{}
