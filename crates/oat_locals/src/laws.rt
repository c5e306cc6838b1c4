//! Laws of compiled lines whose operands are locals alone, each the contract of a function that does nothing.
ghost use Rattle.oat_locals.specs.Lines.{BinariesLead, DivisionsTrap, ConstsLead, CopiesLead, InputsLead, InputEndsTrap, OutputsLead};
ghost use Rattle.oat_locals.specs.Terminators.{JumpsLead, TakenBranchesLead, OtherBranchesLead, BranchesAreApart, HaltsEnd};
ghost use Rattle.oat_locals.specs.Flags.{FlagsCompare};
ghost use Rattle.oat_locals.specs.Sizes.{WordsOfLines, LinesAreInRange};
ghost use Rattle.oat_locals.specs.Worked.{LinesRun};

/// A line with three operands leads to the next line, with its result.
pub fn binaries_lead()
    ensures { BinariesLead }
{}

/// A division by 0 traps, and shows nothing.
pub fn divisions_trap()
    ensures { DivisionsTrap }
{}

/// A constant is assigned.
pub fn consts_lead()
    ensures { ConstsLead }
{}

/// A local is copied.
pub fn copies_lead()
    ensures { CopiesLead }
{}

/// The next input is taken.
pub fn inputs_lead()
    ensures { InputsLead }
{}

/// Where no input is left it traps, and shows nothing.
pub fn input_ends_trap()
    ensures { InputEndsTrap }
{}

/// A local is output.
pub fn outputs_lead()
    ensures { OutputsLead }
{}

/// A jump leads to its block.
pub fn jumps_lead()
    ensures { JumpsLead }
{}

/// A branch leads to its first block where its local isn't 0.
pub fn taken_branches_lead()
    ensures { TakenBranchesLead }
{}

/// And to its second block where it is.
pub fn other_branches_lead()
    ensures { OtherBranchesLead }
{}

/// In an image with the shape no block begins inside the group of a branch.
pub fn branches_are_apart()
    ensures { BranchesAreApart }
{}

/// A halt ends the run.
pub fn halts_end()
    ensures { HaltsEnd }
{}

/// Behind a comparison of two words, conditions say how they compare.
pub fn flags_compare()
    ensures { FlagsCompare }
{}

/// How many words each line has.
pub fn words_of_lines()
    ensures { WordsOfLines }
{}

/// The fields of each instruction fit.
pub fn lines_are_in_range()
    ensures { LinesAreInRange }
{}

/// A program of lines runs as its source.
pub fn lines_run()
    ensures { LinesRun }
{}
