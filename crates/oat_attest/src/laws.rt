//! Laws that join device runs and verdicts, each the contract of a function that does nothing.
ghost use Rattle.std.specs.Prelude.{ℕ};
ghost use Rattle.oat_attest.specs.Headline.{Headline};
ghost use Rattle.oat_attest.specs.Honest.{HonestRunsAreAccepted, HonestRunsWalk, SoundRunsAreAccepted, TracesAreWalks};
ghost use Rattle.oat_attest.specs.Lockstep.{ClashOfUnequalReturns, ExactViolations, Lockstep, SamePath};
ghost use Rattle.oat_attest.specs.Worked.{OneElement, SecondIsFalse, TwoUses};

/// The violation that a sealed run reports is that of the first checked use that wasn't sound.
pub fn exact_violations()
    ensures { ExactViolations }
{}

/// Lockstep: a run whose blob is accepted executes the walk of the accepted path, or executes it up to the run's first false return, whatever was given and written.
pub fn lockstep()
    ensures { Lockstep }
{}

/// Same path: with equal returns the executed path is the accepted one, and the run executes its walk, row by row by whole groups; each checked use was read by the load of its own group.
pub fn same_path()
    ensures { SamePath }
{}

/// Where the returns of a sealed run and of the path that is accepted for its blob differ, they exhibit two different messages with one SHA-256 digest.
pub fn clash_of_unequal_returns()
    ensures { ClashOfUnequalReturns }
{}

/// The headline: a run whose blob is accepted took the accepted path with sound uses, or its returns and the path's clash.
pub fn headline()
    ensures { Headline }
{}

/// A trace that goes back as it called executes a walk of its operation, for every image with the shape.
pub fn traces_are_walks()
    ensures { TracesAreWalks }
{}

/// The window of a sealed run that goes back as it called executes a walk, with the records that the run reports.
pub fn honest_runs_walk()
    ensures { HonestRunsWalk }
{}

/// The blob of such a run without a violation is accepted, with the executed path.
pub fn honest_runs_are_accepted()
    ensures { HonestRunsAreAccepted }
{}

/// Where each checked use of such a run was sound, the one verdict on its blob is the acceptance of the executed path.
pub fn sound_runs_are_accepted()
    ensures { SoundRunsAreAccepted }
{}

/// Two rows that use one cell are passed each by its own group, and a use is read by the load of its own group.
pub fn uses_are_paired_by_groups()
    ensures { (memory : ℕ → ℕ) → TwoUses memory }
{}

/// A row that uses an element of an array is passed by its group without the trap, and the use is read by a load of that very element.
pub fn elements_are_read_by_their_loads()
    ensures { (memory : ℕ → ℕ) → OneElement memory }
{}

/// Where the second of three returns is false, run and path don't part at the third.
pub fn second_is_false()
    ensures { SecondIsFalse }
{}
