//! Laws of what an image shows, and of runs that follow a source.
ghost use Rattle.oat_follow.specs.Events.{OutputsAreShown, PathsAreShown};
ghost use Rattle.oat_follow.specs.Order.{OrderedRunsAreSealed, OrderedUsesAreSound};
ghost use Rattle.oat_follow.specs.Reaching.{InstructionsFollow, InstructionsLead, LastInstructionsLead};
ghost use Rattle.oat_follow.specs.Worked.{OneJumpMeans, OneJumpRunsAs};

/// The outputs of a run are those among its events, whatever was written.
pub fn outputs_are_shown()
    ensures { OutputsAreShown }
{}

/// The executed path of a window is the edges among its events.
pub fn paths_are_shown()
    ensures { PathsAreShown }
{}

/// An instruction that doesn't end the run leads on.
pub fn instructions_lead()
    ensures { InstructionsLead }
{}

/// One that ends the run shows nothing.
pub fn last_instructions_lead()
    ensures { LastInstructionsLead }
{}

/// Some instructions and then others are both behind one another.
pub fn instructions_follow()
    ensures { InstructionsFollow }
{}

/// Where a run's calls keep order, each checked use of each window is sound.
pub fn ordered_uses_are_sound()
    ensures { OrderedUsesAreSound }
{}

/// Where a run's calls keep order, the monitor doesn't stop it, and each window that the session calls for is sealed exactly where it is closed.
pub fn ordered_runs_are_sealed()
    ensures { OrderedRunsAreSealed }
{}

/// The smallest image with a jump runs as its source.
pub fn one_jump_runs_as()
    ensures { OneJumpRunsAs }
{}

/// It means its source, in each session whose windows open at its begin.
pub fn one_jump_means()
    ensures { OneJumpMeans }
{}
