//! Laws of the definitions.

ghost use Rattle.oat_replay.specs.Replay.{FollowersAreFronts, NeverBoth, OneCause, OnePath, OneWalk};
ghost use Rattle.oat_replay.specs.StandsBehind.{OneAnswer};

/// Records are those of one walk at most, passes included.
pub fn one_walk()
    ensures { OneWalk }
{}

/// So they are those of one path at most.
pub fn one_path()
    ensures { OnePath }
{}

/// A partial walk that follows the records of a walk is a front of it.
pub fn followers_are_fronts()
    ensures { FollowersAreFronts }
{}

/// A replay doesn't get stuck where there is a walk.
pub fn never_both()
    ensures { NeverBoth }
{}

/// A replay gets stuck for one cause, at one turn.
pub fn one_cause()
    ensures { OneCause }
{}

/// A turn of a replay has one answer.
pub fn one_answer()
    ensures { OneAnswer }
{}
