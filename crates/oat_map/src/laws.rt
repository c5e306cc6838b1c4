//! Laws of the definitions, and worked maps.

ghost use Rattle.oat_map.specs.Rows.{NextIsLowest};
ghost use Rattle.oat_map.specs.StackLaws.{ReturnsGoToTheTop, StackIsAsDeep, StacksFollow};
ghost use Rattle.oat_map.specs.TurnLaws.{MatchedPathsGoBack, WalksGoBack};
ghost use Rattle.oat_map.specs.Worked.{CallsAreWalked, JumpIsWalked};

/// In an ordered map the next row is the lowest one at or above the place.
pub fn next_is_lowest()
    ensures { NextIsLowest }
{}

/// The operation of one jump has one walk.
pub fn jump_is_walked()
    ensures { JumpIsWalked }
{}

/// The operation of calls has the walk with this path.
pub fn calls_are_walked()
    ensures { CallsAreWalked }
{}

/// The stack of open calls has as many return sites as calls are open.
pub fn stack_is_as_deep()
    ensures { StackIsAsDeep }
{}

/// A return goes to the top of the stack of open calls, and nowhere else.
pub fn returns_go_to_the_top()
    ensures { ReturnsGoToTheTop }
{}

/// Which stack of open calls stands behind a step more.
pub fn stacks_follow()
    ensures { StacksFollow }
{}

/// A path whose returns match their calls goes back as it called.
pub fn matched_paths_go_back()
    ensures { MatchedPathsGoBack }
{}

/// The path of every walk goes back as it called.
pub fn walks_go_back()
    ensures { WalksGoBack }
{}
