ghost use Rattle.std.specs.Prelude.{◌≡◌, ◌≤◌, length, IfOk};
ghost use Rattle.oat_policy.specs.Verdict.{verdict_of};

use crate::policy::Policy;
use crate::watch::Watch;
use oat_report::{Edge, Map};
use std::alloc::{AllocError, Global};

/// What a policy says of a path.
#[derive(Clone, Copy)]
pub enum PolicyVerdict {
    /// Each rule holds.
    Holds,
    /// The first rule of the text that doesn't hold, and where it breaks, counted from 1.
    Breaks { line: u32, place: u64 },
}

/// What a policy says of a whole path.
pub fn verdict_on(
    alloc: Global,
    policy: &Policy,
    map: &Map,
    path: &[Edge],
) -> Result<PolicyVerdict, AllocError>
    requires { length path.now ≤ 4194304 }
    ensures { IfOk result (λ verdict. verdict ≡ verdict_of map.now policy.now path.now) }
{
    let mut watch = Watch::new(alloc, policy, map)?;
    for edge in path {
        watch.edge(edge);
    }
    Ok(watch.finish())
}
