ghost use Rattle.std.specs.Prelude.{◌≡◌, List, IfOk, IfErr, IsSome};
ghost use Rattle.oat_map.specs.declared.edge.Edge.{Edge};
ghost use Rattle.oat_map.specs.Rows.{IsOrdered, start};
ghost use Rattle.oat_replay.specs.Replay.{IsWalked};
ghost use Rattle.oat_replay.specs.StandsBehind.{WalkFails};

use crate::cause::WalkFault;
use crate::replay::{PATH_LIMIT, Replay};
use crate::turn::Turn;
use oat_blob::Records;
use oat_map::{Map, Path};
use std::alloc::Global;

/// The path of the walk of an operation that has just these records.
pub fn walk<R: Records>(alloc: Global, map: &Map, op: u16, records: &R) -> Result<Path, WalkFault>
    requires ordered { IsOrdered map.now.rows }
    requires begun { IsSome (start map.now.rows op) }

    ensures walks { IfOk result (IsWalked map.now op (R.bits records.now) (R.targets records.now)) }
    ensures only { IfOk result (λ path. (other : List Edge)
        → IsWalked map.now op (R.bits records.now) (R.targets records.now) other → other ≡ path) }
    ensures found { (path : List Edge) → IsWalked map.now op (R.bits records.now) (R.targets records.now) path
        → IfErr result (λ fault. fault ≡ WalkFault.Memory) }
    ensures stuck { IfErr result (WalkFails map.now op (R.bits records.now) (R.targets records.now)) }
{
    let Ok(mut replay) = Replay::new(alloc, map, op) else {
        return Err(WalkFault::Memory);
    };
    let mut path = Vec::new(alloc);
    for turn in 1..PATH_LIMIT + 2 {
        match replay.turn(records) {
            Turn::Moved(edge) => {
                if path.push(edge).is_err() {
                    return Err(WalkFault::Memory);
                }
            }
            Turn::Passed => {}
            Turn::Done(edge) => {
                if path.push(edge).is_err() {
                    return Err(WalkFault::Memory);
                }
                return Ok(Path::from_vec(path));
            }
            Turn::Stuck(cause) => return Err(WalkFault::Stuck { cause, turn }),
        }
    }
    unreachable!()
}
