//! The verdict on a window of a run, and where the run parts from it.
ghost use Rattle.std.specs.Prelude.{◌≡◌, ◌<◌, List, IfOk, length};
ghost use Rattle.std.specs.Option.{option_map};
ghost use Rattle.oat_attest.specs.{chain, Edge as ItsEdge, return_of, returns_of, Accept};
ghost use Rattle.oat_device.specs.DeviceRun.{bodies_so_far};
ghost use Rattle.oat_watch.specs.Collecting.{HoldsThere};
ghost use Rattle.oat_watch.specs.Watching.{IsWatched, HasWholeRun, PartsFrom};

use crate::watched::WatchedWindow;
use crate::window::Window;
use oat_case::Case;
use oat_chain::{Clash, clash, window_head};
use oat_device::Device;
use oat_map::{Edge, Path};
use oat_shape::Shaped;
use oat_verify::{Verdict, verify};
use std::alloc::{AllocError, Global};

fn return_of(edge: &Edge) -> Option<u64>
    ensures { result ≡ return_of edge.now }
{
    match edge {
        Edge::Ret { to, .. } => Some(*to),
        _ => None,
    }
}

fn returns_of(alloc: Global, path: &Path) -> Result<Vec<u64>, AllocError>
    ensures { IfOk result (λ returns. returns.items ≡ returns_of path.now) }
{
    path.as_slice().iter().filter_map(return_of).collect(alloc)
}

/// The clash of a window's returns and those of the path that is accepted for its blob.
fn parting(
    alloc: Global,
    head: &[u8; 50],
    returns: &[u64],
    verdict: &Verdict,
) -> Result<Option<Clash>, AllocError>
    requires one_chain { (path : List ItsEdge) → verdict.now ≡ Accept path → chain head.now returns.now ≡ chain head.now (returns_of path) }
    ensures { IfOk result (PartsFrom head.now returns.now verdict.now) }
{
    match verdict {
        Verdict::Accept(path) => {
            let replayed = returns_of(alloc, path)?;
            Ok(clash(head, returns, replayed.as_slice()))
        }
        Verdict::Refuse(_) => Ok(None),
    }
}

fn number_of(calls: Option<u32>, serial: u32) -> Option<u32>
    ensures { result ≡ option_map (λ number. serial) calls }
{
    calls.map(|_| serial)
}

fn copied<T: Copy + Drop>(alloc: Global, items: &Vec<T>) -> Result<Vec<T>, AllocError>
    ensures { IfOk result (λ copy. copy.items ≡ items.now.items) }
{
    Vec::from_slice(alloc, items.as_slice())
}

/// A window of a whole run, beside the verdict on its blob.
pub fn judged(
    alloc: Global,
    shaped: &Shaped,
    case: &Case,
    device: &Device<'_>,
    serial: u32,
    window: &Window,
) -> Result<WatchedWindow, AllocError>
    requires whole { HasWholeRun device.now shaped.now case.now }
    requires sealed { serial < length (bodies_so_far device.now) }
    requires holds { HoldsThere shaped.now case.now.session.op device.now serial window.now }
    ensures { IfOk result (IsWatched shaped.now case.now device.now.begin_at serial) }
{
    let _image = shaped.image();
    let session = &case.session;
    let blob = device.blob(alloc, serial)?;
    let verdict = verify(alloc, shaped, session, blob.as_slice())?;
    let number = number_of(session.calls, serial);
    let head = window_head(&session.nonce, session.op, &shaped.digest(), number);
    let apart = parting(alloc, &head, window.returns.as_slice(), &verdict)?;
    let path = copied(alloc, &window.path)?;
    let returns = copied(alloc, &window.returns)?;
    let uses = copied(alloc, &window.uses)?;
    Ok(WatchedWindow {
        path: Path::from_vec(path),
        returns,
        uses,
        verdict,
        apart,
    })
}
