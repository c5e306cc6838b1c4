//! The windows of the run of a case.
ghost use Rattle.std.specs.Prelude.{◌≡◌, ◌+◌, ◌≤◌, ℕ, IfOk, None, OnOk, length};
ghost use Rattle.oat_attest.specs.{IsWellFormedCase, IsLaid};
ghost use Rattle.oat_device.specs.Advancing.{end_by_now};
ghost use Rattle.oat_device.specs.DeviceRun.{IsAtStart, run_so_far, window_opening};
ghost use Rattle.oat_watch.specs.Collecting.{AreWindows, IsCollected};

use crate::collection::Collection;
use crate::window::Window;
use oat_case::Case;
use oat_device::{Device, Image};
use oat_shape::Shaped;
use std::alloc::{AllocError, Global};

/// Makes one more instruction of a run that goes on, and takes it up.
fn advance(
    alloc: Global,
    image: &Image,
    op: u16,
    device: &mut Device<'_>,
    collection: &mut Collection,
) -> Result<(), AllocError>
    requires laid { IsLaid image.now }
    requires operation { device.old.case.session.op ≡ op }
    requires goes_on { end_by_now device.old ≡ None }
    requires few { length collection.old.cells.words.items ≤ 65536 }
    ensures same { device.new ≡ record device.old { turns = device.new.turns } }
    ensures collected { OnOk result ((made : ℕ) → IsCollected image.now device.old collection.old made → IsCollected image.now device.new collection.new (made + 1)) }
    ensures few { length collection.new.cells.words.items ≤ 65536 }
{
    let was_inside = device.inside();
    match device.advance() {
        Some(entry) => collection.take(alloc, image, op, &entry, was_inside, device.inside()),
        None => Ok(()),
    }
}

/// Makes a run from its start to its end, and gives its windows that sealed.
pub fn windows_of(
    alloc: Global,
    shaped: &Shaped,
    case: &Case,
    device: &mut Device<'_>,
) -> Result<Vec<Window>, AllocError>
    requires well_formed { IsWellFormedCase case.now }
    requires start { IsAtStart device.old shaped.now case.now }
    ensures whole { OnOk result (device.new ≡ record device.old { turns = device.old.case.steps }) }
    ensures windows { IfOk result (λ windows. AreWindows shaped.now (window_opening device.new) (run_so_far device.new) windows.items) }
{
    let image = shaped.image();
    let op = case.session.op;
    let mut collection = Collection::at_start(alloc, image)?;
    for _ in 0..case.steps {
        if device.end().is_some() {
            break;
        }
        advance(alloc, image, op, device, &mut collection)?;
    }
    Ok(collection.closed)
}
