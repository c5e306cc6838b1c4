ghost use Rattle.std.specs.Prelude.{◌≡◌, IfOk, length};
ghost use Rattle.oat_attest.specs.{IsWellFormedCase, end_of, AreGiven, IsOperation, sealed_bodies};
ghost use Rattle.oat_device.specs.DeviceRun.{bodies_so_far, run_so_far, window_opening};
ghost use Rattle.oat_watch.specs.Collecting.{AreWindows};
ghost use Rattle.oat_watch.specs.Watching.{AgreesWithVerdict, HasItsVerdict, IsWatched, HasWholeRun, OfEach, OfItsRun, Parts, ShowsWindow};

use crate::judging::judged;
use crate::watched::{Watched, WatchedWindow};
use crate::window::Window;
use crate::windows::windows_of;
use oat_case::Case;
use oat_device::Device;
use oat_shape::Shaped;
use std::alloc::{AllocError, Global};

fn judged_windows(
    alloc: Global,
    shaped: &Shaped,
    case: &Case,
    device: &Device<'_>,
    windows: &[Window],
) -> Result<Vec<WatchedWindow>, AllocError>
    requires whole { HasWholeRun device.now shaped.now case.now }
    requires windows { AreWindows shaped.now (window_opening device.now) (run_so_far device.now) windows.now }
    ensures counted { IfOk result (λ shown. length shown.items ≡ length (bodies_so_far device.now)) }
    ensures watched { IfOk result (λ shown. OfEach shown.items (IsWatched shaped.now case.now device.now.begin_at)) }
{
    let mut shown = Vec::new(alloc);
    for serial in 0..device.bodies() {
        let window = &windows[serial as usize];
        shown.push(judged(alloc, shaped, case, device, serial, window)?)?;
    }
    Ok(shown)
}

/// Makes the run of a case on an image, and shows what it did in each window that sealed, beside the verdict on the window's blob.
pub fn watch(alloc: Global, shaped: &Shaped, case: &Case) -> Result<Watched, AllocError>
    requires well_formed { IsWellFormedCase case.now }
    requires operation { IsOperation shaped.now.map case.now.session.op }
    ensures end { IfOk result (λ watched. OfItsRun shaped.now case.now (λ begin_at o run. watched.end ≡ end_of run)) }
    ensures outputs { IfOk result (λ watched. OfItsRun shaped.now case.now (λ begin_at o run. watched.outputs.items ≡ run.running.outputs)) }
    ensures counted { IfOk result (λ watched. OfItsRun shaped.now case.now (λ begin_at o run. length watched.windows.items ≡ length (sealed_bodies o run.measurements))) }
    ensures shown { IfOk result (λ watched. OfItsRun shaped.now case.now (λ begin_at o run. OfEach watched.windows.items (ShowsWindow shaped.now o run))) }
    ensures judged { IfOk result (λ watched. OfItsRun shaped.now case.now (λ begin_at o run. OfEach watched.windows.items (HasItsVerdict shaped.now case.now.session begin_at run))) }
    ensures parted { IfOk result (λ watched. OfItsRun shaped.now case.now (λ begin_at o run. OfEach watched.windows.items (Parts shaped.now case.now.session o run))) }
    ensures agrees { IfOk result (λ watched. AreGiven case.now.inputs case.now.writes → OfEach watched.windows.items (λ s shown. AgreesWithVerdict shown)) }
{
    let _image = shaped.image();
    let mut device = Device::boot(alloc, shaped, case)?;
    let windows = windows_of(alloc, shaped, case, &mut device)?;
    let end = device.run();
    let outputs = Vec::from_slice(alloc, device.outputs())?;
    let windows = judged_windows(alloc, shaped, case, &device, windows.as_slice())?;
    Ok(Watched {
        end,
        outputs,
        windows,
    })
}
