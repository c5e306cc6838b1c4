ghost use Rattle.std.specs.Prelude.{◌≡◌, ◌≤◌, map, IfOk};
ghost use Rattle.oat_shown.specs.{read_of, FaultsRose};
ghost use Rattle.oat_owner.specs.Ledger.{ids_of};
ghost use Rattle.oat_room_owner.specs.Serving.{Enrols, EnrolsAll};

use oat_inputs::{image_of, shaped_of};
use oat_list::Listed;
use oat_owner::Known;
use oat_page::{Files, Halt, IMAGE_LIMIT, load_one};
use oat_script::ScriptDevice;
use std::alloc::Global;

/// Loads the image of a device, and looks at its text and shape.
fn enrol<F: Files>(alloc: Global, files: &mut F, device: &ScriptDevice) -> Result<Known, Halt>
    ensures same { F.told files.new ≡ F.told files.old }
    ensures faults_stay { F.faults files.old ≤ F.faults files.new }
    ensures enrols { Enrols device.now (read_of F.told F.faults files.old files.new) result }
    ensures untold { FaultsRose (read_of F.told F.faults files.old files.new) result }
    ensures id { IfOk result (λ known. known.id ≡ device.now.id) }
{
    let file = load_one(alloc, files, device.file.as_str(), IMAGE_LIMIT)?;
    let image = image_of(alloc, &file)?;
    let shaped = shaped_of(alloc, &file, image)?;
    let key = Vec::from_slice(alloc, device.key.as_slice())?;
    Ok(Known {
        id: device.id,
        key: Listed::from_vec(key),
        shaped,
    })
}

/// Enrols devices in their order, each wholly before the next.
pub fn enrol_all<F: Files>(
    alloc: Global,
    files: &mut F,
    devices: &[ScriptDevice],
) -> Result<Vec<Known>, Halt>
    ensures same { F.told files.new ≡ F.told files.old }
    ensures faults_stay { F.faults files.old ≤ F.faults files.new }
    ensures enrols { EnrolsAll devices.now (read_of F.told F.faults files.old files.new) result }
    ensures untold { FaultsRose (read_of F.told F.faults files.old files.new) result }
    ensures ids { IfOk result (λ known. ids_of known.items ≡ map (λ device. device.id) devices.now) }
{
    let mut known = Vec::new(alloc);
    for device in devices {
        let enrolled = enrol(alloc, files, device)?;
        known.push(enrolled)?;
    }
    Ok(known)
}
