ghost use Rattle.std.specs.Prelude.{◌≡◌, ◌≤◌};
ghost use Rattle.oat_shown.specs.{read_of, script_limit, FaultsRose};
ghost use Rattle.oat_room_owner.specs.Serving.{Opens};

use crate::enrol::enrol_all;
use crate::script::script_of;
use oat_list::Listed;
use oat_owner::{Owner, OwnerCall, OwnerFault};
use oat_page::{File, Files, Halt};
use oat_script::laws::ids_differ;
use std::alloc::Global;

/// An owner of the devices of a script, and the script's calls.
#[derive(Drop)]
pub struct Opened {
    pub owner: Owner,
    pub calls: Listed<OwnerCall>,
}

/// Reads a script, and then enrols its devices.
pub fn open_script<F: Files>(alloc: Global, files: &mut F, file: &File) -> Result<Opened, Halt>
    requires { file.now.limit ≡ script_limit }
    ensures same { F.told files.new ≡ F.told files.old }
    ensures faults_stay { F.faults files.old ≤ F.faults files.new }
    ensures opens { Opens file.now (read_of F.told F.faults files.old files.new) result }
    ensures untold { FaultsRose (read_of F.told F.faults files.old files.new) result }
{
    ids_differ();
    let script = script_of(alloc, file)?;
    let known = enrol_all(alloc, files, script.devices.as_slice())?;
    match Owner::new(alloc, known) {
        Ok(owner) => Ok(Opened {
            owner,
            calls: script.calls,
        }),
        Err(refusal) => match refusal.fault {
            OwnerFault::Twice(_) => unreachable!(),
            OwnerFault::Memory => Err(Halt::Starved),
        },
    }
}
