ghost use Rattle.std.specs.Prelude.{◌≡◌, ◌≢◌, Ok, IfOk, MatchResult};
ghost use Rattle.oat_shown.specs.{Memory, fault_text, script_limit, IsRefusal, StopsWith};
ghost use Rattle.oat_script.specs.FaultText.{script_fault_word};
ghost use Rattle.oat_script.specs.Reading.{script_of};
ghost use Rattle.oat_room_owner.specs.Owner.{RefusesScript};

use oat_page::{File, Stop, refused};
use oat_script::{Script, ScriptFault, read_script};
use std::alloc::{AllocError, Global};

/// What is said of a script's fault; the error is want of memory.
fn script_fault(alloc: Global, name: &str, fault: ScriptFault) -> Result<Stop, AllocError>
    ensures of_text { IfOk result (λ stop. fault ≢ Memory) }
    ensures told { IsRefusal name.now (fault_text script_fault_word fault) result }
{
    match fault {
        ScriptFault::Memory => Err(AllocError),
        _ => refused(alloc, name, fault),
    }
}

/// The script of the file.
pub fn script_of(alloc: Global, file: &File) -> Result<Script, Stop>
    requires { file.now.limit ≡ script_limit }
    ensures { MatchResult result (λ script. script_of file.now.text ≡ Ok script) (StopsWith (RefusesScript file.now)) }
{
    match read_script(alloc, file.text()) {
        Ok(script) => Ok(script),
        Err(fault) => Err(script_fault(alloc, file.name(), fault)?),
    }
}
