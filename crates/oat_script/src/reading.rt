ghost use Rattle.std.specs.Prelude.{◌≡◌, ◌≤◌, length};
ghost use Rattle.oat_owner.specs.{Gives};
ghost use Rattle.oat_script.specs.Reading.{script_of};

use crate::draft::Draft;
use crate::fault::ScriptFault;
use crate::script::Script;
use oat_lines::first_line;
use std::alloc::Global;

/// The script that a text stands for.
pub fn read_script(alloc: Global, text: &[u8]) -> Result<Script, ScriptFault>
    requires { length text.now ≤ 67108864 }
    ensures exact { Gives (λ script. script) result (script_of text.now) }
{
    let mut draft = Draft::new(alloc);
    let mut number: u32 = 1;
    let mut rest = text;
    'lines: while !rest.is_empty() {
        let (line, after) = first_line(rest);
        draft.take_line(alloc, number, line)?;
        number += 1;
        rest = after;
    }
    draft.finish(number)
}
