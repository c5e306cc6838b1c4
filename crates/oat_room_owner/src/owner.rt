ghost use Rattle.std.specs.Prelude.{◌≡◌, ◌≢◌, ◌<◌, ◌≤◌, ◌⊎◌, None, map, ◌∷◌, []};
ghost use Rattle.oat_shown.specs.{Rose, put_of, read_of, script_limit};
ghost use Rattle.oat_room_owner.specs.Serving.{ShowsReplies, ShowsServing};

use crate::opening::{Opened, open_script};
use crate::replies::put_replies;
use oat_owner::laws::calls_give_replies;
use oat_page::{Ended, File, Files, close, say_halt};
use oat_shown::Sink;
use std::alloc::Global;

/// Puts what the owner replies to the calls, and answers the status.
fn reply_to<O: Sink, E: Sink>(alloc: Global, opened: Opened, out: &mut O, err: &mut E) -> u8
    ensures shows { ShowsReplies opened (put_of O.told O.faults out.old out.new) (put_of E.told E.faults err.old err.new) result }
    ensures write_fault { result ≡ 5 → Rose (O.faults out.old) (O.faults out.new) ⊎ Rose (E.faults err.old) (E.faults err.new) }
    ensures raised { (O.faults out.old < O.faults out.new) ⊎ (E.faults err.old < E.faults err.new) → result ≡ 5 }
    ensures no_fault { result ≢ 4 }
{
    calls_give_replies();
    let Opened { mut owner, calls } = opened;
    let put = put_replies(alloc, out, &mut owner, calls.as_slice());
    close(put, Ended::Done, b"", err)
}

/// Enrols the devices of a script, puts what their owner replies to its calls, and answers the status.
pub fn serve<F: Files, O: Sink, E: Sink>(
    alloc: Global,
    loaded: &[File],
    files: &mut F,
    out: &mut O,
    err: &mut E,
) -> u8
    requires { map (λ file. file.limit) loaded.now ≡ script_limit ∷ [] }
    ensures same { F.told files.new ≡ F.told files.old }
    ensures faults_stay { F.faults files.old ≤ F.faults files.new }
    ensures shows { ShowsServing loaded.now (read_of F.told F.faults files.old files.new)
        (put_of O.told O.faults out.old out.new) (put_of E.told E.faults err.old err.new) result }
    ensures read_fault { F.told files.old ≡ None → result ≡ 4 → Rose (F.faults files.old) (F.faults files.new) }
    ensures write_fault { result ≡ 5 → Rose (O.faults out.old) (O.faults out.new) ⊎ Rose (E.faults err.old) (E.faults err.new) }
    ensures raised { (O.faults out.old < O.faults out.new) ⊎ (E.faults err.old < E.faults err.new) → result ≡ 5 }
{
    match open_script(alloc, files, &loaded[0]) {
        Ok(opened) => reply_to(alloc, opened, out, err),
        Err(halt) => say_halt(&halt, err),
    }
}
