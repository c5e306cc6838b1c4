ghost use Rattle.std.specs.Prelude.{◌≡◌, ◌↔◌, ◌+◌, ◌*◌, ◌≤◌, IsTrue, IsSome, length};
ghost use Rattle.oat_a64.specs.Fetch.{inst_of};
ghost use Rattle.oat_a64.specs.Step.{code_base};
ghost use Rattle.oat_shape.specs.Lowest.{Lowest, EachAt};

use crate::lowest::note;
use oat_a64::{CODE_BASE, decode};

/// Shape rule S1: the lowest word that doesn't decode.
pub(crate) fn lowest_undecoded(code: &[u32]) -> Option<u64>
    requires few { length code.now ≤ 131072 }
    ensures { Lowest (EachAt code.now (λ k word. code_base + 4 * k) (λ k word. IsSome (inst_of word))) result }
{
    let mut lowest = None;
    let mut at = CODE_BASE;
    for word in code {
        lowest = note(lowest, decodes(*word), at);
        at += 4;
    }
    lowest
}

fn decodes(word: u32) -> bool
    ensures { IsTrue result ↔ IsSome (inst_of word) }
{
    decode(word).is_some()
}
