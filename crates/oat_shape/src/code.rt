ghost use Rattle.std.specs.Prelude.{◌≡◌, ◌↔◌, IsTrue, IsSome};
ghost use Rattle.oat_a64.specs.Table.{IsInRange};
ghost use Rattle.oat_a64.specs.Step.{word_at};
ghost use Rattle.oat_shape.specs.Groups.{Stands};

use oat_a64::{Inst, encode, word_at};

pub(crate) fn has_word(code: &[u32], address: u64) -> bool
    ensures { IsTrue result ↔ IsSome (word_at code.now address) }
{
    word_at(code, address).is_some()
}

/// Whether this instruction stands at the address.
pub(crate) fn stands(code: &[u32], address: u64, inst: &Inst) -> bool
    requires { IsInRange inst.now }
    ensures { IsTrue result ↔ Stands code.now address inst.now }
{
    match word_at(code, address) {
        Some(word) => word == encode(inst),
        None => false,
    }
}
