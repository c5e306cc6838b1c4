ghost use Rattle.std.specs.Prelude.{◌↔◌, IsTrue, ℕ};
ghost use Rattle.oat_a64.specs.declared.inst.Inst.TheVariants.{B, Bl, Cbnz, Brk};
ghost use Rattle.oat_shape.specs.Groups.{Branches, SkipsOne, Stands};

use oat_a64::{Inst, branch_target, instruction_at};

/// Whether a B at `address` leads there.
pub(crate) fn jumps(code: &[u32], address: u64, to: u64) -> bool
    ensures { IsTrue result ↔ Branches code.now address B to }
{
    match instruction_at(code, address) {
        Some(Inst::B { offset }) => branch_target(address, offset) == to,
        _ => false,
    }
}

/// Whether a BL at `address` leads there.
pub(crate) fn calls(code: &[u32], address: u64, to: u64) -> bool
    ensures { IsTrue result ↔ Branches code.now address Bl to }
{
    match instruction_at(code, address) {
        Some(Inst::Bl { offset }) => branch_target(address, offset) == to,
        _ => false,
    }
}

/// Whether a CBNZ of X9 at `address` leads there.
pub(crate) fn tests_x9(code: &[u32], address: u64, taken: u64) -> bool
    ensures { IsTrue result ↔ Branches code.now address (Cbnz 9) taken }
{
    match instruction_at(code, address) {
        Some(Inst::Cbnz { rt: 9, offset }) => branch_target(address, offset) == taken,
        _ => false,
    }
}

/// Whether a CBNZ or B.cond at `address` skips one instruction.
pub(crate) fn skips_one(code: &[u32], address: u64) -> bool
    ensures { IsTrue result ↔ SkipsOne code.now address }
{
    match instruction_at(code, address) {
        Some(Inst::Cbnz { offset, .. }) => offset == 2,
        Some(Inst::BCond { offset, .. }) => offset == 2,
        _ => false,
    }
}

/// Whether a BRK stands at `address`.
pub(crate) fn breaks(code: &[u32], address: u64) -> bool
    ensures { IsTrue result ↔ ((number : ℕ) × Stands code.now address (Brk number)) }
{
    matches!(instruction_at(code, address), Some(Inst::Brk { .. }))
}
