ghost use Rattle.std.specs.Prelude.{◌≡◌, ◌↔◌, ◌<◌, ◌^◌, ◌+◌, IsTrue};
ghost use Rattle.oat_image.specs.{address_of};
ghost use Rattle.oat_a64.specs.Table.{IsInRange};
ghost use Rattle.oat_a64.specs.declared.inst.Inst.TheVariants.{Movz};
ghost use Rattle.oat_shape.specs.Groups.{IsGroup, Stands};
ghost use Rattle.oat_shape.specs.Lowest.{Lowest, EachAt};
ghost use Rattle.oat_shape.specs.Parts.{AreIndices, AreWithin};

use crate::branches::{breaks, calls, jumps, skips_one, tests_x9};
use crate::cells::{define_stands, use_stands};
use crate::code::stands;
use crate::elements::{define_at_stands, use_at_stands};
use crate::lowest::note;
use oat_a64::Inst;
use oat_map::Row;

/// Shape rule S3, of rows: the lowest row whose group doesn't stand whole.
pub(crate) fn lowest_broken_group(code: &[u32], cells: &[u32], rows: &[Row]) -> Option<u64>
    requires within { AreWithin rows.now }
    requires indices { AreIndices cells.now }
    ensures { Lowest (EachAt rows.now (λ k row. address_of row) (λ k row. IsGroup code.now cells.now row)) result }
{
    let mut lowest = None;
    for row in rows {
        lowest = note(lowest, group_stands(code, cells, row), row.address());
    }
    lowest
}

fn group_stands(code: &[u32], cells: &[u32], row: &Row) -> bool
    requires low { address_of row.now < 2 ^ 32 }
    requires indices { AreIndices cells.now }
    ensures { IsTrue result ↔ IsGroup code.now cells.now row.now }
{
    match *row {
        Row::Jump { at, to } => jumps(code, at, to),
        Row::Branch { at, taken, other } => {
            stands(code, at, &Inst::Svc { imm: 3 })
                && tests_x9(code, at + 4, taken)
                && jumps(code, at + 8, other)
        }
        Row::Call { at, to } => calls(code, at, to),
        Row::ICall { at, .. } => pair_stands(code, at, &Inst::Svc { imm: 4 }, &Inst::Blr { rn: 9 }),
        Row::Ret { at } => pair_stands(code, at, &Inst::Svc { imm: 5 }, &Inst::Ret { rn: 30 }),
        Row::Begin { at, op } => pair_stands(code, at, &move_to_x9(op), &Inst::Svc { imm: 1 }),
        Row::End { at, op } => pair_stands(code, at, &move_to_x9(op), &Inst::Svc { imm: 2 }),
        Row::UseCell { at, cell } => use_stands(code, cells, at, cell),
        Row::DefCell { at, cell } => define_stands(code, cells, at, cell),
        Row::UseAt { at, cell, len } => use_at_stands(code, cells, at, cell, len),
        Row::DefAt { at, cell, len } => define_at_stands(code, cells, at, cell, len),
        Row::Check { at } => skips_one(code, at) && breaks(code, at + 4),
    }
}

// MOVZ X9
fn move_to_x9(number: u16) -> Inst
    ensures { result ≡ Movz 9 0 number }
{
    Inst::Movz {
        rd: 9,
        hw: 0,
        imm: number,
    }
}

/// Whether these two instructions stand at the address.
fn pair_stands(code: &[u32], at: u64, first: &Inst, second: &Inst) -> bool
    requires low { at < 2 ^ 32 }
    requires first_fits { IsInRange first.now }
    requires second_fits { IsInRange second.now }
    ensures { IsTrue result ↔ (Stands code.now at first.now × Stands code.now (at + 4) second.now) }
{
    stands(code, at, first) && stands(code, at + 4, second)
}
