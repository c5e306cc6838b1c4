ghost use Rattle.std.specs.Prelude.{◌≡◌, ◌↔◌, ◌+◌, ◌<◌, ◌≤◌, ◌^◌, IsTrue, slice_get};
ghost use Rattle.oat_image.specs.{DefCell, UseCell};
ghost use Rattle.oat_a64.specs.{global_address};
ghost use Rattle.oat_shape.specs.Groups.{IsDefineGroup, IsGroup, IsUseGroup, MovesAddress};
ghost use Rattle.oat_shape.specs.Parts.{AreIndices};

use crate::code::stands;
use oat_a64::Inst;
use oat_mem::GLOBAL_BASE;

/// Whether the group of a use of a cell stands at `at`.
pub(crate) fn use_stands(code: &[u32], cells: &[u32], at: u64, cell: u16) -> bool
    requires low { at < 2 ^ 32 }
    requires indices { AreIndices cells.now }
    ensures { IsTrue result ↔ IsGroup code.now cells.now (UseCell at cell) }
{
    match word_of_cell(cells, cell) {
        Some(index) => use_of_word_stands(code, at, cell, index),
        None => false,
    }
}

fn use_of_word_stands(code: &[u32], at: u64, cell: u16, index: u32) -> bool
    requires low { at < 2 ^ 32 }
    requires index { index ≤ 65535 }
    ensures { IsTrue result ↔ IsUseGroup code.now at cell index }
{
    let load = Inst::Ldr {
        rt: 10,
        rn: 11,
        imm: 0,
    };
    let name = Inst::Movz {
        rd: 9,
        hw: 0,
        imm: cell,
    };
    moves_address(code, at, index)
        && stands(code, at + 8, &load)
        && stands(code, at + 12, &name)
        && stands(code, at + 16, &Inst::Svc { imm: 7 })
}

/// Whether the group of a define of a cell stands at `at`.
pub(crate) fn define_stands(code: &[u32], cells: &[u32], at: u64, cell: u16) -> bool
    requires low { at < 2 ^ 32 }
    requires indices { AreIndices cells.now }
    ensures { IsTrue result ↔ IsGroup code.now cells.now (DefCell at cell) }
{
    match word_of_cell(cells, cell) {
        Some(index) => define_of_word_stands(code, at, cell, index),
        None => false,
    }
}

fn define_of_word_stands(code: &[u32], at: u64, cell: u16, index: u32) -> bool
    requires low { at < 2 ^ 32 }
    requires index { index ≤ 65535 }
    ensures { IsTrue result ↔ IsDefineGroup code.now at cell index }
{
    let name = Inst::Movz {
        rd: 9,
        hw: 0,
        imm: cell,
    };
    let store = Inst::Str {
        rt: 10,
        rn: 11,
        imm: 0,
    };
    moves_address(code, at, index)
        && stands(code, at + 8, &name)
        && stands(code, at + 12, &store)
        && stands(code, at + 16, &Inst::Svc { imm: 6 })
}

/// Whether two moves at `at` put the address of a word of global data into X11.
pub(crate) fn moves_address(code: &[u32], at: u64, index: u32) -> bool
    requires low { at < 2 ^ 32 + 64 }
    requires index { index ≤ 65535 }
    ensures { IsTrue result ↔ MovesAddress code.now at (global_address index) }
{
    let address = GLOBAL_BASE + 8 * u64::from(index);
    let low = (address % 0x1_0000) as u16;
    let high = (address / 0x1_0000) as u16;
    stands(
        code,
        at,
        &Inst::Movz {
            rd: 11,
            hw: 0,
            imm: low,
        },
    ) && stands(
        code,
        at + 4,
        &Inst::Movk {
            rd: 11,
            hw: 1,
            imm: high,
        },
    )
}

/// The index of the word of global data that is a cell.
pub(crate) fn word_of_cell(cells: &[u32], cell: u16) -> Option<u32>
    ensures { result ≡ slice_get cells.now cell }
{
    cells.get(cell as usize).copied()
}
