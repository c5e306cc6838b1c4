// Groups of elements of critical arrays.
ghost use Rattle.std.specs.Prelude.{◌≡◌, ◌↔◌, ◌+◌, ◌<◌, ◌≤◌, ◌^◌, ℕ, IsTrue, MatchOption, Some, slice_get};
ghost use Rattle.oat_image.specs.{DefAt, UseAt};
ghost use Rattle.oat_a64.specs.declared.inst.Inst.TheVariants.{AddReg, Movz};
ghost use Rattle.oat_shape.specs.Groups.{AreElements, IsDefineAtGroup, IsGroup, IsUseAtGroup, Stands, TestsElement};
ghost use Rattle.oat_shape.specs.Parts.{AreIndices};

use crate::cells::{moves_address, word_of_cell};
use crate::code::stands;
use oat_a64::Inst;

/// Whether the group of a use of an element stands at `at`.
pub(crate) fn use_at_stands(code: &[u32], cells: &[u32], at: u64, cell: u16, len: u16) -> bool
    requires low { at < 2 ^ 32 }
    requires indices { AreIndices cells.now }
    ensures { IsTrue result ↔ IsGroup code.now cells.now (UseAt at cell len) }
{
    match word_of_array(cells, cell, len) {
        Some(index) => use_of_element_stands(code, at, cell, len, index),
        None => false,
    }
}

fn use_of_element_stands(code: &[u32], at: u64, cell: u16, len: u16, index: u32) -> bool
    requires low { at < 2 ^ 32 }
    requires index { index ≤ 65535 }
    ensures { IsTrue result ↔ IsUseAtGroup code.now at cell len index }
{
    let load = Inst::LdrReg {
        rt: 10,
        rn: 11,
        rm: 12,
    };
    tests_element(code, at, len)
        && moves_address(code, at + 16, index)
        && stands(code, at + 24, &load)
        && names_element(code, at + 28, cell)
        && stands(code, at + 36, &Inst::Svc { imm: 7 })
}

/// Whether the group of a define of an element stands at `at`.
pub(crate) fn define_at_stands(code: &[u32], cells: &[u32], at: u64, cell: u16, len: u16) -> bool
    requires low { at < 2 ^ 32 }
    requires indices { AreIndices cells.now }
    ensures { IsTrue result ↔ IsGroup code.now cells.now (DefAt at cell len) }
{
    match word_of_array(cells, cell, len) {
        Some(index) => define_of_element_stands(code, at, cell, len, index),
        None => false,
    }
}

fn define_of_element_stands(code: &[u32], at: u64, cell: u16, len: u16, index: u32) -> bool
    requires low { at < 2 ^ 32 }
    requires index { index ≤ 65535 }
    ensures { IsTrue result ↔ IsDefineAtGroup code.now at cell len index }
{
    let store = Inst::StrReg {
        rt: 10,
        rn: 11,
        rm: 12,
    };
    tests_element(code, at, len)
        && moves_address(code, at + 16, index)
        && names_element(code, at + 24, cell)
        && stands(code, at + 32, &store)
        && stands(code, at + 36, &Inst::Svc { imm: 6 })
}

// Whether the number in X12 is tested against a length at `at`.
fn tests_element(code: &[u32], at: u64, len: u16) -> bool
    requires low { at < 2 ^ 32 }
    ensures { IsTrue result ↔ TestsElement code.now at len }
{
    let length = Inst::Movz {
        rd: 11,
        hw: 0,
        imm: len,
    };
    let test = Inst::SubsReg {
        rd: 31,
        rn: 12,
        rm: 11,
    };
    let skip = Inst::BCond { cond: 3, offset: 2 };
    stands(code, at, &length)
        && stands(code, at + 4, &test)
        && stands(code, at + 8, &skip)
        && stands(code, at + 12, &Inst::Brk { imm: 2 })
}

// Whether two instructions at `at` put the number of an element's cell into X9.
fn names_element(code: &[u32], at: u64, cell: u16) -> bool
    requires low { at < 2 ^ 32 + 64 }
    ensures { IsTrue result ↔ (Stands code.now at (Movz 9 0 cell) × Stands code.now (at + 4) (AddReg 9 9 12 0)) }
{
    let first = Inst::Movz {
        rd: 9,
        hw: 0,
        imm: cell,
    };
    let sum = Inst::AddReg {
        rd: 9,
        rn: 9,
        rm: 12,
        amount: 0,
    };
    stands(code, at, &first) && stands(code, at + 4, &sum)
}

// The word of an array's first cell, where the array's cells are there with consecutive words.
fn word_of_array(cells: &[u32], cell: u16, len: u16) -> Option<u32>
    requires indices { AreIndices cells.now }
    ensures { MatchOption result ((index : ℕ) → AreElements cells.now cell len index → ⊥) (λ index. AreElements cells.now cell len index) }
{
    let index = word_of_cell(cells, cell)?;
    if are_elements(cells, cell, len, index) {
        Some(index)
    } else {
        None
    }
}

// Whether the cells of an array are there, with consecutive words from the first one's on.
fn are_elements(cells: &[u32], cell: u16, len: u16, index: u32) -> bool
    requires indices { AreIndices cells.now }
    requires first { slice_get cells.now cell ≡ Some index }
    ensures { IsTrue result ↔ AreElements cells.now cell len index }
{
    let first = usize::from(cell);
    let Some(words) = cells.get(first..first + usize::from(len)) else {
        return false;
    };
    words.iter().enumerate().all(|(element, word)| *word as usize == index as usize + element)
}
