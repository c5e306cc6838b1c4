ghost use Rattle.std.specs.Prelude.{◌≡◌};
ghost use Rattle.oat_ir.specs.Distinct.{global_name};

use crate::func::Func;
use oat_map::{Listed, Name};

/// A program of the source language.
///
/// Globals, functions, locals of a function, and blocks of a function are named by their indices, from 0.
#[derive(Drop)]
pub struct Program {
    pub globals: Listed<GlobalItem>,
    pub funcs: Listed<Func>,
}

/// A variable of the whole program.
///
/// The cells are numbered from 0 in the order of the globals: a critical scalar takes one number, and a
/// critical array one for each of its elements.
#[derive(Drop)]
pub enum GlobalItem {
    /// A number and what it is at the start. A critical one is a cell.
    Scalar {
        name: Name,
        start: i64,
        critical: bool,
    },
    /// A reference of a function with so many parameters, null at the start.
    FnScalar {
        name: Name,
        params: u8,
    },
    /// So many numbers, 0 at the start.
    Array {
        name: Name,
        len: u32,
    },
    /// So many numbers, 0 at the start, each of which is a cell.
    CriticalArray {
        name: Name,
        len: u32,
    },
}

impl GlobalItem {
    pub fn name(&self) -> &Name
        ensures { result.now ≡ global_name self.now }
    {
        match self {
            GlobalItem::Scalar { name, .. }
            | GlobalItem::FnScalar { name, .. }
            | GlobalItem::Array { name, .. }
            | GlobalItem::CriticalArray { name, .. } => name,
        }
    }
}
