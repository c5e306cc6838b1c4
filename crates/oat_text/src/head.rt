//! What the lines of a function declare.

use crate::table::Table;
use oat_ir::{Local, Role};
use oat_map::Name;
use std::alloc::Global;

/// Where in the text a line stands.
#[derive(Clone, Copy)]
pub enum Stage {
    /// Outside functions.
    Outside,
    /// Among the locals of a function.
    Locals,
    /// Among the instructions of a block.
    Inside,
    /// Behind a terminator.
    Behind,
}

/// A function without its blocks.
#[derive(Drop)]
pub struct Head {
    pub role: Role,
    pub params: u8,
    pub locals: Table<Local>,
    pub labels: Table<Name>,
}

impl Head {
    ghost use Rattle.std.specs.Prelude.{◌≡◌};
    ghost use Rattle.oat_text.specs.Outline.{no_head};

    /// A function that declares nothing.
    pub fn new(alloc: Global) -> Head
        ensures { result ≡ no_head }
    {
        Head {
            role: Role::Plain,
            params: 0,
            locals: Table::new(alloc),
            labels: Table::new(alloc),
        }
    }
}
