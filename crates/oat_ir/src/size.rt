//! How large a program is. It is counted against a room for it, so that no sum is too large.

ghost use Rattle.std.specs.Prelude.{ℕ, ◌↔◌, ◌≤◌, ◌+◌, IsTrue, length, Option};
ghost use Rattle.std.specs.List.{sum_by};
ghost use Rattle.oat_ir.specs.Size.{block_size, func_size, program_size, Leaves};

use crate::func::{BlockIr, Func};
use crate::program::Program;

const MOST_THINGS: u64 = 67_108_864;

/// What takes room.
trait Counted {
    ghost size: { Self → ℕ };

    /// What is left of the room behind it; None where there is too little.
    fn room_behind(&self, room: u64) -> Option<u64>
        ensures { Leaves room (size self.now) result };
}

fn room_behind_all<C: Counted>(room: u64, items: &[C]) -> Option<u64>
    ensures { Leaves room (sum_by C.size items.now) result }
{
    let mut left = room;
    for item in items {
        left = item.room_behind(left)?;
    }
    Some(left)
}

impl Counted for BlockIr {
    ghost size = { block_size };

    fn room_behind(&self, room: u64) -> Option<u64> {
        room.checked_sub(2)?.checked_sub(self.instrs.len() as u64)
    }
}

impl Counted for Func {
    ghost size = { func_size };

    fn room_behind(&self, room: u64) -> Option<u64> {
        let left = room.checked_sub(1)?;
        let left = left.checked_sub(self.locals.len() as u64)?;
        room_behind_all(left, self.blocks.as_slice())
    }
}

fn room_behind(program: &Program) -> Option<u64>
    ensures { Leaves 67108864 (program_size program.now) result }
{
    let left = MOST_THINGS.checked_sub(program.globals.len() as u64)?;
    room_behind_all(left, program.funcs.as_slice())
}

/// Whether the globals, functions, locals, blocks, instructions and terminators are at most 67,108,864.
pub(crate) fn has_room(program: &Program) -> bool
    ensures { IsTrue result ↔ (program_size program.now ≤ 67108864) }
{
    room_behind(program).is_some()
}
