//! Functions that call nothing.

ghost use Rattle.std.specs.Prelude.{◌≡◌};
ghost use Rattle.std.specs.List.{list_any};
ghost use Rattle.oat_globals.specs.{is_calling, is_leaf};

use oat_ir::{BlockIr, Func, Instr};

pub(crate) fn is_leaf(func: &Func) -> bool
    ensures { result ≡ is_leaf func.now }
{
    !some_calls(func.blocks.as_slice())
}

fn some_calls(blocks: &[BlockIr]) -> bool
    ensures { result ≡ list_any (λ block. list_any is_calling block.instrs) blocks.now }
{
    blocks.iter().any(|block| calls(block))
}

fn calls(block: &BlockIr) -> bool
    ensures { result ≡ list_any is_calling block.now.instrs }
{
    let instrs = block.instrs.as_slice();
    instrs.iter().any(|instr| is_calling(instr))
}

fn is_calling(instr: &Instr) -> bool
    ensures { result ≡ is_calling instr.now }
{
    matches!(instr, Instr::Call { .. } | Instr::ICall { .. })
}
