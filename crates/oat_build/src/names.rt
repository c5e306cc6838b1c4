//! The names of a program, as its types have them.
ghost use Rattle.oat_match.specs.{IsName, HasValidNames};
ghost use Rattle.oat_build.specs.Naming.{HasNames};

use oat_ir::{BlockIr, Func, Program};

/// Looks at each name, and so knows that it is one.
pub(crate) fn look_at_names(program: &Program)
    ensures { HasValidNames program.now }
{
    for func in program.funcs.as_slice() {
        look_at_function(func);
    }
}

fn look_at_function(func: &Func)
    ensures { HasNames func.now }
{
    let _name = func.name.as_bytes();
    for block in func.blocks.as_slice() {
        look_at_block(block);
    }
}

fn look_at_block(block: &BlockIr)
    ensures { IsName block.now.label }
{
    let _name = block.label.as_bytes();
}
