//! Which functions a `ref` names.
ghost use Rattle.std.specs.Prelude.{◌≡◌, ◌<◌, ◌||◌, ℕ, IfOk, false, get_or, length};
ghost use Rattle.std.specs.List.{list_any};
ghost use Rattle.oat_match.specs.{is_referenced, refers_to};

use oat_ir::{BlockIr, Func, Instr, Program};
use std::alloc::{AllocError, Global};

/// Of each function, whether a `ref` of the program names it.
pub(crate) fn references(alloc: Global, program: &Program) -> Result<Vec<bool>, AllocError>
    ensures len { IfOk result (λ flags. length flags.items ≡ length program.now.funcs) }
    ensures flags { IfOk result (λ flags. (f : ℕ) → f < length program.now.funcs → get_or flags.items f false ≡ is_referenced program.now f) }
{
    let funcs = program.funcs.as_slice();
    let mut flags = Vec::from_elem(alloc, false, funcs.len())?;
    for func in funcs {
        note_in_func(&mut flags, func);
    }
    Ok(flags)
}

fn note_in_func(flags: &mut Vec<bool>, func: &Func)
    ensures len { length flags.new.items ≡ length flags.old.items }
    ensures noted { (f : ℕ) → f < length flags.old.items → get_or flags.new.items f false ≡ (get_or flags.old.items f false || list_any (λ block. list_any (refers_to f) block.instrs) func.now.blocks) }
{
    for block in func.blocks.as_slice() {
        note_in_block(flags, block);
    }
}

fn note_in_block(flags: &mut Vec<bool>, block: &BlockIr)
    ensures len { length flags.new.items ≡ length flags.old.items }
    ensures noted { (f : ℕ) → f < length flags.old.items → get_or flags.new.items f false ≡ (get_or flags.old.items f false || list_any (refers_to f) block.now.instrs) }
{
    for instr in block.instrs.as_slice() {
        note_in_instr(flags, instr);
    }
}

fn note_in_instr(flags: &mut Vec<bool>, instr: &Instr)
    ensures len { length flags.new.items ≡ length flags.old.items }
    ensures noted { (f : ℕ) → f < length flags.old.items → get_or flags.new.items f false ≡ (get_or flags.old.items f false || refers_to f instr.now) }
{
    if let Instr::RefTo { func, .. } = instr {
        let func = *func as usize;
        if func < flags.len() {
            flags[func] = true;
        }
    }
}
