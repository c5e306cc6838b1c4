ghost use Rattle.std.specs.Prelude.{◌↔◌, IsTrue, All};
ghost use Rattle.oat_ir.specs.Indices.{HasGlobal, HasFunc, HasLocal, HasBlock, AreArguments, IsInstr, IsTerm};

use crate::args::Args;
use crate::func::{BlockIr, Func};
use crate::instr::{Instr, Term};
use crate::program::Program;

fn has_global(program: &Program, global: u32) -> bool
    ensures { IsTrue result ↔ HasGlobal program.now global }
{
    (global as usize) < program.globals.len()
}

fn has_func(program: &Program, func: u32) -> bool
    ensures { IsTrue result ↔ HasFunc program.now func }
{
    (func as usize) < program.funcs.len()
}

fn has_local(func: &Func, x: u32) -> bool
    ensures { IsTrue result ↔ HasLocal func.now x }
{
    (x as usize) < func.locals.len()
}

fn has_block(func: &Func, block: u32) -> bool
    ensures { IsTrue result ↔ HasBlock func.now block }
{
    (block as usize) < func.blocks.len()
}

fn are_arguments(func: &Func, args: &Args) -> bool
    ensures { IsTrue result ↔ AreArguments func.now args.now }
{
    args.as_slice().iter().all(|x| has_local(func, *x))
}

fn is_instr(program: &Program, func: &Func, instr: &Instr) -> bool
    ensures { IsTrue result ↔ IsInstr program.now func.now instr.now }
{
    match instr {
        Instr::Const { x, .. } | Instr::Input { x } | Instr::Output { x } => has_local(func, *x),
        Instr::Copy { x, y } => has_local(func, *x) && has_local(func, *y),
        Instr::Binary { x, y, z, .. } => {
            has_local(func, *x) && has_local(func, *y) && has_local(func, *z)
        }
        Instr::Load { x, global } => has_local(func, *x) && has_global(program, *global),
        Instr::Store { global, x } => has_global(program, *global) && has_local(func, *x),
        Instr::LoadX { x, array, i } => {
            has_local(func, *x) && has_global(program, *array) && has_local(func, *i)
        }
        Instr::StoreX { array, i, x } => {
            has_global(program, *array) && has_local(func, *i) && has_local(func, *x)
        }
        Instr::RefTo { x, func: callee } => has_local(func, *x) && has_func(program, *callee),
        Instr::Call {
            x,
            func: callee,
            args,
        } => has_local(func, *x) && has_func(program, *callee) && are_arguments(func, args),
        Instr::ICall { x, y, args } => {
            has_local(func, *x) && has_local(func, *y) && are_arguments(func, args)
        }
    }
}

fn is_term(func: &Func, term: &Term) -> bool
    ensures { IsTrue result ↔ IsTerm func.now term.now }
{
    match *term {
        Term::Jump { to } => has_block(func, to),
        Term::Branch { x, first, second } => {
            has_local(func, x) && has_block(func, first) && has_block(func, second)
        }
        Term::Ret { x } => has_local(func, x),
        Term::Halt => true,
    }
}

pub(crate) fn is_block(program: &Program, func: &Func, block: &BlockIr) -> bool
    ensures { IsTrue result ↔ (All (IsInstr program.now func.now) block.now.instrs × IsTerm func.now block.now.term) }
{
    block
        .instrs
        .as_slice()
        .iter()
        .all(|instr| is_instr(program, func, instr))
        && is_term(func, &block.term)
}
