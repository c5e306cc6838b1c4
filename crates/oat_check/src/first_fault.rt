//! The first rule that a program breaks, and where.

ghost use Rattle.std.specs.Prelude.{◌≡◌, ◌<◌, ◌^◌, length};
ghost use Rattle.std.specs.List.{list_any, sum_by};
ghost use Rattle.oat_ir.specs.Size.{Leaves};
ghost use Rattle.oat_ir.specs.WellFormed.{IsProgram};
ghost use Rattle.oat_check.specs.Globals.{size_in_words};
ghost use Rattle.oat_check.specs.Lines.{instruction};
ghost use Rattle.oat_check.specs.Places.{HasBlocks, HasFuncs, HasLines};
ghost use Rattle.oat_check.specs.Rules.{
  fault_at,
  fault_in_line,
  fault_in_block,
  fault_in_func,
  first_fault,
  first_in,
  is_main,
  is_ret,
  never_ends,
};

use crate::fault::{CheckFault, CheckKind};
use crate::line_rules::{broken_by_instr, broken_by_term};
use crate::types::{is_main, is_operation};
use oat_ir::{BlockIr, Func, GlobalItem, Instr, Program, Term};

const MOST_WORDS: u32 = 65_536;

const MOST_LOCALS: usize = 255;

fn fault_at(func: u32, block: u32, place: u32, kind: CheckKind) -> CheckFault
    ensures { result ≡ fault_at func block place kind }
{
    CheckFault::At {
        kind,
        func,
        block,
        place,
    }
}

fn fault_in_instrs(
    program: &Program,
    number: u32,
    func: &Func,
    block: u32,
    instrs: &[Instr],
) -> Option<CheckFault>
    requires { length instrs.now < 2 ^ 32 }
    ensures { result ≡ first_in (λ place i. fault_in_line program.now func.now number block place (instruction i)) 0 instrs.now }
{
    for (place, instr) in instrs.iter().enumerate() {
        if let Some(kind) = broken_by_instr(program, func, instr) {
            return Some(fault_at(number, block, place as u32, kind));
        }
    }
    None
}

fn fault_in_block(
    program: &Program,
    number: u32,
    func: &Func,
    block: u32,
    code: &BlockIr,
) -> Option<CheckFault>
    requires { HasLines code.now }
    ensures { result ≡ fault_in_block program.now func.now number block code.now }
{
    let instrs = code.instrs.as_slice();
    if let Some(fault) = fault_in_instrs(program, number, func, block, instrs) {
        return Some(fault);
    }
    let kind = broken_by_term(program, func, code.term)?;
    Some(fault_at(number, block, instrs.len() as u32, kind))
}

fn fault_in_blocks(program: &Program, number: u32, func: &Func) -> Option<CheckFault>
    requires { HasBlocks func.now }
    ensures { result ≡ first_in (fault_in_block program.now func.now number) 0 func.now.blocks }
{
    for (block, code) in func.blocks.as_slice().iter().enumerate() {
        if let Some(fault) = fault_in_block(program, number, func, block as u32, code) {
            return Some(fault);
        }
    }
    None
}

fn is_ret(block: &BlockIr) -> bool
    ensures { result ≡ is_ret block.now.term }
{
    matches!(block.term, Term::Ret { .. })
}

fn has_ret(blocks: &[BlockIr]) -> bool
    ensures { result ≡ list_any (λ b. is_ret b.term) blocks.now }
{
    blocks.iter().any(|block| is_ret(block))
}

/// Whether it is an operation without a return.
fn never_ends(func: &Func) -> bool
    ensures { result ≡ never_ends func.now }
{
    is_operation(func) && !has_ret(func.blocks.as_slice())
}

fn fault_in_func(program: &Program, number: u32, func: &Func) -> Option<CheckFault>
    requires { HasBlocks func.now }
    ensures { result ≡ fault_in_func program.now number func.now }
{
    if func.locals.len() > MOST_LOCALS {
        return Some(fault_at(number, 0, 0, CheckKind::Locals));
    }
    if let Some(fault) = fault_in_blocks(program, number, func) {
        return Some(fault);
    }
    if never_ends(func) {
        return Some(fault_at(number, 0, 0, CheckKind::NoEnd));
    }
    None
}

fn fault_in_funcs(program: &Program) -> Option<CheckFault>
    requires { HasFuncs program.now }
    ensures { result ≡ first_in (fault_in_func program.now) 0 program.now.funcs }
{
    for (number, func) in program.funcs.as_slice().iter().enumerate() {
        if let Some(fault) = fault_in_func(program, number as u32, func) {
            return Some(fault);
        }
    }
    None
}

fn has_main(funcs: &[Func]) -> bool
    ensures { result ≡ list_any is_main funcs.now }
{
    funcs.iter().any(|func| is_main(func))
}

fn size_in_words(global: &GlobalItem) -> u32
    ensures { result ≡ size_in_words global.now }
{
    match global {
        GlobalItem::Scalar { .. } | GlobalItem::FnScalar { .. } => 1,
        GlobalItem::Array { len, .. } | GlobalItem::CriticalArray { len, .. } => *len,
    }
}

/// How many words are left behind the globals; None where there are too few.
fn words_left(globals: &[GlobalItem]) -> Option<u32>
    ensures { Leaves 65536 (sum_by size_in_words globals.now) result }
{
    let mut left = MOST_WORDS;
    for global in globals {
        left = left.checked_sub(size_in_words(global))?;
    }
    Some(left)
}

/// The first rule that the program breaks, in the order of the rules.
pub(crate) fn first_fault(program: &Program) -> Option<CheckFault>
    requires { IsProgram program.now }
    ensures { result ≡ first_fault program.now }
{
    if !has_main(program.funcs.as_slice()) {
        return Some(fault_at(0, 0, 0, CheckKind::NoMain));
    }
    if words_left(program.globals.as_slice()).is_none() {
        return Some(fault_at(0, 0, 0, CheckKind::GlobalWords));
    }
    fault_in_funcs(program)
}
