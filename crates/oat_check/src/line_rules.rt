//! The checking rules on one line of a function.

ghost use Rattle.std.specs.Prelude.{◌≡◌, ◌≤◌, ◌&&◌, length};
ghost use Rattle.oat_ir.specs.declared.instr.Instr.TheVariants.{RefTo};
ghost use Rattle.oat_check.specs.Lines.{instruction, terminator};
ghost use Rattle.oat_check.specs.Rules.{
  broken_by,
  is_func,
  are_as,
  parameters,
  refers_with,
  hold_numbers,
  calls_main,
  calls_operation,
  is_no_target,
  refers_amiss,
  refers_without,
  counts_amiss,
  has_types,
  returns_from_main,
};

use crate::fault::CheckKind;
use crate::types::{
    are_alike, are_as, hold_numbers, holds_number, is_as_scalar, is_main, is_operation, local_ty,
    names_array, parameters, refers_with, takes_numbers,
};
use oat_ir::{Func, Instr, Program, Term, Ty};

fn calls_main(program: &Program, instr: &Instr) -> bool
    ensures { result ≡ calls_main program.now (instruction instr.now) }
{
    match instr {
        Instr::Call { func, .. } => match program.funcs.as_slice().get(*func as usize) {
            Some(callee) => is_main(callee),
            None => false,
        },
        _ => false,
    }
}

fn calls_operation(program: &Program, func: &Func, instr: &Instr) -> bool
    ensures { result ≡ calls_operation program.now func.now (instruction instr.now) }
{
    match instr {
        Instr::Call { func: called, .. } => match program.funcs.as_slice().get(*called as usize) {
            Some(callee) => is_operation(callee) && !is_main(func),
            None => false,
        },
        _ => false,
    }
}

fn is_no_target(callee: &Func) -> bool
    ensures { result ≡ is_no_target callee.now }
{
    is_main(callee) || is_operation(callee) || !takes_numbers(parameters(callee))
}

fn refers_amiss(program: &Program, instr: &Instr) -> bool
    ensures { result ≡ refers_amiss program.now (instruction instr.now) }
{
    match instr {
        Instr::RefTo { func, .. } => match program.funcs.as_slice().get(*func as usize) {
            Some(callee) => is_no_target(callee),
            None => false,
        },
        _ => false,
    }
}

fn refers_without(ty: Option<Ty>, count: usize) -> bool
    ensures { result ≡ refers_without ty count }
{
    match ty {
        Some(Ty::Fn(params)) => params as usize != count,
        _ => false,
    }
}

fn counts_amiss(program: &Program, func: &Func, instr: &Instr) -> bool
    ensures { result ≡ counts_amiss program.now func.now (instruction instr.now) }
{
    match instr {
        Instr::Call {
            func: called,
            args,
            ..
        } => match program.funcs.as_slice().get(*called as usize) {
            Some(callee) => args.as_slice().len() != callee.params as usize,
            None => false,
        },
        Instr::ICall { y, args, .. } => refers_without(local_ty(func, *y), args.as_slice().len()),
        _ => false,
    }
}

fn has_reference(program: &Program, func: &Func, x: u32, target: u32) -> bool
    ensures { result ≡ has_types program.now func.now (instruction (RefTo x target)) }
{
    match program.funcs.as_slice().get(target as usize) {
        Some(callee) => refers_with(func, x, callee.params),
        None => false,
    }
}

fn has_arguments(program: &Program, func: &Func, called: u32, args: &[u32]) -> bool
    ensures { result ≡ is_func program.now (λ callee. are_as func.now args.now (parameters callee)) called }
{
    match program.funcs.as_slice().get(called as usize) {
        Some(callee) => are_as(func, args, parameters(callee)),
        None => false,
    }
}

fn has_reference_arguments(func: &Func, y: u32, args: &[u32]) -> bool
    requires { length args.now ≤ 4 }
    ensures { result ≡ (refers_with func.now y (length args.now) && hold_numbers func.now args.now) }
{
    refers_with(func, y, args.len() as u8) && hold_numbers(func, args)
}

/// Whether the operands of an instruction have the types that it asks for.
fn instr_has_types(program: &Program, func: &Func, instr: &Instr) -> bool
    ensures { result ≡ has_types program.now func.now (instruction instr.now) }
{
    match instr {
        Instr::Const { x, .. } | Instr::Input { x } | Instr::Output { x } => holds_number(func, *x),
        Instr::Copy { x, y } => are_alike(local_ty(func, *x), local_ty(func, *y)),
        Instr::Binary { x, y, z, .. } => {
            holds_number(func, *x) && holds_number(func, *y) && holds_number(func, *z)
        }
        Instr::Load { x, global } | Instr::Store { global, x } => {
            is_as_scalar(program, func, *x, *global)
        }
        Instr::LoadX { x, array, i } => {
            holds_number(func, *x) && names_array(program, *array) && holds_number(func, *i)
        }
        Instr::StoreX { array, i, x } => {
            names_array(program, *array) && holds_number(func, *i) && holds_number(func, *x)
        }
        Instr::RefTo { x, func: target } => has_reference(program, func, *x, *target),
        Instr::Call {
            x,
            func: called,
            args,
        } => holds_number(func, *x) && has_arguments(program, func, *called, args.as_slice()),
        Instr::ICall { x, y, args } => {
            holds_number(func, *x) && has_reference_arguments(func, *y, args.as_slice())
        }
    }
}

/// The first rule that an instruction breaks.
pub(crate) fn broken_by_instr(program: &Program, func: &Func, instr: &Instr) -> Option<CheckKind>
    ensures { result ≡ broken_by program.now func.now (instruction instr.now) }
{
    if calls_main(program, instr) {
        Some(CheckKind::CallsMain)
    } else if calls_operation(program, func, instr) {
        Some(CheckKind::OperationCall)
    } else if refers_amiss(program, instr) {
        Some(CheckKind::RefKind)
    } else if counts_amiss(program, func, instr) {
        Some(CheckKind::Arity)
    } else if !instr_has_types(program, func, instr) {
        Some(CheckKind::Kind)
    } else {
        None
    }
}

/// The first rule that a terminator breaks.
pub(crate) fn broken_by_term(program: &Program, func: &Func, term: Term) -> Option<CheckKind>
    ensures { result ≡ broken_by program.now func.now (terminator term) }
{
    match term {
        Term::Branch { x, .. } if !holds_number(func, x) => Some(CheckKind::Kind),
        Term::Ret { x } if !holds_number(func, x) => Some(CheckKind::Kind),
        Term::Ret { .. } if is_main(func) => Some(CheckKind::MainRet),
        _ => None,
    }
}
