//! What functions, locals and globals are, as the checking rules ask.

ghost use Rattle.std.specs.Prelude.{◌≡◌, Option, Some, None, slice_get};
ghost use Rattle.std.specs.Option.{option_copied, option_map};
ghost use Rattle.oat_check.specs.Rules.{
  is_main,
  is_operation,
  one_ty,
  are_alike,
  local_ty,
  holds_number,
  hold_numbers,
  refers_with,
  scalar_ty,
  is_array,
  is_as_scalar,
  names_array,
  parameters,
  takes_numbers,
  are_as,
};

use oat_ir::{Func, GlobalItem, Local, Program, Role, Ty};

pub(crate) fn is_main(func: &Func) -> bool
    ensures { result ≡ is_main func.now }
{
    matches!(func.role, Role::Main)
}

pub(crate) fn is_operation(func: &Func) -> bool
    ensures { result ≡ is_operation func.now }
{
    matches!(func.role, Role::Operation(_))
}

fn one_ty(a: Ty, b: Ty) -> bool
    ensures { result ≡ one_ty a b }
{
    match (a, b) {
        (Ty::I64, Ty::I64) => true,
        (Ty::Fn(k), Ty::Fn(l)) => k == l,
        _ => false,
    }
}

/// Whether both have a type, and it is one.
pub(crate) fn are_alike(a: Option<Ty>, b: Option<Ty>) -> bool
    ensures { result ≡ are_alike a b }
{
    match (a, b) {
        (Some(a), Some(b)) => one_ty(a, b),
        _ => false,
    }
}

pub(crate) fn local_ty(func: &Func, x: u32) -> Option<Ty>
    ensures { result ≡ local_ty func.now x }
{
    match func.locals.as_slice().get(x as usize) {
        Some(local) => Some(local.ty),
        None => None,
    }
}

pub(crate) fn holds_number(func: &Func, x: u32) -> bool
    ensures { result ≡ holds_number func.now x }
{
    are_alike(local_ty(func, x), Some(Ty::I64))
}

pub(crate) fn hold_numbers(func: &Func, locals: &[u32]) -> bool
    ensures { result ≡ hold_numbers func.now locals.now }
{
    locals.iter().all(|x| holds_number(func, *x))
}

/// Whether a local has the type fn/K with this K.
pub(crate) fn refers_with(func: &Func, x: u32, params: u8) -> bool
    ensures { result ≡ refers_with func.now x params }
{
    are_alike(local_ty(func, x), Some(Ty::Fn(params)))
}

fn scalar_ty(item: &GlobalItem) -> Option<Ty>
    ensures { result ≡ scalar_ty item.now }
{
    match item {
        GlobalItem::Scalar { .. } => Some(Ty::I64),
        GlobalItem::FnScalar { params, .. } => Some(Ty::Fn(*params)),
        GlobalItem::Array { .. } | GlobalItem::CriticalArray { .. } => None,
    }
}

/// Whether a local has the type of a scalar.
pub(crate) fn is_as_scalar(program: &Program, func: &Func, x: u32, global: u32) -> bool
    ensures { result ≡ is_as_scalar program.now func.now x global }
{
    match program.globals.as_slice().get(global as usize) {
        Some(item) => are_alike(local_ty(func, x), scalar_ty(item)),
        None => false,
    }
}

fn is_array(item: &GlobalItem) -> bool
    ensures { result ≡ is_array item.now }
{
    matches!(
        item,
        GlobalItem::Array { .. } | GlobalItem::CriticalArray { .. }
    )
}

pub(crate) fn names_array(program: &Program, global: u32) -> bool
    ensures { result ≡ names_array program.now global }
{
    match program.globals.as_slice().get(global as usize) {
        Some(item) => is_array(item),
        None => false,
    }
}

/// A function has as many parameters as its number of them says, or all of its locals.
pub(crate) fn parameters(func: &Func) -> &[Local]
    ensures { result.now ≡ parameters func.now }
{
    let locals = func.locals.as_slice();
    match locals.get(..func.params as usize) {
        Some(params) => params,
        None => locals,
    }
}

pub(crate) fn takes_numbers(params: &[Local]) -> bool
    ensures { result ≡ takes_numbers params.now }
{
    params.iter().all(|param| one_ty(param.ty, Ty::I64))
}

/// Whether these locals have the types of the parameters.
pub(crate) fn are_as(func: &Func, locals: &[u32], params: &[Local]) -> bool
    ensures { result ≡ are_as func.now locals.now params.now }
{
    locals
        .iter()
        .zip(params)
        .all(|(x, param)| are_alike(local_ty(func, *x), Some(param.ty)))
}
