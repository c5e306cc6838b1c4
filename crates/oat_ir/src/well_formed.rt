ghost use Rattle.std.specs.Prelude.{◌↔◌, IsTrue};
ghost use Rattle.oat_ir.specs.WellFormed.{IsGlobal, IsTy, IsLocal, IsRole, IsFunc, IsProgram};

use crate::distinct::{BlockLabel, FuncName, GlobalName, LocalName, OperationId, are_distinct};
use crate::func::{Func, Local, Role, Ty};
use crate::indices::is_block;
use crate::program::{GlobalItem, Program};
use crate::size::has_room;

fn is_global(global: &GlobalItem) -> bool
    ensures { IsTrue result ↔ IsGlobal global.now }
{
    match global {
        GlobalItem::Scalar { .. } => true,
        GlobalItem::FnScalar { params, .. } => *params <= 4,
        GlobalItem::Array { len, .. } => 1 <= *len && *len <= 65_536,
        GlobalItem::CriticalArray { len, .. } => 1 <= *len && *len <= 4096,
    }
}

fn is_ty(ty: Ty) -> bool
    ensures { IsTrue result ↔ IsTy ty }
{
    match ty {
        Ty::I64 => true,
        Ty::Fn(params) => params <= 4,
    }
}

fn is_local(local: &Local) -> bool
    ensures { IsTrue result ↔ IsLocal local.now }
{
    is_ty(local.ty)
}

fn is_role(func: &Func) -> bool
    ensures { IsTrue result ↔ IsRole func.now.role func.now }
{
    match func.role {
        Role::Plain => true,
        Role::Operation(id) => 1 <= id,
        Role::Main => func.name.as_bytes() == b"main".as_slice() && func.params == 0,
    }
}

fn is_func(program: &Program, func: &Func) -> bool
    ensures { IsTrue result ↔ IsFunc program.now func.now }
{
    is_role(func)
        && func.params <= 4
        && func.params as usize <= func.locals.len()
        && func.locals.as_slice().iter().all(|local| is_local(local))
        && are_distinct::<LocalName>(func.locals.as_slice())
        && !func.blocks.is_empty()
        && are_distinct::<BlockLabel>(func.blocks.as_slice())
        && func
            .blocks
            .as_slice()
            .iter()
            .all(|block| is_block(program, func, block))
}

impl Program {
    /// Whether these values are a program: its indices name something, its names and the numbers
    /// of its operations are told apart, and its numbers are in the ranges of the program text.
    ///
    /// No memory is taken, so names are compared in pairs: the time grows with the square of
    /// the number of globals, functions, locals of a function, or blocks of a function.
    pub fn well_formed(&self) -> bool
        ensures { IsTrue result ↔ IsProgram self.now }
    {
        self.globals
            .as_slice()
            .iter()
            .all(|global| is_global(global))
            && are_distinct::<GlobalName>(self.globals.as_slice())
            && self.funcs.as_slice().iter().all(|func| is_func(self, func))
            && are_distinct::<FuncName>(self.funcs.as_slice())
            && are_distinct::<OperationId>(self.funcs.as_slice())
            && has_room(self)
    }
}
