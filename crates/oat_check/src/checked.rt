ghost use Rattle.std.specs.Prelude.{◌≡◌, IfOk, IfErr, Some};
ghost use Rattle.oat_ir.specs.WellFormed.{IsProgram};
ghost use Rattle.oat_check.specs.Rules.{IsChecked, first_fault, has_operation, is_operation_of};

use crate::fault::CheckRefusal;
use crate::first_fault::first_fault;
use oat_ir::{Func, Program, Role};
use std::marker::Model;

/// A program that keeps all checking rules.
///
/// Contracts see it as the program.
#[derive(Drop)]
pub struct Checked {
    program: Program,
}

impl Model for Checked {
    ghost use Rattle.oat_ir.specs.declared.program.Program.{Program};
    ghost use Rattle.oat_check.specs.Rules.{IsChecked};

    ghost Value = { Program };

    ghost view = { λ checked. checked.program };

    ghost invariant = { λ checked. IsChecked checked.program };
}

/// Takes a program that keeps all checking rules, and hands any other back with the first rule
/// that it breaks. It takes no memory.
pub fn check(program: Program) -> Result<Checked, CheckRefusal>
    requires { IsProgram program }
    ensures same { IfOk result (λ checked. checked ≡ program) }
    ensures checked { IfOk result (λ checked. IsChecked checked) }
    ensures handed_back { IfErr result (λ refusal. refusal.program ≡ program) }
    ensures fault { IfErr result (λ refusal. first_fault refusal.program ≡ Some refusal.fault) }
{
    match first_fault(&program) {
        None => Ok(Checked { program }),
        Some(fault) => Err(CheckRefusal { program, fault }),
    }
}

fn is_operation_of(op: u16, func: &Func) -> bool
    ensures { result ≡ is_operation_of op func.now.role }
{
    matches!(func.role, Role::Operation(id) if id == op)
}

impl Checked {
    pub fn program(&self) -> &Program
        ensures same { result.now ≡ self.now }
        ensures checked { IsChecked self.now }
    {
        &self.program
    }

    /// Whether the program has an operation with this number.
    pub fn has_operation(&self, op: u16) -> bool
        ensures { result ≡ has_operation self.now op }
    {
        self.program
            .funcs
            .as_slice()
            .iter()
            .any(|func| is_operation_of(op, func))
    }
}
