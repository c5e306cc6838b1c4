//! Lines and functions of a program, by their numbers.
ghost use Rattle.std.specs.Prelude.{◌≡◌, ◌<◌, ◌^◌, length};
ghost use Rattle.std.specs.Option.{option_map};
ghost use Rattle.oat_check.specs.Rules.{is_main};
ghost use Rattle.oat_check.specs.Runs.{main_number};
ghost use Rattle.oat_check.specs.Steps.{current_line, operation_of, result_at};
ghost use Rattle.oat_meaning.specs.Activations.{current_block, frame_of};

use crate::activation::Activation;
use oat_ir::{BlockIr, Func, Instr, Program, Role};

/// The block in which an activation stands.
pub fn current_block<'a>(program: &'a Program, activation: &Activation) -> Option<&'a BlockIr>
    ensures { option_map (λ block. block.now) result ≡ current_block program.now activation.now }
{
    let func = program.funcs.as_slice().get(activation.func as usize)?;
    func.blocks.as_slice().get(activation.block as usize)
}

/// The local into which the call goes at which an activation waits; 0 where there is no call.
pub fn result_at(program: &Program, activation: &Activation) -> u32
    ensures { result ≡ result_at (current_line program.now (frame_of activation.now)) }
{
    let Some(block) = current_block(program, activation) else {
        return 0;
    };
    match block.instrs.as_slice().get(activation.line as usize) {
        Some(Instr::Call { x, .. } | Instr::ICall { x, .. }) => *x,
        _ => 0,
    }
}

/// The number of the operation that a function is, if it is one.
pub fn operation_of(program: &Program, func: u32) -> Option<u16>
    ensures { result ≡ operation_of program.now func }
{
    match program.funcs.as_slice().get(func as usize)?.role {
        Role::Operation(op) => Some(op),
        _ => None,
    }
}

fn is_main(func: &Func) -> bool
    ensures { result ≡ is_main func.now }
{
    matches!(func.role, Role::Main)
}

/// The number of the main function.
pub fn main_number(program: &Program) -> u32
    requires { length program.now.funcs < 2 ^ 32 }
    ensures { result ≡ main_number program.now.funcs }
{
    for (number, func) in program.funcs.as_slice().iter().enumerate() {
        if is_main(func) {
            return number as u32;
        }
    }
    program.funcs.len() as u32
}
