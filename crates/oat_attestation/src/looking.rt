//! What the types of a case say of its numbers, for contracts that speak of all of them.
ghost use Rattle.std.specs.Prelude.{◌<◌, FitsSigned};
ghost use Rattle.std.specs.Int.{w64};
ghost use Rattle.std.specs.List.{All};
ghost use Rattle.oat_build.specs.{IsWellFormedCase, AreGiven};

use oat_case::laws::writes_can_be_made;
use oat_case::{Case, Write};

/// The inputs and writes of a case can be given to a run.
pub(crate) fn look_at_case(case: &Case)
    requires { IsWellFormedCase case.now }
    ensures { AreGiven case.now.inputs case.now.writes }
{
    look_at_inputs(case.inputs.as_slice());
    look_at_writes(case.writes.as_slice());
    writes_can_be_made();
}

fn look_at_inputs(inputs: &[i64])
    ensures { All (FitsSigned w64) inputs.now }
{
    for input in inputs {
        look_at_input(*input);
    }
}

fn look_at_input(input: i64)
    ensures { FitsSigned w64 input }
{}

fn look_at_writes(writes: &[Write])
    ensures { All (λ write. All (λ byte. byte < 256) write.bytes) writes.now }
{
    for write in writes {
        look_at_bytes(write.bytes.as_slice());
    }
}

fn look_at_bytes(bytes: &[u8])
    ensures { All (λ byte. byte < 256) bytes.now }
{}
