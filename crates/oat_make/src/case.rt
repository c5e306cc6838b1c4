ghost use Rattle.std.specs.Prelude.{◌≡◌, ◌++◌, replicate, IfOk};
ghost use Rattle.std.specs.Int.{to_be_bytes, w64};
ghost use Rattle.oat_case.specs.Limits.{IsWellFormedCase};
ghost use Rattle.oat_make.specs.Drill.{drill_inputs, drill_state};
ghost use Rattle.oat_make.specs.Text.{drill_case};

use crate::draws::Draws;
use oat_case::{Case, Session};
use oat_text::Listed;
use std::alloc::{AllocError, Global};

/// Behind the draws of the program's constants.
fn draws_of_inputs(number: u32) -> Draws
    ensures { result.state ≡ drill_state number 17 }
{
    let mut draws = Draws {
        state: u64::from(number),
    };
    for k in 0..17u64 {
        draws.draw();
    }
    draws
}

fn make_inputs(alloc: Global, number: u32) -> Result<Vec<i64>, AllocError>
    ensures { IfOk result (λ inputs. inputs.items ≡ drill_inputs number) }
{
    let mut draws = draws_of_inputs(number);
    let mut inputs = Vec::new(alloc);
    for k in 0..80u64 {
        inputs.push((draws.draw() % 1000) as i64)?;
    }
    Ok(inputs)
}

/// Eight zeros and the number, so that each drill has a session of its own.
fn nonce_of(number: u32) -> [u8; 16]
    ensures { result ≡ replicate 8 0 ++ to_be_bytes w64 number }
{
    let mut nonce = [0; 16];
    nonce[8..].copy_from_slice(&u64::from(number).to_be_bytes());
    nonce
}

fn session_of(alloc: Global, number: u32) -> Result<Session, AllocError>
    ensures { IfOk result (λ session. session ≡ (drill_case number).session) }
{
    let key = Vec::from_array(alloc, [0x4b; 32])?;
    Ok(Session {
        key: Listed::from_vec(key),
        nonce: nonce_of(number),
        op: 1,
        calls: None,
    })
}

/// The drill's case.
pub fn make_case(alloc: Global, number: u32) -> Result<Case, AllocError>
    ensures value { IfOk result (λ case. case ≡ drill_case number) }
    ensures well_formed { IfOk result IsWellFormedCase }
{
    let session = session_of(alloc, number)?;
    let inputs = make_inputs(alloc, number)?;
    Ok(Case {
        session,
        steps: 4_194_304,
        inputs: Listed::from_vec(inputs),
        writes: Listed::from_vec(Vec::new(alloc)),
    })
}
