ghost use Rattle.std.specs.Prelude.{◌≡◌, ◌<◌, ◌≤◌, ℕ, true, Err, IfOk, OnOk};
ghost use Rattle.std.specs.List.{AllZip};
ghost use Rattle.oat_build.specs.{code_limit, IsBlobOf, IsWellFormedCase, has_operation, most_words, IsOperation};
ghost use Rattle.oat_attest.specs.{IsVerdict, subject_of};
ghost use Rattle.oat_build.specs.Built.{program_words};
ghost use Rattle.oat_build.specs.declared.fault.BuildFault.TheVariants.{CodeTooLarge};
ghost use Rattle.oat_device.specs.DeviceRun.{bodies_so_far};
ghost use Rattle.oat_attestation.specs.Attestation.{Attests, TellsRun};

use crate::attested::Attested;
use crate::looking::look_at_case;
use oat_build::{BuildFault, Listed, Shaped, build};
use oat_case::{Bytes, Case, Session};
use oat_check::Checked;
use oat_device::Device;
use oat_device::laws::steps_make_the_run;
use oat_verify::{Verdict, verify};
use std::alloc::{AllocError, Global};

/// The windows of a run that sealed, in their order.
#[derive(Drop)]
struct Windows {
    blobs: Vec<Bytes>,
    verdicts: Vec<Verdict>,
}

/// The blobs that a device gives, and what the owner says of each.
fn judge_windows(
    alloc: Global,
    shaped: &Shaped,
    session: &Session,
    device: &Device<'_>,
) -> Result<Windows, AllocError>
    requires { IsOperation shaped.now.map session.now.op }
    ensures blobs { IfOk result (λ windows. AllZip (λ body bytes. IsBlobOf body device.now.case.session.key bytes) (bodies_so_far device.now) windows.blobs.items) }
    ensures verdicts { IfOk result (λ windows. AllZip (IsVerdict (subject_of shaped.now session.now)) windows.blobs.items windows.verdicts.items) }
{
    let count = device.bodies();
    let mut blobs = Vec::new(alloc);
    let mut verdicts = Vec::new(alloc);
    for serial in 0..count {
        let blob = device.blob(alloc, serial)?;
        verdicts.push(verify(alloc, shaped, session, blob.as_slice())?)?;
        blobs.push(Bytes::from_vec(blob))?;
    }
    Ok(Windows { blobs, verdicts })
}

/// Makes the measured run of a case on an image, and judges its blobs.
fn measure(alloc: Global, shaped: Shaped, case: &Case) -> Result<Attested, AllocError>
    requires well_formed { IsWellFormedCase case.now }
    requires operation { IsOperation shaped.map case.now.session.op }
    ensures same { IfOk result (λ attested. attested.shaped ≡ shaped) }
    ensures tells { IfOk result (λ attested. TellsRun case.now attested) }
{
    steps_make_the_run();
    let mut device = Device::boot(alloc, &shaped, case)?;
    let end = device.run();
    let outputs = Vec::from_slice(alloc, device.outputs())?;
    let windows = judge_windows(alloc, &shaped, &case.session, &device)?;
    drop(device);
    Ok(Attested {
        shaped,
        end,
        outputs: Listed::from_vec(outputs),
        blobs: Listed::from_vec(windows.blobs),
        verdicts: Listed::from_vec(windows.verdicts),
    })
}

/// Builds a program, runs a case on its image, and verifies the blob of each window that sealed, in the case's session.
pub fn attest(alloc: Global, checked: &Checked, case: &Case) -> Result<Attested, BuildFault>
    requires well_formed { IsWellFormedCase case.now }
    requires operation { has_operation checked.now case.now.session.op ≡ true }
    ensures attests { IfOk result (λ attested. Attests checked.now case.now attested) }
    ensures fits { OnOk result (program_words checked.now ≤ code_limit) }
    ensures needed { (words : ℕ) → result ≡ Err (CodeTooLarge words) → words ≡ program_words checked.now }
    ensures too_large { (words : ℕ) → result ≡ Err (CodeTooLarge words) → code_limit < words }
    ensures bounded { (words : ℕ) → result ≡ Err (CodeTooLarge words) → words ≤ most_words checked.now }
{
    look_at_case(case);
    let shaped = build(alloc, checked)?;
    Ok(measure(alloc, shaped, case)?)
}
