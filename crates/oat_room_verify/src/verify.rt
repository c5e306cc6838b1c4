ghost use Rattle.std.specs.Prelude.{◌≡◌, ◌≢◌, ◌<◌, ◌⊎◌, map, MatchResult, ◌∷◌, []};
ghost use Rattle.oat_shown.specs.{Rose, IsOperation, subject_of, IsAnswered, blob_limit, case_limit, image_limit, put_of, Shows, StopsWith};
ghost use Rattle.oat_inputs.specs.BlobText.{AreDigits};
ghost use Rattle.oat_room_verify.specs.Settles.{ShowsOnDigits};
ghost use Rattle.oat_room_verify.specs.Verify.{Concludes, IsOpened, Verifies};

use crate::feeding::settle;
use crate::report::{ended, put_report};
use oat_inputs::admit::{Admitted, admit};
use oat_inputs::digits_of;
use oat_page::{File, Stop, close, say_starved, say_stop};
use oat_shape::Shaped;
use oat_shown::Sink;
use oat_verify::Session;
use std::alloc::Global;

/// What is judged: an image and a case that are admitted, and the digits of a blob.
#[derive(Drop)]
struct Opened<'a> {
    admitted: Admitted,
    digits: &'a [u8],
}

/// Looks at the three files before the verdict.
fn open_files(alloc: Global, files: &[File]) -> Result<Opened<'_>, Stop>
    requires { map (λ file. file.limit) files.now ≡ image_limit ∷ case_limit ∷ blob_limit ∷ [] }
    ensures { MatchResult result (λ opened. IsOpened files.now opened.admitted.shaped opened.admitted.case opened.digits.now) (StopsWith (Verifies files.now)) }
{
    let image = &files[0];
    let case = &files[1];
    let blob = &files[2];
    let admitted = admit(alloc, image, case)?;
    let digits = digits_of(alloc, blob)?;
    Ok(Opened { admitted, digits })
}

/// Puts the report of the verdict on the bytes of a blob's digits, and answers the status.
fn conclude<O: Sink, E: Sink>(
    alloc: Global,
    shaped: &Shaped,
    session: &Session,
    digits: &[u8],
    out: &mut O,
    err: &mut E,
) -> u8
    requires operation { IsOperation shaped.now.map session.now.op }
    requires digits { AreDigits digits.now }
    ensures shows { ShowsOnDigits digits.now (Concludes (subject_of shaped.now session.now))
        (put_of O.told O.faults out.old out.new) (put_of E.told E.faults err.old err.new) result }
    ensures write_fault { result ≡ 5 → Rose (O.faults out.old) (O.faults out.new) ⊎ Rose (E.faults err.old) (E.faults err.new) }
    ensures raised { (O.faults out.old < O.faults out.new) ⊎ (E.faults err.old < E.faults err.new) → result ≡ 5 }
    ensures no_fault { result ≢ 4 }
{
    match settle(alloc, shaped, session, digits) {
        Ok(settled) => {
            let put = put_report(alloc, out, shaped, session.op, &settled);
            close(put, ended(settled.verdict), b"", err)
        }
        Err(_) => say_starved(err),
    }
}

/// Judges the blob of the third file against the image and the case of the first two, and answers the status.
pub fn verify<O: Sink, E: Sink>(alloc: Global, files: &[File], out: &mut O, err: &mut E) -> u8
    requires { map (λ file. file.limit) files.now ≡ image_limit ∷ case_limit ∷ blob_limit ∷ [] }
    ensures shows { Shows (IsAnswered (Verifies files.now)) (put_of O.told O.faults out.old out.new) (put_of E.told E.faults err.old err.new) result }
    ensures write_fault { result ≡ 5 → Rose (O.faults out.old) (O.faults out.new) ⊎ Rose (E.faults err.old) (E.faults err.new) }
    ensures raised { (O.faults out.old < O.faults out.new) ⊎ (E.faults err.old < E.faults err.new) → result ≡ 5 }
    ensures no_fault { result ≢ 4 }
{
    match open_files(alloc, files) {
        Ok(opened) => {
            let Admitted { shaped, case } = opened.admitted;
            conclude(alloc, &shaped, &case.session, opened.digits, out, err)
        }
        Err(stop) => say_stop(&stop, err),
    }
}
