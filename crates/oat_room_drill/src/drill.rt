ghost use Rattle.std.specs.Prelude.{◌≡◌, ◌≤◌, true, length, slice_get, IfOk, Some};
ghost use Rattle.oat_build.specs.{Program, most_words, IsChecked, has_operation, code_limit};
ghost use Rattle.oat_shown.specs.{IsWellFormedCase, Works, answer_in};
ghost use Rattle.sha2.specs.Sha256.{sha256};
ghost use Rattle.oat_text.specs.Grammar.{IsProgramText};
ghost use Rattle.oat_make.specs.Drill.{drill_program};
ghost use Rattle.oat_attestation.specs.Attestation.{Attests};
ghost use Rattle.oat_shown.specs.Report.{ended_of, path_in, path_text};
ghost use Rattle.oat_room_drill.specs.Drill.{AttestsDrill, Drills, IsDrillCase, ShowsDrill, drill_report};

use crate::laws::{first_verdict, operations};
use oat_attestation::{Attested, attest};
use oat_build::BuildFault;
use oat_case::Case;
use oat_check::{Checked, check};
use oat_ir::Program;
use oat_make::laws::{drill_texts_are_short, drills_are_checked, drills_are_written, drills_fit};
use oat_make::{make_case, make_program};
use oat_page::{Ended, Page, Pieces, Stop, Whole};
use oat_shown::{Edge, Map, edge_line, lower_digits, verdict_line};
use oat_text::{TextFault, read_program};
use oat_verify::Verdict;
use sha2::{Digest, Sha256};
use std::alloc::{AllocError, Global};

/// The program of a text that is one of a program.
fn written_program(alloc: Global, text: &[u8]) -> Result<Program, AllocError>
    requires short { length text.now ≤ 1048576 }
    requires written { (program : Program) × IsProgramText text.now program }
    ensures { IfOk result (λ program. IsProgramText text.now program) }
{
    match read_program(alloc, text) {
        Ok(program) => Ok(program),
        Err(TextFault::Memory) => Err(AllocError),
        Err(TextFault::At(_, _)) => unreachable!(),
    }
}

/// A program that keeps the checking rules, as one that is checked.
fn checked_program(program: Program) -> Checked
    requires { IsChecked program }
    ensures { result ≡ program }
{
    match check(program) {
        Ok(checked) => checked,
        Err(_) => unreachable!(),
    }
}

/// An attestation of a program whose code fits.
fn attest_fitting(alloc: Global, checked: &Checked, case: &Case) -> Result<Attested, AllocError>
    requires fits { most_words checked.now ≤ code_limit }
    requires well_formed { IsWellFormedCase case.now }
    requires operation { has_operation checked.now case.now.session.op ≡ true }
    ensures { IfOk result (λ attested. Attests checked.now case.now attested) }
{
    match attest(alloc, checked, case) {
        Ok(attested) => Ok(attested),
        Err(BuildFault::Memory) => Err(AllocError),
        Err(BuildFault::CodeTooLarge(_)) => unreachable!(),
    }
}

/// The number's program.
fn make_checked(alloc: Global, number: u32) -> Result<Checked, AllocError>
    ensures { IfOk result (λ checked. checked ≡ drill_program number) }
{
    drill_texts_are_short();
    drills_are_written();
    drills_are_checked();
    let text = make_program(alloc, number)?;
    let program = written_program(alloc, text.as_slice())?;
    Ok(checked_program(program))
}

/// The number's case.
fn case_of_drill(alloc: Global, number: u32) -> Result<Case, AllocError>
    ensures { IfOk result (λ case. IsDrillCase number case) }
{
    let case = make_case(alloc, number)?;
    Ok(case)
}

/// An attestation of the number's drill.
fn attest_drill(alloc: Global, number: u32) -> Result<Attested, AllocError>
    ensures { IfOk result (λ attested. AttestsDrill number attested) }
{
    operations();
    drills_fit();
    let checked = make_checked(alloc, number)?;
    let case = case_of_drill(alloc, number)?;
    attest_fitting(alloc, &checked, &case)
}

/// The SHA-256 digest of the lines of a path.
fn path_digest(alloc: Global, map: &Map, path: &[Edge]) -> Result<[u8; 32], AllocError>
    ensures { IfOk result (λ digest. digest ≡ sha256 (path_text map.now path.now)) }
{
    let mut hasher = Sha256::new();
    for edge in path {
        let line = edge_line(alloc, map, edge)?;
        hasher.update(line.as_slice());
    }
    Ok(hasher.finalize())
}

/// The path of an acceptance.
fn path_in(verdict: &Verdict) -> &[Edge]
    ensures { result.now ≡ path_in verdict.now }
{
    match verdict {
        Verdict::Accept(path) => path.as_slice(),
        Verdict::Refuse(_) => &[],
    }
}

/// How a verdict ends the work.
fn ended_with(verdict: &Verdict) -> Ended
    ensures { result ≡ ended_of verdict.now }
{
    match verdict {
        Verdict::Accept(_) => Ended::Done,
        Verdict::Refuse(_) => Ended::Rejected,
    }
}

/// The report of a drill with so many outputs and path lines.
fn drill_text(
    alloc: Global,
    number: u32,
    outputs: usize,
    edges: usize,
    digest: &[u8; 32],
    verdict: &Verdict,
) -> Result<Vec<u8>, AllocError>
    ensures { IfOk result (λ text. text.items ≡ drill_report number outputs edges digest.now verdict.now) }
{
    let counts = format!(in alloc; "drill {number}\noutputs {outputs}\npath {edges}\ndigest ")?;
    let mut text = counts.into_bytes();
    text.extend_from_slice(lower_digits(digest, &mut [0; 64]))?;
    text.extend_from_slice(b"\n")?;
    let line = verdict_line(alloc, None, verdict)?;
    text.extend_from_slice(line.as_slice())?;
    text.extend_from_slice(b"\n")?;
    Ok(text)
}

/// What is put of an attestation of the number's drill, by its first verdict.
fn drill_page(
    alloc: Global,
    number: u32,
    attested: &Attested,
    verdict: &Verdict,
) -> Result<Page<Whole>, AllocError>
    requires drilled { AttestsDrill number attested.now }
    requires first { slice_get attested.now.verdicts 0 ≡ Some verdict.now }
    ensures { IfOk result (λ page. ShowsDrill number (answer_in ⟦<Whole as Pieces>⟧.text page)) }
{
    let path = path_in(verdict);
    let digest = path_digest(alloc, &attested.shaped.image().map, path)?;
    let outputs = attested.outputs.as_slice().len();
    let text = drill_text(alloc, number, outputs, path.len(), &digest, verdict)?;
    Ok(Page {
        ended: ended_with(verdict),
        pieces: Whole::of(text),
        err: Vec::new(alloc),
    })
}

/// What is put of the number's drill.
fn page_of(alloc: Global, number: u32) -> Result<Page<Whole>, AllocError>
    ensures { IfOk result (λ page. ShowsDrill number (answer_in ⟦<Whole as Pieces>⟧.text page)) }
{
    first_verdict();
    let attested = attest_drill(alloc, number)?;
    let Some(verdict) = attested.verdicts.as_slice().first() else {
        unreachable!();
    };
    drill_page(alloc, number, &attested, verdict)
}

/// Attests the number's drill.
pub fn drill(alloc: Global, numbers: &[u32]) -> Result<Page<Whole>, Stop>
    requires { length numbers.now ≡ 1 }
    ensures { Works ⟦<Whole as Pieces>⟧.text (Drills numbers.now) result }
{
    let page = page_of(alloc, numbers[0])?;
    Ok(page)
}
