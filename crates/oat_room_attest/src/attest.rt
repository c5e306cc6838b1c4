ghost use Rattle.std.specs.Prelude.{◌≡◌, ◌≢◌, ◌<◌, ◌⊎◌, ◌∷◌, [], true, length, map, MatchResult};
ghost use Rattle.oat_shown.specs.{IsWellFormedCase, Rose, IsAnswered, put_of, Shows, case_limit, program_limit, PutsAll, StopsWith};
ghost use Rattle.oat_programs.specs.{has_operation};
ghost use Rattle.oat_attestation.specs.Attestation.{Attests};
ghost use Rattle.oat_shown.specs.BlobLine.{blob_line};
ghost use Rattle.oat_programs.specs.Programs.{CodeFits, RefusesCode};
ghost use Rattle.oat_room_attest.specs.Attest.{AreAttested, AttestsProgram, RefusesFiles, ShowsWindows, attested_text, window_text, windows_from};

use oat_attestation::{Attested, attest};
use oat_build::BuildFault;
use oat_case::{Bytes, Case};
use oat_check::Checked;
use oat_map::Map;
use oat_page::{File, Stop, close, put_pieces, say_stop};
use oat_programs::{case_for, checked_of, too_large};
use oat_shown::{
    BlobLines, RunLines, Sink, SinkFault, ended_with, put_verdict, refuses_one, want_text,
    window_number,
};
use oat_verify::Verdict;
use std::alloc::Global;

/// A case of a program, and what is attested of both.
#[derive(Drop)]
pub struct AttestedCase {
    pub case: Case,
    pub attested: Attested,
}

/// What is attested of the program of the file and a case, if the program's code fits.
fn attested_of(alloc: Global, file: &File, checked: &Checked, case: &Case) -> Result<Attested, Stop>
    requires well_formed { IsWellFormedCase case.now }
    requires operation { has_operation checked.now case.now.session.op ≡ true }
    ensures { MatchResult result (λ attested. CodeFits checked.now × Attests checked.now case.now attested) (StopsWith (RefusesCode file.now checked.now)) }
{
    match attest(alloc, checked, case) {
        Ok(attested) => Ok(attested),
        Err(BuildFault::CodeTooLarge(words)) => Err(too_large(alloc, file.name(), words)?),
        Err(BuildFault::Memory) => Err(Stop::Starved),
    }
}

/// Builds the program of the first file, runs the case of the second on its image, and judges the run's blobs.
pub fn attest_files(alloc: Global, files: &[File]) -> Result<AttestedCase, Stop>
    requires { map (λ file. file.limit) files.now ≡ program_limit ∷ case_limit ∷ [] }
    ensures { MatchResult result (λ done. AreAttested files.now done.case done.attested) (StopsWith (RefusesFiles files.now)) }
{
    let program = &files[0];
    let case = &files[1];
    let checked = checked_of(alloc, program)?;
    let session_case = case_for(alloc, &checked, case)?;
    let attested = attested_of(alloc, program, &checked, &session_case)?;
    Ok(AttestedCase {
        case: session_case,
        attested,
    })
}

/// Puts the line of a blob.
fn put_blob<S: Sink>(alloc: Global, sink: &mut S, blob: Bytes) -> Result<(), SinkFault>
    ensures { PutsAll (blob_line blob) (put_of S.told S.faults sink.old sink.new) result }
{
    match Vec::from_array(alloc, [blob]) {
        Ok(blobs) => put_pieces(alloc, sink, BlobLines::of(blobs)),
        Err(_) => Err(SinkFault::Memory),
    }
}

/// Puts the line of a window's blob, that of the verdict on it, and after an acceptance those of the path.
fn put_window<S: Sink>(
    alloc: Global,
    sink: &mut S,
    map: &Map,
    number: Option<u32>,
    blob: Bytes,
    verdict: &Verdict,
) -> Result<(), SinkFault>
    ensures { PutsAll (window_text map.now number blob verdict.now) (put_of S.told S.faults sink.old sink.new) result }
{
    put_blob(alloc, sink, blob)?;
    put_verdict(alloc, sink, map, number, verdict)
}

/// Puts the parts of windows that sealed.
fn put_windows<S: Sink>(
    alloc: Global,
    sink: &mut S,
    map: &Map,
    calls: Option<u32>,
    blobs: Vec<Bytes>,
    verdicts: &[Verdict],
) -> Result<(), SinkFault>
    requires each { length verdicts.now ≡ length blobs.items }
    requires few { length verdicts.now < 4294967296 }
    ensures { PutsAll (windows_from map.now calls 0 blobs.items verdicts.now) (put_of S.told S.faults sink.old sink.new) result }
{
    let mut serial = 0;
    for blob in blobs {
        let number = window_number(calls, serial as u32);
        put_window(alloc, sink, map, number, blob, &verdicts[serial])?;
        serial += 1;
    }
    Ok(())
}

/// Puts the lines of a run and the parts of its windows.
fn put_attested<S: Sink>(
    alloc: Global,
    sink: &mut S,
    calls: Option<u32>,
    attested: Attested,
) -> Result<(), SinkFault>
    requires each { length attested.verdicts ≡ length attested.blobs }
    requires few { length attested.verdicts < 4294967296 }
    ensures { PutsAll (attested_text calls attested) (put_of S.told S.faults sink.old sink.new) result }
{
    let Attested {
        shaped,
        end,
        outputs,
        blobs,
        verdicts,
    } = attested;
    let Ok(lines) = RunLines::of(alloc, outputs.as_slice(), end) else {
        return Err(SinkFault::Memory);
    };
    put_pieces(alloc, sink, lines)?;
    let map = &shaped.image().map;
    put_windows(
        alloc,
        sink,
        map,
        calls,
        blobs.into_vec(),
        verdicts.as_slice(),
    )
}

/// Shows what is attested of a case, and answers the status.
fn show_attested<O: Sink, E: Sink>(
    alloc: Global,
    done: AttestedCase,
    out: &mut O,
    err: &mut E,
) -> u8
    requires each { length done.attested.verdicts ≡ length done.attested.blobs }
    requires few { length done.attested.verdicts < 4294967296 }
    ensures shows { Shows (IsAnswered (ShowsWindows done.case done.attested)) (put_of O.told O.faults out.old out.new) (put_of E.told E.faults err.old err.new) result }
    ensures write_fault { result ≡ 5 → Rose (O.faults out.old) (O.faults out.new) ⊎ Rose (E.faults err.old) (E.faults err.new) }
    ensures raised { (O.faults out.old < O.faults out.new) ⊎ (E.faults err.old < E.faults err.new) → result ≡ 5 }
    ensures no_fault { result ≢ 4 }
{
    let AttestedCase { case, attested } = done;
    let calls = case.session.calls;
    let verdicts = attested.verdicts.as_slice();
    let ended = ended_with(calls, verdicts.len(), refuses_one(verdicts));
    let put = put_attested(alloc, out, calls, attested);
    close(put, ended, want_text(ended), err)
}

/// Attests the program of the first file in the case of the second, and answers the status.
pub fn attest_program<O: Sink, E: Sink>(
    alloc: Global,
    files: &[File],
    out: &mut O,
    err: &mut E,
) -> u8
    requires { map (λ file. file.limit) files.now ≡ program_limit ∷ case_limit ∷ [] }
    ensures shows { Shows (IsAnswered (AttestsProgram files.now)) (put_of O.told O.faults out.old out.new) (put_of E.told E.faults err.old err.new) result }
    ensures write_fault { result ≡ 5 → Rose (O.faults out.old) (O.faults out.new) ⊎ Rose (E.faults err.old) (E.faults err.new) }
    ensures raised { (O.faults out.old < O.faults out.new) ⊎ (E.faults err.old < E.faults err.new) → result ≡ 5 }
    ensures no_fault { result ≢ 4 }
{
    match attest_files(alloc, files) {
        Ok(done) => show_attested(alloc, done, out, err),
        Err(stop) => say_stop(&stop, err),
    }
}
