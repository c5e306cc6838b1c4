ghost use Rattle.std.specs.Prelude.{◌≡◌, ◌++◌, ◌<◌, IfOk, OnOk, length, map, ◌∷◌, []};
ghost use Rattle.std.specs.List.{flat_map, list_any};
ghost use Rattle.oat_shown.specs.{IsWellFormedCase, IsOperation, case_limit, image_limit, edge_line, apart_text, verdict_text, line, Works, answer_in};
ghost use Rattle.oat_chain.specs.Clash.{bytes_of};
ghost use Rattle.oat_shown.specs.Report.{path_text};
ghost use Rattle.oat_room_device.specs.Trace.{TracesCase, Traces, part_text, parting_text, parts_from, use_line};
ghost use Rattle.oat_shown.specs.Windows.{is_refusal};

use oat_case::Case;
use oat_chain::Clash;
use oat_inputs::admit::admit;
use oat_page::{File, Page, Pieces, Stop, Then, Whole};
use oat_report::{apart_line, path_line, use_line, verdict_line};
use oat_shown::{Edge, Map, RunLines, ended_with, is_refusal, want_text, window_number};
use oat_verify::{Shaped, Verdict};
use oat_watch::{CheckedUse, WatchedWindow, watch};
use std::alloc::{AllocError, Global};

/// The lines of a run, and the parts of its windows.
pub type RunAndParts = Then<RunLines, Whole>;

fn put_line(text: &mut Vec<u8>, words: &[u8]) -> Result<(), AllocError>
    ensures { OnOk result (text.new.items ≡ text.old.items ++ line words.now) }
{
    text.extend_from_slice(words)?;
    text.extend_from_slice(b"\n")
}

fn put_edge(text: &mut Vec<u8>, map: &Map, edge: &Edge) -> Result<(), AllocError>
    ensures { OnOk result (text.new.items ≡ text.old.items ++ line (edge_line map.now edge.now)) }
{
    let words = path_line(*text.allocator(), map, edge)?;
    put_line(text, words.as_slice())
}

/// Adds the lines of a path.
fn put_path(text: &mut Vec<u8>, map: &Map, path: &[Edge]) -> Result<(), AllocError>
    ensures { OnOk result (text.new.items ≡ text.old.items ++ path_text map.now path.now) }
{
    for edge in path {
        put_edge(text, map, edge)?;
    }
    Ok(())
}

fn put_use(text: &mut Vec<u8>, used: &CheckedUse) -> Result<(), AllocError>
    ensures { OnOk result (text.new.items ≡ text.old.items ++ use_line used.now) }
{
    let words = use_line(*text.allocator(), used.cell, used.found, used.defined)?;
    put_line(text, words.as_slice())
}

/// Adds the lines of checked uses.
fn put_uses(text: &mut Vec<u8>, uses: &[CheckedUse]) -> Result<(), AllocError>
    ensures { OnOk result (text.new.items ≡ text.old.items ++ flat_map use_line uses.now) }
{
    for used in uses {
        put_use(text, used)?;
    }
    Ok(())
}

fn put_apart(text: &mut Vec<u8>, clash: &Clash) -> Result<(), AllocError>
    ensures { OnOk result (text.new.items ≡ text.old.items ++ line (apart_text (bytes_of clash.now.first) (bytes_of clash.now.second))) }
{
    let words = apart_line(*text.allocator(), clash.first.bytes(), clash.second.bytes())?;
    put_line(text, words.as_slice())
}

/// Adds whether the returns are those of an accepted path.
fn put_parting(
    text: &mut Vec<u8>,
    verdict: &Verdict,
    apart: &Option<Clash>,
) -> Result<(), AllocError>
    ensures { OnOk result (text.new.items ≡ text.old.items ++ parting_text verdict.now apart.now) }
{
    match (verdict, apart) {
        (Verdict::Accept(_), Some(clash)) => put_apart(text, clash),
        (Verdict::Accept(_), None) => put_line(text, b"same"),
        (Verdict::Refuse(_), _) => Ok(()),
    }
}

fn put_verdict(text: &mut Vec<u8>, number: Option<u32>, verdict: &Verdict) -> Result<(), AllocError>
    ensures { OnOk result (text.new.items ≡ text.old.items ++ line (verdict_text number verdict.now)) }
{
    let words = verdict_line(*text.allocator(), number, verdict)?;
    put_line(text, words.as_slice())
}

/// Adds the part of a window.
fn put_part(
    text: &mut Vec<u8>,
    map: &Map,
    number: Option<u32>,
    shown: &WatchedWindow,
) -> Result<(), AllocError>
    ensures { OnOk result (text.new.items ≡ text.old.items ++ part_text map.now number shown.now) }
{
    put_verdict(text, number, &shown.verdict)?;
    put_path(text, map, shown.path.as_slice())?;
    put_uses(text, shown.uses.as_slice())?;
    put_parting(text, &shown.verdict, &shown.apart)
}

/// The parts of windows that sealed.
fn parts_of(
    alloc: Global,
    map: &Map,
    calls: Option<u32>,
    windows: &[WatchedWindow],
) -> Result<Vec<u8>, AllocError>
    requires few { length windows.now < 4294967296 }
    ensures { IfOk result (λ text. text.items ≡ parts_from map.now calls 0 windows.now) }
{
    let mut text = Vec::new(alloc);
    for serial in 0..windows.len() as u32 {
        put_part(
            &mut text,
            map,
            window_number(calls, serial),
            &windows[serial as usize],
        )?;
    }
    Ok(text)
}

fn refuses_one(windows: &[WatchedWindow]) -> bool
    ensures { result ≡ list_any (λ shown. is_refusal shown.verdict) windows.now }
{
    windows.iter().any(|shown| is_refusal(&shown.verdict))
}

/// Makes the run of a case, and gives its page.
fn trace_case(alloc: Global, shaped: &Shaped, case: &Case) -> Result<Page<RunAndParts>, AllocError>
    requires well_formed { IsWellFormedCase case.now }
    requires operation { IsOperation shaped.now.map case.now.session.op }
    ensures { IfOk result (λ page. TracesCase shaped.now case.now (answer_in ⟦<RunAndParts as Pieces>⟧.text page)) }
{
    let watched = watch(alloc, shaped, case)?;
    let calls = case.session.calls;
    let windows = watched.windows.as_slice();
    let parts = parts_of(alloc, &shaped.image().map, calls, windows)?;
    let ended = ended_with(calls, windows.len(), refuses_one(windows));
    let lines = RunLines::of(alloc, watched.outputs.as_slice(), watched.end)?;
    let said = Vec::from_slice(alloc, want_text(ended))?;
    Ok(Page {
        ended,
        pieces: Then {
            first: lines,
            second: Whole::of(parts),
            is_behind: false,
        },
        err: said,
    })
}

/// Runs the case of the second file on the image of the first, and shows the run beside the verdicts on its blobs.
pub fn trace(alloc: Global, files: &[File]) -> Result<Page<RunAndParts>, Stop>
    requires { map (λ file. file.limit) files.now ≡ image_limit ∷ case_limit ∷ [] }
    ensures { Works ⟦<RunAndParts as Pieces>⟧.text (Traces files.now) result }
{
    let image = &files[0];
    let case = &files[1];
    let admitted = admit(alloc, image, case)?;
    Ok(trace_case(alloc, &admitted.shaped, &admitted.case)?)
}
