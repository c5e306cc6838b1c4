ghost use Rattle.std.specs.Prelude.{◌≡◌, ◌-◌, IfOk, is_some, map, unwrap_or};
ghost use Rattle.std.specs.Option.{option_copied};
ghost use Rattle.oat_shown.specs.{IsPlainReport, cause_member, is_accepted, json_text, edge_line, line};
ghost use Rattle.oat_shown.specs.RunText.{end_text};
ghost use Rattle.oat_room_attest.specs.Json.{accepted_lines, json_lines, window_report};

use oat_attestation::Attested;
use oat_build::Listed;
use oat_journal::DeviceEnd;
use oat_map::{Edge, Map, Path};
use oat_page::Pieces;
use oat_report::{Report, json_line, path_line};
use oat_shown::{put_end, window_number};
use oat_verify::Verdict;
use std::alloc::{AllocError, Global};

/// The JSON lines of the windows that a case calls for, each made as it is put.
#[derive(Drop)]
pub struct JsonLines {
    attested: Attested,
    calls: Option<u32>,
    at: u32,
}

impl JsonLines {
    pub fn of(attested: Attested, calls: Option<u32>) -> JsonLines
        ensures { ⟦<JsonLines as Pieces>⟧.text result ≡ json_lines calls attested 0 (unwrap_or calls 1) }
    {
        JsonLines {
            attested,
            calls,
            at: 0,
        }
    }
}

fn end_words(alloc: Global, end: DeviceEnd) -> Result<Listed<u8>, AllocError>
    ensures { IfOk result (λ text. text ≡ end_text end) }
{
    let mut text = Vec::new(alloc);
    put_end(&mut text, end)?;
    Ok(Listed::from_vec(text))
}

/// The lines of a path, each without its line end.
fn path_lines(alloc: Global, flow: &Map, path: &[Edge]) -> Result<Listed<Listed<u8>>, AllocError>
    ensures { IfOk result (λ lines. lines ≡ map (edge_line flow.now) path.now) }
{
    let mut lines = Vec::new(alloc);
    for edge in path {
        lines.push(Listed::from_vec(path_line(alloc, flow, edge)?))?;
    }
    Ok(Listed::from_vec(lines))
}

fn accepted_lines(
    alloc: Global,
    flow: &Map,
    verdict: Option<&Verdict>,
) -> Result<Listed<Listed<u8>>, AllocError>
    ensures { IfOk result (λ lines. lines ≡ accepted_lines flow.now (option_copied verdict.entry)) }
{
    match verdict {
        Some(Verdict::Accept(path)) => path_lines(alloc, flow, path.as_slice()),
        Some(Verdict::Refuse(_)) | None => Ok(Listed::from_vec(Vec::new(alloc))),
    }
}

/// A verdict without its path, of which a report has the lines.
fn without_path(alloc: Global, verdict: Option<&Verdict>) -> Option<Verdict>
    ensures sealed { is_some result ≡ is_some (option_copied verdict.entry) }
    ensures accepted { is_accepted result ≡ is_accepted (option_copied verdict.entry) }
    ensures cause { cause_member result ≡ cause_member (option_copied verdict.entry) }
{
    match verdict {
        Some(Verdict::Accept(_)) => Some(Verdict::Accept(Path::from_vec(Vec::new(alloc)))),
        Some(Verdict::Refuse(cause)) => Some(Verdict::Refuse(*cause)),
        None => None,
    }
}

/// What is told of a window.
fn window_report(
    alloc: Global,
    attested: &Attested,
    calls: Option<u32>,
    serial: u32,
) -> Result<Report, AllocError>
    ensures plain { IfOk result IsPlainReport }
    ensures told { IfOk result (λ report. json_text report ≡ json_text (window_report calls attested.now serial)) }
{
    let verdict = attested.verdicts.as_slice().get(serial as usize);
    Ok(Report {
        end: end_words(alloc, attested.end)?,
        outputs: Listed::from_vec(Vec::from_slice(alloc, attested.outputs.as_slice())?),
        verdict: without_path(alloc, verdict),
        path: accepted_lines(alloc, &attested.shaped.image().map, verdict)?,
        serial: window_number(calls, serial),
    })
}

fn window_line(
    alloc: Global,
    attested: &Attested,
    calls: Option<u32>,
    serial: u32,
) -> Result<Vec<u8>, AllocError>
    ensures { IfOk result (λ text. text.items ≡ line (json_text (window_report calls attested.now serial))) }
{
    let report = window_report(alloc, attested, calls, serial)?;
    let mut text = json_line(alloc, &report)?;
    text.extend_from_slice(b"\n")?;
    Ok(text)
}

impl Pieces for JsonLines {
    ghost text = { λ lines. json_lines lines.calls lines.attested lines.at (unwrap_or lines.calls 1 - lines.at) };

    ghost turns = { λ lines. unwrap_or lines.calls 1 - lines.at };

    fn next(&mut self, alloc: Global) -> Result<Option<Vec<u8>>, AllocError> {
        if self.at < self.calls.unwrap_or(1) {
            let line = window_line(alloc, &self.attested, self.calls, self.at)?;
            self.at += 1;
            return Ok(Some(line));
        }
        Ok(None)
    }
}
