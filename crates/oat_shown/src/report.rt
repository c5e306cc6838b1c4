ghost use Rattle.std.specs.Prelude.{◌≡◌, ◌∷◌, IfOk, []};
ghost use Rattle.oat_journal.specs.{Edge};
ghost use Rattle.oat_verify.specs.declared.verdict.Verdict.{Verdict};
ghost use Rattle.oat_report.specs.VerdictLine.{verdict_text};
ghost use Rattle.oat_page.specs.Outcome.{line};
ghost use Rattle.oat_shown.specs.Report.{path_text, report_text};
ghost use Rattle.oat_page.specs.Puts.{PutsAll};
ghost use Rattle.oat_page.specs.Shows.{put_of};

use oat_map::{Edge, Map};
use oat_page::{Sink, SinkFault, put_all};
use oat_report::{path_line, verdict_line};
use oat_verify::Verdict;
use std::alloc::{AllocError, Global};

/// The line of a verdict.
pub fn line_of(alloc: Global, number: Option<u32>, verdict: &Verdict) -> Result<Vec<u8>, AllocError>
    ensures { IfOk result (λ text. text.items ≡ line (verdict_text number verdict.now)) }
{
    let mut text = verdict_line(alloc, number, verdict)?;
    text.extend_from_slice(b"\n")?;
    Ok(text)
}

/// The line of one edge.
pub fn edge_line(alloc: Global, map: &Map, edge: &Edge) -> Result<Vec<u8>, AllocError>
    ensures { IfOk result (λ text. text.items ≡ path_text map.now (edge.now ∷ [])) }
{
    let mut text = path_line(alloc, map, edge)?;
    text.extend_from_slice(b"\n")?;
    Ok(text)
}

/// Puts the line of one edge.
pub fn put_edge<S: Sink>(
    alloc: Global,
    sink: &mut S,
    map: &Map,
    edge: &Edge,
) -> Result<(), SinkFault>
    ensures { PutsAll (path_text map.now (edge.now ∷ [])) (put_of S.told S.faults sink.old sink.new) result }
{
    match edge_line(alloc, map, edge) {
        Ok(text) => put_all(sink, text.as_slice()),
        Err(_) => Err(SinkFault::Memory),
    }
}

/// Puts the lines of a path.
pub fn put_edges<S: Sink>(
    alloc: Global,
    sink: &mut S,
    map: &Map,
    path: &[Edge],
) -> Result<(), SinkFault>
    ensures { PutsAll (path_text map.now path.now) (put_of S.told S.faults sink.old sink.new) result }
{
    for edge in path {
        put_edge(alloc, sink, map, edge)?;
    }
    Ok(())
}

/// Puts the line of a verdict on a blob with such a serial number, and after an acceptance those of the path.
pub fn put_verdict<S: Sink>(
    alloc: Global,
    sink: &mut S,
    map: &Map,
    number: Option<u32>,
    verdict: &Verdict,
) -> Result<(), SinkFault>
    ensures { PutsAll (report_text map.now number verdict.now) (put_of S.told S.faults sink.old sink.new) result }
{
    let Ok(text) = line_of(alloc, number, verdict) else {
        return Err(SinkFault::Memory);
    };
    put_all(sink, text.as_slice())?;
    match verdict {
        Verdict::Accept(path) => put_edges(alloc, sink, map, path.as_slice()),
        Verdict::Refuse(_) => Ok(()),
    }
}
