ghost use Rattle.std.specs.Prelude.{◌≡◌, map, IfOk, ◌∷◌, []};
ghost use Rattle.oat_programs.specs.{IsWellFormedCase, case_limit, program_limit, Works, answer_in};
ghost use Rattle.oat_room_program.specs.Interpret.{end_told, path_told, case_run, source_run_text, Interprets, ShowsSource};

use crate::source_path::SourcePath;
use oat_check::Checked;
use oat_ir::{SourceEdge, SourceEnd};
use oat_journal::DeviceEnd;
use oat_meaning::Source;
use oat_page::{Ended, File, Page, Pieces, Stop, Then};
use oat_programs::{Case, case_for, checked_of};
use oat_shown::RunLines;
use std::alloc::{AllocError, Global};

/// The lines of a run of a program, and those of its path.
pub type RunAndPath = Then<RunLines, SourcePath>;

/// The end, among those that run lines tell.
fn end_told(end: SourceEnd) -> DeviceEnd
    ensures { result ≡ end_told end }
{
    match end {
        SourceEnd::Halted => DeviceEnd::Halted,
        SourceEnd::Trap(kind) => DeviceEnd::Trap(kind),
        SourceEnd::OutOfSteps => DeviceEnd::OutOfSteps,
    }
}

/// The path of the first call of the operation, where it completed.
fn path_told(alloc: Global, source: &Source<'_>) -> Result<Vec<SourceEdge>, AllocError>
    ensures { IfOk result (λ path. path.items ≡ path_told source.now) }
{
    if source.completed() {
        Vec::from_slice(alloc, source.path())
    } else {
        Ok(Vec::new(alloc))
    }
}

/// The run of a program on the inputs of a case: its lines, and its path.
fn case_run<'a>(
    alloc: Global,
    checked: &'a Checked,
    case: &'a Case,
) -> Result<(RunLines, Vec<SourceEdge>), AllocError>
    requires { IsWellFormedCase case.now }
    ensures lines { IfOk result (λ made. ⟦<RunLines as Pieces>⟧.text made.0 ≡ source_run_text (case_run checked.now case.now)) }
    ensures path { IfOk result (λ made. made.1.items ≡ path_told (case_run checked.now case.now)) }
{
    let inputs = case.inputs.as_slice();
    let mut source = Source::start(alloc, checked, inputs, case.session.op, case.steps)?;
    let end = source.run();
    let lines = RunLines::of(alloc, source.outputs(), end_told(end))?;
    let path = path_told(alloc, &source)?;
    Ok((lines, path))
}

/// Makes the run of a program on the inputs of a case, and gives its page.
fn interpret_case(
    alloc: Global,
    checked: Checked,
    case: &Case,
) -> Result<Page<RunAndPath>, AllocError>
    requires { IsWellFormedCase case.now }
    ensures { IfOk result (λ page. ShowsSource checked case.now (answer_in ⟦<RunAndPath as Pieces>⟧.text page)) }
{
    let (lines, path) = case_run(alloc, &checked, case)?;
    Ok(Page {
        ended: Ended::Done,
        pieces: Then {
            first: lines,
            second: SourcePath::of(checked, path),
            is_behind: false,
        },
        err: Vec::new(alloc),
    })
}

/// Runs the program of the first file on the inputs of the case of the second.
pub fn interpret(alloc: Global, files: &[File]) -> Result<Page<RunAndPath>, Stop>
    requires { map (λ file. file.limit) files.now ≡ program_limit ∷ case_limit ∷ [] }
    ensures { Works ⟦<RunAndPath as Pieces>⟧.text (Interprets files.now) result }
{
    let program = &files[0];
    let case = &files[1];
    let checked = checked_of(alloc, program)?;
    let session_case = case_for(alloc, &checked, case)?;
    Ok(interpret_case(alloc, checked, &session_case)?)
}
