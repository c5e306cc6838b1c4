ghost use Rattle.std.specs.Prelude.{◌≡◌, ◌∷◌, ◌-◌, [], length, drop, IfOk};
ghost use Rattle.oat_room_program.specs.Interpret.{source_path_text};

use oat_check::Checked;
use oat_ir::{Program, SourceEdge};
use oat_page::Pieces;
use oat_report::source_line;
use std::alloc::{AllocError, Global};

/// The lines of a path of a program, each made as it is put.
#[derive(Drop)]
pub struct SourcePath {
    checked: Checked,
    path: Vec<SourceEdge>,
    at: usize,
}

impl SourcePath {
    pub fn of(checked: Checked, path: Vec<SourceEdge>) -> SourcePath
        ensures { ⟦<SourcePath as Pieces>⟧.text result ≡ source_path_text checked path.items }
    {
        SourcePath {
            checked,
            path,
            at: 0,
        }
    }
}

/// The line of one edge.
fn edge_line(alloc: Global, program: &Program, edge: &SourceEdge) -> Result<Vec<u8>, AllocError>
    ensures { IfOk result (λ text. text.items ≡ source_path_text program.now (edge.now ∷ [])) }
{
    let mut text = source_line(alloc, program, edge)?;
    text.extend_from_slice(b"\n")?;
    Ok(text)
}

impl Pieces for SourcePath {
    ghost text = { λ lines. source_path_text lines.checked (drop lines.at lines.path.items) };

    ghost turns = { λ lines. length lines.path.items - lines.at };

    fn next(&mut self, alloc: Global) -> Result<Option<Vec<u8>>, AllocError> {
        if self.at < self.path.len() {
            let line = edge_line(alloc, self.checked.program(), &self.path[self.at])?;
            self.at += 1;
            return Ok(Some(line));
        }
        Ok(None)
    }
}
