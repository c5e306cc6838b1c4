ghost use Rattle.std.specs.Prelude.{◌≡◌, ◌≤◌, length, IfOk, Ok};
ghost use Rattle.oat_lines.specs.Faults.{Gives};
ghost use Rattle.oat_case.specs.Limits.{IsWellFormedCase};
ghost use Rattle.oat_case.specs.Grammar.{IsCaseText};
ghost use Rattle.oat_case.specs.Reading.{case_of};

use crate::case::Case;
use crate::draft::Draft;
use crate::fault::CaseFault;
use oat_lines::first_line;
use std::alloc::Global;

fn case_in(alloc: Global, text: &[u8]) -> Result<Case, CaseFault>
    requires { length text.now ≤ 4194304 }
    ensures { Gives (λ read. read) result (case_of text.now) }
{
    let mut draft = Draft::new(alloc);
    let mut number: u32 = 1;
    let mut rest = text;
    'lines: while !rest.is_empty() {
        let (line, after) = first_line(rest);
        draft.take_line(alloc, number, line)?;
        number += 1;
        rest = after;
    }
    draft.finish(number)
}

/// The case that a text stands for.
pub fn read_case(alloc: Global, text: &[u8]) -> Result<Case, CaseFault>
    requires { length text.now ≤ 4194304 }
    // What is read is what the text stands for.
    ensures found { IfOk result (IsCaseText text.now) }
    // What the text stands for is read, unless memory runs out.
    ensures only { (c : Case) → IsCaseText text.now c → Gives (λ read. read) result (Ok c) }
    // Which fault it is.
    ensures exact { Gives (λ read. read) result (case_of text.now) }
    ensures well_formed { IfOk result IsWellFormedCase }
{
    case_in(alloc, text)
}
