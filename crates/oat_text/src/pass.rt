//! Going over the lines of a text.

ghost use Rattle.std.specs.Prelude.{◌≡◌, ◌+◌, ◌≤◌, ◌∷◌, ℕ, List, length, Result, Ok, IfOk, if◌then◌else◌};
ghost use Rattle.oat_lines.specs.declared.fault.Fault.{Fault};
ghost use Rattle.oat_lines.specs.Faults.{Gives};
ghost use Rattle.oat_lines.specs.Lines.{lines_of, words_of, is_comment, is_skipped};
ghost use Rattle.oat_text.specs.declared.fault.TextFaultKind.{TextFaultKind};
ghost use Rattle.oat_text.specs.Passes.{numbered, over};

use crate::fault::TextFault;
use oat_lines::{first_line, first_word};

/// What takes the lines of a text in their order.
pub trait Pass {
    ghost takes: { ℕ → Self → List (List ℕ) → Result Self (Fault TextFaultKind) };

    /// Takes a line that counts, by its first word and what stands behind it.
    fn take(&mut self, line: u32, first: &[u8], words: &[u8]) -> Result<(), TextFault>
        ensures { Gives (λ _. self.new) result (takes line self.old (first.now ∷ words_of words.now)) };
}

fn begins_comment(word: &[u8]) -> bool
    ensures { result ≡ is_comment word.now }
{
    !word.is_empty() && word[0] == b';'
}

fn take_line<P: Pass>(pass: &mut P, number: u32, line: &[u8]) -> Result<(), TextFault>
    ensures { Gives (λ _. pass.new) result
        (if is_skipped (words_of line.now) then Ok pass.old else P.takes number pass.old (words_of line.now)) }
{
    match first_word(line) {
        None => Ok(()),
        Some((first, words)) => {
            if begins_comment(first) {
                Ok(())
            } else {
                pass.take(number, first, words)
            }
        }
    }
}

/// Takes all lines that count, and gives the number of the line after the last.
pub fn go_over<P: Pass>(pass: &mut P, text: &[u8]) -> Result<u32, TextFault>
    requires { length text.now ≤ 1048576 }
    ensures taken { Gives (λ _. pass.new) result (over P.takes pass.old (numbered 1 (lines_of text.now))) }
    ensures end { IfOk result (λ end. end ≡ 1 + length (lines_of text.now)) }
{
    let mut number: u32 = 1;
    let mut rest = text;
    'lines: while !rest.is_empty() {
        let (line, after) = first_line(rest);
        take_line(pass, number, line)?;
        number += 1;
        rest = after;
    }
    Ok(number)
}
