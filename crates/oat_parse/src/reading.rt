//! The first reading.

ghost use Rattle.std.specs.Prelude.{◌≡◌, ◌≤◌, length, Ok, IfOk, IfErr};
ghost use Rattle.oat_tree.specs.Seen.{seen_tree};
ghost use Rattle.oat_grammar.specs.FirstFaults.{first_reading};
ghost use Rattle.oat_grammar.specs.Mentions.{mention_lines};
ghost use Rattle.oat_parse.specs.Readers.{IsFirstFault};
ghost use Rattle.oat_parse.specs.Pieces.{line_after};

use crate::fault::ParseFault;
use crate::reader::{Parsed, Reader, finish, read_piece};
use crate::words::{Piece, first_piece};
use std::alloc::Global;

fn line_after(line: u32, piece: &Piece) -> u32
    requires { line ≤ 1048576 }
    ensures { result ≡ line_after line piece.now }
{
    match piece {
        Piece::LineFeed => line + 1,
        Piece::Blank | Piece::Word(_) => line,
    }
}

/// The tree of a text with the lines of its mentions, or its first fault.
pub fn parse(alloc: Global, text: &[u8]) -> Result<Parsed, ParseFault>
    requires { length text.now ≤ 1048576 }
    ensures tree { IfOk result (λ p. first_reading text.now ≡ Ok (seen_tree p.items.items)) }
    ensures lines { IfOk result (λ p. p.lines.items ≡ mention_lines text.now) }
    ensures fault { IfErr result (λ f. IsFirstFault text.now f) }
{
    let mut reader = Reader::new(alloc);
    let mut line = 1;
    let mut rest = text;
    'pieces: while let Some((piece, after)) = first_piece(rest) {
        let line_behind = line_after(line, &piece);
        reader = read_piece(alloc, reader, line, piece)?;
        line = line_behind;
        rest = after;
    }
    finish(reader)
}
