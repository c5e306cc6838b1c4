ghost use Rattle.std.specs.Prelude.{◌≡◌, ◌≤◌, take, drop, length};
ghost use Rattle.std.specs.List.{flat_map};
ghost use Rattle.oat_shown.specs.BlobLine.{blob_line, lines_left, turns_of_lines};

use oat_case::Bytes;
use oat_lines::lower_digits;
use oat_page::Pieces;
use std::alloc::{AllocError, Global};

/// The most bytes whose digits are one piece.
const BLOCK: usize = 32;

/// The lines of blobs, whose digits are made a block at a time.
#[derive(Drop)]
pub struct BlobLines {
    blobs: Vec<Bytes>,
    /// How many lines were made.
    done: usize,
    is_begun: bool,
    at: usize,
}

impl BlobLines {
    pub fn of(blobs: Vec<Bytes>) -> BlobLines
        ensures { ⟦<BlobLines as Pieces>⟧.text result ≡ flat_map blob_line blobs.items }
    {
        BlobLines {
            blobs,
            done: 0,
            is_begun: false,
            at: 0,
        }
    }
}

/// The next bytes whose digits are one piece.
#[tactic(auto, using(std::proofs::lemmas::List::take_rest, std::proofs::lemmas::List::take_min))]
fn next_block(bytes: &[u8], at: usize) -> &[u8]
    requires { at ≤ length bytes.now }
    ensures { result.now ≡ take BLOCK (drop at bytes.now) }
{
    let rest = &bytes[at..];
    &rest[..BLOCK.min(rest.len())]
}

impl Pieces for BlobLines {
    ghost text = { λ lines. lines_left (drop lines.done lines.blobs.items) lines.is_begun lines.at };

    ghost turns = { λ lines. turns_of_lines (drop lines.done lines.blobs.items) lines.is_begun lines.at };

    fn next(&mut self, alloc: Global) -> Result<Option<Vec<u8>>, AllocError> {
        if self.done >= self.blobs.len() {
            return Ok(None);
        }
        if !self.is_begun {
            let keyword = Vec::from_slice(alloc, b"blob ")?;
            self.is_begun = true;
            return Ok(Some(keyword));
        }
        let bytes = self.blobs[self.done].as_slice();
        if self.at < bytes.len() {
            let block = next_block(bytes, self.at);
            let digits = Vec::from_slice(alloc, lower_digits(block, &mut [0; 64]))?;
            self.at += block.len();
            return Ok(Some(digits));
        }
        let end = Vec::from_slice(alloc, b"\n")?;
        self.done += 1;
        self.is_begun = false;
        self.at = 0;
        Ok(Some(end))
    }
}
