ghost use Rattle.std.specs.Prelude.{◌≡◌, ℕ, List, []};
ghost use Rattle.oat_page.specs.Pieces.{MakesPiece, text_of_some, turns_of_some, text_of_both, turns_of_both};

use std::alloc::{AllocError, Global};

/// A text that is made piece by piece, each as it is put.
pub trait Pieces {
    /// The text that is left.
    ghost text: { Self → List ℕ };

    /// No fewer than the pieces that are left.
    ghost turns: { Self → ℕ };

    /// The next piece, if there is one.
    fn next(&mut self, alloc: Global) -> Result<Option<Vec<u8>>, AllocError>
        ensures { MakesPiece (text self.old) (text self.new) (turns self.old) (turns self.new) result };
}

/// A text that may be there.
impl<P: Pieces + Drop> Pieces for Option<P> {
    ghost text = { λ some. text_of_some P.text some };

    ghost turns = { λ some. turns_of_some P.turns some };

    fn next(&mut self, alloc: Global) -> Result<Option<Vec<u8>>, AllocError> {
        match self {
            Some(pieces) => pieces.next(alloc),
            None => Ok(None),
        }
    }
}

/// One text and then another.
#[derive(Drop)]
pub struct Then<P, Q> {
    pub first: P,
    pub second: Q,
    pub is_behind: bool,
}

impl<P: Pieces + Drop, Q: Pieces + Drop> Pieces for Then<P, Q> {
    ghost text = { λ both. text_of_both both.is_behind (P.text both.first) (Q.text both.second) };

    ghost turns = { λ both. turns_of_both both.is_behind (P.turns both.first) (Q.turns both.second) };

    fn next(&mut self, alloc: Global) -> Result<Option<Vec<u8>>, AllocError> {
        if !self.is_behind {
            if let Some(piece) = self.first.next(alloc)? {
                return Ok(Some(piece));
            }
            self.is_behind = true;
        }
        self.second.next(alloc)
    }
}

/// A text as one piece.
#[derive(Drop)]
pub struct Whole {
    text: Option<Vec<u8>>,
}

impl Whole {
    ghost use Rattle.std.specs.Prelude.{◌≡◌};

    pub fn of(text: Vec<u8>) -> Whole
        ensures { ⟦<Whole as Pieces>⟧.text result ≡ text.items }
    {
        Whole { text: Some(text) }
    }
}

impl Pieces for Whole {
    ghost text = { λ whole. text_of_some (λ text. text.items) whole.text };

    ghost turns = { λ whole. turns_of_some (λ text. 1) whole.text };

    fn next(&mut self, _alloc: Global) -> Result<Option<Vec<u8>>, AllocError> {
        Ok(self.text.take())
    }
}
