ghost use Rattle.std.specs.Prelude.{◌≡◌, ℕ, List, [], IfOk, Result};

use sha2::{Digest, Sha256};
use std::alloc::{AllocError, Global};

/// What takes a text piece by piece.
pub(crate) trait Receiver {
    ghost use Rattle.oat_image.specs.Printing.{Takes};

    ghost holds: { Self → List ℕ → Type 0 };

    fn put(&mut self, piece: &[u8])
        ensures { Takes holds piece.now self.old self.new };
}

impl Receiver for Sha256 {
    ghost use Rattle.sha2.specs.Hashers.{Holds256};

    ghost holds = { Holds256 };

    fn put(&mut self, piece: &[u8]) {
        self.update(piece);
    }
}

/// A text that is being written, unless memory ran out.
#[derive(Drop)]
pub(crate) struct Page {
    pub(crate) text: Vec<u8>,
    pub(crate) state: Result<(), AllocError>,
}

impl Page {
    ghost use Rattle.oat_image.specs.Page.{IsPage};

    pub(crate) fn new(alloc: Global) -> Page
        ensures { IsPage result [] }
    {
        Page {
            text: Vec::new(alloc),
            state: Ok(()),
        }
    }

    pub(crate) fn finish(self) -> Result<Vec<u8>, AllocError>
        ensures { (text : List ℕ) → IsPage self text → IfOk result (λ written. written.items ≡ text) }
    {
        let Page { text, state } = self;
        state?;
        Ok(text)
    }
}

impl Receiver for Page {
    ghost use Rattle.oat_image.specs.Page.{IsPage};

    ghost holds = { IsPage };

    fn put(&mut self, piece: &[u8]) {
        if self.state.is_ok() {
            self.state = self.text.extend_from_slice(piece);
        }
    }
}
