ghost use Rattle.std.specs.Prelude.{◌≡◌, true, IfOk};
ghost use Rattle.std.specs.List.{list_all};
ghost use Rattle.oat_script.specs.Reading.{is_file_byte, is_file_word};

use std::alloc::{AllocError, Global};
use std::marker::Model;
use std::str;

/// The name of a file in a script: printable ASCII characters.
#[derive(Drop)]
pub struct FileName {
    text: String,
}

impl Model for FileName {
    ghost use Rattle.std.specs.Prelude.{ℕ, List};
    ghost use Rattle.std.specs.String.{string_bytes};

    ghost Value = { List ℕ };

    ghost view = { λ name. string_bytes name.text };
}

/// Whether a word can name a file.
pub fn is_file_word(word: &[u8]) -> bool
    ensures { result ≡ is_file_word word.now }
{
    word.iter().all(|b| b' ' < *b && *b < 127)
}

impl FileName {
    /// The name that a word of printable ASCII characters spells.
    pub fn new(alloc: Global, word: &[u8]) -> Result<Self, AllocError>
        requires { is_file_word word.now ≡ true }
        ensures { IfOk result (λ name. name ≡ word.now) }
    {
        let text = str::from_utf8(word).unwrap();
        Ok(FileName {
            text: String::from_str(alloc, text)?,
        })
    }

    pub fn as_str(&self) -> &str
        ensures { result.now ≡ self.now }
    {
        self.text.as_str()
    }
}
