ghost use Rattle.std.specs.Prelude.{◌≡◌, ◌↔◌, IsTrue, IsSome, IfSome, length, take};
ghost use Rattle.oat_map.specs.Name.{IsName, IsNameByte, read_name};

use std::marker::Model;

/// A text of 1 to 32 ASCII letters, digits and underscores that doesn't begin with a digit.
///
/// Contracts see it as the list of its bytes.
#[derive(Drop)]
pub struct Name {
    bytes: [u8; 32],
    len: u8,
}

impl Model for Name {
    ghost use Rattle.std.specs.Prelude.{ℕ, ◌≤◌, List, take};
    ghost use Rattle.oat_map.specs.Name.{IsName};

    ghost Value = { List ℕ };

    ghost view = { λ name. take name.len name.bytes };

    ghost invariant = { λ name. (name.len ≤ 32) × IsName (take name.len name.bytes) };
}

impl Name {
    /// The name that `text` spells, or None where it is no name.
    pub fn new(text: &[u8]) -> Option<Name>
        ensures exact { IsSome result ↔ IsName text.now }
        ensures same { IfSome result (λ name. name ≡ text.now) }
        ensures read { result ≡ read_name text.now }
    {
        if is_name(text) {
            Some(Name::from_name(text))
        } else {
            None
        }
    }

    fn from_name(text: &[u8]) -> Name
        requires { IsName text.now }
        ensures { result ≡ text.now }
    {
        let mut bytes = [0; 32];
        bytes[..text.len()].copy_from_slice(text);
        Name {
            bytes,
            len: text.len() as u8,
        }
    }

    pub fn as_bytes(&self) -> &[u8]
        ensures bytes { result.now ≡ self.now }
        ensures name { IsName self.now }
    {
        &self.bytes[..self.len as usize]
    }

    pub fn is_same(&self, other: &Name) -> bool
        ensures { IsTrue result ↔ (self.now ≡ other.now) }
    {
        self.as_bytes() == other.as_bytes()
    }
}

fn is_name(text: &[u8]) -> bool
    ensures { IsTrue result ↔ IsName text.now }
{
    !text.is_empty()
        && text.len() <= 32
        && text.iter().all(|c| is_name_byte(*c))
        && !text[0].is_ascii_digit()
}

fn is_name_byte(c: u8) -> bool
    ensures { IsTrue result ↔ IsNameByte c }
{
    c.is_ascii_alphanumeric() || c == b'_'
}
