//! The words of a text, one after the other.

ghost use Rattle.std.specs.Prelude.{◌≡◌, ◌<◌, ◌≤◌, true, ◌∷◌, ◌++◌, [], length, IfSome, option_map, MatchOption};
ghost use Rattle.oat_grammar.specs.Words.{keyword_in};
ghost use Rattle.oat_grammar.specs.Spots.{are_of_word, are_of_line, ends_word, ends_line, word_token, name_token, pair_token, sign_token, begins_comment, class_of, solid};
ghost use Rattle.oat_parse.specs.Pieces.{BeginsWith, seen_class};

use oat_grammar::{Mark, Token};
use oat_lines::read_numeral;
use oat_map::Name;
use oat_tree::Operator;

/// What stands first in a text.
#[derive(Drop)]
pub enum Piece {
    /// Blanks, or a comment up to its line feed.
    Blank,
    LineFeed,
    /// A word or sign, or one that is none.
    Word(Option<Token>),
}

/// What a byte is between words.
#[derive(Clone, Copy)]
enum Class {
    OfWord,
    Feed,
    Separator,
    Solid,
}

fn class_of(byte: u8) -> Class
    ensures { seen_class result ≡ class_of byte }
{
    if byte.is_ascii_alphanumeric() || byte == b'_' {
        Class::OfWord
    } else if byte == b'\n' {
        Class::Feed
    } else if byte == b' ' || byte == b'\t' || byte == b'\r' {
        Class::Separator
    } else {
        Class::Solid
    }
}

/// The word of the grammar that this spells.
fn keyword(word: &[u8]) -> Option<Mark>
    ensures { result ≡ option_map (λ k. k.keyword) (keyword_in word.now) }
{
    if word == b"global".as_slice() {
        Some(Mark::Global)
    } else if word == b"critical".as_slice() {
        Some(Mark::Critical)
    } else if word == b"array".as_slice() {
        Some(Mark::Array)
    } else if word == b"fn".as_slice() {
        Some(Mark::Fn)
    } else if word == b"operation".as_slice() {
        Some(Mark::Operation)
    } else if word == b"main".as_slice() {
        Some(Mark::Main)
    } else if word == b"var".as_slice() {
        Some(Mark::Var)
    } else if word == b"if".as_slice() {
        Some(Mark::If)
    } else if word == b"else".as_slice() {
        Some(Mark::Else)
    } else if word == b"while".as_slice() {
        Some(Mark::While)
    } else if word == b"out".as_slice() {
        Some(Mark::Out)
    } else if word == b"return".as_slice() {
        Some(Mark::Return)
    } else if word == b"halt".as_slice() {
        Some(Mark::Halt)
    } else if word == b"in".as_slice() {
        Some(Mark::In)
    } else {
        None
    }
}

/// A name that is no word of the grammar, or one of these.
fn name_token(word: &[u8]) -> Option<Token>
    ensures { result ≡ name_token word.now }
{
    match keyword(word) {
        Some(mark) => Some(Token::Fixed(mark)),
        None => {
            if word.len() <= 30 {
                let name = Name::new(word)?;
                Some(Token::Named(name))
            } else {
                None
            }
        }
    }
}

fn word_token(word: &[u8]) -> Option<Token>
    ensures { result ≡ word_token word.now }
{
    match read_numeral(word) {
        Some(number) => Some(Token::Number(number)),
        None => name_token(word),
    }
}

/// A sign of two bytes.
fn pair_token(first: u8, second: u8) -> Option<Token>
    ensures { result ≡ pair_token first second }
{
    if second == b'=' {
        if first == b'=' {
            Some(Token::Sign(Operator::Equal))
        } else if first == b'!' {
            Some(Token::Sign(Operator::Unequal))
        } else if first == b'<' {
            Some(Token::Sign(Operator::AtMost))
        } else if first == b'>' {
            Some(Token::Sign(Operator::AtLeast))
        } else {
            None
        }
    } else if second == b'<' {
        if first == b'<' {
            Some(Token::Sign(Operator::ShiftLeft))
        } else {
            None
        }
    } else if second == b'>' {
        if first == b'>' {
            Some(Token::Sign(Operator::ShiftRight))
        } else {
            None
        }
    } else {
        None
    }
}

/// A sign of one byte.
fn sign_token(byte: u8) -> Option<Token>
    ensures { result ≡ sign_token byte }
{
    match byte {
        b'=' => Some(Token::Fixed(Mark::Assign)),
        b';' => Some(Token::Fixed(Mark::Semicolon)),
        b',' => Some(Token::Fixed(Mark::Comma)),
        b'(' => Some(Token::Fixed(Mark::OpenRound)),
        b')' => Some(Token::Fixed(Mark::CloseRound)),
        b'[' => Some(Token::Fixed(Mark::OpenSquare)),
        b']' => Some(Token::Fixed(Mark::CloseSquare)),
        b'{' => Some(Token::Fixed(Mark::OpenBrace)),
        b'}' => Some(Token::Fixed(Mark::CloseBrace)),
        b'<' => Some(Token::Sign(Operator::Less)),
        b'>' => Some(Token::Sign(Operator::Greater)),
        b'|' => Some(Token::Sign(Operator::BitOr)),
        b'^' => Some(Token::Sign(Operator::BitXor)),
        b'&' => Some(Token::Sign(Operator::BitAnd)),
        b'+' => Some(Token::Sign(Operator::Plus)),
        b'-' => Some(Token::Sign(Operator::Minus)),
        b'*' => Some(Token::Sign(Operator::Times)),
        b'/' => Some(Token::Sign(Operator::Quotient)),
        b'%' => Some(Token::Sign(Operator::Remainder)),
        _ => None,
    }
}

fn is_of_word(byte: u8) -> bool
    ensures { result ≡ are_of_word (byte ∷ []) }
{
    matches!(class_of(byte), Class::OfWord)
}

/// The bytes of a word, and what stands behind them.
fn split_word(text: &[u8]) -> (&[u8], &[u8])
    ensures cut { text.now ≡ result.0.now ++ result.1.now }
    ensures word { are_of_word result.0.now ≡ true }
    ensures end { ends_word result.1.now ≡ true }
{
    for (place, byte) in text.iter().enumerate() {
        if !is_of_word(*byte) {
            return text.split_at(place);
        }
    }
    (text, &[])
}

/// The bytes of a line, and its line feed with what stands behind it.
fn split_line(text: &[u8]) -> (&[u8], &[u8])
    ensures cut { text.now ≡ result.0.now ++ result.1.now }
    ensures line { are_of_line result.0.now ≡ true }
    ensures end { ends_line result.1.now ≡ true }
{
    for (place, byte) in text.iter().enumerate() {
        if *byte == b'\n' {
            return text.split_at(place);
        }
    }
    (text, &[])
}

fn begins_comment(first: u8, second: u8) -> bool
    ensures { result ≡ begins_comment first second }
{
    first == b'/' && second == b'/'
}

/// A sign, or a comment, that begins with this byte.
fn sign_piece(first: u8, after: &[u8]) -> (Piece, &[u8])
    requires { class_of first ≡ solid }
    ensures first { BeginsWith (first ∷ after.now) result.0 result.1.now }
    ensures shorter { length result.1.now ≤ length after.now }
{
    match after.split_first() {
        None => (Piece::Word(sign_token(first)), after),
        Some((second, rest)) => match pair_token(first, *second) {
            Some(token) => (Piece::Word(Some(token)), rest),
            None => {
                if begins_comment(first, *second) {
                    let (_, rest) = split_line(rest);
                    (Piece::Blank, rest)
                } else {
                    (Piece::Word(sign_token(first)), after)
                }
            }
        },
    }
}

/// What stands first in a text, and what stands behind it.
pub fn first_piece(text: &[u8]) -> Option<(Piece, &[u8])>
    ensures first { MatchOption result (text.now ≡ []) (λ p. BeginsWith text.now p.0 p.1.now) }
    ensures shorter { IfSome result (λ p. length p.1.now < length text.now) }
{
    let (byte, after) = text.split_first()?;
    match class_of(*byte) {
        Class::OfWord => {
            let (word, rest) = split_word(text);
            Some((Piece::Word(word_token(word)), rest))
        }
        Class::Feed => Some((Piece::LineFeed, after)),
        Class::Separator => Some((Piece::Blank, after)),
        Class::Solid => Some(sign_piece(*byte, after)),
    }
}
