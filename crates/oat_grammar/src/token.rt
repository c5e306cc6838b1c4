//! The words of a text.

ghost use Rattle.std.specs.Prelude.{◌≡◌};
ghost use Rattle.oat_grammar.specs.Machine.{is_fixed};

use oat_map::Name;
use oat_tree::Operator;

/// A word or sign that always means the same.
#[derive(Clone, Copy, PartialEq, Eq)]
pub enum Mark {
    Global,
    Critical,
    Array,
    Fn,
    Operation,
    Main,
    Var,
    If,
    Else,
    While,
    Out,
    Return,
    Halt,
    In,
    Assign,
    Semicolon,
    Comma,
    OpenRound,
    CloseRound,
    OpenSquare,
    CloseSquare,
    OpenBrace,
    CloseBrace,
}

/// A word of a text. The minus before one operand is the operator's.
#[derive(Drop)]
pub enum Token {
    Named(Name),
    Number(u64),
    Fixed(Mark),
    Sign(Operator),
}

impl Token {
    /// Whether it is this word or sign.
    pub fn is(&self, mark: Mark) -> bool
        ensures { result ≡ is_fixed mark self.now }
    {
        match self {
            Token::Fixed(own) => *own == mark,
            _ => false,
        }
    }
}
