use oat_lines::{Fault, LineFault};

/// What can be wrong with a line of a program text.
#[derive(Clone, Copy)]
pub enum TextFaultKind {
    /// A byte that isn't ASCII and printable, or a malformed name, parameter or type.
    Token,
    /// A first word that can't stand here, or a wrong number of words. Where the text ends inside a
    /// function, the line is the one after the last.
    Expected,
    /// A number that is misspelled or out of its range.
    Number,
    /// A name or a number of an operation that was given before, or a second `main`.
    Duplicate,
    /// A name of nothing that the program declares.
    Unknown,
}

/// Why a text is no program's.
pub type TextFault = Fault<TextFaultKind>;

impl LineFault for TextFaultKind {
    ghost use Rattle.oat_text.specs.FaultText.{kind_text};

    ghost word = { kind_text };

    fn word(self) -> &'static str {
        match self {
            TextFaultKind::Token => "Token",
            TextFaultKind::Expected => "Expected",
            TextFaultKind::Number => "Number",
            TextFaultKind::Duplicate => "Duplicate",
            TextFaultKind::Unknown => "Unknown",
        }
    }
}
