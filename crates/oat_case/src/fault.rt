ghost use Rattle.std.specs.Prelude.{◌≡◌};

use oat_lines::{Fault, LineFault};

/// What can be wrong with a line of a case text.
#[derive(Clone, Copy)]
pub enum CaseFaultKind {
    /// A wrong word, a wrong number of words, or malformed digits.
    Token,
    /// A statement is wanting; the line is the one after the last.
    Missing,
    /// A statement that was made before.
    Twice,
    /// A number or a length out of its limits.
    Range,
    /// A write before an instruction that is earlier than that of the write above.
    Order,
    /// A write that isn't wholly in one region of data memory.
    OutsideData,
}

/// Why a text is no case.
pub type CaseFault = Fault<CaseFaultKind>;

impl LineFault for CaseFaultKind {
    ghost use Rattle.oat_case.specs.FaultText.{case_fault_word};

    ghost word = { case_fault_word };

    fn word(self) -> &'static str {
        match self {
            CaseFaultKind::Token => "Token",
            CaseFaultKind::Missing => "Missing",
            CaseFaultKind::Twice => "Twice",
            CaseFaultKind::Range => "Range",
            CaseFaultKind::Order => "Order",
            CaseFaultKind::OutsideData => "OutsideData",
        }
    }
}
