ghost use Rattle.std.specs.Prelude.{◌≡◌};

use oat_lines::{Fault, LineFault};

/// What can be wrong with a line of a policy text.
#[derive(Clone, Copy)]
pub enum PolicyFaultKind {
    /// A wrong word, a wrong number of words, or a malformed pattern.
    Token,
    /// A malformed number, or one out of its limits.
    Number,
    /// One rule more than a policy may have.
    TooMany,
}

/// Why a text is no policy.
pub type PolicyFault = Fault<PolicyFaultKind>;

impl LineFault for PolicyFaultKind {
    ghost use Rattle.oat_policy.specs.FaultText.{policy_fault_word};

    ghost word = { policy_fault_word };

    fn word(self) -> &'static str {
        match self {
            PolicyFaultKind::Token => "Token",
            PolicyFaultKind::Number => "Number",
            PolicyFaultKind::TooMany => "TooMany",
        }
    }
}
