ghost use Rattle.std.specs.Prelude.{◌≡◌};

use oat_lines::{Fault, LineFault};

/// What can be wrong with a line of an owner's script.
#[derive(Clone, Copy)]
pub enum ScriptFaultKind {
    /// A wrong word, a wrong number of words, or malformed digits.
    Token,
    /// A number out of its limits, or a key or a nonce of another length.
    Number,
    /// The id of a device above.
    Twice,
    /// A device behind another line, one device too many, or another line without a device above. Where a
    /// script has no device, the line is the one after the last.
    Order,
}

/// Why a text is no script.
pub type ScriptFault = Fault<ScriptFaultKind>;

impl LineFault for ScriptFaultKind {
    ghost use Rattle.oat_script.specs.FaultText.{script_fault_word};

    ghost word = { script_fault_word };

    fn word(self) -> &'static str {
        match self {
            ScriptFaultKind::Token => "Token",
            ScriptFaultKind::Number => "Number",
            ScriptFaultKind::Twice => "Twice",
            ScriptFaultKind::Order => "Order",
        }
    }
}
