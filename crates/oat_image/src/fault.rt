use oat_lines::{Fault, LineFault};

/// What can be wrong with a line of an image text.
#[derive(Clone, Copy)]
pub enum ImageFaultKind {
    /// A wrong word, number of words or spacing, a name that is none, a line or
    /// LF that is wanting, or a line too many.
    Token,
    /// A field whose digits or spelling are wrong, or a value that it can't have.
    Number,
    /// An index or address that isn't above the one before.
    Order,
    /// A count above its limit, or no word of code.
    Limit,
}

/// Why a text is no image.
pub type ImageFault = Fault<ImageFaultKind>;

impl LineFault for ImageFaultKind {
    ghost use Rattle.oat_image.specs.FaultText.{image_fault_word};

    ghost word = { image_fault_word };

    fn word(self) -> &'static str {
        match self {
            ImageFaultKind::Token => "Token",
            ImageFaultKind::Number => "Number",
            ImageFaultKind::Order => "Order",
            ImageFaultKind::Limit => "Limit",
        }
    }
}
