ghost use Rattle.std.specs.Prelude.{◌≡◌};
ghost use Rattle.oat_tree.specs.Levels.{level};

/// A sign between two operands.
#[derive(Clone, Copy, Debug, PartialEq, Eq)]
pub enum Operator {
    Equal,
    Unequal,
    Less,
    AtMost,
    Greater,
    AtLeast,
    BitOr,
    BitXor,
    BitAnd,
    ShiftLeft,
    ShiftRight,
    Plus,
    Minus,
    Times,
    Quotient,
    Remainder,
}

impl Operator {
    /// From loosest to tightest.
    pub fn level(self) -> u8
        ensures { result ≡ level self }
    {
        match self {
            Operator::Equal
            | Operator::Unequal
            | Operator::Less
            | Operator::AtMost
            | Operator::Greater
            | Operator::AtLeast => 0,
            Operator::BitOr => 1,
            Operator::BitXor => 2,
            Operator::BitAnd => 3,
            Operator::ShiftLeft | Operator::ShiftRight => 4,
            Operator::Plus | Operator::Minus => 5,
            Operator::Times | Operator::Quotient | Operator::Remainder => 6,
        }
    }
}
