ghost use Rattle.std.specs.Prelude.{◌≡◌};
ghost use Rattle.oat_shape.specs.Lowest.{lower, noted};

/// The lower of two addresses, where there are any.
pub(crate) fn lower(first: Option<u64>, second: Option<u64>) -> Option<u64>
    ensures { result ≡ lower first second }
{
    match (first, second) {
        (Some(one), Some(other)) if one <= other => Some(one),
        (Some(_), Some(other)) => Some(other),
        (Some(one), None) => Some(one),
        (None, other) => other,
    }
}

/// The lowest address at which an item broke a rule, behind one more item.
pub(crate) fn note(lowest: Option<u64>, keeps: bool, at: u64) -> Option<u64>
    ensures { result ≡ noted lowest keeps at }
{
    if keeps {
        lowest
    } else {
        lower(lowest, Some(at))
    }
}
