//! Fields at a place of the bytes.

ghost use Rattle.std.specs.Prelude.{◌≡◌, ◌+◌, ◌<◌, ◌≤◌, length, take, drop, MatchOption};

/// The bytes from a place on, where so many are there.
pub fn array_at<const N: usize>(bytes: &[u8], at: usize) -> Option<[u8; N]>
    ensures { MatchOption result (length bytes.now < at + N) (λ field. (at + N ≤ length bytes.now) × (field ≡ take N (drop at bytes.now))) }
{
    let (_, behind) = bytes.split_at_checked(at)?;
    let (field, _) = behind.split_first_chunk::<N>()?;
    Some(*field)
}
