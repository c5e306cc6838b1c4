ghost use Rattle.std.specs.Prelude.{◌≡◌, ◌<◌, ◌≤◌, ◌+◌, ℕ, Bool, Option, List, [], ◌∷◌, ◌++◌, length, MatchOption, IfSome};
ghost use Rattle.oat_verify.specs.{Violation, Body, flag_place, IsBlob, version_part, violation_part};
ghost use Rattle.oat_feed.specs.RecordBytes.{bits_place};
ghost use Rattle.oat_feed.specs.Counts.{IsCountAt};

use crate::fields::array_at;

/// Where the records stand in bytes that begin a blob: a part whose count hasn't come is empty.
#[derive(Clone, Copy)]
pub struct RecordPlaces {
    pub bits_at: usize,
    pub bit_count: u32,
    pub targets_at: usize,
    pub target_count: u32,
}

const VERSION_AT: usize = 4;

/// The place of the flag, by the version.
fn flag_at(version: u8) -> usize
    ensures low { result ≤ 91 }
    ensures place { (numbered : Bool) → version ∷ [] ≡ version_part numbered → result ≡ flag_place numbered }
{
    if version == 2 { 91 } else { 87 }
}

/// How many bytes the flag and what it announces have.
fn flagged_size(flag: u8) -> usize
    ensures few { result ≤ 21 }
    ensures size { (violation : Option Violation) (rest : List ℕ) → flag ∷ rest ≡ violation_part violation → result ≡ length (violation_part violation) }
{
    if flag == 1 { 21 } else { 1 }
}

/// The bytes of a blob's head, where its flag has come.
fn head_size(front: &[u8]) -> Option<usize>
    ensures few { IfSome result (λ size. size ≤ 112) }
    ensures size { (body : Body) (mac rest : List ℕ) → IsBlob (front.now ++ rest) body mac
        → MatchOption result (length front.now < bits_place body) (λ size. size + 4 ≡ bits_place body) }
{
    let [version] = array_at::<1>(front, VERSION_AT)?;
    let flag_at = flag_at(version);
    let [flag] = array_at::<1>(front, flag_at)?;
    Some(flag_at + flagged_size(flag))
}

/// The number of records that stands at a place; none where its bytes haven't come.
fn count_at(front: &[u8], at: usize) -> u32
    ensures { IsCountAt front.now at result }
{
    match array_at(front, at) {
        Some(field) => u32::from_be_bytes(field),
        None => 0,
    }
}

impl RecordPlaces {
    ghost use Rattle.std.specs.Prelude.{◌≡◌, ◌+◌, ◌*◌, ◌/◌, ◌<◌, ◌≤◌, ◌^◌, ℕ, List, ◌++◌, length};
    ghost use Rattle.oat_verify.specs.{Body, IsBlob};
    ghost use Rattle.oat_feed.specs.RecordBytes.{bits_place, targets_place};
    ghost use Rattle.oat_feed.specs.RecordPlaces.{ShowsRecordPlaces, in_part};

    /// No records.
    pub const NONE: RecordPlaces = RecordPlaces {
        bits_at: 0,
        bit_count: 0,
        targets_at: 0,
        target_count: 0,
    };

    /// The places in bytes that begin a blob.
    pub fn of(front: &[u8]) -> RecordPlaces
        ensures { ShowsRecordPlaces front.now result }
    {
        let Some(size) = head_size(front) else {
            return RecordPlaces::NONE;
        };
        let bits_at = size + 4;
        let bit_count = count_at(front, size);
        let bits_end = bits_at + (bit_count as usize).div_ceil(8);
        RecordPlaces {
            bits_at,
            bit_count,
            targets_at: bits_end + 4,
            target_count: count_at(front, bits_end),
        }
    }

    /// How many of the first `length` bytes are record bytes.
    pub fn records_in(&self, length: usize) -> usize
        ensures { result ≡ in_part length self.now.bits_at ((self.now.bit_count + 7) / 8) + in_part length self.now.targets_at (self.now.target_count * 8) }
    {
        let bits = length.saturating_sub(self.bits_at);
        let targets = length.saturating_sub(self.targets_at);
        bits.min((self.bit_count as usize).div_ceil(8))
            + targets.min(self.target_count as usize * 8)
    }
}
