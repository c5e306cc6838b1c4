//! Facts about the layout of blobs, for proofs that rest on them: each function's contract is the
//! fact.

ghost use Rattle.oat_blob.specs.Laws.{NoProperPrefix, OneBody, PlainLength};

/// No blob is a proper prefix of another.
pub fn no_proper_prefix()
    ensures { NoProperPrefix }
{}

/// A blob determines its body and its MAC.
pub fn one_body()
    ensures { OneBody }
{}

/// A blob without violation and records has 128 bytes, and 132 with a serial number.
pub fn plain_length()
    ensures { PlainLength }
{}
