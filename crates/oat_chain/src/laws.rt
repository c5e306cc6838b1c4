//! Facts about digests, for proofs that rest on them: each function's contract is the fact.

ghost use Rattle.oat_chain.specs.Laws.{ChainLength, ClashExists, DigestLength, HeadLength};

/// A digest has 32 bytes.
pub fn digest_length()
    ensures { DigestLength }
{}

/// So has the chain of any list.
pub fn chain_length()
    ensures { ChainLength }
{}

/// A window's head has 50 bytes, and so isn't a link, which has 40.
pub fn head_length()
    ensures { HeadLength }
{}

/// Different lists of returns with one chain exhibit two different messages with one SHA-256 digest.
pub fn clash_exists()
    ensures { ClashExists }
{}
