//! Laws of the definitions: each function's contract is the law.
ghost use Rattle.oat_bits.specs.Field.{ReadsBack, KeepsOthers};
ghost use Rattle.oat_bits.specs.PackedLaws.{OnePackedForm, PackedHolds, PackedLength};
ghost use Rattle.oat_bits.specs.WordLaws.{ResultsAreWords, RemaindersAreLeft, SignedReadsBack};

/// A field that was written reads as what was written.
pub fn reads_back()
    ensures { ReadsBack }
{}

/// Each bit outside a field that was written stays.
pub fn keeps_others()
    ensures { KeepsOthers }
{}

/// Bytes are the packed form of at most one list of a given length.
pub fn one_packed_form()
    ensures { OnePackedForm }
{}

/// A packed form has a byte for each eight bits, and one for what is left.
pub fn packed_length()
    ensures { PackedLength }
{}

/// The bits that a packed form holds are those that it is of.
pub fn packed_holds()
    ensures { PackedHolds }
{}

/// What a word is divided by or shifted by, the result is a word.
pub fn results_are_words()
    ensures { ResultsAreWords }
{}

/// The integer that a word stands for is written as that word.
pub fn signed_reads_back()
    ensures { SignedReadsBack }
{}

/// A remainder is what the quotient times the divisor leaves.
pub fn remainders_are_left()
    ensures { RemaindersAreLeft }
{}
