//! Laws of the instruction table, for every instruction and word.
ghost use Rattle.oat_a64.specs.Laws.{NoWordIsOfTwo, FetchesByTheTable};

/// No word is that of two instructions.
pub fn no_word_is_of_two()
    ensures { NoWordIsOfTwo }
{}

/// The instruction of a word is the one whose word it is.
pub fn fetches_by_the_table()
    ensures { FetchesByTheTable }
{}
