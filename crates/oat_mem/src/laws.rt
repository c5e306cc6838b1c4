//! Laws of words in memory, each the contract of a function that does nothing.
ghost use Rattle.oat_mem.specs.DataMemory.{MemoryStaysBytes, OtherWordsStay, WordsAreBounded, WordsReadBack};

/// A word that was written is read back.
pub fn words_read_back()
    ensures { WordsReadBack }
{}

/// A word elsewhere stays as it was.
pub fn other_words_stay()
    ensures { OtherWordsStay }
{}

/// A word of bytes is below 2^64.
pub fn words_are_bounded()
    ensures { WordsAreBounded }
{}

/// Memory stays bytes where bytes, or a word, are written.
pub fn memory_stays_bytes()
    ensures { MemoryStaysBytes }
{}
