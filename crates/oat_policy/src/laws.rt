//! Laws of policies: each function's contract is the law.

ghost use Rattle.oat_policy.specs.Laws.{WordsMakeTheLine, WordsSplitTheLine};

/// The path line of an edge is its words with one space between two, and its words are the line split at blanks.
pub fn words_of_lines()
    ensures made { WordsMakeTheLine }
    ensures split { WordsSplitTheLine }
{}
