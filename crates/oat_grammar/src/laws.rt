//! What holds of words, texts and trees.

ghost use Rattle.std.specs.Prelude.{◌≡◌, ◌≤◌, ℕ, true, List, [], ◌∷◌, ◌++◌, map, length, Some, Ok, Err};
ghost use Rattle.oat_grammar.specs.declared.token.Token.{Token};
ghost use Rattle.oat_tree.specs.Syntax.{Item};
ghost use Rattle.oat_grammar.specs.Grammar.{IsText};
ghost use Rattle.oat_grammar.specs.Machine.{Place, between, next, goes};
ghost use Rattle.oat_grammar.specs.Texts.{GoesOn, token_of, IsRead, IsUnexpected};
ghost use Rattle.oat_grammar.specs.Spots.{Spot, spot, spots, IsSpotted};
ghost use Rattle.oat_grammar.specs.Words.{are_words};
ghost use Rattle.oat_grammar.specs.Spelling.{tokens_text};
ghost use Rattle.oat_grammar.specs.Printing.{text_tokens};
ghost use Rattle.oat_grammar.specs.Nodes.{AllShort, StayShort, fresh};
ghost use Rattle.oat_tree.specs.Sizes.{tree_size};
ghost use Rattle.oat_grammar.specs.Ranges.{TreeFits};
ghost use Rattle.oat_grammar.specs.Mentions.{mentions, mention_lines};
ghost use Rattle.oat_grammar.specs.FirstFaults.{is_expected, FirstFault, first_fault, first_reading};

/// A text has one list of words.
pub fn one_list_of_words()
    ensures words { (text : List ℕ) → IsSpotted 1 text (spots text) }
    ensures one { (text : List ℕ) (ss : List Spot) → IsSpotted 1 text ss → spots text ≡ ss }
{}

/// A list of tokens is the text of one tree at most.
pub fn one_tree()
    ensures { (ts : List Token) (a b : List Item) → IsText ts a → IsText ts b → a ≡ b }
{}

/// The machine ends between items exactly where the tokens are a text of the grammar, and then has its tree.
pub fn texts_are_read()
    ensures read { (ts : List Token) (tree : List Item) → IsText ts tree → goes ts (between []) ≡ Some (between tree) }
    ensures text { (ts : List Token) (tree : List Item) → goes ts (between []) ≡ Some (between tree) → IsText ts tree }
{}

/// The machine stops at the first token with which no text of the grammar goes on.
pub fn first_unexpected()
    ensures before { (ts : List Token) (p : Place) → goes ts (between []) ≡ Some p → GoesOn ts }
    ensures there { (ts : List Token) (p : Place) (t : Token) → goes ts (between []) ≡ Some p → next p t ≡ None → GoesOn (ts ++ t ∷ []) → ⊥ }
{}

/// The count of nodes, token by token, passes 255 exactly where a statement has more.
pub fn statements_are_short()
    ensures short { (ts : List Token) (tree : List Item) → IsText ts tree → StayShort fresh ts → AllShort tree }
    ensures stays { (ts : List Token) (tree : List Item) → IsText ts tree → AllShort tree → StayShort fresh ts }
{}

/// What the first reading answers.
pub fn first_reading_is_exact()
    ensures read { (text : List ℕ) (tree : List Item) → first_reading text ≡ Ok tree → IsRead text tree }
    ensures back { (text : List ℕ) (tree : List Item) → IsRead text tree → first_reading text ≡ Ok tree }
    ensures unexpected { (text : List ℕ) (line : ℕ) → first_reading text ≡ Err (first_fault line is_expected) → IsUnexpected (map token_of (spots text)) }
{}

/// Every tree that has a text has the one that is printed of it, and what is spelled has these tokens as its words.
pub fn printed_is_read()
    ensures printed { (ts : List Token) (tree : List Item) → IsText ts tree → IsText (text_tokens tree) tree }
    ensures spelled { (ts : List Token) → are_words ts ≡ true → spots (tokens_text ts) ≡ map (λ t. spot 1 (Some t)) ts }
{}

/// A tree is no larger than its text.
pub fn trees_are_small()
    ensures tokens { (ts : List Token) (tree : List Item) → IsText ts tree → tree_size tree ≤ length ts }
    ensures bytes { (text : List ℕ) (tree : List Item) → first_reading text ≡ Ok tree → tree_size tree ≤ length text }
{}

/// Names of a tree that was read are free ones, and its numbers are in their ranges.
pub fn trees_fit()
    ensures { (text : List ℕ) (tree : List Item) → first_reading text ≡ Ok tree → TreeFits tree }
{}

/// Where all words are tokens, each that a fault may name has its line.
pub fn mentions_have_lines()
    ensures { (text : List ℕ) (ts : List Token) → map token_of (spots text) ≡ map Some ts → length (mention_lines text) ≡ length (mentions ts) }
{}
