//! The grammar of the structured language: words, texts and trees.
#![tactic(auto)]

mod laws;
mod token;

pub use laws::{
    first_reading_is_exact, first_unexpected, mentions_have_lines, one_list_of_words, one_tree,
    printed_is_read, statements_are_short, texts_are_read, trees_are_small, trees_fit,
};
pub use token::{Mark, Token};
