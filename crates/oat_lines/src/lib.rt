//! Lines, words and numbers of a text of bytes.
#![tactic(auto)]

mod fault;
mod field;
mod hexadecimal;
mod integer;
mod line;
mod number;
mod word;

pub use fault::{Fault, LineFault, at_line};
pub use field::{
    cut_at, read_field, read_four_fields, read_one_field, read_three_fields, read_two_fields,
};
pub use hexadecimal::{hexadecimal_text, lower_digits};
pub use integer::{IntegerFault, read_integer};
pub use line::first_line;
pub use number::{read_decimal, read_hexadecimal, read_numeral, value};
pub use word::{first_word, sole_word, three_words};
