ghost use Rattle.std.specs.Prelude.{◌≡◌, ◌↔◌, ◌+◌, ◌≤◌, map, length, take, drop, IsTrue, IfOk, MatchOption, Contains};
ghost use Rattle.std.specs.String.{string_bytes};
ghost use Rattle.std.specs.Str.Parse.{digits_value};
ghost use Rattle.oat_words.specs.declared.command.Command.{Command};
ghost use Rattle.oat_words.specs.Commands.{fixed_of, bounds_of, limits_of, IsNumber, AreNumbers, IsLine, numbers_of, commands};

use crate::command::{COMMANDS, Command};
use oat_lines::read_numeral;
use std::alloc::{AllocError, Global};

/// The most digits of a number.
const DIGITS: usize = 10;

/// Whether the words begin with these.
fn begin(words: &[String], fixed: &[&str]) -> bool
    requires { length fixed.now ≤ length words.now }
    ensures { IsTrue result ↔ (take (length fixed.now) (map string_bytes words.now) ≡ map (λ word. word.now) fixed.now) }
{
    for k in 0..fixed.len() {
        if words[k].as_str() != fixed[k] {
            return false;
        }
    }
    true
}

/// The number that a word is, if it is one and at most the bound.
fn number_in(word: &str, bound: u32) -> Option<u32>
    ensures { MatchOption result (¬ IsNumber bound word.now) (λ number. IsNumber bound word.now × (number ≡ digits_value 10 word.now)) }
{
    if word.len() > DIGITS {
        return None;
    }
    let number = read_numeral(word.as_bytes())?;
    if number > u64::from(bound) {
        return None;
    }
    Some(number as u32)
}

/// Whether the first of the words are numbers with these bounds.
fn are_numbers(words: &[String], bounds: &[u32]) -> bool
    requires { length bounds.now ≤ length words.now }
    ensures { IsTrue result ↔ AreNumbers bounds.now (map string_bytes words.now) }
{
    for k in 0..bounds.len() {
        if number_in(words[k].as_str(), bounds[k]).is_none() {
            return false;
        }
    }
    true
}

/// Whether there are as many words as a command has.
fn has_count(words: &[String], command: Command) -> bool
    ensures { IsTrue result ↔ (length words.now ≡ length (fixed_of command) + length (bounds_of command) + length (limits_of command)) }
{
    let lead = command.fixed().len() + command.bounds().len();
    words.len() >= lead && words.len() - lead == command.limits().len()
}

/// Whether the words are of a command.
fn is_line(words: &[String], command: Command) -> bool
    requires { Contains commands command }
    ensures { IsTrue result ↔ IsLine (map string_bytes words.now) command }
{
    if !has_count(words, command) {
        return false;
    }
    let fixed = command.fixed();
    if !begin(words, fixed) {
        return false;
    }
    are_numbers(&words[fixed.len()..], command.bounds())
}

/// The command that the words are of.
pub fn command_of(words: &[String]) -> Option<Command>
    ensures { MatchOption result ((command : Command) → ¬ IsLine (map string_bytes words.now) command)
        (IsLine (map string_bytes words.now)) }
{
    for command in COMMANDS {
        if is_line(words, command) {
            return Some(command);
        }
    }
    None
}

/// The numbers that the words spell.
pub fn numbers_of(alloc: Global, words: &[String], command: Command) -> Result<Vec<u32>, AllocError>
    requires { IsLine (map string_bytes words.now) command }
    ensures { IfOk result (λ numbers. numbers.items ≡ numbers_of (map string_bytes words.now) command) }
{
    let bounds = command.bounds();
    let words = &words[command.fixed().len()..];
    let mut numbers = Vec::new(alloc);
    for k in 0..bounds.len() {
        let number = number_in(words[k].as_str(), bounds[k]);
        numbers.push(number.unwrap())?;
    }
    Ok(numbers)
}

/// The words that name files.
pub fn names_of(words: &[String], command: Command) -> &[String]
    requires { IsLine (map string_bytes words.now) command }
    ensures names { map string_bytes result.now ≡ drop (length (fixed_of command) + length (bounds_of command)) (map string_bytes words.now) }
    ensures count { length result.now ≡ length (limits_of command) }
{
    &words[command.fixed().len() + command.bounds().len()..]
}
