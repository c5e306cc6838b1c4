ghost use Rattle.std.specs.Prelude.{◌≡◌, ◌≤◌, length, option_map};
ghost use Rattle.std.specs.Str.{bytes_eq};
ghost use Rattle.oat_report.specs.{Gives, words_of, is_comment};
ghost use Rattle.oat_policy.specs.Reading.{pair, never_line, before_line, most_line, order_line, rule_line, line_of, policy_of};

use crate::fault::{PolicyFault, PolicyFaultKind};
use crate::pattern::{limit_at, pattern_at, patterns_at};
use crate::policy::{PathRule, Policy, PolicyRule};
use oat_lines::{first_line, first_word, sole_word};
use oat_report::Listed;
use std::alloc::Global;

/// The words of a line with just two.
fn two_words(line: &[u8]) -> Option<(&[u8], &[u8])>
    ensures { option_map (λ p. (p.0.now, p.1.now)) result ≡ pair (words_of line.now) }
{
    let (first, rest) = first_word(line)?;
    let second = sole_word(rest)?;
    Some((first, second))
}

fn is_word(word: &[u8], wanted: &[u8]) -> bool
    ensures { result ≡ bytes_eq word.now wanted.now }
{
    word == wanted
}

fn begins_comment(word: &[u8]) -> bool
    ensures { result ≡ is_comment word.now }
{
    !word.is_empty() && word[0] == b';'
}

#[tactic(auto, unfolding(crate::specs::Reading::never_line))]
fn read_never(alloc: Global, line: u32, words: &[u8]) -> Result<PathRule, PolicyFault>
    ensures { Gives (λ rule. rule) result (never_line line (words_of words.now)) }
{
    let word = sole_word(words).ok_or(PolicyFault::At(line, PolicyFaultKind::Token))?;
    Ok(PathRule::Never(pattern_at(alloc, line, word)?))
}

#[tactic(auto, unfolding(crate::specs::Reading::before_line))]
fn read_before(alloc: Global, line: u32, words: &[u8]) -> Result<PathRule, PolicyFault>
    ensures { Gives (λ rule. rule) result (before_line line (words_of words.now)) }
{
    let (first, second) = two_words(words).ok_or(PolicyFault::At(line, PolicyFaultKind::Token))?;
    let first = pattern_at(alloc, line, first)?;
    let second = pattern_at(alloc, line, second)?;
    Ok(PathRule::Before(first, second))
}

#[tactic(auto, unfolding(crate::specs::Reading::most_line))]
fn read_most(alloc: Global, line: u32, words: &[u8]) -> Result<PathRule, PolicyFault>
    ensures { Gives (λ rule. rule) result (most_line line (words_of words.now)) }
{
    let (limit, word) = two_words(words).ok_or(PolicyFault::At(line, PolicyFaultKind::Token))?;
    let pattern = pattern_at(alloc, line, word)?;
    let limit = limit_at(line, limit)?;
    Ok(PathRule::Most(limit, pattern))
}

#[tactic(auto, unfolding(crate::specs::Reading::order_line))]
fn read_order(alloc: Global, line: u32, words: &[u8]) -> Result<PathRule, PolicyFault>
    ensures { Gives (λ rule. rule) result (order_line line (words_of words.now)) }
{
    let patterns = patterns_at(alloc, line, words)?;
    if patterns.is_empty() || patterns.len() > 16 {
        return Err(PolicyFault::At(line, PolicyFaultKind::Token));
    }
    Ok(PathRule::Order(Listed::from_vec(patterns)))
}

#[tactic(auto, unfolding(crate::specs::Reading::rule_line))]
fn read_rule(
    alloc: Global,
    line: u32,
    keyword: &[u8],
    words: &[u8],
) -> Result<PathRule, PolicyFault>
    ensures { Gives (λ rule. rule) result (rule_line line keyword.now (words_of words.now)) }
{
    if is_word(keyword, b"never") {
        read_never(alloc, line, words)
    } else if is_word(keyword, b"before") {
        read_before(alloc, line, words)
    } else if is_word(keyword, b"most") {
        read_most(alloc, line, words)
    } else if is_word(keyword, b"order") {
        read_order(alloc, line, words)
    } else {
        Err(PolicyFault::At(line, PolicyFaultKind::Token))
    }
}

/// Adds the rule that a line says, or skips the line.
#[tactic(auto, unfolding(crate::specs::Reading::line_of))]
fn take_line(
    alloc: Global,
    rules: &mut Vec<PolicyRule>,
    number: u32,
    line: &[u8],
) -> Result<(), PolicyFault>
    ensures { Gives (λ _. rules.new.items) result (line_of number rules.old.items (words_of line.now)) }
{
    let Some((first, words)) = first_word(line) else {
        return Ok(());
    };
    if begins_comment(first) {
        return Ok(());
    }
    if rules.len() >= 64 {
        return Err(PolicyFault::At(number, PolicyFaultKind::TooMany));
    }
    let rule = read_rule(alloc, number, first, words)?;
    rules.push(PolicyRule { line: number, rule })?;
    Ok(())
}

/// The policy that a text stands for.
pub fn read_policy(alloc: Global, text: &[u8]) -> Result<Policy, PolicyFault>
    requires { length text.now ≤ 65536 }
    ensures exact { Gives (λ policy. policy) result (policy_of text.now) }
{
    let mut rules = Vec::new(alloc);
    let mut number: u32 = 1;
    let mut rest = text;
    'lines: while !rest.is_empty() {
        let (line, after) = first_line(rest);
        take_line(alloc, &mut rules, number, line)?;
        number += 1;
        rest = after;
    }
    Ok(Listed::from_vec(rules))
}
