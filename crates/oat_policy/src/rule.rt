//! How one rule stands while the edges of a path come in.

ghost use Rattle.std.specs.Prelude.{◌≡◌, ℕ, ◌+◌, ◌^◌, ◌<◌, ◌≤◌, nat_lt, List, length, Some, None, if◌then◌else◌};
ghost use Rattle.std.specs.Option.{option_or};
ghost use Rattle.oat_report.specs.{Map, Edge, TextWord};
ghost use Rattle.oat_policy.specs.Rules.{broken_at};
ghost use Rattle.oat_policy.specs.Standing.{counts, forbids_behind, is_met, met_of, patterns_of, standing, StandsNext};

use crate::policy::PathRule;

/// What is kept of one rule.
#[derive(Clone, Copy)]
pub struct Standing {
    /// How many edges so far count: that match, or of an order the patterns that were matched in turn.
    pub count: usize,
    /// The place of the first edge that the rule forbids.
    pub broken: Option<u64>,
}

/// Whether the pattern of this number is met; one that isn't there isn't.
fn is_met(met: &[bool], number: usize) -> bool
    ensures { result ≡ is_met met.now number }
{
    match met.get(number) {
        Some(met) => *met,
        None => false,
    }
}

/// Whether an edge that meets these of the rule's patterns counts behind so many that do.
fn counts(rule: &PathRule, count: usize, met: &[bool]) -> bool
    ensures { (words : List TextWord) → met.now ≡ met_of words (patterns_of rule.now) → result ≡ counts rule.now count words }
{
    match rule {
        PathRule::Never(_) => false,
        PathRule::Before(_, _) | PathRule::Most(_, _) => is_met(met, 0),
        PathRule::Order(_) => is_met(met, count),
    }
}

/// Whether the rule forbids an edge that meets these of its patterns behind so many that count.
fn forbids(rule: &PathRule, count: usize, met: &[bool]) -> bool
    ensures { (words : List TextWord) → met.now ≡ met_of words (patterns_of rule.now) → result ≡ forbids_behind rule.now count words }
{
    match rule {
        PathRule::Never(_) => is_met(met, 0),
        PathRule::Before(_, _) => count == 0 && is_met(met, 1),
        PathRule::Most(limit, _) => count == *limit as usize && is_met(met, 0),
        PathRule::Order(_) => false,
    }
}

fn next_count(count: usize, is_counted: bool) -> usize
    ensures { count + 1 < 2 ^ 64 → result ≡ (if is_counted then count + 1 else count) }
{
    if is_counted {
        count.saturating_add(1)
    } else {
        count
    }
}

/// The place where an order breaks of which so many patterns were matched.
fn broken_order(count: usize, patterns: usize, edges: u64) -> Option<u64>
    requires { edges ≤ 4194304 }
    ensures { result ≡ (if nat_lt count patterns then Some (edges + 1) else None) }
{
    if count < patterns {
        Some(edges + 1)
    } else {
        None
    }
}

impl Standing {
    /// The first place so far that the rule forbids, with an edge at `place` that meets these of its patterns.
    fn broken_behind(self, rule: &PathRule, place: u64, met: &[bool]) -> Option<u64>
        ensures { (words : List TextWord) → met.now ≡ met_of words (patterns_of rule.now)
            → result ≡ option_or self.broken (if forbids_behind rule.now self.count words then Some place else None) }
    {
        match self.broken {
            Some(first) => Some(first),
            None if forbids(rule, self.count, met) => Some(place),
            None => None,
        }
    }

    /// How the rule stands behind an edge at this place, counted from 1, that meets these of its patterns.
    pub fn behind(self, rule: &PathRule, place: u64, met: &[bool]) -> Standing
        ensures { StandsNext (λ flow path. standing flow path rule.now) place (patterns_of rule.now) met.now self result }
    {
        let is_counted = counts(rule, self.count, met);
        Standing {
            count: next_count(self.count, is_counted),
            broken: self.broken_behind(rule, place, met),
        }
    }

    /// The place where a path of so many edges breaks the rule.
    pub fn broken_at(self, rule: &PathRule, edges: u64) -> Option<u64>
        requires { edges ≤ 4194304 }
        ensures { (flow : Map) (path : List Edge) → edges ≡ length path → self ≡ standing flow path rule.now → result ≡ broken_at flow rule.now path }
    {
        match rule {
            PathRule::Never(_) | PathRule::Before(_, _) | PathRule::Most(_, _) => self.broken,
            PathRule::Order(patterns) => broken_order(self.count, patterns.len(), edges),
        }
    }
}
