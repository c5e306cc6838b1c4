//! Which patterns the edges that came lately match.

ghost use Rattle.std.specs.Prelude.{◌≡◌, ◌<◌, ◌++◌, ◌∷◌, [], length, map, Some, OnOk, IfOk};
ghost use Rattle.oat_policy.specs.EdgeWords.{edge_words};
ghost use Rattle.oat_policy.specs.Pieces.{path_word};
ghost use Rattle.oat_policy.specs.Standing.{all_patterns, met_of, patterns_of, IsRecent};

use crate::matching::meets_each;
use crate::policy::{PathRule, Pattern, Policy};
use crate::words::{DigitRoom, PathWord, words_of};
use oat_report::{Edge, Map};
use std::alloc::{AllocError, Global};

/// An edge, and whether it matches each of a policy's patterns.
#[derive(Drop)]
pub struct RecentEdge {
    pub edge: Option<Edge>,
    pub met: Vec<bool>,
}

fn push_patterns<'a>(patterns: &mut Vec<&'a Pattern>, rule: &'a PathRule) -> Result<(), AllocError>
    ensures { OnOk result (map (λ pattern. pattern.now) patterns.new.items ≡ map (λ pattern. pattern.now) patterns.old.items ++ patterns_of rule.now) }
{
    match rule {
        PathRule::Never(pattern) | PathRule::Most(_, pattern) => patterns.push(pattern)?,
        PathRule::Before(first, second) => {
            patterns.push(first)?;
            patterns.push(second)?;
        }
        PathRule::Order(in_turn) => {
            for pattern in in_turn.as_slice() {
                patterns.push(pattern)?;
            }
        }
    }
    Ok(())
}

/// The patterns of all rules, in their order.
pub fn patterns_in(alloc: Global, policy: &Policy) -> Result<Vec<&Pattern>, AllocError>
    ensures { IfOk result (λ patterns. map (λ pattern. pattern.now) patterns.items ≡ all_patterns policy.now) }
{
    let mut patterns = Vec::new(alloc);
    for rule in policy.as_slice() {
        push_patterns(&mut patterns, &rule.rule)?;
    }
    Ok(patterns)
}

/// Tells for each pattern whether these words meet it.
fn meet(patterns: &[&Pattern], words: &[PathWord<'_>], met: &mut [bool])
    ensures { length met.old ≡ length patterns.now → met.new ≡ met_of (map path_word words.now) (map (λ pattern. pattern.now) patterns.now) }
{
    let end = patterns.len().min(met.len());
    for i in 0..end {
        met[i] = meets_each(patterns[i], words);
    }
}

/// Tells for each pattern whether an edge matches it.
fn meet_edge(flow: &Map, patterns: &[&Pattern], edge: &Edge, met: &mut [bool])
    ensures { length met.old ≡ length patterns.now → met.new ≡ met_of (edge_words flow.now edge.now) (map (λ pattern. pattern.now) patterns.now) }
{
    let mut digits = DigitRoom::new();
    let words = words_of(flow, edge, &mut digits);
    meet(patterns, words.as_slice(), met);
}

impl RecentEdge {
    /// No edge, with room for so many patterns.
    pub fn none(alloc: Global, patterns: usize) -> Result<RecentEdge, AllocError>
        ensures none { IfOk result (λ recent. recent.edge ≡ None) }
        ensures room { IfOk result (λ recent. length recent.met.items ≡ patterns) }
    {
        Ok(RecentEdge {
            edge: None,
            met: vec![in alloc; false; patterns]?,
        })
    }

    /// Keeps what an edge matches; where it is the edge that is kept, there is nothing to do.
    pub fn keep(&mut self, flow: &Map, patterns: &[&Pattern], edge: &Edge)
        ensures edge { self.new.edge ≡ Some edge.now }
        ensures met { IsRecent flow.now (map (λ pattern. pattern.now) patterns.now) self.old
            → IsRecent flow.now (map (λ pattern. pattern.now) patterns.now) self.new }
    {
        if self.edge != Some(*edge) {
            meet_edge(flow, patterns, edge, &mut self.met);
            self.edge = Some(*edge);
        }
    }
}

/// How many edges are kept.
pub const RECENT: usize = 128;

/// Where an edge is kept, so that those of a loop of code have places of their own.
pub fn slot_of(edge: &Edge) -> usize
    ensures { result < 128 }
{
    let key = match *edge {
        Edge::Jump { from, to }
        | Edge::Branch { from, to, .. }
        | Edge::Call { from, to }
        | Edge::ICall { from, to }
        | Edge::Ret { from, to }
        | Edge::Stray { from, to } => from.wrapping_add(to.wrapping_mul(5)),
        Edge::End { op } => u64::from(op),
    };
    (key / 4 % 128) as usize
}
