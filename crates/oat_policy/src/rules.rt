//! How the rules of a policy stand while the edges of a path come in.

ghost use Rattle.std.specs.Prelude.{◌≡◌, ◌≤◌, List, length};
ghost use Rattle.oat_report.specs.{Map, Edge};
ghost use Rattle.oat_policy.specs.Standing.{all_patterns, patterns_of, standings, StandsNext};
ghost use Rattle.oat_policy.specs.Verdict.{verdict_of};

use crate::policy::{PathRule, PolicyRule};
use crate::rule::Standing;
use crate::verdict::PolicyVerdict;

/// How many patterns a rule has.
fn pattern_count(rule: &PathRule) -> usize
    ensures { result ≡ length (patterns_of rule.now) }
{
    match rule {
        PathRule::Never(_) | PathRule::Most(_, _) => 1,
        PathRule::Before(_, _) => 2,
        PathRule::Order(patterns) => patterns.len(),
    }
}

/// Each rule's standing behind one more edge, which meets these of the policy's patterns.
pub fn follow(rules: &[PolicyRule], place: u64, met: &[bool], states: &mut [Standing])
    ensures { StandsNext (λ flow path. standings flow path rules.now) place (all_patterns rules.now) met.now states.old states.new }
{
    let end = rules.len().min(states.len());
    let mut rest = met;
    for i in 0..end {
        let rule = &rules[i].rule;
        let (of_rule, others) = rest.split_at(pattern_count(rule).min(rest.len()));
        states[i] = states[i].behind(rule, place, of_rule);
        rest = others;
    }
}

/// The first rule that is broken by a path of so many edges.
pub fn first_broken(rules: &[PolicyRule], states: &[Standing], edges: u64) -> PolicyVerdict
    requires { edges ≤ 4194304 }
    ensures { (flow : Map) (path : List Edge) → edges ≡ length path → states.now ≡ standings flow path rules.now
        → result ≡ verdict_of flow rules.now path }
{
    let end = rules.len().min(states.len());
    for i in 0..end {
        if let Some(place) = states[i].broken_at(&rules[i].rule, edges) {
            return PolicyVerdict::Breaks {
                line: rules[i].line,
                place,
            };
        }
    }
    PolicyVerdict::Holds
}
