ghost use Rattle.std.specs.Prelude.{◌≡◌, ◌≤◌, length, None, IfOk};
ghost use Rattle.std.specs.List.{All};

use crate::policy::{Pattern, Policy};
use crate::recent::{RECENT, RecentEdge, patterns_in, slot_of};
use crate::rule::Standing;
use crate::rules::{first_broken, follow};
use crate::verdict::PolicyVerdict;
use oat_report::{Edge, Map};
use std::alloc::{AllocError, Global};

/// The edges of a path so far, as a policy sees them. Of the edges it keeps a few that came lately, with the patterns that they match.
#[derive(Drop)]
pub struct Watch<'a> {
    policy: &'a Policy,
    map: &'a Map,
    given: u64,
    standings: Vec<Standing>,
    patterns: Vec<&'a Pattern>,
    recent: Vec<RecentEdge>,
    ghost short: { given ≤ 4194304 },
    ghost slots: { length recent.items ≡ 128 },
}

/// As many places as are kept, each without an edge.
fn no_edges(alloc: Global, patterns: usize) -> Result<Vec<RecentEdge>, AllocError>
    ensures count { IfOk result (λ recent. length recent.items ≡ 128) }
    ensures each { IfOk result (λ recent. All (λ kept. (kept.edge ≡ None) × (length kept.met.items ≡ patterns)) recent.items) }
{
    let mut recent = Vec::new(alloc);
    for k in 0..RECENT {
        recent.push(RecentEdge::none(alloc, patterns)?)?;
    }
    Ok(recent)
}

impl<'a> Watch<'a> {
    ghost use Rattle.std.specs.Prelude.{◌≡◌, ◌<◌, List, [], ◌∷◌, ◌++◌, IfOk};
    ghost use Rattle.oat_report.specs.{Map, Edge};
    ghost use Rattle.oat_policy.specs.declared.policy.PolicyRule.{PolicyRule};
    ghost use Rattle.oat_policy.specs.Standing.{HasSeen};
    ghost use Rattle.oat_policy.specs.Verdict.{verdict_of};

    /// Takes all the memory that watching needs.
    pub fn new(alloc: Global, policy: &'a Policy, map: &'a Map) -> Result<Watch<'a>, AllocError>
        ensures { IfOk result (λ watch. HasSeen watch policy.now map.now []) }
    {
        let start = Standing {
            count: 0,
            broken: None,
        };
        let patterns = patterns_in(alloc, policy)?;
        let recent = no_edges(alloc, patterns.len())?;
        Ok(Watch {
            policy,
            map,
            given: 0,
            standings: vec![in alloc; start; policy.len()]?,
            patterns,
            recent,
        })
    }

    /// Takes the path's next edge.
    pub fn edge(&mut self, edge: &Edge)
        requires room { self.old.given < 4194304 }
        ensures { (policy : List PolicyRule) (flow : Map) (path : List Edge) → HasSeen self.old policy flow path
            → HasSeen self.new policy flow (path ++ edge.now ∷ []) }
    {
        self.given += 1;
        let slot = slot_of(edge);
        self.recent[slot].keep(self.map, self.patterns.as_slice(), edge);
        follow(
            self.policy.as_slice(),
            self.given,
            self.recent[slot].met.as_slice(),
            &mut self.standings,
        );
    }

    /// The verdict on the edges that were given.
    pub fn finish(self) -> PolicyVerdict
        ensures { (policy : List PolicyRule) (flow : Map) (path : List Edge) → HasSeen self.entry policy flow path → result ≡ verdict_of flow policy path }
    {
        first_broken(
            self.policy.as_slice(),
            self.standings.as_slice(),
            self.given,
        )
    }
}
