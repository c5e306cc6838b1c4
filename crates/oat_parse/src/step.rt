//! Where a token leads, outside bodies and in them.

ghost use Rattle.std.specs.Prelude.{◌≡◌, IfOk, [], map, true};
ghost use Rattle.oat_grammar.specs.Machine.{between, next};
ghost use Rattle.oat_grammar.specs.Machine as machine;
ghost use Rattle.oat_grammar.specs.FirstFaults.{heading_range, range_of, is_within};
ghost use Rattle.oat_parse.specs.SeenPlaces.{seen_heading, seen_inside};
ghost use Rattle.oat_parse.specs.SeenBodies.{stmts_in, outer_in, behind_place};
ghost use Rattle.oat_parse.specs.Outsides.{outside_place};
ghost use Rattle.oat_parse.specs.Nexts.{place_of, NextAs, IsAt};

use crate::body::inside_next;
use crate::function::{Begun, Behind, Bodies, go_on};
use crate::heading::{Outside, heading_next, item_begins};
use crate::place::{Heading, Inside};
use oat_grammar::Token;
use oat_tree::Item;
use std::alloc::{AllocError, Global};

/// A place in a text.
#[derive(Drop)]
pub enum Place {
    Between,
    Heading(Heading),
    Inside(Begun, Inside),
}

/// Where a token leads.
#[derive(Drop)]
pub enum Next {
    Place(Place),
    /// Between items, behind this one.
    Item(Item),
}

fn between_next(alloc: Global, token: Token) -> Option<Next>
    ensures { NextAs result (λ is. next (between is) token) }
{
    let heading = item_begins(alloc, token)?;
    Some(Next::Place(Place::Heading(heading)))
}

fn outside(alloc: Global, step: Outside) -> Next
    ensures { IsAt result (λ is. outside_place is step) }
{
    match step {
        Outside::Heading(heading) => Next::Place(Place::Heading(heading)),
        Outside::Global(item) => Next::Item(Item::Global(item)),
        Outside::Body(role, name, params) => {
            let begun = Begun {
                role,
                name,
                params,
                open: Bodies::new(alloc),
                stmts: Vec::new(alloc),
            };
            Next::Place(Place::Inside(begun, Inside::Stmt))
        }
    }
}

fn outside_next(alloc: Global, heading: Heading, token: Token) -> Result<Option<Next>, AllocError>
    requires { is_within (heading_range (seen_heading heading)) token ≡ true }
    ensures { IfOk result (λ n. NextAs n (λ is. next (machine.heading is (seen_heading heading)) token)) }
{
    match heading_next(alloc, heading, token)? {
        Some(step) => Ok(Some(outside(alloc, step))),
        None => Ok(None),
    }
}

fn behind(step: Behind) -> Next
    ensures { IsAt result (λ is. behind_place is step) }
{
    match step {
        Behind::Within(begun, inside) => Next::Place(Place::Inside(begun, inside)),
        Behind::Whole(function) => Next::Item(Item::Function(function)),
    }
}

fn body_next(
    alloc: Global,
    begun: Begun,
    inside: Inside,
    token: Token,
) -> Result<Option<Next>, AllocError>
    ensures { IfOk result (λ n. NextAs n (λ is. next (machine.inside is (stmts_in begun) (outer_in begun) (seen_inside inside)) token)) }
{
    match inside_next(alloc, inside, token)? {
        Some(step) => Ok(Some(behind(go_on(alloc, begun, step)?))),
        None => Ok(None),
    }
}

/// Where the token leads from this place, where its number is in the place's range.
pub fn leads_to(alloc: Global, place: Place, token: Token) -> Result<Option<Next>, AllocError>
    requires { is_within (range_of (place_of [] place)) token ≡ true }
    ensures { IfOk result (λ n. NextAs n (λ is. next (place_of is place) token)) }
{
    match place {
        Place::Between => Ok(between_next(alloc, token)),
        Place::Heading(heading) => outside_next(alloc, heading, token),
        Place::Inside(begun, inside) => body_next(alloc, begun, inside, token),
    }
}
