//! What is counted of the tokens: nesting, nodes of a statement, and the ranges of numbers.

ghost use Rattle.std.specs.Prelude.{◌≡◌, ◌≤◌, []};
ghost use Rattle.oat_grammar.specs.Nodes.{nodes_in, weight, is_boundary, within, part_next};
ghost use Rattle.oat_grammar.specs.FirstFaults.{heading_range, range_of, is_within, opens, shuts, depth_behind};
ghost use Rattle.oat_parse.specs.SeenPlaces.{seen_heading};
ghost use Rattle.oat_parse.specs.Nexts.{place_of};
ghost use Rattle.oat_parse.specs.Parts.{seen_part, seen_range};

use crate::place::Heading;
use crate::step::Place;
use oat_grammar::{Mark, Token};

/// What has come of a statement since the last `;`, `{` or `}`.
#[derive(Clone, Copy)]
pub enum Part {
    Fresh,
    BehindVar,
    BehindName,
    /// So many nodes.
    Counted(u32),
}

pub fn nodes_in(part: Part) -> u32
    ensures { result ≡ nodes_in (seen_part part) }
{
    match part {
        Part::Counted(nodes) => nodes,
        Part::Fresh | Part::BehindVar | Part::BehindName => 0,
    }
}

fn weight(token: &Token) -> u32
    ensures weight { result ≡ weight token.now }
    ensures small { result ≤ 1 }
{
    match token {
        Token::Named(_) | Token::Number(_) | Token::Sign(_) => 1,
        Token::Fixed(Mark::In) => 1,
        Token::Fixed(_) => 0,
    }
}

fn is_boundary(token: &Token) -> bool
    ensures { result ≡ is_boundary token.now }
{
    match token {
        Token::Fixed(Mark::Semicolon | Mark::OpenBrace | Mark::CloseBrace) => true,
        _ => false,
    }
}

fn within(nodes: u32, token: &Token) -> Part
    requires { nodes ≤ 255 }
    ensures { seen_part result ≡ within nodes token.now }
{
    if is_boundary(token) {
        Part::Fresh
    } else {
        Part::Counted(nodes + weight(token))
    }
}

/// The part behind one more token.
pub fn part_next(part: Part, token: &Token) -> Part
    requires { nodes_in (seen_part part) ≤ 255 }
    ensures { seen_part result ≡ part_next (seen_part part) token.now }
{
    match part {
        Part::Fresh => match token {
            Token::Fixed(Mark::Var) => Part::BehindVar,
            Token::Named(_) => Part::BehindName,
            _ => within(0, token),
        },
        Part::BehindVar => match token {
            Token::Named(_) => Part::Counted(0),
            _ => within(0, token),
        },
        Part::BehindName => match token {
            Token::Fixed(Mark::OpenRound) => Part::Counted(1),
            _ => within(0, token),
        },
        Part::Counted(nodes) => within(nodes, token),
    }
}

pub fn opens(token: &Token) -> bool
    ensures { result ≡ opens token.now }
{
    match token {
        Token::Fixed(Mark::OpenRound | Mark::OpenSquare | Mark::OpenBrace) => true,
        _ => false,
    }
}

fn shuts(token: &Token) -> bool
    ensures { result ≡ shuts token.now }
{
    match token {
        Token::Fixed(Mark::CloseRound | Mark::CloseSquare | Mark::CloseBrace) => true,
        _ => false,
    }
}

/// How many brackets and braces are open behind one more token.
pub fn depth_behind(depth: u32, token: &Token) -> u32
    requires { depth ≤ 64 }
    ensures { result ≡ depth_behind depth token.now }
{
    if opens(token) {
        depth + 1
    } else if shuts(token) {
        depth.saturating_sub(1)
    } else {
        depth
    }
}

/// The least and the greatest number of a range.
#[derive(Clone, Copy)]
struct Range {
    least: u64,
    most: u64,
}

fn heading_range(heading: &Heading) -> Range
    ensures { seen_range result ≡ heading_range (seen_heading heading.now) }
{
    match heading {
        Heading::Minus(_, _) => Range {
            least: 0,
            most: 1 << 63,
        },
        Heading::Length(true, _) => Range {
            least: 1,
            most: 4096,
        },
        Heading::Length(false, _) => Range {
            least: 1,
            most: 65_536,
        },
        Heading::Id => Range {
            least: 1,
            most: 65_535,
        },
        _ => Range {
            least: 0,
            most: (1 << 63) - 1,
        },
    }
}

fn range_of(place: &Place) -> Range
    ensures { seen_range result ≡ range_of (place_of [] place.now) }
{
    match place {
        Place::Heading(heading) => heading_range(heading),
        Place::Between | Place::Inside(_, _) => Range {
            least: 0,
            most: (1 << 63) - 1,
        },
    }
}

/// Whether a number may stand at the place as far as its range goes.
pub fn is_within(place: &Place, token: &Token) -> bool
    ensures { result ≡ is_within (range_of (place_of [] place.now)) token.now }
{
    match token {
        Token::Number(number) => {
            let range = range_of(place);
            range.least <= *number && *number <= range.most
        }
        _ => true,
    }
}
