//! What a token does outside bodies.

ghost use Rattle.std.specs.Prelude.{◌≡◌, ◌≤◌, IfOk, true, option_map, codes, pos, ◌-ℤ◌, if◌then◌else◌};
ghost use Rattle.oat_grammar.specs.Machine.{either_next, start_next, first_next, comma_next, heading_next, item_begins, at_global, at_array, at_critical, at_minus, at_length, at_closing, at_id, at_function, at_param, array_item, is_fixed};
ghost use Rattle.oat_grammar.specs.FirstFaults.{range, heading_range, is_within};
ghost use Rattle.oat_parse.specs.SeenPlaces.{seen_heading};
ghost use Rattle.oat_parse.specs.Outsides.{HeadsAs};

use crate::place::Heading;
use oat_grammar::{Mark, Token};
use oat_ir::{GlobalItem, Role};
use oat_map::Name;
use oat_tree::Operator;
use std::alloc::{AllocError, Global};

/// How a reader goes on outside bodies.
#[derive(Drop)]
pub enum Outside {
    Heading(Heading),
    /// The item of a global ends.
    Global(GlobalItem),
    /// The body of a function with this name and these parameters opens.
    Body(Role, Name, Vec<Name>),
}

fn main_name() -> Name
    ensures { result ≡ codes "main" }
{
    match Name::new(b"main") {
        Some(name) => name,
        None => unreachable!(),
    }
}

/// An item begins.
pub fn item_begins(alloc: Global, token: Token) -> Option<Heading>
    ensures { option_map seen_heading result ≡ item_begins token }
{
    match token {
        Token::Fixed(Mark::Global) => Some(Heading::Global),
        Token::Fixed(Mark::Critical) => Some(Heading::Critical),
        Token::Fixed(Mark::Array) => Some(Heading::Array),
        Token::Fixed(Mark::Fn) => Some(Heading::Function(Role::Plain)),
        Token::Fixed(Mark::Operation) => Some(Heading::Id),
        Token::Fixed(Mark::Main) => Some(Heading::Body(Role::Main, main_name(), Vec::new(alloc))),
        _ => None,
    }
}

fn where_is(token: Token, mark: Mark, step: Outside) -> Option<Outside>
    ensures { result ≡ (if is_fixed mark token then Some step else None) }
{
    if token.is(mark) { Some(step) } else { None }
}

/// The minus of a number up to 2^63.
fn negative(size: u64) -> i64
    requires { size ≤ 9223372036854775808 }
    ensures { result ≡ pos 0 -ℤ pos size }
{
    if size == 1 << 63 {
        i64::MIN
    } else {
        -(size as i64)
    }
}

fn either_next(name: Name, token: Token) -> Option<Outside>
    ensures { HeadsAs result (λ is. either_next is name token) }
{
    match token {
        Token::Fixed(Mark::Assign) => Some(Outside::Heading(Heading::Start(true, name))),
        Token::Fixed(Mark::OpenSquare) => Some(Outside::Heading(Heading::Length(true, name))),
        _ => None,
    }
}

fn start_next(critical: bool, name: Name, token: Token) -> Option<Outside>
    requires { is_within (range 0 9223372036854775807) token ≡ true }
    ensures { HeadsAs result (λ is. start_next is critical name token) }
{
    match token {
        Token::Number(number) => {
            let start = number as i64;
            let item = GlobalItem::Scalar {
                name,
                start,
                critical,
            };
            Some(Outside::Heading(Heading::Last(item)))
        }
        Token::Sign(Operator::Minus) => Some(Outside::Heading(Heading::Minus(critical, name))),
        _ => None,
    }
}

fn minus_next(critical: bool, name: Name, token: Token) -> Option<Outside>
    requires { is_within (range 0 9223372036854775808) token ≡ true }
    ensures { HeadsAs result (λ is. heading_next is (at_minus critical name) token) }
{
    match token {
        Token::Number(number) => {
            let start = negative(number);
            let item = GlobalItem::Scalar {
                name,
                start,
                critical,
            };
            Some(Outside::Heading(Heading::Last(item)))
        }
        _ => None,
    }
}

#[tactic(auto, using(crate::proofs::Ranged::length_low))]
fn length_next(critical: bool, name: Name, token: Token) -> Option<Outside>
    requires { is_within (heading_range (at_length critical name)) token ≡ true }
    ensures { HeadsAs result (λ is. heading_next is (at_length critical name) token) }
{
    match token {
        Token::Number(number) => {
            Some(Outside::Heading(Heading::Closing(critical, name, number as u32)))
        }
        _ => None,
    }
}

fn array_item(critical: bool, name: Name, len: u32) -> GlobalItem
    ensures { result ≡ array_item critical name len }
{
    if critical {
        GlobalItem::CriticalArray { name, len }
    } else {
        GlobalItem::Array { name, len }
    }
}

fn closing_next(critical: bool, name: Name, len: u32, token: Token) -> Option<Outside>
    ensures { HeadsAs result (λ is. heading_next is (at_closing critical name len) token) }
{
    if token.is(Mark::CloseSquare) {
        let item = array_item(critical, name, len);
        Some(Outside::Heading(Heading::Last(item)))
    } else {
        None
    }
}

fn id_next(token: Token) -> Option<Outside>
    requires { is_within (range 1 65535) token ≡ true }
    ensures { HeadsAs result (λ is. heading_next is at_id token) }
{
    match token {
        Token::Number(number) => {
            let role = Role::Operation(number as u16);
            Some(Outside::Heading(Heading::Function(role)))
        }
        _ => None,
    }
}

fn first_next(
    alloc: Global,
    role: Role,
    name: Name,
    token: Token,
) -> Result<Option<Outside>, AllocError>
    ensures { IfOk result (λ o. HeadsAs o (λ is. first_next is role name token)) }
{
    let mut params = Vec::new(alloc);
    match token {
        Token::Named(param) => {
            params.push(param)?;
            Ok(Some(Outside::Heading(Heading::Comma(role, name, params))))
        }
        Token::Fixed(Mark::CloseRound) => {
            Ok(Some(Outside::Heading(Heading::Body(role, name, params))))
        }
        _ => Ok(None),
    }
}

fn comma_next(role: Role, name: Name, params: Vec<Name>, token: Token) -> Option<Outside>
    ensures { HeadsAs result (λ is. comma_next is role name params.items token) }
{
    match token {
        Token::Fixed(Mark::Comma) => {
            if params.len() < 4 {
                Some(Outside::Heading(Heading::Param(role, name, params)))
            } else {
                None
            }
        }
        Token::Fixed(Mark::CloseRound) => Some(Outside::Heading(Heading::Body(role, name, params))),
        _ => None,
    }
}

fn param_next(
    role: Role,
    name: Name,
    params: Vec<Name>,
    token: Token,
) -> Result<Option<Outside>, AllocError>
    ensures { IfOk result (λ o. HeadsAs o (λ is. heading_next is (at_param role name params.items) token)) }
{
    let mut params = params;
    match token {
        Token::Named(param) => {
            params.push(param)?;
            Ok(Some(Outside::Heading(Heading::Comma(role, name, params))))
        }
        _ => Ok(None),
    }
}

fn global_next(token: Token) -> Option<Outside>
    ensures { HeadsAs result (λ is. heading_next is at_global token) }
{
    match token {
        Token::Named(name) => Some(Outside::Heading(Heading::Equals(name))),
        _ => None,
    }
}

fn array_next(token: Token) -> Option<Outside>
    ensures { HeadsAs result (λ is. heading_next is at_array token) }
{
    match token {
        Token::Named(name) => Some(Outside::Heading(Heading::Square(name))),
        _ => None,
    }
}

fn critical_next(token: Token) -> Option<Outside>
    ensures { HeadsAs result (λ is. heading_next is at_critical token) }
{
    match token {
        Token::Named(name) => Some(Outside::Heading(Heading::Either(name))),
        _ => None,
    }
}

fn function_next(role: Role, token: Token) -> Option<Outside>
    ensures { HeadsAs result (λ is. heading_next is (at_function role) token) }
{
    match token {
        Token::Named(name) => Some(Outside::Heading(Heading::Open(role, name))),
        _ => None,
    }
}

/// What the token does at this place outside bodies, where its number is in the place's range.
pub fn heading_next(
    alloc: Global,
    heading: Heading,
    token: Token,
) -> Result<Option<Outside>, AllocError>
    requires { is_within (heading_range (seen_heading heading)) token ≡ true }
    ensures { IfOk result (λ o. HeadsAs o (λ is. heading_next is (seen_heading heading) token)) }
{
    match heading {
        Heading::Global => Ok(global_next(token)),
        Heading::Array => Ok(array_next(token)),
        Heading::Critical => Ok(critical_next(token)),
        Heading::Equals(name) => Ok(where_is(
            token,
            Mark::Assign,
            Outside::Heading(Heading::Start(false, name)),
        )),
        Heading::Square(name) => Ok(where_is(
            token,
            Mark::OpenSquare,
            Outside::Heading(Heading::Length(false, name)),
        )),
        Heading::Either(name) => Ok(either_next(name, token)),
        Heading::Start(critical, name) => Ok(start_next(critical, name, token)),
        Heading::Minus(critical, name) => Ok(minus_next(critical, name, token)),
        Heading::Length(critical, name) => Ok(length_next(critical, name, token)),
        Heading::Closing(critical, name, len) => Ok(closing_next(critical, name, len, token)),
        Heading::Last(item) => Ok(where_is(token, Mark::Semicolon, Outside::Global(item))),
        Heading::Id => Ok(id_next(token)),
        Heading::Function(role) => Ok(function_next(role, token)),
        Heading::Open(role, name) => Ok(where_is(
            token,
            Mark::OpenRound,
            Outside::Heading(Heading::First(role, name)),
        )),
        Heading::First(role, name) => first_next(alloc, role, name, token),
        Heading::Comma(role, name, params) => Ok(comma_next(role, name, params, token)),
        Heading::Param(role, name, params) => param_next(role, name, params, token),
        Heading::Body(role, name, params) => Ok(where_is(
            token,
            Mark::OpenBrace,
            Outside::Body(role, name, params),
        )),
    }
}
