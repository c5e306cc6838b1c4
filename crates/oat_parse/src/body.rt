//! What a token does in a body.

ghost use Rattle.std.specs.Prelude.{◌≡◌, IfOk, option_map};
ghost use Rattle.oat_tree.specs.Seen.{seen_expr, seen_stmts};
ghost use Rattle.oat_grammar.specs.Machine.{at_operand, at_var, bottom, stmt_begins, stmt_next, choice_next, target_next, inside_next};
ghost use Rattle.oat_parse.specs.SeenPlaces.{seen_inside, seen_use, MovesAs, ThenAs};
ghost use Rattle.oat_parse.specs.Moves.{goes_within, after_stmt};

use crate::opened::Opened;
use crate::operand::{name_next, operand_next, operator_next};
use crate::place::{Inside, Kind, Move, Then, Use, where_is};
use oat_grammar::{Mark, Token};
use oat_map::Name;
use oat_tree::{Expr, Stmt};
use std::alloc::{AllocError, Global};

/// Before the first operand of an expression.
fn begun(alloc: Global, purpose: Use) -> Inside
    ensures { seen_inside result ≡ at_operand (seen_use purpose) bottom }
{
    Inside::Operand(purpose, Opened::new(alloc))
}

/// A statement begins.
fn stmt_begins(alloc: Global, token: Token) -> Option<Inside>
    ensures { option_map seen_inside result ≡ stmt_begins token }
{
    match token {
        Token::Named(name) => Some(Inside::Target(name)),
        Token::Fixed(Mark::Var) => Some(Inside::Var),
        Token::Fixed(Mark::If) => Some(begun(alloc, Use::Choose)),
        Token::Fixed(Mark::While) => Some(begun(alloc, Use::Repeat)),
        Token::Fixed(Mark::Out) => Some(begun(alloc, Use::Put)),
        Token::Fixed(Mark::Return) => Some(begun(alloc, Use::Return)),
        Token::Fixed(Mark::Halt) => Some(Inside::End(Stmt::Halt)),
        _ => None,
    }
}

/// Between statements, of which one may still have to be added.
fn stmt_next(alloc: Global, token: Token) -> Option<Then>
    ensures { ThenAs result (λ is ss o. stmt_next is ss o token) }
{
    if token.is(Mark::CloseBrace) {
        Some(Then::Closes)
    } else {
        let inside = stmt_begins(alloc, token)?;
        Some(Then::Within(inside))
    }
}

/// What comes behind a statement.
fn after(stmt: Stmt, then: Option<Then>) -> Option<Move>
    ensures { result ≡ option_map (after_stmt stmt) then }
{
    match then {
        Some(then) => Some(Move {
            done: Some(stmt),
            then,
        }),
        None => None,
    }
}

/// Behind the first body of an `if`.
fn choice_next(alloc: Global, condition: Expr, body: Vec<Stmt>, token: Token) -> Option<Move>
    ensures { MovesAs result (λ is ss o. choice_next is ss o (seen_expr condition) (seen_stmts body.items) token) }
{
    if token.is(Mark::Else) {
        Some(Move::within(Inside::Else(condition, body)))
    } else {
        let choice = Stmt::choose(condition, body, Vec::new(alloc));
        after(choice, stmt_next(alloc, token))
    }
}

/// Behind the name that a statement begins with.
fn target_next(alloc: Global, name: Name, token: Token) -> Option<Inside>
    ensures { option_map seen_inside result ≡ target_next name token }
{
    match token {
        Token::Fixed(Mark::Assign) => Some(begun(alloc, Use::Assign(name))),
        Token::Fixed(Mark::OpenSquare) => Some(begun(alloc, Use::Index(name))),
        Token::Fixed(Mark::OpenRound) => Some(begun(alloc, Use::Call(name, Vec::new(alloc)))),
        _ => None,
    }
}

fn within(inside: Option<Inside>) -> Option<Move>
    ensures { result ≡ option_map goes_within inside }
{
    match inside {
        Some(inside) => Some(Move::within(inside)),
        None => None,
    }
}

/// Between statements.
fn between_stmts(alloc: Global, token: Token) -> Option<Move>
    ensures { MovesAs result (λ is ss o. stmt_next is ss o token) }
{
    let then = stmt_next(alloc, token)?;
    Some(Move { done: None, then })
}

/// The name that a `var` declares.
fn var_next(token: Token) -> Option<Move>
    ensures { MovesAs result (λ is ss o. inside_next is ss o at_var token) }
{
    match token {
        Token::Named(name) => Some(Move::within(Inside::Declare(name))),
        _ => None,
    }
}

/// What the token does at this place of a body.
pub fn inside_next(alloc: Global, inside: Inside, token: Token) -> Result<Option<Move>, AllocError>
    ensures { IfOk result (λ m. MovesAs m (λ is ss o. inside_next is ss o (seen_inside inside) token)) }
{
    match inside {
        Inside::Stmt => Ok(between_stmts(alloc, token)),
        Inside::Var => Ok(var_next(token)),
        Inside::Declare(name) => Ok(where_is(
            token,
            Mark::Assign,
            Move::within(begun(alloc, Use::Declare(name))),
        )),
        Inside::Target(name) => Ok(within(target_next(alloc, name, token))),
        Inside::Stored(name, index) => Ok(where_is(
            token,
            Mark::Assign,
            Move::within(begun(alloc, Use::Store(name, index))),
        )),
        Inside::End(stmt) => Ok(where_is(token, Mark::Semicolon, Move::ends(stmt))),
        Inside::Choice(condition, body) => Ok(choice_next(alloc, condition, body, token)),
        Inside::Else(condition, body) => Ok(where_is(
            token,
            Mark::OpenBrace,
            Move::opens(Kind::Else(condition, body)),
        )),
        Inside::Operand(purpose, opened) => Ok(within(operand_next(purpose, opened, token)?)),
        Inside::Name(name, purpose, opened) => name_next(alloc, name, purpose, opened, token),
        Inside::Operator(value, purpose, opened) => {
            operator_next(alloc, value, purpose, opened, token)
        }
    }
}
