//! What a token does in an expression.

ghost use Rattle.std.specs.Prelude.{◌≡◌, IfOk, option_map};
ghost use Rattle.oat_tree.specs.Seen.{seen_expr};
ghost use Rattle.oat_grammar.specs.Machine.{use_next, closed_next, operator_next, name_next, no_arguments, operand_next, level_of};
ghost use Rattle.oat_parse.specs.SeenOpened.{pending_of};
ghost use Rattle.oat_parse.specs.SeenPlaces.{seen_use, seen_inside, MovesAs};
ghost use Rattle.oat_parse.specs.Arguments.{ArguesAs};

use crate::opened::{Open, Opened};
use crate::place::{Inside, Kind, Move, Use, where_is};
use oat_grammar::{Mark, Token};
use oat_map::Name;
use oat_tree::{Expr, Operator, Stmt};
use std::alloc::{AllocError, Global};

/// What stands behind an argument.
#[derive(Drop)]
pub enum Argument {
    /// A comma; these are the arguments up to it.
    More(Vec<Expr>),
    /// The closing bracket.
    Last(Vec<Expr>),
}

fn argument_next(
    others: Vec<Expr>,
    argument: Expr,
    token: Token,
) -> Result<Option<Argument>, AllocError>
    ensures { IfOk result (λ a. ArguesAs a others.items argument token) }
{
    let mut arguments = others;
    if token.is(Mark::CloseRound) {
        arguments.push(argument)?;
        Ok(Some(Argument::Last(arguments)))
    } else if token.is(Mark::Comma) && arguments.len() < 3 {
        arguments.push(argument)?;
        Ok(Some(Argument::More(arguments)))
    } else {
        Ok(None)
    }
}

/// Behind the whole expression of a statement.
fn use_next(
    alloc: Global,
    value: Expr,
    purpose: Use,
    token: Token,
) -> Result<Option<Move>, AllocError>
    ensures { IfOk result (λ m. MovesAs m (λ is ss o. use_next is ss o (seen_expr value) (seen_use purpose) token)) }
{
    match purpose {
        Use::Declare(name) => Ok(where_is(
            token,
            Mark::Semicolon,
            Move::ends(Stmt::Var(name, value)),
        )),
        Use::Assign(name) => Ok(where_is(
            token,
            Mark::Semicolon,
            Move::ends(Stmt::Assign(name, value)),
        )),
        Use::Index(name) => Ok(where_is(
            token,
            Mark::CloseSquare,
            Move::within(Inside::Stored(name, value)),
        )),
        Use::Store(name, index) => Ok(where_is(
            token,
            Mark::Semicolon,
            Move::ends(Stmt::Store(name, index, value)),
        )),
        Use::Choose => Ok(where_is(token, Mark::OpenBrace, Move::opens(Kind::Choice(value)))),
        Use::Repeat => Ok(where_is(token, Mark::OpenBrace, Move::opens(Kind::Loop(value)))),
        Use::Put => Ok(where_is(token, Mark::Semicolon, Move::ends(Stmt::Out(value)))),
        Use::Return => Ok(where_is(token, Mark::Semicolon, Move::ends(Stmt::Return(value)))),
        Use::Call(function, others) => match argument_next(others, value, token)? {
            Some(Argument::More(arguments)) => Ok(Some(Move::within(Inside::Operand(
                Use::Call(function, arguments),
                Opened::new(alloc),
            )))),
            Some(Argument::Last(arguments)) => {
                Ok(Some(Move::within(Inside::End(Stmt::Call(function, arguments)))))
            }
            None => Ok(None),
        },
    }
}

/// Behind a whole expression, at a token that is no operator.
fn closed_next(
    alloc: Global,
    value: Expr,
    purpose: Use,
    opened: Opened,
    token: Token,
) -> Result<Option<Move>, AllocError>
    ensures { IfOk result (λ m. MovesAs m (λ is ss o. closed_next is ss o (seen_use purpose) (pending_of opened) (seen_expr value) token)) }
{
    let mut outer = opened;
    match outer.pop() {
        None => use_next(alloc, value, purpose, token),
        Some(Open::Brackets) => Ok(where_is(
            token,
            Mark::CloseRound,
            Move::within(Inside::Operator(value, purpose, outer)),
        )),
        Some(Open::Index(name)) => {
            let element = Expr::element(alloc, name, value)?;
            Ok(where_is(
                token,
                Mark::CloseSquare,
                Move::within(Inside::Operator(element, purpose, outer)),
            ))
        }
        Some(Open::Argument(function, others)) => match argument_next(others, value, token)? {
            Some(Argument::More(arguments)) => {
                outer.push(Open::Argument(function, arguments))?;
                Ok(Some(Move::within(Inside::Operand(purpose, outer))))
            }
            Some(Argument::Last(arguments)) => {
                let call = Expr::call(function, arguments);
                Ok(Some(Move::within(Inside::Operator(call, purpose, outer))))
            }
            None => Ok(None),
        },
        Some(Open::Minus) | Some(Open::Left(_, _)) => Ok(None),
    }
}

/// How tight a token binds what is before it.
fn level_of(token: &Token) -> u8
    ensures { result ≡ level_of token.now }
{
    match token {
        Token::Sign(operator) => operator.level(),
        _ => 0,
    }
}

/// Behind an operand.
pub fn operator_next(
    alloc: Global,
    operand: Expr,
    purpose: Use,
    opened: Opened,
    token: Token,
) -> Result<Option<Move>, AllocError>
    ensures { IfOk result (λ m. MovesAs m (λ is ss o. operator_next is ss o (seen_expr operand) (seen_use purpose) (pending_of opened) token)) }
{
    let mut outer = opened;
    let value = outer.settle(alloc, level_of(&token), operand)?;
    match token {
        Token::Sign(operator) => {
            outer.push(Open::Left(operator, value))?;
            Ok(Some(Move::within(Inside::Operand(purpose, outer))))
        }
        other => closed_next(alloc, value, purpose, outer, other),
    }
}

/// Behind a name in an expression.
pub fn name_next(
    alloc: Global,
    name: Name,
    purpose: Use,
    opened: Opened,
    token: Token,
) -> Result<Option<Move>, AllocError>
    ensures { IfOk result (λ m. MovesAs m (λ is ss o. name_next is ss o name (seen_use purpose) (pending_of opened) token)) }
{
    let mut outer = opened;
    if token.is(Mark::OpenSquare) {
        outer.push(Open::Index(name))?;
        Ok(Some(Move::within(Inside::Operand(purpose, outer))))
    } else if token.is(Mark::OpenRound) {
        outer.push(Open::Argument(name, Vec::new(alloc)))?;
        Ok(Some(Move::within(Inside::Operand(purpose, outer))))
    } else {
        operator_next(alloc, Expr::Name(name), purpose, outer, token)
    }
}

/// A list of arguments that has no expression yet may end.
fn no_arguments(purpose: Use, opened: Opened) -> Option<Inside>
    ensures { option_map seen_inside result ≡ no_arguments (seen_use purpose) (pending_of opened) }
{
    let mut outer = opened;
    match outer.pop() {
        Some(Open::Argument(function, arguments)) => {
            if arguments.is_empty() {
                Some(Inside::Operator(Expr::call(function, arguments), purpose, outer))
            } else {
                None
            }
        }
        None => match purpose {
            Use::Call(function, arguments) => {
                if arguments.is_empty() {
                    Some(Inside::End(Stmt::Call(function, arguments)))
                } else {
                    None
                }
            }
            _ => None,
        },
        _ => None,
    }
}

/// Before an operand.
pub fn operand_next(
    purpose: Use,
    opened: Opened,
    token: Token,
) -> Result<Option<Inside>, AllocError>
    ensures { IfOk result (λ i. option_map seen_inside i ≡ operand_next (seen_use purpose) (pending_of opened) token) }
{
    let mut outer = opened;
    match token {
        Token::Number(number) => Ok(Some(Inside::Operator(Expr::Number(number), purpose, outer))),
        Token::Named(name) => Ok(Some(Inside::Name(name, purpose, outer))),
        Token::Sign(Operator::Minus) => {
            outer.push(Open::Minus)?;
            Ok(Some(Inside::Operand(purpose, outer)))
        }
        Token::Sign(_) => Ok(None),
        Token::Fixed(Mark::In) => Ok(Some(Inside::Operator(Expr::In, purpose, outer))),
        Token::Fixed(Mark::OpenRound) => {
            outer.push(Open::Brackets)?;
            Ok(Some(Inside::Operand(purpose, outer)))
        }
        Token::Fixed(Mark::CloseRound) => Ok(no_arguments(purpose, outer)),
        Token::Fixed(_) => Ok(None),
    }
}
