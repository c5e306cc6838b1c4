//! Where a reader is in a text, with all that it has read.

ghost use Rattle.std.specs.Prelude.{◌≡◌, if◌then◌else◌};
ghost use Rattle.oat_grammar.specs.Machine.{is_fixed};
ghost use Rattle.oat_parse.specs.Moves.{goes_within, ends_with, opens_body};

use crate::opened::Opened;
use oat_grammar::{Mark, Token};
use oat_ir::{GlobalItem, Role};
use oat_map::Name;
use oat_tree::{Expr, Stmt};

/// The statement whose expression is read, with what it has before.
#[derive(Drop)]
pub enum Use {
    Declare(Name),
    Assign(Name),
    Index(Name),
    /// An assignment to an element, with its index.
    Store(Name, Expr),
    Choose,
    Repeat,
    Put,
    Return,
    /// A call, with the arguments before.
    Call(Name, Vec<Expr>),
}

/// A place in a body.
#[derive(Drop)]
pub enum Inside {
    Stmt,
    Var,
    Declare(Name),
    /// Behind the name that a statement begins with.
    Target(Name),
    /// Behind the element that is assigned to.
    Stored(Name, Expr),
    /// Before the semicolon of a statement.
    End(Stmt),
    /// Behind the first body of an `if`.
    Choice(Expr, Vec<Stmt>),
    Else(Expr, Vec<Stmt>),
    Operand(Use, Opened),
    Name(Name, Use, Opened),
    Operator(Expr, Use, Opened),
}

/// What a body is the body of.
#[derive(Drop)]
pub enum Kind {
    Choice(Expr),
    /// The second of an `if`, with the first.
    Else(Expr, Vec<Stmt>),
    Loop(Expr),
}

/// How a reader goes on behind a token.
#[derive(Drop)]
pub enum Then {
    Within(Inside),
    Opens(Kind),
    Closes,
}

/// What a token does inside a body: it may end a statement first.
#[derive(Drop)]
pub struct Move {
    pub done: Option<Stmt>,
    pub then: Then,
}

impl Move {
    pub fn within(inside: Inside) -> Move
        ensures { result ≡ goes_within inside }
    {
        Move {
            done: None,
            then: Then::Within(inside),
        }
    }

    pub fn ends(stmt: Stmt) -> Move
        ensures { result ≡ ends_with stmt }
    {
        Move {
            done: Some(stmt),
            then: Then::Within(Inside::Stmt),
        }
    }

    pub fn opens(kind: Kind) -> Move
        ensures { result ≡ opens_body kind }
    {
        Move {
            done: None,
            then: Then::Opens(kind),
        }
    }
}

/// A place in an item, outside bodies.
#[derive(Drop)]
pub enum Heading {
    Global,
    Array,
    Critical,
    Equals(Name),
    Square(Name),
    Either(Name),
    Start(bool, Name),
    Minus(bool, Name),
    Length(bool, Name),
    Closing(bool, Name, u32),
    Last(GlobalItem),
    Id,
    Function(Role),
    Open(Role, Name),
    First(Role, Name),
    Comma(Role, Name, Vec<Name>),
    Param(Role, Name, Vec<Name>),
    Body(Role, Name, Vec<Name>),
}

/// The move, where the token is this word or sign.
pub fn where_is(token: Token, mark: Mark, step: Move) -> Option<Move>
    ensures { result ≡ (if is_fixed mark token then Some step else None) }
{
    if token.is(mark) { Some(step) } else { None }
}
