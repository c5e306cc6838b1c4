//! The function that is read: its open bodies.

ghost use Rattle.std.specs.Prelude.{◌≡◌, ◌∷◌, [], IfOk, MatchOption, map, reverse};
ghost use Rattle.oat_tree.specs.Seen.{seen_stmt};
ghost use Rattle.oat_grammar.specs.Machine.{closes};
ghost use Rattle.oat_parse.specs.SeenPlaces.{ended, move_place};
ghost use Rattle.oat_parse.specs.SeenBodies.{stmts_in, outer_of, outer_in, AddsStmt, OpensBody, LeadsAs};

use crate::place::{Inside, Kind, Move, Then};
use oat_ir::Role;
use oat_map::Name;
use oat_tree::{Function, Stmt};
use std::alloc::{AllocError, Global};
use std::marker::Model;

/// A body in a body, with the statements before it.
#[derive(Drop)]
pub struct OpenBody {
    pub kind: Kind,
    pub before: Vec<Stmt>,
}

/// The bodies that are open in a function's.
///
/// Contracts see them as a list, the innermost first.
#[derive(Drop)]
pub struct Bodies {
    open: Vec<OpenBody>,
}

impl Model for Bodies {
    ghost use Rattle.std.specs.Prelude.{List, reverse};
    ghost use Rattle.oat_parse.specs.declared.function.OpenBody.{OpenBody};
    ghost use Rattle.oat_tree.specs.contracts.expr.Expr as e;
    ghost use Rattle.oat_tree.specs.contracts.stmt.Stmt as s;
    ghost use Rattle.std.specs.Coded.{codes};

    ghost coded = { Prim.hlevel (codes, e.the_row.coded, s.the_row.coded) };

    ghost Value = { List OpenBody };

    ghost view = { λ bodies. reverse bodies.open.items };
}

impl Bodies {
    pub fn new(alloc: Global) -> Bodies
        ensures { result ≡ [] }
    {
        Bodies {
            open: Vec::new(alloc),
        }
    }

    pub fn push(&mut self, inner: OpenBody) -> Result<(), AllocError>
        ensures { IfOk result (λ _. self.new ≡ inner ∷ self.old) }
    {
        self.open.push(inner)?;
        Ok(())
    }

    pub fn pop(&mut self) -> Option<OpenBody>
        ensures { MatchOption result ((self.old ≡ []) × (self.new ≡ [])) (λ inner. self.old ≡ inner ∷ self.new) }
    {
        self.open.pop()
    }
}

/// A function up to a statement of its innermost open body.
#[derive(Drop)]
pub struct Begun {
    pub role: Role,
    pub name: Name,
    pub params: Vec<Name>,
    pub open: Bodies,
    /// Of the innermost body, in their order.
    pub stmts: Vec<Stmt>,
}

/// Where a move led.
#[derive(Drop)]
pub enum Behind {
    Within(Begun, Inside),
    Whole(Function),
}

fn added(begun: Begun, done: Option<Stmt>) -> Result<Begun, AllocError>
    ensures { IfOk result (λ b. AddsStmt begun done b) }
{
    let mut begun = begun;
    if let Some(stmt) = done {
        begun.stmts.push(stmt)?;
    }
    Ok(begun)
}

fn opened(alloc: Global, begun: Begun, kind: Kind) -> Result<Begun, AllocError>
    ensures { IfOk result (λ b. OpensBody begun kind b) }
{
    let Begun {
        role,
        name,
        params,
        mut open,
        stmts,
    } = begun;
    open.push(OpenBody {
        kind,
        before: stmts,
    })?;
    Ok(Begun {
        role,
        name,
        params,
        open,
        stmts: Vec::new(alloc),
    })
}

/// The innermost body ends.
fn closed(begun: Begun) -> Result<Behind, AllocError>
    ensures { IfOk result (λ b. LeadsAs b (λ is. closes is (stmts_in begun) (outer_in begun))) }
{
    let Begun {
        role,
        name,
        params,
        mut open,
        stmts,
    } = begun;
    match open.pop() {
        None => Ok(Behind::Whole(Function {
            name,
            role,
            params,
            body: stmts,
        })),
        Some(OpenBody { kind, before }) => match kind {
            Kind::Choice(condition) => {
                let begun = Begun {
                    role,
                    name,
                    params,
                    open,
                    stmts: before,
                };
                Ok(Behind::Within(begun, Inside::Choice(condition, stmts)))
            }
            Kind::Else(condition, first) => {
                let mut before = before;
                before.push(Stmt::choose(condition, first, stmts))?;
                let begun = Begun {
                    role,
                    name,
                    params,
                    open,
                    stmts: before,
                };
                Ok(Behind::Within(begun, Inside::Stmt))
            }
            Kind::Loop(condition) => {
                let mut before = before;
                before.push(Stmt::repeat(condition, stmts))?;
                let begun = Begun {
                    role,
                    name,
                    params,
                    open,
                    stmts: before,
                };
                Ok(Behind::Within(begun, Inside::Stmt))
            }
        },
    }
}

/// The function behind a move.
pub fn go_on(alloc: Global, begun: Begun, step: Move) -> Result<Behind, AllocError>
    ensures { IfOk result (λ b. LeadsAs b (λ is. move_place is (stmts_in begun) (outer_in begun) step)) }
{
    let Move { done, then } = step;
    let begun = added(begun, done)?;
    match then {
        Then::Within(inside) => Ok(Behind::Within(begun, inside)),
        Then::Opens(kind) => {
            let inner = opened(alloc, begun, kind)?;
            Ok(Behind::Within(inner, Inside::Stmt))
        }
        Then::Closes => closed(begun),
    }
}
