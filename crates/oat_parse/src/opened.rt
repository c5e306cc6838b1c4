//! What is open in an expression that is read.

ghost use Rattle.std.specs.Prelude.{◌≡◌, ◌∷◌, [], IfOk, MatchOption};
ghost use Rattle.oat_grammar.specs.Machine.{settled};
ghost use Rattle.oat_tree.specs.Seen.{seen_expr};
ghost use Rattle.oat_parse.specs.SeenOpened.{pending_of, binds_at, unbound};

use oat_map::Name;
use oat_tree::{Expr, Operator};
use std::alloc::{AllocError, Global};
use std::marker::Model;

/// What is open before an operand.
#[derive(Drop)]
pub enum Open {
    Minus,
    /// An operator with its left operand.
    Left(Operator, Expr),
    Brackets,
    Index(Name),
    /// A call, with the arguments before.
    Argument(Name, Vec<Expr>),
}

/// All that is open.
///
/// Contracts see it as a list, the innermost first.
#[derive(Drop)]
pub struct Opened {
    open: Vec<Open>,
}

impl Model for Opened {
    ghost use Rattle.std.specs.Prelude.{List, reverse};
    ghost use Rattle.oat_parse.specs.declared.opened.Open.{Open};
    ghost use Rattle.oat_tree.specs.contracts.expr.Expr as e;
    ghost use Rattle.std.specs.Coded.{codes};

    ghost coded = { Prim.hlevel (codes, e.the_row.coded) };

    ghost Value = { List Open };

    ghost view = { λ opened. reverse opened.open.items };
}

impl Opened {
    pub fn new(alloc: Global) -> Opened
        ensures { result ≡ [] }
    {
        Opened {
            open: Vec::new(alloc),
        }
    }

    pub fn push(&mut self, inner: Open) -> Result<(), AllocError>
        ensures { IfOk result (λ _. self.new ≡ inner ∷ self.old) }
    {
        self.open.push(inner)?;
        Ok(())
    }

    fn binds(&self, level: u8) -> bool
        ensures { result ≡ binds_at level self.now }
    {
        match self.open.last() {
            Some(Open::Minus) => true,
            Some(Open::Left(operator, _)) => level <= operator.level(),
            _ => false,
        }
    }

    pub fn pop(&mut self) -> Option<Open>
        ensures { MatchOption result ((self.old ≡ []) × (self.new ≡ [])) (λ inner. self.old ≡ inner ∷ self.new) }
    {
        self.open.pop()
    }

    /// The operand with all before it that binds it as tight as the level.
    pub fn settle(&mut self, alloc: Global, level: u8, operand: Expr) -> Result<Expr, AllocError>
        ensures { IfOk result (λ e. settled level (pending_of self.old) (seen_expr operand) ≡ unbound (seen_expr e) (pending_of self.new)) }
    {
        let mut value = operand;
        while self.binds(level) {
            match self.pop() {
                Some(Open::Minus) => value = Expr::negative(alloc, value)?,
                Some(Open::Left(operator, left)) => {
                    value = Expr::binary(alloc, operator, left, value)?
                }
                _ => return Ok(value),
            }
        }
        Ok(value)
    }
}
