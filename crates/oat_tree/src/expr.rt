ghost use Rattle.std.specs.Prelude.{◌≡◌, IfOk, map};
ghost use Rattle.oat_tree.specs.Syntax as tree;
ghost use Rattle.oat_tree.specs.Syntax.{exprs_of_list};
ghost use Rattle.oat_tree.specs.Seen.{seen_expr};

use crate::operator::Operator;
use oat_map::Name;
use std::alloc::{AllocError, Global};

/// An expression.
///
/// Its nodes nest at most 255 deep.
#[derive(Drop)]
pub enum Expr {
    /// Below 2^63.
    Number(u64),
    /// A local or a scalar.
    Name(Name),
    Element(Name, Box<Expr>),
    Call(Name, Vec<Expr>),
    /// The next input.
    In,
    Negative(Box<Expr>),
    Binary(Operator, Box<Expr>, Box<Expr>),
}

impl Expr {
    pub fn element(alloc: Global, array: Name, index: Expr) -> Result<Expr, AllocError>
        ensures { IfOk result (λ e. seen_expr e ≡ tree.element array (seen_expr index)) }
    {
        Ok(Expr::Element(array, Box::new(alloc, index)?))
    }

    pub fn call(function: Name, arguments: Vec<Expr>) -> Expr
        ensures { seen_expr result ≡ tree.call function (exprs_of_list (map seen_expr arguments.items)) }
    {
        Expr::Call(function, arguments)
    }

    pub fn negative(alloc: Global, operand: Expr) -> Result<Expr, AllocError>
        ensures { IfOk result (λ e. seen_expr e ≡ tree.negative (seen_expr operand)) }
    {
        Ok(Expr::Negative(Box::new(alloc, operand)?))
    }

    pub fn binary(
        alloc: Global,
        operator: Operator,
        left: Expr,
        right: Expr,
    ) -> Result<Expr, AllocError>
        ensures { IfOk result (λ e. seen_expr e ≡ tree.binary operator (seen_expr left) (seen_expr right)) }
    {
        let left = Box::new(alloc, left)?;
        let right = Box::new(alloc, right)?;
        Ok(Expr::Binary(operator, left, right))
    }
}
