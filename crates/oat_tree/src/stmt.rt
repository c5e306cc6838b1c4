ghost use Rattle.std.specs.Prelude.{◌≡◌, map};
ghost use Rattle.oat_tree.specs.Syntax as tree;
ghost use Rattle.oat_tree.specs.Syntax.{exprs_of_list};
ghost use Rattle.oat_tree.specs.Seen.{seen_expr, seen_stmt, seen_stmts};

use crate::expr::Expr;
use oat_map::Name;

/// A statement.
#[derive(Drop)]
pub enum Stmt {
    /// `var x = e;`, which assigns each time. The name belongs to the whole function.
    Var(Name, Expr),
    Assign(Name, Expr),
    /// An element of an array, its index and its new value.
    Store(Name, Expr, Expr),
    /// Without `else` the second body is empty.
    If(Expr, Vec<Stmt>, Vec<Stmt>),
    While(Expr, Vec<Stmt>),
    Out(Expr),
    Return(Expr),
    Halt,
    /// A call whose value is dropped.
    Call(Name, Vec<Expr>),
}

impl Stmt {
    #[tactic(auto, using(crate::proofs::SeenLists::if_seen))]
    pub fn choose(condition: Expr, then: Vec<Stmt>, otherwise: Vec<Stmt>) -> Stmt
        ensures { seen_stmt result ≡ tree.choose (seen_expr condition) (seen_stmts then.items) (seen_stmts otherwise.items) }
    {
        Stmt::If(condition, then, otherwise)
    }

    #[tactic(auto, using(crate::proofs::SeenLists::while_seen))]
    pub fn repeat(condition: Expr, body: Vec<Stmt>) -> Stmt
        ensures { seen_stmt result ≡ tree.repeat (seen_expr condition) (seen_stmts body.items) }
    {
        Stmt::While(condition, body)
    }
}
