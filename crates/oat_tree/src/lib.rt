//! The syntax tree of a text of the structured language.
#![tactic(auto)]

mod expr;
mod item;
mod operator;
mod stmt;

pub use expr::Expr;
pub use item::{Function, Item};
pub use operator::Operator;
pub use stmt::Stmt;
