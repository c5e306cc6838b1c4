use crate::stmt::Stmt;
use oat_ir::{GlobalItem, Role};
use oat_map::Name;

/// A function, an operation, or `main`, which has that name and no parameters.
#[derive(Drop)]
pub struct Function {
    pub name: Name,
    pub role: Role,
    pub params: Vec<Name>,
    pub body: Vec<Stmt>,
}

/// What a text is a list of.
#[derive(Drop)]
pub enum Item {
    Global(GlobalItem),
    Function(Function),
}
