//! Laws of the definitions.

ghost use Rattle.oat_ir.specs.Laws.{MainIsOneFunc, NameIsOneFunc, OperationIsOneFunc};

/// Functions of one name are one function.
pub fn name_is_one_func()
    ensures { NameIsOneFunc }
{}

/// At most one function is the main one.
pub fn main_is_one_func()
    ensures { MainIsOneFunc }
{}

/// Operations of one number are one function.
pub fn operation_is_one_func()
    ensures { OperationIsOneFunc }
{}
