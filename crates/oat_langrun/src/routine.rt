ghost use Rattle.std.specs.Prelude.{◌≡◌, ◌<◌, ◌^◌, length};
ghost use Rattle.oat_check.specs.Rules.{is_main_role};
ghost use Rattle.oat_langrun.specs.Meaning.{main_at};

use crate::step::Step;
use oat_ir::Role;
use oat_list::Listed;

/// A function by its steps. Its parameters are the first of its locals.
#[derive(Drop)]
pub struct Routine {
    pub role: Role,
    pub locals: u32,
    pub steps: Listed<Step>,
}

fn is_main(routine: &Routine) -> bool
    ensures { result ≡ is_main_role routine.now.role }
{
    matches!(routine.role, Role::Main)
}

/// The number of the main function.
pub fn main_number(routines: &[Routine]) -> u32
    requires { length routines.now < 2 ^ 32 }
    ensures { result ≡ main_at routines.now }
{
    for (number, routine) in routines.iter().enumerate() {
        if is_main(routine) {
            return number as u32;
        }
    }
    routines.len() as u32
}
