ghost use Rattle.std.specs.Prelude.{◌≡◌, ◌↔◌, ◌≤◌, IsSome, IfSome, length};

use std::marker::Model;

/// The arguments of a call: at most four indices of locals, in their order.
///
/// Contracts see them as a list.
#[derive(Drop)]
pub struct Args {
    locals: [u32; 4],
    len: u8,
}

impl Model for Args {
    ghost use Rattle.std.specs.Prelude.{ℕ, ◌≤◌, List, take};

    ghost Value = { List ℕ };

    ghost view = { λ args. take args.len args.locals };

    ghost invariant = { λ args. args.len ≤ 4 };
}

impl Args {
    /// These arguments, or None where there are more than four.
    pub fn new(locals: &[u32]) -> Option<Args>
        ensures exact { IsSome result ↔ (length locals.now ≤ 4) }
        ensures same { IfSome result (λ args. args ≡ locals.now) }
    {
        if locals.len() <= 4 {
            Some(Args::from_few(locals))
        } else {
            None
        }
    }

    fn from_few(few: &[u32]) -> Args
        requires { length few.now ≤ 4 }
        ensures { result ≡ few.now }
    {
        let mut locals = [0; 4];
        locals[..few.len()].copy_from_slice(few);
        Args {
            locals,
            len: few.len() as u8,
        }
    }

    pub fn as_slice(&self) -> &[u32]
        ensures locals { result.now ≡ self.now }
        ensures few { length self.now ≤ 4 }
    {
        &self.locals[..self.len as usize]
    }
}
