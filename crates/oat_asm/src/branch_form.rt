ghost use Rattle.std.specs.Prelude.{◌≡◌, ℤ};
ghost use Rattle.oat_asm.specs.Layout.{branch};

use oat_a64::Inst;

/// A branch without its offset: `Cond` has its condition, `Cbz` and `Cbnz` have their register.
#[derive(Clone, Copy)]
pub enum BranchForm {
    B,
    Bl,
    Cond(u8),
    Cbz(u8),
    Cbnz(u8),
}

impl BranchForm {
    /// The branch over so many words, counted from the branch itself.
    pub(crate) fn over(self, offset: i32) -> Inst
        ensures { result ≡ branch self offset }
    {
        match self {
            BranchForm::B => Inst::B { offset },
            BranchForm::Bl => Inst::Bl { offset },
            BranchForm::Cond(cond) => Inst::BCond { cond, offset },
            BranchForm::Cbz(rt) => Inst::Cbz { rt, offset },
            BranchForm::Cbnz(rt) => Inst::Cbnz { rt, offset },
        }
    }
}
