//! A function that runs, or waits at the step of its call.
ghost use Rattle.std.specs.Prelude.{◌≡◌, ℕ, get_or};
ghost use Rattle.oat_langrun.specs.Meaning.{arguments, takes_value};
ghost use Rattle.oat_langrun.specs.Standing.{locals_of, operands_of, run_of};

use crate::step::Use;

#[derive(Drop)]
pub struct Activation {
    pub func: u32,
    pub place: usize,
    pub locals: [u64; 256],
    pub operands: [u64; 256],
}

impl Activation {
    /// An operand; 0 where there is none.
    pub fn operand(&self, number: usize) -> u64
        ensures { result ≡ operands_of self.now number }
    {
        match self.operands.get(number) {
            Some(value) => *value,
            None => 0,
        }
    }

    pub fn local(&self, x: u8) -> u64
        ensures { result ≡ locals_of self.now x }
    {
        self.locals[x as usize]
    }

    /// Holds a value: as a local where it is assigned, else as an operand.
    pub fn take(&mut self, use_of: Use, below: u8, value: u64)
        ensures { run_of self.new ≡ takes_value use_of below (run_of self.old) value }
    {
        match use_of {
            Use::Assigns(x, _) => self.locals[x as usize] = value,
            _ => self.operands[below as usize] = value,
        }
    }

    /// The locals of a function that is called with so many of the operands.
    pub fn pass(&self, below: u8, count: u8) -> [u64; 256]
        ensures { (x : ℕ) → get_or result x 0 ≡ get_or (arguments (operands_of self.now) below count) x 0 }
    {
        let mut locals = [0; 256];
        for i in 0..count as usize {
            locals[i] = self.operand(below as usize + i);
        }
        locals
    }
}
