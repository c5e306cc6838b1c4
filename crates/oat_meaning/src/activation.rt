//! An activation of a function: the line at which it stands, and its locals.
ghost use Rattle.std.specs.Prelude.{◌≡◌, ◌+◌, ◌<◌, ◌≤◌, ◌^◌, ℕ, get_or, length, map};
ghost use Rattle.oat_check.specs.Steps.{assigned};
ghost use Rattle.oat_meaning.specs.Activations.{frame_of, locals_of, site_of};

use oat_ir::SourceSite;

#[derive(Drop)]
pub struct Activation {
    pub func: u32,
    pub block: u32,
    pub line: u32,
    /// How many calls and indirect calls stand before the line in its block.
    pub number: u32,
    pub locals: [u64; 255],
}

impl Activation {
    /// What a local holds; 0 where there is none.
    pub fn get(&self, x: u32) -> u64
        ensures { result ≡ locals_of self.now x }
    {
        match self.locals.get(x as usize) {
            Some(value) => *value,
            None => 0,
        }
    }

    /// The locals of a function that is called with these arguments.
    pub fn pass(&self, args: &[u32]) -> [u64; 255]
        requires { length args.now ≤ 4 }
        ensures { (x : ℕ) → get_or result x 0 ≡ get_or (map (locals_of self.now) args.now) x 0 }
    {
        let mut locals = [0; 255];
        for (i, x) in args.iter().enumerate() {
            locals[i] = self.get(*x);
        }
        locals
    }

    /// Goes on behind the call at which it waits, whose result goes into a local.
    pub fn resume(&mut self, x: u32, value: u64)
        requires low { x < 255 }
        requires short { self.old.line + 1 < 2 ^ 32 }
        requires few { self.old.number + 1 < 2 ^ 32 }
        ensures frame { frame_of self.new ≡ record (frame_of self.old) { line = self.old.line + 1; locals = assigned (locals_of self.old) x value } }
        ensures site { site_of self.new ≡ record (site_of self.old) { number = self.old.number + 1 } }
    {
        self.locals[x as usize] = value;
        self.line += 1;
        self.number += 1;
    }

    pub fn site(&self) -> SourceSite
        ensures { result ≡ site_of self.now }
    {
        SourceSite {
            func: self.func,
            block: self.block,
            number: self.number,
        }
    }
}
