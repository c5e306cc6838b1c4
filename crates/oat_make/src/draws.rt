ghost use Rattle.std.specs.Prelude.{◌≡◌, ◌/◌, ◌^◌};
ghost use Rattle.oat_make.specs.Drill.{stirred};

/// Numbers of 31 bits that are drawn from one number, one behind the other.
#[derive(Drop)]
pub struct Draws {
    pub state: u64,
}

impl Draws {
    pub fn draw(&mut self) -> u64
        ensures stirred { self.new.state ≡ stirred self.old.state }
        ensures drawn { result ≡ stirred self.old.state / 2 ^ 33 }
    {
        self.state = self
            .state
            .wrapping_mul(6364136223846793005)
            .wrapping_add(1442695040888963407);
        self.state >> 33
    }
}
