ghost use Rattle.std.specs.Prelude.{◌≡◌, ◌↔◌, IsTrue};

use crate::limits::{
    are_writes_in_limits, is_key_in_range, is_operation, is_step_limit, may_be_calls,
};
use oat_list::Listed;

/// The bytes of a data write, or of a blob.
pub type Bytes = Listed<u8>;

/// The key of a device.
pub type Key = Listed<u8>;

/// What verifier and device agree on before a run.
#[derive(Drop)]
pub struct Session {
    pub key: Key,
    pub nonce: [u8; 16],
    /// The operation to be measured.
    pub op: u16,
    /// How many of its calls are measured, one window each, with a serial number in each blob. None
    /// is one window without a number.
    pub calls: Option<u32>,
}

/// A write into data memory from outside the program.
#[derive(Drop)]
pub struct Write {
    /// The number, from 0, of the instruction just before which it is made.
    pub before: u64,
    pub address: u64,
    pub bytes: Bytes,
}

/// All that a run depends on besides its program.
#[derive(Drop)]
pub struct Case {
    pub session: Session,
    /// The most instructions that the run may make.
    pub steps: u64,
    pub inputs: Listed<i64>,
    /// In the order in which they are made.
    pub writes: Listed<Write>,
}

impl Case {
    ghost use Rattle.oat_case.specs.Limits.{IsWellFormedCase, case_fits};

    fn is_in_limits(&self) -> bool
        ensures { result ≡ case_fits self.now }
    {
        is_key_in_range(self.session.key.as_slice())
            && is_operation(u64::from(self.session.op))
            && may_be_calls(self.session.calls)
            && is_step_limit(self.steps)
            && are_writes_in_limits(self.writes.as_slice())
    }

    /// Whether a text can stand for this case: its numbers, lengths and writes are within the limits.
    pub fn well_formed(&self) -> bool
        ensures { IsTrue result ↔ IsWellFormedCase self.now }
    {
        self.is_in_limits()
    }
}
