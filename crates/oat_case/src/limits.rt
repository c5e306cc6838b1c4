ghost use Rattle.std.specs.Prelude.{◌≡◌, length, true};
ghost use Rattle.std.specs.Option.{option_map_or};
ghost use Rattle.oat_mem.specs.DataMemory.{fits};
ghost use Rattle.oat_case.specs.Limits.{key_fits, operation_fits, steps_fit, calls_fit, write_fits, writes_fit};

use crate::case::Write;
use oat_mem::fits;

pub fn is_key_in_range(key: &[u8]) -> bool
    ensures { result ≡ key_fits key.now }
{
    let len = key.len();
    1 <= len && len <= 1024
}

pub fn is_operation(id: u64) -> bool
    ensures { result ≡ operation_fits id }
{
    1 <= id && id <= 65535
}

pub fn is_step_limit(steps: u64) -> bool
    ensures { result ≡ steps_fit steps }
{
    1 <= steps && steps <= 4_194_304
}

pub fn is_call_count(calls: u64) -> bool
    ensures { result ≡ calls_fit calls }
{
    1 <= calls && calls <= 1024
}

pub fn may_be_calls(calls: Option<u32>) -> bool
    ensures { result ≡ option_map_or calls_fit calls true }
{
    match calls {
        Some(calls) => is_call_count(u64::from(calls)),
        None => true,
    }
}

pub fn is_write_in_range(write: &Write) -> bool
    ensures { result ≡ write_fits write.now }
{
    let len = write.bytes.len();
    write.before < 4_194_304 && 1 <= len && len <= 4096
}

/// Whether the bytes of a write lie wholly in the global data, or wholly in the stack.
pub fn is_write_in_data(write: &Write) -> bool
    ensures { result ≡ fits write.now.address (length write.now.bytes) }
{
    fits(write.address, write.bytes.len())
}

/// Whether each write is within its limits, and none is before an earlier instruction than the one ahead of it.
pub fn are_writes_in_limits(writes: &[Write]) -> bool
    ensures { result ≡ writes_fit 0 writes.now }
{
    let mut least = 0;
    for write in writes {
        if !is_write_in_range(write) || !is_write_in_data(write) || write.before < least {
            return false;
        }
        least = write.before;
    }
    true
}
