ghost use Rattle.std.specs.Prelude.{◌≡◌, ◌-◌, ◌+◌, IsTrue, SomeIff};
ghost use Rattle.oat_mem.specs.DataMemory.{can_access, fits, lies_in};

/// Where global data begins.
pub const GLOBAL_BASE: u64 = 0x4000_0000;

pub(crate) const GLOBAL_SIZE: usize = 524_288;

pub(crate) const STACK_BASE: u64 = 0x7FF0_0000;

pub(crate) const STACK_SIZE: usize = 1_048_576;

/// Whether so many bytes from an address lie wholly in one data region.
#[tactic(auto, unfolding(crate::specs::DataMemory::fits))]
pub fn fits(address: u64, len: usize) -> bool
    ensures { result ≡ fits address len }
{
    index_in(GLOBAL_BASE, GLOBAL_SIZE, address, len).is_some()
        || index_in(STACK_BASE, STACK_SIZE, address, len).is_some()
}

// Whether a word can be read and written at an address.
#[tactic(auto, unfolding(crate::specs::DataMemory::can_access))]
pub(crate) fn can_access(address: u64) -> bool
    ensures { result ≡ can_access address }
{
    address.is_multiple_of(8) && fits(address, 8)
}

// The index of an address in a region, where the bytes from there lie wholly in it.
pub(crate) fn index_in(base: u64, size: usize, address: u64, len: usize) -> Option<usize>
    ensures { SomeIff result (IsTrue (lies_in base size address len)) (address - base) }
{
    let index = address.checked_sub(base)? as usize;
    if index <= size && len <= size - index {
        Some(index)
    } else {
        None
    }
}
