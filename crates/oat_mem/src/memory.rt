ghost use Rattle.std.specs.Prelude.{◌≡◌, ◌<◌, ◌≤◌, ◌+◌, ◌*◌, ◌++◌, IsTrue, IfOk, SomeIff, length, take, drop, slice_index, All};
ghost use Rattle.std.specs.Bool.{OnFalse, OnTrue};
ghost use Rattle.oat_mem.specs.DataMemory.{byte_at, word_in, with_word, with_bytes, can_access, fits, global_base};

use crate::region::{GLOBAL_BASE, GLOBAL_SIZE, STACK_BASE, STACK_SIZE, can_access, index_in};
use std::alloc::{AllocError, Global};
use std::marker::Model;

/// The bytes of the global data and of the stack.
#[derive(Drop)]
pub struct Memory {
    globals: Vec<u8>,
    stack: Vec<u8>,
}

impl Model for Memory {
    ghost use Rattle.std.specs.Prelude.{◌≡◌, length};
    ghost use Rattle.oat_mem.specs.DataMemory.{Regions, global_size, stack_size};

    ghost Value = { Regions };

    ghost view = { λ m. record { globals = m.globals.items; stack = m.stack.items } };

    ghost invariant = { λ m. (length m.globals.items ≡ global_size) × (length m.stack.items ≡ stack_size) };
}

impl Memory {
    /// Memory in which each byte is 0.
    pub fn zeroed(alloc: Global) -> Result<Self, AllocError>
        ensures { IfOk result (λ memory. byte_at memory ≡ (λ _. 0)) }
    {
        let globals = zeros(alloc, GLOBAL_SIZE)?;
        let stack = zeros(alloc, STACK_SIZE)?;
        Ok(Memory { globals, stack })
    }

    /// Writes the global word with this number.
    pub fn put_word(&mut self, index: u32, value: u64)
        requires { index < 65536 }
        ensures { byte_at self.new ≡ with_word (byte_at self.old) (global_base + 8 * index) value }
    {
        self.poke(GLOBAL_BASE + 8 * u64::from(index), &value.to_le_bytes());
    }

    /// The word at an address, unless that is an access fault.
    pub fn read8(&self, address: u64) -> Option<u64>
        ensures { SomeIff result (IsTrue (can_access address)) (word_in (byte_at self.now) address) }
    {
        if !can_access(address) {
            return None;
        }
        Some(match index_in(GLOBAL_BASE, GLOBAL_SIZE, address, 8) {
            Some(index) => word_at(&self.globals, index),
            None => word_at(&self.stack, (address - STACK_BASE) as usize),
        })
    }

    /// Writes the word at an address and answers true, unless that is an access fault.
    pub fn write8(&mut self, address: u64, value: u64) -> bool
        ensures answer { result ≡ can_access address }
        ensures written { OnTrue result (byte_at self.new ≡ with_word (byte_at self.old) address value) }
        ensures refused { OnFalse result (self.new ≡ self.old) }
    {
        if !can_access(address) {
            return false;
        }
        self.poke(address, &value.to_le_bytes());
        true
    }

    /// Writes bytes from any address on.
    pub fn poke(&mut self, address: u64, bytes: &[u8])
        requires { IsTrue (fits address (length bytes.now)) }
        ensures { byte_at self.new ≡ with_bytes (byte_at self.old) address bytes.now }
    {
        match index_in(GLOBAL_BASE, GLOBAL_SIZE, address, bytes.len()) {
            Some(index) => write_at(&mut self.globals, index, bytes),
            None => write_at(&mut self.stack, (address - STACK_BASE) as usize, bytes),
        }
    }
}

fn zeros(alloc: Global, len: usize) -> Result<Vec<u8>, AllocError>
    ensures len { IfOk result (λ zeros. length zeros.items ≡ len) }
    ensures zero { IfOk result (λ zeros. All (λ byte. byte ≡ 0) zeros.items) }
{
    vec![in alloc; 0u8; len]
}

#[tactic(auto, unfolding(crate::specs::DataMemory::word_in))]
// The word whose bytes stand from an index on.
fn word_at(bytes: &[u8], index: usize) -> u64
    requires { index + 8 ≤ length bytes.now }
    ensures { result ≡ word_in (λ k. slice_index bytes.now k) index }
{
    let word = &bytes[index..index + 8];
    u64::from_le_bytes([
        word[0], word[1], word[2], word[3], word[4], word[5], word[6], word[7],
    ])
}

// Writes the bytes from an index on.
fn write_at(buffer: &mut [u8], index: usize, bytes: &[u8])
    requires { index + length bytes.now ≤ length buffer.old }
    ensures { buffer.new ≡ take index buffer.old ++ bytes.now ++ drop (index + length bytes.now) buffer.old }
{
    buffer[index..index + bytes.len()].copy_from_slice(bytes);
}
