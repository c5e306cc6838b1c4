//! Lists of bits, kept in their packed form.

ghost use Rattle.std.specs.Prelude.{◌≡◌, ◌+◌, ◌-◌, ◌/◌, ◌%◌, ◌^◌, ◌<◌, ◌≤◌, ◌↔◌, Bool, List, [], ◌∷◌, ◌++◌, length, slice_get, slice_index, Some, IsTrue, IfOk, IfErr, if◌then◌else◌, vec_capacity};
ghost use Rattle.oat_bits.specs.Packed.{packed};
ghost use Rattle.oat_bits.specs.Bits.{bits_in, IsPackedForm, Refuses};

use crate::fault::BitsFault;
use std::alloc::{AllocError, Global};
use std::marker::Model;

/// A list of bits that has its packed form, the highest bit of a byte first.
#[derive(Drop)]
pub struct PackedBits {
    bytes: Vec<u8>,
    count: usize,
    spare: usize,
}

impl Model for PackedBits {
    ghost use Rattle.std.specs.Prelude.{vec_capacity};
    ghost use Rattle.oat_bits.specs.Bits.{BitList, bits_in};
    ghost use Rattle.oat_bits.specs.Held.{IsHeld};

    ghost Value = { BitList };

    ghost view = { λ b. record { bits = bits_in b.count b.bytes.items; spare = b.spare } };

    ghost invariant = { λ b. IsHeld b.count b.spare b.bytes.items (vec_capacity b.bytes) };
}

impl PackedBits {
    /// No bits, and the room for `n`.
    pub fn with_room(alloc: Global, n: usize) -> Result<PackedBits, AllocError>
        ensures empty { IfOk result (λ made. made.bits ≡ []) }
        ensures room { IfOk result (λ made. n ≤ made.spare) }
    {
        Ok(PackedBits {
            bytes: Vec::with_capacity(alloc, n.div_ceil(8))?,
            count: 0,
            spare: n,
        })
    }

    /// The bits of which the bytes are the packed form.
    pub fn from_packed(alloc: Global, bytes: &[u8], count: u32) -> Result<PackedBits, BitsFault>
        ensures taken { IfOk result (λ taken. IsPackedForm bytes.now count taken.bits) }
        ensures refused { IfErr result (Refuses bytes.now count) }
    {
        let count = count as usize;
        if bytes.len() != count.div_ceil(8) {
            return Err(BitsFault::Length);
        }
        if !is_filled(bytes, count) {
            return Err(BitsFault::Padding);
        }
        Ok(PackedBits {
            bytes: bytes.to_vec(alloc)?,
            count,
            spare: 0,
        })
    }

    /// Appends a bit, and takes no memory.
    pub fn push(&mut self, bit: bool)
        requires room { 1 ≤ self.old.spare }
        ensures appended { self.new.bits ≡ self.old.bits ++ bit ∷ [] }
        ensures spare { self.new.spare + 1 ≡ self.old.spare }
    {
        push_bit(&mut self.bytes, self.count, bit);
        self.count += 1;
        self.spare -= 1;
    }

    /// Leaves no bits, and takes no memory.
    pub fn clear(&mut self)
        ensures empty { self.new.bits ≡ [] }
        ensures spare { self.new.spare ≡ self.old.spare + length self.old.bits }
    {
        self.bytes.clear();
        self.spare += self.count;
        self.count = 0;
    }

    pub fn get(&self, i: usize) -> bool
        requires within { i < length self.now.bits }
        ensures { slice_get self.now.bits i ≡ Some result }
    {
        let byte = self.bytes[i / 8];
        byte >> (7 - i % 8) & 1 == 1
    }

    pub fn len(&self) -> usize
        ensures { result ≡ length self.now.bits }
    {
        self.count
    }

    /// How many more bits there is room for.
    pub fn spare(&self) -> usize
        ensures { result ≡ self.now.spare }
    {
        self.spare
    }

    /// The packed form: the last byte is filled with zeros.
    pub fn bytes(&self) -> &[u8]
        ensures { result.now ≡ packed self.now.bits }
    {
        self.bytes.as_slice()
    }
}

/// Whether the bits behind the first `count` are zeros.
pub fn is_filled(bytes: &[u8], count: usize) -> bool
    requires { length bytes.now ≡ (count + 7) / 8 }
    ensures { IsTrue result ↔ (slice_index bytes.now (count / 8) % 2 ^ (8 - count % 8) ≡ 0) }
{
    match bytes.get(count / 8) {
        Some(last) => u32::from(*last) % (1 << (8 - count % 8)) == 0,
        None => true,
    }
}

/// The value in a byte of a bit with so many bits of the byte before it.
fn weight(before: usize, bit: bool) -> u8
    requires { before < 8 }
    ensures { result ≡ (if bit then 2 ^ (7 - before) else 0) }
{
    if bit { 1 << (7 - before) } else { 0 }
}

/// Adds a bit to the packed form of `count` bits.
fn push_bit(bytes: &mut Vec<u8>, count: usize, bit: bool)
    requires form { packed (bits_in count bytes.old.items) ≡ bytes.old.items }
    requires room { (count + 8) / 8 ≤ vec_capacity bytes.old }
    ensures form { packed (bits_in count bytes.old.items ++ bit ∷ []) ≡ bytes.new.items }
    ensures capacity { vec_capacity bytes.new ≡ vec_capacity bytes.old }
{
    let weight = weight(count % 8, bit);
    if count % 8 == 0 {
        bytes.push_reserved(weight);
    } else {
        bytes[count / 8] += weight;
    }
}
