//! The bodies of the windows that are done.

ghost use Rattle.std.specs.Prelude.{◌≡◌, ◌+◌, ◌-◌, ◌<◌, ◌≤◌, [], ◌∷◌, ◌++◌, length, slice_get, slice_range, Some, IfOk, vec_len, vec_capacity};
ghost use Rattle.oat_blob.specs.Body.{Body};
ghost use Rattle.oat_measure.specs.BodyShelf.{IsPartOf};

use oat_blob::{BodyHead, PackedBits};
use std::alloc::{AllocError, Global};
use std::marker::Model;

// A stretch of the bits, or of the targets, of all bodies.
#[derive(Clone, Copy)]
struct Part {
    from: usize,
    to: usize,
}

#[derive(Clone, Copy)]
struct Filed {
    head: BodyHead,
    bits: Part,
    targets: Part,
}

/// Bodies in the order of their windows. A sealed window comes here where a further one follows it.
#[derive(Drop)]
pub struct Shelf {
    filed: Vec<Filed>,
    bits: PackedBits,
    targets: Vec<u64>,
}

impl Model for Shelf {
    ghost use Rattle.std.specs.Prelude.{◌-◌, length, map, vec_len, vec_capacity};
    ghost use Rattle.std.specs.List.{All};
    ghost use Rattle.oat_measure.specs.BodyShelf.{BodyShelf, filed_body, IsFiledIn};

    ghost Value = { BodyShelf };

    ghost view = { λ s. record {
      bodies = map (filed_body s.bits.bits s.targets.items) s.filed.items;
      spare_bodies = vec_capacity s.filed - vec_len s.filed;
      spare_bits = s.bits.spare;
      spare_targets = vec_capacity s.targets - vec_len s.targets;
    } };

    ghost invariant = { λ s. All (IsFiledIn (length s.bits.bits) (length s.targets.items)) s.filed.items };
}

// Appends a part of the bits, and takes no memory.
fn copy_bits(onto: &mut PackedBits, bits: &PackedBits, part: Part)
    requires part { IsPartOf (length bits.now.bits) part }
    requires room { part.to - part.from ≤ onto.old.spare }
    ensures appended { onto.new.bits ≡ onto.old.bits ++ slice_range bits.now.bits part.from part.to }
    ensures spare { onto.new.spare + (part.to - part.from) ≡ onto.old.spare }
{
    for i in part.from..part.to {
        onto.push(bits.get(i));
    }
}

// Appends targets, and takes no memory.
fn copy_targets(onto: &mut Vec<u64>, targets: &[u64])
    requires room { length targets.now ≤ vec_capacity onto.old - vec_len onto.old }
    ensures appended { onto.new.items ≡ onto.old.items ++ targets.now }
    ensures capacity { vec_capacity onto.new ≡ vec_capacity onto.old }
{
    for target in targets {
        onto.push_reserved(*target);
    }
}

impl Shelf {
    /// No body, and the room for `windows` of them, with as many bits and as many targets in all as `records`.
    pub fn with_room(alloc: Global, windows: usize, records: usize) -> Result<Shelf, AllocError>
        ensures empty { IfOk result (λ made. made.bodies ≡ []) }
        ensures bodies_fit { IfOk result (λ made. windows ≤ made.spare_bodies) }
        ensures bits_fit { IfOk result (λ made. records ≤ made.spare_bits) }
        ensures targets_fit { IfOk result (λ made. records ≤ made.spare_targets) }
    {
        Ok(Shelf {
            filed: Vec::with_capacity(alloc, windows)?,
            bits: PackedBits::with_room(alloc, records)?,
            targets: Vec::with_capacity(alloc, records)?,
        })
    }

    pub fn len(&self) -> usize
        ensures { result ≡ length self.now.bodies }
    {
        self.filed.len()
    }

    /// The body with this number, but for its bits and targets.
    pub fn head(&self, i: usize) -> BodyHead
        requires within { i < length self.now.bodies }
        ensures { (body : Body) → slice_get self.now.bodies i ≡ Some body → result ≡ body.head }
    {
        self.filed[i].head
    }

    /// The indirect targets of the body with this number.
    pub fn targets(&self, i: usize) -> &[u64]
        requires within { i < length self.now.bodies }
        ensures { (body : Body) → slice_get self.now.bodies i ≡ Some body → result.now ≡ body.targets }
    {
        let part = self.filed[i].targets;
        &self.targets[part.from..part.to]
    }

    /// The branch bits of the body with this number.
    pub fn bits(&self, i: usize, alloc: Global) -> Result<PackedBits, AllocError>
        requires within { i < length self.now.bodies }
        ensures { IfOk result (λ taken. (body : Body) → slice_get self.now.bodies i ≡ Some body → taken.bits ≡ body.bits) }
    {
        let part = self.filed[i].bits;
        let mut bits = PackedBits::with_room(alloc, part.to - part.from)?;
        copy_bits(&mut bits, &self.bits, part);
        Ok(bits)
    }

    /// Puts a body behind the others, and takes no memory.
    pub(crate) fn put(&mut self, head: BodyHead, bits: &PackedBits, targets: &[u64])
        requires body_fits { 1 ≤ self.old.spare_bodies }
        requires bits_fit { length bits.now.bits ≤ self.old.spare_bits }
        requires targets_fit { length targets.now ≤ self.old.spare_targets }
        ensures bodies { self.new.bodies ≡ self.old.bodies ++ record { head = head; bits = bits.now.bits; targets = targets.now } ∷ [] }
        ensures spare_bodies { self.new.spare_bodies + 1 ≡ self.old.spare_bodies }
        ensures spare_bits { self.new.spare_bits + length bits.now.bits ≡ self.old.spare_bits }
        ensures spare_targets { self.new.spare_targets + length targets.now ≡ self.old.spare_targets }
    {
        let whole = Part {
            from: 0,
            to: bits.len(),
        };
        let (bits_from, targets_from) = (self.bits.len(), self.targets.len());
        copy_bits(&mut self.bits, bits, whole);
        copy_targets(&mut self.targets, targets);
        self.filed.push_reserved(Filed {
            head,
            bits: Part {
                from: bits_from,
                to: self.bits.len(),
            },
            targets: Part {
                from: targets_from,
                to: self.targets.len(),
            },
        });
    }
}
