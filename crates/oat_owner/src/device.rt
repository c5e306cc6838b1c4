ghost use Rattle.std.specs.Prelude.{◌≡◌, None, MatchResult};
ghost use Rattle.std.specs.Option.{option_copied};
ghost use Rattle.oat_owner.specs.Ledger.{device_of, ids_of, repeated_id};
ghost use Rattle.oat_owner.specs.Refusal.{IsOwnerFault};

use indexmap::IndexSet;
use oat_case::Key;
use oat_verify::Shaped;
use std::alloc::{AllocError, AllocFailed, Global};
use std::marker::Model;

/// A device that an owner knows: its key, and the image that it runs.
#[derive(Drop)]
pub struct Known {
    pub id: u32,
    pub key: Key,
    pub shaped: Shaped,
}

/// Why devices are no owner's.
#[derive(Clone, Copy)]
pub enum OwnerFault {
    /// The first id that repeats an earlier one.
    Twice(u32),
    /// There was no memory.
    Memory,
}

impl<T: Drop> From<AllocFailed<T>> for OwnerFault {
    ghost use Rattle.oat_owner.specs.declared.device.OwnerFault.TheVariants.{Memory};

    ghost from_gives = { λ _ e. e ≡ Memory };

    fn from(_e: AllocFailed<T>) -> OwnerFault {
        OwnerFault::Memory
    }
}

/// Devices, no two of one id.
#[derive(Drop)]
pub struct Devices {
    ids: IndexSet<u32>,
    known: Vec<Known>,
}

impl Model for Devices {
    ghost use Rattle.std.specs.Prelude.{◌≡◌, List};
    ghost use Rattle.oat_owner.specs.declared.device.Known.{Known};
    ghost use Rattle.oat_owner.specs.Ledger.{ids_of};

    ghost Value = { List Known };

    ghost view = { λ d. d.known.items };

    ghost invariant = { λ d. d.ids.keys ≡ ids_of d.known.items };
}

/// The ids of devices, if no two have one.
fn ids_of(alloc: Global, known: &[Known]) -> Result<IndexSet<u32>, OwnerFault>
    ensures { MatchResult result (λ ids. (ids.keys ≡ ids_of known.now) × (repeated_id known.now ≡ None)) (IsOwnerFault known.now) }
{
    let mut ids = IndexSet::new(alloc);
    for device in known {
        if !ids.insert(device.id)? {
            return Err(OwnerFault::Twice(device.id));
        }
    }
    Ok(ids)
}

impl Devices {
    ghost use Rattle.std.specs.Prelude.{IfOk, IfErr};

    pub fn new(alloc: Global, known: Vec<Known>) -> Result<Self, OwnerRefusal>
        ensures known { IfOk result (λ devices. devices ≡ known.items) }
        ensures distinct { IfOk result (λ devices. repeated_id known.items ≡ None) }
        ensures handed_back { IfErr result (λ refusal. refusal.known ≡ known) }
        ensures fault { IfErr result (λ refusal. IsOwnerFault known.items refusal.fault) }
    {
        match ids_of(alloc, &known) {
            Ok(ids) => Ok(Devices { ids, known }),
            Err(fault) => Err(OwnerRefusal { known, fault }),
        }
    }

    /// The device with this id.
    pub fn get(&self, id: u32) -> Option<&Known>
        ensures { option_copied result ≡ device_of self.now id }
    {
        let index = self.ids.get_index_of(&id)?;
        Some(&self.known[index])
    }
}

/// Devices that are handed back, and why.
#[derive(Drop)]
pub struct OwnerRefusal {
    pub known: Vec<Known>,
    pub fault: OwnerFault,
}
