//! The addresses of labels.
ghost use Rattle.std.specs.Prelude.{◌≡◌, ℕ, IfOk, OnOk, nat_eq, if◌then◌else◌, Some};
ghost use Rattle.std.specs.Ordering.{nat_cmp};
ghost use Rattle.std.specs.BTreeMap.{get};
ghost use Rattle.oat_match.specs.{code_base, layout, label_address, CanBeAssembled, LabelsStandOnce};
ghost use Rattle.oat_build.specs.Addresses.{address_in};

use oat_asm::{Assembled, Items, LabelAt};
use oat_shape::CODE_BASE;
use std::alloc::{AllocError, Global};
use std::collections::BTreeMap;

/// Where labels stand. A label that stands nowhere has the address behind all code.
#[derive(Drop)]
pub(crate) struct LabelAddresses {
    known: BTreeMap<u32, u64>,
    end: u64,
}

impl LabelAddresses {
    /// Those of the labels among the items.
    pub(crate) fn new(
        alloc: Global,
        items: &Items,
        assembled: &Assembled,
    ) -> Result<LabelAddresses, AllocError>
        requires whole { CanBeAssembled items.now }
        requires laid { assembled.now ≡ layout items.now code_base }
        requires once { LabelsStandOnce items.now }
        ensures { IfOk result (λ addresses. (label : ℕ) → address_in addresses label ≡ label_address items.now label) }
    {
        let mut known = BTreeMap::new(alloc);
        for entry in assembled.labels.as_slice() {
            set(&mut known, *entry)?;
        }
        let end = CODE_BASE + 4 * assembled.code.len() as u64;
        Ok(LabelAddresses { known, end })
    }

    pub(crate) fn of(&self, label: u32) -> u64
        ensures { result ≡ address_in self.now label }
    {
        self.known.get(&label).copied().unwrap_or(self.end)
    }
}

fn set(known: &mut BTreeMap<u32, u64>, entry: LabelAt) -> Result<(), AllocError>
    ensures { OnOk result ((label : ℕ) → get nat_cmp known.new label ≡ (if nat_eq entry.label label then Some entry.at else get nat_cmp known.old label)) }
{
    known.insert(entry.label, entry.at)?;
    Ok(())
}
