//! Things that are found by their names, in the order in which they were declared.

ghost use Rattle.std.specs.Prelude.{◌≡◌, ◌≤◌, ◌<◌, ◌^◌, ◌++◌, ◌∷◌, ◌==◌, ◌-◌, false, List, ℕ, length, [], OnOk, OnErr};
ghost use Rattle.std.specs.List.{list_any};
ghost use Rattle.std.specs.Str.{bytes_eq};

use crate::fault::{TextFault, TextFaultKind};
use indexmap::IndexSet;
use oat_ir::{GlobalItem, Local};
use oat_lines::Fault;
use oat_map::Name;
use std::alloc::Global;
use std::marker::Model;

/// What has a name.
pub trait Called {
    ghost called: { Self → List ℕ };

    fn called(&self) -> &[u8]
        ensures { result.now ≡ called self.now };
}

impl Called for Name {
    ghost called = { λ name. name };

    fn called(&self) -> &[u8] {
        self.as_bytes()
    }
}

impl Called for Local {
    ghost called = { λ local. local.name };

    fn called(&self) -> &[u8] {
        self.name.as_bytes()
    }
}

impl Called for GlobalItem {
    ghost use Rattle.oat_ir.specs.Distinct.{global_name};

    ghost called = { global_name };

    fn called(&self) -> &[u8] {
        self.name().as_bytes()
    }
}

/// Things, no two of one name. Their number fits 32 bits.
#[derive(Drop)]
pub struct Table<T: Called + Drop> {
    names: IndexSet<Vec<u8>>,
    items: Vec<T>,
}

impl<T: Called + Drop> Model for Table<T> {
    ghost use Rattle.std.specs.Prelude.{◌≡◌, ◌<◌, ◌^◌, List, map, length};

    ghost Value = { List T };

    ghost view = { λ t. t.items.items };

    ghost invariant = { λ t. (map (λ name. name.items) t.names.keys ≡ map T.called t.items.items) × (length t.items.items < 2 ^ 32) };
}

impl<T: Called + Drop> Table<T> {
    ghost use Rattle.oat_lines.specs.Faults.{Gives};
    ghost use Rattle.oat_lines.specs.declared.fault.Fault.TheVariants.{Memory};
    ghost use Rattle.oat_text.specs.Outline.{add};
    ghost use Rattle.oat_text.specs.Bodies.{index_of};

    /// An empty table, for which no memory is taken.
    pub fn new(alloc: Global) -> Self
        ensures { result ≡ [] }
    {
        Table {
            names: IndexSet::new(alloc),
            items: Vec::new(alloc),
        }
    }

    pub fn is_empty(&self) -> bool
        ensures { result ≡ (length self.now == 0) }
    {
        self.items.is_empty()
    }

    /// How many things there are.
    pub fn len(&self) -> usize
        ensures { result ≡ length self.now }
    {
        self.items.len()
    }

    fn has(&self, name: &[u8]) -> bool
        ensures { result ≡ list_any (λ other. bytes_eq name.now (T.called other)) self.now }
    {
        self.names.contains(name)
    }

    fn push(&mut self, item: T) -> Result<(), TextFault>
        requires new { list_any (λ other. bytes_eq (T.called item) (T.called other)) self.old ≡ false }
        requires room { length self.old < 2 ^ 32 - 1 }
        ensures pushed { OnOk result (self.new ≡ self.old ++ item ∷ []) }
        ensures memory { OnErr result (result ≡ Err Memory) }
    {
        let mut name = Vec::new(*self.items.allocator());
        name.extend_from_slice(item.called())?;
        self.items.push(item)?;
        match self.names.insert(name) {
            Ok(_) => Ok(()),
            Err(_) => {
                self.items.pop();
                Err(Fault::Memory)
            }
        }
    }

    /// Puts a thing behind the others, unless there is one of its name.
    pub fn declare(&mut self, line: u32, item: T) -> Result<(), TextFault>
        ensures { Gives (λ _. self.new) result (add line T.called self.old item) }
    {
        if self.has(item.called()) {
            return Err(Fault::At(line, TextFaultKind::Duplicate));
        }
        if self.items.len() >= u32::MAX as usize {
            return Err(Fault::Memory);
        }
        self.push(item)
    }

    /// The index of the thing of this name.
    pub fn number(&self, name: &[u8]) -> Option<u32>
        ensures { result ≡ index_of T.called self.now name.now }
    {
        match self.names.get_index_of(name) {
            Some(index) => Some(index as u32),
            None => None,
        }
    }

    /// The things in their order.
    pub fn into_items(self) -> Vec<T>
        ensures { result.items ≡ self }
    {
        self.items
    }
}
