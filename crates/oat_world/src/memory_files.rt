ghost use Rattle.std.specs.Prelude.{◌≡◌, ◌≢◌, ◌≤◌, ◌+◌, ◌-◌, ◌^◌, ◌↔◌, min, [], Some, length, IsSome, IfOk, MatchResult, Err};
ghost use Rattle.std.specs.Option.{option_map};
ghost use Rattle.oat_world.specs.Outside.{LoadsTold};
ghost use Rattle.oat_world.specs.FailingCalls.{IsDue, calls_after};
ghost use Rattle.oat_world.specs.MemoryFiles.{contents_of};

use crate::failing_calls::FailingCalls;
use crate::files::{Files, LoadFault};
use std::alloc::Global;
use std::marker::Model;

/// A file in memory.
#[derive(Drop)]
pub struct MemoryFile {
    pub name: String,
    pub bytes: Vec<u8>,
}

impl Model for MemoryFile {
    ghost use Rattle.std.specs.Prelude.{string_bytes};
    ghost use Rattle.oat_world.specs.MemoryFiles.{HeldFile};

    ghost Value = { HeldFile };

    ghost view = { λ file. record { name = string_bytes file.name; bytes = file.bytes.items } };
}

/// Files in memory, of which chosen loads fail.
///
/// Its count of bytes taken rises by those that a load gives.
#[derive(Drop)]
pub struct MemoryFiles {
    files: Vec<MemoryFile>,
    loads: FailingCalls,
    faults: u64,
    taken: u64,
}

impl Model for MemoryFiles {
    ghost use Rattle.oat_world.specs.MemoryFiles.{HeldFiles};

    ghost Value = { HeldFiles };

    ghost view = { λ held. record { files = held.files.items; loads = held.loads; faults = held.faults; taken = held.taken } };
}

impl MemoryFiles {
    /// A load of a held name fails where its number among all loads, counted
    /// from 0, is one of `failing`.
    pub fn new(files: Vec<MemoryFile>, failing: Vec<u64>) -> Self
        ensures told { ⟦<MemoryFiles as Files>⟧.told result ≡ Some (contents_of files.items) }
        ensures faults { ⟦<MemoryFiles as Files>⟧.faults result ≡ 0 }
        ensures taken { ⟦<MemoryFiles as Files>⟧.taken result ≡ 0 }
        ensures files { result.files ≡ files.items }
        ensures failing { result.loads.failing ≡ failing.items }
        ensures first { result.loads.next ≡ Some 0 }
    {
        MemoryFiles {
            files,
            loads: FailingCalls::new(failing),
            faults: 0,
            taken: 0,
        }
    }
}

impl Files for MemoryFiles {
    ghost told = { λ held. Some (contents_of held.files) };

    ghost faults = { λ held. held.faults };

    ghost taken = { λ held. held.taken };

    fn load(&mut self, alloc: Global, name: &str, limit: usize) -> Result<Vec<u8>, LoadFault>
        ensures same { self.new.files ≡ self.old.files }
        ensures faults_stay { self.old.faults ≤ self.new.faults }
        ensures taken_stay { self.old.taken ≤ self.new.taken }
        ensures short { IfOk result (λ bytes. length bytes.items ≤ limit) }
        ensures loads { LoadsTold (contents_of self.old.files name.now) limit self.old.faults self.new.faults result }

        // It counts its loads, and fails at just those that are due and held.
        ensures counted { self.new.loads ≡ calls_after self.old.loads }
        ensures due { IsSome (contents_of self.old.files name.now) → ((result ≡ Err LoadFault.Failed) ↔ IsDue self.old.loads) }
        ensures fault_only { self.new.faults ≢ self.old.faults → IsDue self.old.loads }
        ensures no_faults { self.old.loads.failing ≡ [] → self.new.faults ≡ self.old.faults }

        ensures takes { MatchResult result
            (λ bytes. self.new.taken ≡ min (self.old.taken + length bytes.items) (2 ^ 64 - 1))
            (λ _. self.new.taken ≡ self.old.taken) }
    {
        let fails = self.loads.next_fails();
        let Some(bytes) = content(self.files.as_slice(), name) else {
            return Err(LoadFault::Failed);
        };
        if fails {
            self.faults = self.faults.saturating_add(1);
            return Err(LoadFault::Failed);
        }
        if bytes.len() > limit {
            return Err(LoadFault::TooLong);
        }
        let Ok(copy) = Vec::from_slice(alloc, bytes) else {
            return Err(LoadFault::Memory);
        };
        self.taken = self.taken.saturating_add(copy.len() as u64);
        Ok(copy)
    }
}

/// The bytes of the first file with the name.
fn content<'a>(files: &'a [MemoryFile], name: &str) -> Option<&'a [u8]>
    ensures { option_map (λ bytes. bytes.now) result ≡ contents_of files.now name.now }
{
    for file in files {
        if file.name.as_str() == name {
            return Some(file.bytes.as_slice());
        }
    }
    None
}
