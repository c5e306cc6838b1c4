ghost use Rattle.std.specs.Prelude.{◌≡◌, ◌≤◌, ◌<◌, None, length, IfOk, OnOk};
ghost use Rattle.std.specs.Io.KnownBytes.{Consumes, IsAtEnd};
ghost use Rattle.oat_world.specs.Outside.{LoadsUntold};

use crate::files::{Files, LoadFault};
use std::alloc::Global;
use std::io::Read;
use std::{fs, rt};

/// How many bytes are read at once.
const CHUNK: usize = 4096;

/// The files of the system, whose contents aren't told.
///
/// Each `Err` of the system raises the count of faults, also that of an
/// interrupted read, and the load then fails: nothing is tried again.
#[derive(Drop)]
pub struct RealFiles<'a, R> {
    rt: &'a R,
    counts: Counts,
}

impl<'a, R: rt::Files> RealFiles<'a, R> {
    pub fn new(rt: &'a R) -> Self
        ensures told { ⟦<RealFiles<'a, R> as Files>⟧.told result ≡ None }
        ensures faults { ⟦<RealFiles<'a, R> as Files>⟧.faults result ≡ 0 }
        ensures taken { ⟦<RealFiles<'a, R> as Files>⟧.taken result ≡ 0 }
    {
        RealFiles {
            rt,
            counts: Counts {
                faults: 0,
                taken: 0,
            },
        }
    }
}

impl<R: rt::Files> Files for RealFiles<'_, R> {
    ghost told = { λ _. None };

    ghost faults = { λ files. files.counts.faults };

    ghost taken = { λ files. files.counts.taken };

    fn load(&mut self, alloc: Global, name: &str, limit: usize) -> Result<Vec<u8>, LoadFault> {
        match fs::open(self.rt, name) {
            Ok(mut file) => {
                let mut chunk = [0; CHUNK];
                read_whole(alloc, &mut self.counts, &mut file, &mut chunk, limit)
            }
            Err(_) => Err(self.counts.fault()),
        }
    }
}

/// How many faults there were, and how many bytes were taken.
#[derive(Drop)]
struct Counts {
    faults: u64,
    taken: u64,
}

impl Counts {
    ghost use Rattle.std.specs.Prelude.{◌≡◌, ◌≤◌, ◌+◌, ◌-◌, ◌^◌, min};

    fn fault(&mut self) -> LoadFault
        ensures fault { result ≡ LoadFault.Failed }
        ensures faults { self.new.faults ≡ min (self.old.faults + 1) (2 ^ 64 - 1) }
        ensures faults_stay { self.old.faults ≤ self.new.faults }
        ensures taken { self.new.taken ≡ self.old.taken }
    {
        self.faults = self.faults.saturating_add(1);
        LoadFault::Failed
    }

    fn take(&mut self, count: usize)
        ensures taken { self.new.taken ≡ min (self.old.taken + count) (2 ^ 64 - 1) }
        ensures taken_stay { self.old.taken ≤ self.new.taken }
        ensures faults { self.new.faults ≡ self.old.faults }
    {
        self.taken = self.taken.saturating_add(count as u64);
    }
}

/// Reads to the end, chunk by chunk, or until one byte more than the limit was
/// taken.
fn read_whole<F: Read>(
    alloc: Global,
    counts: &mut Counts,
    file: &mut F,
    chunk: &mut [u8],
    limit: usize,
) -> Result<Vec<u8>, LoadFault>
    requires { 0 < length chunk.old }
    ensures faults_stay { counts.old.faults ≤ counts.new.faults }
    ensures taken_stay { counts.old.taken ≤ counts.new.taken }
    ensures short { IfOk result (λ bytes. length bytes.items ≤ limit) }
    ensures loads { LoadsUntold limit counts.old.faults counts.new.faults counts.old.taken counts.new.taken result }
    ensures whole { IfOk result (λ bytes. Consumes (F.remaining file.old) (F.remaining file.new) bytes.items) }
    ensures to_the_end { OnOk result (IsAtEnd (F.remaining file.new)) }
{
    let mut bytes = Vec::new(alloc);
    loop {
        let room = limit - bytes.len();
        let most = room.min(chunk.len() - 1) + 1;
        let part = &mut chunk[..most];
        let Ok(count) = file.read(part) else {
            return Err(counts.fault());
        };
        counts.take(count);
        if count == 0 {
            return Ok(bytes);
        }
        if count > room {
            return Err(LoadFault::TooLong);
        }
        if bytes.extend_from_slice(&part[..count]).is_err() {
            return Err(LoadFault::Memory);
        }
    }
}
