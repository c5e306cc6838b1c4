ghost use Rattle.std.specs.Prelude.{ℕ, ◌≡◌, ◌↔◌, IsTrue, IfOk};
ghost use Rattle.std.specs.List.Sorted.{IsStrictlyIncreasing};
ghost use Rattle.oat_shape.specs.Lowest.{Lowest, EachAt};
ghost use Rattle.oat_shape.specs.Parts.{HaveOneName, HaveOneLabel, IsFirst, LiesInFunction};

use crate::lowest::note;
use crate::places::{is_one_of, number_below};
use oat_map::{Block, Function};
use std::alloc::{AllocError, Global};
use std::collections::BTreeSet;

/// Shape rule S8, of functions: the lowest one that has the name of one before it.
pub(crate) fn lowest_renamed(
    alloc: Global,
    functions: &[Function],
) -> Result<Option<u64>, AllocError>
    ensures { IfOk result (λ lowest. Lowest (EachAt functions.now (λ k f. f.entry) (λ k f. IsFirst HaveOneName functions.now k f)) lowest) }
{
    let mut names = BTreeSet::new(alloc);
    let mut lowest = None;
    for function in functions {
        let fresh = names.insert(function.name.as_bytes())?;
        lowest = note(lowest, fresh, function.entry);
    }
    Ok(lowest)
}

/// Shape rule S8, of blocks: the lowest one that lies in no function, or has the label of one
/// before it in its function.
pub(crate) fn lowest_misplaced(
    alloc: Global,
    entries: &[u64],
    blocks: &[Block],
) -> Result<Option<u64>, AllocError>
    requires { IsStrictlyIncreasing entries.now }
    ensures { IfOk result (λ lowest. Lowest (EachAt blocks.now (λ k b. b.start) (λ k b. LiesInFunction entries.now b.start × IsFirst (HaveOneLabel entries.now) blocks.now k b)) lowest) }
{
    let mut labels = BTreeSet::new(alloc);
    let mut lowest = None;
    for block in blocks {
        lowest = note(lowest, lies_in_function(entries, block.start), block.start);
        let function = number_below(entries, block.start);
        let fresh = labels.insert((function, block.label.as_bytes()))?;
        lowest = note(lowest, fresh, block.start);
    }
    Ok(lowest)
}

fn lies_in_function(entries: &[u64], place: u64) -> bool
    requires { IsStrictlyIncreasing entries.now }
    ensures { IsTrue result ↔ LiesInFunction entries.now place }
{
    number_below(entries, place) > 0 && !is_one_of(entries, place)
}
