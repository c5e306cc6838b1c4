ghost use Rattle.std.specs.Prelude.{◌≡◌, ◌↔◌, IsTrue, IfOk, Contains, map};
ghost use Rattle.std.specs.List.{filter};
ghost use Rattle.std.specs.List.Sorted.{IsStrictlyIncreasing};
ghost use Rattle.oat_image.specs.{after, entries_of, starts_of, is_call};
ghost use Rattle.oat_shape.specs.Parts.{count_below};
ghost use Rattle.oat_shape.specs.Shape.{IsReturnSite};

use oat_map::{Block, Function, Row};
use std::alloc::{AllocError, Global};

pub(crate) fn entries(alloc: Global, functions: &[Function]) -> Result<Vec<u64>, AllocError>
    ensures { IfOk result (λ entries. entries.items ≡ entries_of functions.now) }
{
    functions
        .iter()
        .map(|function| function.entry)
        .collect(alloc)
}

pub(crate) fn starts(alloc: Global, blocks: &[Block]) -> Result<Vec<u64>, AllocError>
    ensures { IfOk result (λ starts. starts.items ≡ starts_of blocks.now) }
{
    blocks.iter().map(|block| block.start).collect(alloc)
}

/// The addresses behind the groups of calls.
pub(crate) fn return_sites(alloc: Global, rows: &[Row]) -> Result<Vec<u64>, AllocError>
    ensures { IfOk result (λ sites. sites.items ≡ map (λ row. after row) (filter (λ row. is_call row) rows.now)) }
{
    rows.iter()
        .filter(|row| is_call(row))
        .map(|row| row.after())
        .collect(alloc)
}

fn is_call(row: &Row) -> bool
    ensures { result ≡ is_call row.now }
{
    match *row {
        Row::Call { .. } | Row::ICall { .. } => true,
        Row::Jump { .. }
        | Row::Branch { .. }
        | Row::Ret { .. }
        | Row::Begin { .. }
        | Row::End { .. }
        | Row::UseCell { .. }
        | Row::DefCell { .. }
        | Row::UseAt { .. }
        | Row::DefAt { .. }
        | Row::Check { .. } => false,
    }
}

pub(crate) fn is_one_of(places: &[u64], place: u64) -> bool
    requires { IsStrictlyIncreasing places.now }
    ensures { IsTrue result ↔ Contains places.now place }
{
    places.binary_search(&place).is_ok()
}

/// How many of the places are below this one.
pub(crate) fn number_below(places: &[u64], place: u64) -> usize
    requires { IsStrictlyIncreasing places.now }
    ensures { result ≡ count_below places.now place }
{
    places.partition_point(|other| *other < place)
}
