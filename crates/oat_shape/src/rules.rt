ghost use Rattle.std.specs.Prelude.{IfOk, MatchOption};
ghost use Rattle.oat_image.specs.Grammar.{IsWellFormedImage};
ghost use Rattle.oat_shape.specs.Lowest.{Lowest};
ghost use Rattle.oat_shape.specs.MapRules.{S2, S4, S7, S8};
ghost use Rattle.oat_shape.specs.Parts.{KeepsLaterRules};
ghost use Rattle.oat_shape.specs.Shape.{BreaksLaterRule, BreaksRule, Everywhere, IsShaped, S1, S3, S5, S6};

use crate::apart::{lowest_inside, lowest_off_code};
use crate::decoding::lowest_undecoded;
use crate::fault::Broken;
use crate::groups::lowest_broken_group;
use crate::leads::lowest_misled;
use crate::lowest::lower;
use crate::named::{lowest_misplaced, lowest_renamed};
use crate::paired::lowest_unpaired;
use crate::places::{entries, return_sites, starts};
use crate::rises::lowest_overlap;
use crate::transfers::lowest_loose_transfer;
use oat_image::Image;
use std::alloc::{AllocError, Global};

/// The first shape rule that fails, if one does.
pub(crate) fn first_broken(alloc: Global, image: &Image) -> Result<Option<Broken>, AllocError>
    requires { IsWellFormedImage image.now }
    ensures { IfOk result (λ broken. MatchOption broken (IsShaped image.now) (BreaksRule image.now)) }
{
    match s1(image) {
        Some(at) => return Ok(Some(Broken { number: 1, at })),
        None => {}
    }
    match s2(image) {
        Some(at) => return Ok(Some(Broken { number: 2, at })),
        None => {}
    }
    match s3(image) {
        Some(at) => return Ok(Some(Broken { number: 3, at })),
        None => {}
    }
    match s4(alloc, image)? {
        Some(at) => return Ok(Some(Broken { number: 4, at })),
        None => {}
    }
    later_broken(alloc, image)
}

/// The first of the rules from S5 on that fails, if one does.
fn later_broken(alloc: Global, image: &Image) -> Result<Option<Broken>, AllocError>
    requires well_formed { IsWellFormedImage image.now }
    requires rises { Everywhere (S2 image.now.map) }
    ensures { IfOk result (λ broken. MatchOption broken (KeepsLaterRules image.now) (BreaksLaterRule image.now)) }
{
    match s5(alloc, image)? {
        Some(at) => return Ok(Some(Broken { number: 5, at })),
        None => {}
    }
    match s6(alloc, image)? {
        Some(at) => return Ok(Some(Broken { number: 6, at })),
        None => {}
    }
    match s7(alloc, image)? {
        Some(at) => return Ok(Some(Broken { number: 7, at })),
        None => {}
    }
    match s8(alloc, image)? {
        Some(at) => Ok(Some(Broken { number: 8, at })),
        None => Ok(None),
    }
}

// ---- the lowest address at which each rule fails

fn s1(image: &Image) -> Option<u64>
    requires { IsWellFormedImage image.now }
    ensures { Lowest (S1 image.now) result }
{
    lowest_undecoded(image.code.as_slice())
}

fn s2(image: &Image) -> Option<u64>
    ensures { Lowest (S2 image.now.map) result }
{
    lowest_overlap(image.map.rows.as_slice())
}

fn s3(image: &Image) -> Option<u64>
    requires well_formed { IsWellFormedImage image.now }
    requires rises { Everywhere (S2 image.now.map) }
    ensures { Lowest (S3 image.now) result }
{
    let code = image.code.as_slice();
    let rows = image.map.rows.as_slice();
    lower(
        lowest_loose_transfer(code, rows),
        lowest_broken_group(code, image.cells.as_slice(), rows),
    )
}

fn s4(alloc: Global, image: &Image) -> Result<Option<u64>, AllocError>
    requires { IsWellFormedImage image.now }
    ensures { IfOk result (λ lowest. Lowest (S4 image.now.map) lowest) }
{
    let entries = entries(alloc, image.map.functions.as_slice())?;
    let starts = starts(alloc, image.map.blocks.as_slice())?;
    Ok(lowest_misled(
        image.map.rows.as_slice(),
        entries.as_slice(),
        starts.as_slice(),
    ))
}

fn s5(alloc: Global, image: &Image) -> Result<Option<u64>, AllocError>
    requires well_formed { IsWellFormedImage image.now }
    requires rises { Everywhere (S2 image.now.map) }
    ensures { IfOk result (λ lowest. Lowest (S5 image.now) lowest) }
{
    let rows = image.map.rows.as_slice();
    let entries = entries(alloc, image.map.functions.as_slice())?;
    let starts = starts(alloc, image.map.blocks.as_slice())?;
    let sites = return_sites(alloc, rows)?;
    let entry = lowest_inside(rows, entries.as_slice());
    let start = lowest_inside(rows, starts.as_slice());
    let site = lowest_inside(rows, sites.as_slice());
    Ok(lower(entry, lower(start, site)))
}

fn s6(alloc: Global, image: &Image) -> Result<Option<u64>, AllocError>
    ensures { IfOk result (λ lowest. Lowest (S6 image.now) lowest) }
{
    let code = image.code.as_slice();
    let entries = entries(alloc, image.map.functions.as_slice())?;
    let starts = starts(alloc, image.map.blocks.as_slice())?;
    let sites = return_sites(alloc, image.map.rows.as_slice())?;
    let entry = lowest_off_code(code, entries.as_slice());
    let start = lowest_off_code(code, starts.as_slice());
    let site = lowest_off_code(code, sites.as_slice());
    Ok(lower(entry, lower(start, site)))
}

fn s7(alloc: Global, image: &Image) -> Result<Option<u64>, AllocError>
    ensures { IfOk result (λ lowest. Lowest (S7 image.now.map) lowest) }
{
    Ok(lowest_unpaired(alloc, image.map.rows.as_slice())?)
}

fn s8(alloc: Global, image: &Image) -> Result<Option<u64>, AllocError>
    requires { IsWellFormedImage image.now }
    ensures { IfOk result (λ lowest. Lowest (S8 image.now.map) lowest) }
{
    let entries = entries(alloc, image.map.functions.as_slice())?;
    let function = lowest_renamed(alloc, image.map.functions.as_slice())?;
    let block = lowest_misplaced(alloc, entries.as_slice(), image.map.blocks.as_slice())?;
    Ok(lower(function, block))
}
