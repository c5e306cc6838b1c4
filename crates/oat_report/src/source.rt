//! The lines of a path of a program.

ghost use Rattle.std.specs.Prelude.{◌≡◌, ◌++◌, OnOk, IfOk, codes};
ghost use Rattle.oat_check.specs.Naming.{source_func_name, source_block_name, source_site_name};
ghost use Rattle.oat_report.specs.PathLine.{place_text, site_text, space};
ghost use Rattle.oat_report.specs.SourceLine.{source_edge_line};

use crate::line::end_line;
use crate::text::put_number;
use oat_ir::{BlockIr, Func, Program, SourceEdge, SourceSite};
use std::alloc::{AllocError, Global};

fn put_block_of(out: &mut Vec<u8>, func: &Func, block: &BlockIr) -> Result<(), AllocError>
    ensures { OnOk result (out.new.items ≡ out.old.items ++ (func.now.name ++ codes "." ++ block.now.label)) }
{
    out.extend_from_slice(func.name.as_bytes())?;
    out.extend_from_slice(b".")?;
    out.extend_from_slice(block.label.as_bytes())
}

fn put_func(out: &mut Vec<u8>, program: &Program, site: &SourceSite) -> Result<(), AllocError>
    ensures { OnOk result (out.new.items ≡ out.old.items ++ place_text (source_func_name program.now site.now)) }
{
    match program.funcs.as_slice().get(site.func as usize) {
        Some(func) => out.extend_from_slice(func.name.as_bytes()),
        None => out.extend_from_slice(b"-"),
    }
}

fn put_block(out: &mut Vec<u8>, program: &Program, site: &SourceSite) -> Result<(), AllocError>
    ensures { OnOk result (out.new.items ≡ out.old.items ++ place_text (source_block_name program.now site.now)) }
{
    let Some(func) = program.funcs.as_slice().get(site.func as usize) else {
        return out.extend_from_slice(b"-");
    };
    match func.blocks.as_slice().get(site.block as usize) {
        Some(block) => put_block_of(out, func, block),
        None => out.extend_from_slice(b"-"),
    }
}

fn put_site(out: &mut Vec<u8>, program: &Program, site: &SourceSite) -> Result<(), AllocError>
    ensures { OnOk result (out.new.items ≡ out.old.items ++ site_text (source_site_name program.now site.now)) }
{
    put_block(out, program, site)?;
    out.extend_from_slice(b"#")?;
    put_number(out, site.number as usize)
}

/// The keyword and the site of a line.
fn begin_line(
    alloc: Global,
    keyword: &[u8],
    program: &Program,
    from: &SourceSite,
) -> Result<Vec<u8>, AllocError>
    ensures { IfOk result (λ line. line.items ≡ keyword.now ++ site_text (source_site_name program.now from.now) ++ space) }
{
    let mut line = Vec::from_slice(alloc, keyword)?;
    put_site(&mut line, program, from)?;
    line.extend_from_slice(b" ")?;
    Ok(line)
}

fn jump_line(
    alloc: Global,
    program: &Program,
    from: &SourceSite,
    to: &SourceSite,
) -> Result<Vec<u8>, AllocError>
    ensures { IfOk result (λ line. line.items ≡ codes "jump " ++ site_text (source_site_name program.now from.now) ++ space
        ++ place_text (source_block_name program.now to.now)) }
{
    let mut line = begin_line(alloc, b"jump ", program, from)?;
    put_block(&mut line, program, to)?;
    Ok(line)
}

fn branch_line(
    alloc: Global,
    program: &Program,
    from: &SourceSite,
    bit: bool,
    to: &SourceSite,
) -> Result<Vec<u8>, AllocError>
    ensures { IfOk result (λ line. line.items ≡ source_edge_line program.now (SourceEdge.Branch bit from.now to.now)) }
{
    let mut line = begin_line(alloc, b"branch ", program, from)?;
    line.extend_from_slice(if bit { b"1" } else { b"0" })?;
    line.extend_from_slice(b" ")?;
    put_block(&mut line, program, to)?;
    Ok(line)
}

/// The line of a call or an indirect call.
fn call_line(
    alloc: Global,
    keyword: &[u8],
    program: &Program,
    from: &SourceSite,
    to: &SourceSite,
) -> Result<Vec<u8>, AllocError>
    ensures { IfOk result (λ line. line.items ≡ keyword.now ++ site_text (source_site_name program.now from.now) ++ space
        ++ place_text (source_func_name program.now to.now)) }
{
    let mut line = begin_line(alloc, keyword, program, from)?;
    put_func(&mut line, program, to)?;
    Ok(line)
}

fn return_line(
    alloc: Global,
    program: &Program,
    from: &SourceSite,
    to: &SourceSite,
) -> Result<Vec<u8>, AllocError>
    ensures { IfOk result (λ line. line.items ≡ codes "ret " ++ site_text (source_site_name program.now from.now) ++ space
        ++ site_text (source_site_name program.now to.now)) }
{
    let mut line = begin_line(alloc, b"ret ", program, from)?;
    put_site(&mut line, program, to)?;
    Ok(line)
}

/// The line of an edge, without its line end (docs/FORMATS.md, "Path lines").
///
/// A function or block that the program doesn't have is written as `-`.
pub fn source_line(
    alloc: Global,
    program: &Program,
    edge: &SourceEdge,
) -> Result<Vec<u8>, AllocError>
    ensures { IfOk result (λ line. line.items ≡ source_edge_line program.now edge.now) }
{
    match edge {
        SourceEdge::Jump { from, to } => jump_line(alloc, program, from, to),
        SourceEdge::Branch { bit, from, to } => branch_line(alloc, program, from, *bit, to),
        SourceEdge::Call { from, to } => call_line(alloc, b"call ", program, from, to),
        SourceEdge::ICall { from, to } => call_line(alloc, b"icall ", program, from, to),
        SourceEdge::Ret { from, to } => return_line(alloc, program, from, to),
        SourceEdge::End { op } => end_line(alloc, *op),
    }
}
