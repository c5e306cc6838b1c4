ghost use Rattle.std.specs.Prelude.{◌≡◌, ◌≤◌, length, map, zip, IfOk, Ok};
ghost use Rattle.oat_lines.specs.Faults.{Gives};
ghost use Rattle.oat_ir.specs.declared.program.Program.{Program};
ghost use Rattle.oat_text.specs.Grammar.{IsProgramText};
ghost use Rattle.oat_text.specs.Outline.{outline_of};
ghost use Rattle.oat_text.specs.Bodies.{bodies_of, func_from, program_from, program_of};

use crate::bodies::Bodies;
use crate::fault::{TextFault, TextFaultKind};
use crate::head::Head;
use crate::outline::Outline;
use crate::pass::go_over;
use oat_ir::{BlockIr, Func, Listed, Program};
use oat_lines::Fault;
use oat_map::Name;
use std::alloc::{AllocError, Global};

fn outline_in(alloc: Global, text: &[u8]) -> Result<Outline, TextFault>
    requires { length text.now ≤ 1048576 }
    ensures { Gives (λ outline. outline) result (outline_of text.now) }
{
    let mut outline = Outline::new(alloc);
    let end = go_over(&mut outline, text)?;
    if !outline.is_outside() {
        return Err(Fault::At(end, TextFaultKind::Expected));
    }
    Ok(outline)
}

fn bodies_in<'o>(outline: &'o Outline, text: &[u8]) -> Result<Bodies<'o>, TextFault>
    requires { length text.now ≤ 1048576 }
    ensures { Gives (λ bodies. bodies) result (bodies_of outline.now text.now) }
{
    let mut bodies = Bodies::new(outline);
    go_over(&mut bodies, text)?;
    Ok(bodies)
}

fn func_from(part: (Name, (Head, Listed<BlockIr>))) -> Func
    ensures { result ≡ func_from part }
{
    let (name, (head, blocks)) = part;
    Func {
        name,
        role: head.role,
        params: head.params,
        locals: Listed::from_vec(head.locals.into_items()),
        blocks,
    }
}

fn funcs_from(
    alloc: Global,
    names: Vec<Name>,
    heads: Vec<Head>,
    bodies: Vec<Listed<BlockIr>>,
) -> Result<Vec<Func>, AllocError>
    ensures { IfOk result (λ funcs. funcs.items ≡ map func_from (zip names.items (zip heads.items bodies.items))) }
{
    names
        .into_iter()
        .zip(heads.into_iter().zip(bodies))
        .map(func_from)
        .collect(alloc)
}

fn program_from(
    alloc: Global,
    outline: Outline,
    bodies: Vec<Listed<BlockIr>>,
) -> Result<Program, AllocError>
    ensures { IfOk result (λ program. program ≡ program_from outline bodies.items) }
{
    let funcs = funcs_from(alloc, outline.funcs.into_items(), outline.heads, bodies)?;
    Ok(Program {
        globals: Listed::from_vec(outline.globals.into_items()),
        funcs: Listed::from_vec(funcs),
    })
}

fn read_whole(alloc: Global, text: &[u8]) -> Result<Program, TextFault>
    requires { length text.now ≤ 1048576 }
    ensures { Gives (λ read. read) result (program_of text.now) }
{
    let outline = outline_in(alloc, text)?;
    let bodies = bodies_in(&outline, text)?.into_ended();
    let program = program_from(alloc, outline, bodies)?;
    Ok(program)
}

/// The program that a text stands for; the text has at most 1,048,576 bytes.
pub fn read_program(alloc: Global, text: &[u8]) -> Result<Program, TextFault>
    requires { length text.now ≤ 1048576 }
    // What is read is a program of the text.
    ensures found { IfOk result (λ program. IsProgramText text.now program) }
    // The program of a text is read, unless memory runs out.
    ensures only { (program : Program) → IsProgramText text.now program → Gives (λ read. read) result (Ok program) }
    // Which fault it is, and of which line.
    ensures exact { Gives (λ read. read) result (program_of text.now) }
{
    read_whole(alloc, text)
}
