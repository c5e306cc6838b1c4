//! Printing a program, line by line.

ghost use Rattle.std.specs.Prelude.{◌≡◌, ◌++◌, ◌≤◌, [], ◌∷◌, map, length, take, drop, OnOk, IfOk, All};
ghost use Rattle.std.specs.List.{flat_map};
ghost use Rattle.oat_lines.specs.Fields.{spaced, ended};
ghost use Rattle.oat_ir.specs.Indices.{HasLocal, HasBlock, HasGlobal, HasFunc, IsInstr, IsTerm};
ghost use Rattle.oat_ir.specs.WellFormed.{IsRole, IsBlockIr, IsFunc, IsProgram};
ghost use Rattle.oat_text.specs.Words.{printed_word};
ghost use Rattle.oat_text.specs.Grammar.{local_at, block_at, global_at, func_at, scalar_keyword, global_line, instr_line, term_line, parameter, head_line, local_line, block_lines, func_lines, line_text, lines_text, program_text};
ghost use Rattle.oat_text.specs.Printing.{words_behind, head_text};

use crate::form::op_spelled;
use crate::put::{
    put_counted, put_four, put_line, put_parameter, put_three, put_two, put_typed, put_word,
};
use itoa::Buffer;
use oat_ir::{Args, BlockIr, Func, GlobalItem, Instr, Local, Program, Role, Term, Ty};
use std::alloc::{AllocError, Global};

// Names of what an index stands for.

fn local(func: &Func, x: u32) -> &[u8]
    requires { HasLocal func.now x }
    ensures { result.now ≡ printed_word (local_at func.now x) }
{
    func.locals.as_slice()[x as usize].name.as_bytes()
}

fn label(func: &Func, block: u32) -> &[u8]
    requires { HasBlock func.now block }
    ensures { result.now ≡ printed_word (block_at func.now block) }
{
    func.blocks.as_slice()[block as usize].label.as_bytes()
}

fn global(program: &Program, global: u32) -> &[u8]
    requires { HasGlobal program.now global }
    ensures { result.now ≡ printed_word (global_at program.now global) }
{
    program.globals.as_slice()[global as usize]
        .name()
        .as_bytes()
}

fn function(program: &Program, func: u32) -> &[u8]
    requires { HasFunc program.now func }
    ensures { result.now ≡ printed_word (func_at program.now func) }
{
    program.funcs.as_slice()[func as usize].name.as_bytes()
}

// Lines.

/// The keyword of a scalar that is a number.
fn scalar_spelled(critical: bool) -> &'static [u8]
    ensures { result.now ≡ scalar_keyword critical }
{
    if critical { b"critical" } else { b"global" }
}

fn put_global(out: &mut Vec<u8>, global: &GlobalItem) -> Result<(), AllocError>
    ensures { OnOk result (out.new.items ≡ out.old.items ++ line_text (global_line global.now)) }
{
    match global {
        GlobalItem::Scalar {
            name,
            start,
            critical,
        } => {
            let mut digits = Buffer::new();
            put_three(
                out,
                scalar_spelled(*critical),
                name.as_bytes(),
                digits.format(*start).as_bytes(),
            )
        }
        GlobalItem::FnScalar { name, params } => {
            put_typed(out, b"global", name, Ty::Fn(*params))
        }
        GlobalItem::Array { name, len } => put_counted(out, b"array", name, *len),
        GlobalItem::CriticalArray { name, len } => put_counted(out, b"criticals", name, *len),
    }
}

fn put_arguments(out: &mut Vec<u8>, func: &Func, args: &[u32]) -> Result<(), AllocError>
    requires { All (HasLocal func.now) args.now }
    ensures { OnOk result (out.new.items ≡ out.old.items ++ words_behind (local_at func.now) args.now) }
{
    for arg in args {
        put_word(out, local(func, *arg))?;
    }
    Ok(())
}

/// A line of three words and the arguments of a call.
fn put_call(
    out: &mut Vec<u8>,
    func: &Func,
    keyword: &[u8],
    x: &[u8],
    callee: &[u8],
    args: &Args,
) -> Result<(), AllocError>
    requires { All (HasLocal func.now) args.now }
    ensures { OnOk result (out.new.items
        ≡ out.old.items ++ ended (spaced (keyword.now ∷ x.now ∷ callee.now ∷ map printed_word (map (local_at func.now) args.now)))) }
{
    out.extend_from_slice(keyword)?;
    put_word(out, x)?;
    put_word(out, callee)?;
    put_arguments(out, func, args.as_slice())?;
    out.extend_from_slice(b"\n")
}

fn put_instr(
    out: &mut Vec<u8>,
    program: &Program,
    func: &Func,
    instr: &Instr,
) -> Result<(), AllocError>
    requires { IsInstr program.now func.now instr.now }
    ensures { OnOk result (out.new.items ≡ out.old.items ++ line_text (instr_line program.now func.now instr.now)) }
{
    match instr {
        Instr::Const { x, value } => {
            let mut digits = Buffer::new();
            let value = digits.format(*value).as_bytes();
            put_three(out, b"const", local(func, *x), value)
        }
        Instr::Copy { x, y } => put_three(out, b"copy", local(func, *x), local(func, *y)),
        Instr::Binary { op, x, y, z } => {
            let op = op_spelled(*op);
            put_four(out, op, local(func, *x), local(func, *y), local(func, *z))
        }
        Instr::Load { x, global: g } => {
            put_three(out, b"load", local(func, *x), global(program, *g))
        }
        Instr::Store { global: g, x } => {
            put_three(out, b"store", global(program, *g), local(func, *x))
        }
        Instr::LoadX { x, array, i } => {
            let array = global(program, *array);
            put_four(out, b"loadx", local(func, *x), array, local(func, *i))
        }
        Instr::StoreX { array, i, x } => {
            let array = global(program, *array);
            put_four(out, b"storex", array, local(func, *i), local(func, *x))
        }
        Instr::RefTo { x, func: f } => {
            put_three(out, b"ref", local(func, *x), function(program, *f))
        }
        Instr::Call { x, func: f, args } => {
            let callee = function(program, *f);
            put_call(out, func, b"call", local(func, *x), callee, args)
        }
        Instr::ICall { x, y, args } => {
            put_call(out, func, b"icall", local(func, *x), local(func, *y), args)
        }
        Instr::Input { x } => put_two(out, b"in", local(func, *x)),
        Instr::Output { x } => put_two(out, b"out", local(func, *x)),
    }
}

fn put_term(out: &mut Vec<u8>, func: &Func, term: &Term) -> Result<(), AllocError>
    requires { IsTerm func.now term.now }
    ensures { OnOk result (out.new.items ≡ out.old.items ++ line_text (term_line func.now term.now)) }
{
    match term {
        Term::Jump { to } => put_two(out, b"jump", label(func, *to)),
        Term::Branch { x, first, second } => put_four(
            out,
            b"branch",
            local(func, *x),
            label(func, *first),
            label(func, *second),
        ),
        Term::Ret { x } => put_two(out, b"ret", local(func, *x)),
        Term::Halt => put_line(out, b"halt"),
    }
}

// Blocks.

fn put_instrs(
    out: &mut Vec<u8>,
    program: &Program,
    func: &Func,
    instrs: &[Instr],
) -> Result<(), AllocError>
    requires { All (IsInstr program.now func.now) instrs.now }
    ensures { OnOk result (out.new.items ≡ out.old.items ++ flat_map (λ instr. line_text (instr_line program.now func.now instr)) instrs.now) }
{
    for instr in instrs {
        put_instr(out, program, func, instr)?;
    }
    Ok(())
}

fn put_block(
    out: &mut Vec<u8>,
    program: &Program,
    func: &Func,
    block: &BlockIr,
) -> Result<(), AllocError>
    requires { IsBlockIr program.now func.now block.now }
    ensures { OnOk result (out.new.items ≡ out.old.items ++ lines_text (block_lines program.now func.now block.now)) }
{
    put_two(out, b"block", block.label.as_bytes())?;
    put_instrs(out, program, func, block.instrs.as_slice())?;
    put_term(out, func, &block.term)
}

fn put_blocks(
    out: &mut Vec<u8>,
    program: &Program,
    func: &Func,
    blocks: &[BlockIr],
) -> Result<(), AllocError>
    requires { All (IsBlockIr program.now func.now) blocks.now }
    ensures { OnOk result (out.new.items ≡ out.old.items ++ flat_map (λ block. lines_text (block_lines program.now func.now block)) blocks.now) }
{
    for block in blocks {
        put_block(out, program, func, block)?;
    }
    Ok(())
}

// Functions.

fn put_parameters(out: &mut Vec<u8>, params: &[Local]) -> Result<(), AllocError>
    ensures { OnOk result (out.new.items ≡ out.old.items ++ words_behind parameter params.now) }
{
    for local in params {
        put_parameter(out, local)?;
    }
    Ok(())
}

/// The head of a function up to its parameters.
fn begin_head(out: &mut Vec<u8>, func: &Func) -> Result<(), AllocError>
    ensures { OnOk result (out.new.items ≡ out.old.items ++ head_text func.now.role func.now.name) }
{
    match func.role {
        Role::Plain => {
            out.extend_from_slice(b"func")?;
            put_word(out, func.name.as_bytes())
        }
        Role::Operation(id) => {
            let mut digits = Buffer::new();
            out.extend_from_slice(b"operation")?;
            put_word(out, digits.format(id).as_bytes())?;
            put_word(out, func.name.as_bytes())
        }
        Role::Main => out.extend_from_slice(b"main"),
    }
}

fn put_head(out: &mut Vec<u8>, func: &Func) -> Result<(), AllocError>
    requires role { IsRole func.now.role func.now }
    requires params { func.now.params ≤ length func.now.locals }
    ensures { OnOk result (out.new.items
        ≡ out.old.items ++ line_text (head_line func.now.role func.now.name (take func.now.params func.now.locals))) }
{
    begin_head(out, func)?;
    put_parameters(out, &func.locals.as_slice()[..func.params as usize])?;
    out.extend_from_slice(b"\n")
}

fn put_locals(out: &mut Vec<u8>, locals: &[Local]) -> Result<(), AllocError>
    ensures { OnOk result (out.new.items ≡ out.old.items ++ flat_map (λ local. line_text (local_line local)) locals.now) }
{
    for local in locals {
        put_typed(out, b"local", &local.name, local.ty)?;
    }
    Ok(())
}

/// The locals that are no parameters.
fn behind_params(func: &Func) -> &[Local]
    requires { func.now.params ≤ length func.now.locals }
    ensures { result.now ≡ drop func.now.params func.now.locals }
{
    &func.locals.as_slice()[func.params as usize..]
}

fn put_func(out: &mut Vec<u8>, program: &Program, func: &Func) -> Result<(), AllocError>
    requires { IsFunc program.now func.now }
    ensures { OnOk result (out.new.items ≡ out.old.items ++ lines_text (func_lines program.now func.now)) }
{
    put_head(out, func)?;
    put_locals(out, behind_params(func))?;
    put_blocks(out, program, func, func.blocks.as_slice())?;
    put_line(out, b"end")
}

// Programs.

fn put_funcs(out: &mut Vec<u8>, program: &Program, funcs: &[Func]) -> Result<(), AllocError>
    requires { All (IsFunc program.now) funcs.now }
    ensures { OnOk result (out.new.items ≡ out.old.items ++ flat_map (λ func. lines_text (func_lines program.now func)) funcs.now) }
{
    for func in funcs {
        put_func(out, program, func)?;
    }
    Ok(())
}

fn put_globals(out: &mut Vec<u8>, globals: &[GlobalItem]) -> Result<(), AllocError>
    ensures { OnOk result (out.new.items ≡ out.old.items ++ flat_map (λ global. line_text (global_line global)) globals.now) }
{
    for global in globals {
        put_global(out, global)?;
    }
    Ok(())
}

/// The text of a program, with one space between two words and no line that is skipped.
///
/// `read_program` gives the program back where the text is within the limit there.
pub fn print_program(alloc: Global, program: &Program) -> Result<Vec<u8>, AllocError>
    requires { IsProgram program.now }
    ensures { IfOk result (λ text. text.items ≡ program_text program.now) }
{
    let mut out = Vec::new(alloc);
    put_globals(&mut out, program.globals.as_slice())?;
    put_funcs(&mut out, program, program.funcs.as_slice())?;
    Ok(out)
}
