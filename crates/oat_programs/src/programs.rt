ghost use Rattle.std.specs.Prelude.{◌≡◌, ◌≢◌, ◌++◌, OnOk, IfOk, MatchResult, Some, codes};
ghost use Rattle.std.specs.Fmt.{decimal};
ghost use Rattle.oat_inputs.specs.{Memory, fault_text, program_limit, case_limit, IsRefusal, StopsWith};
ghost use Rattle.oat_text.specs.FaultText.{kind_text};
ghost use Rattle.oat_text.specs.Grammar.{IsProgramText};
ghost use Rattle.oat_programs.specs.Programs.{rule_word, func_named, block_named, rule_place, rule_text, IsCheckedText, MisreadsProgram, BreaksCheck, RefusesProgram, IsCaseOf, RefusesCaseOf};

use oat_build::Program;
use oat_check::{CheckFault, CheckKind, Checked, check};
use oat_inputs::{Case, case_of};
use oat_page::{File, Stop, no_operation, refused};
use oat_text::{TextFault, read_program};
use std::alloc::{AllocError, Global};

fn rule_name(kind: CheckKind) -> &'static str
    ensures { result.now ≡ rule_word kind }
{
    match kind {
        CheckKind::NoMain => "NoMain",
        CheckKind::GlobalWords => "GlobalWords",
        CheckKind::Locals => "Locals",
        CheckKind::NoEnd => "NoEnd",
        CheckKind::CallsMain => "CallsMain",
        CheckKind::OperationCall => "OperationCall",
        CheckKind::RefKind => "RefKind",
        CheckKind::Arity => "Arity",
        CheckKind::Kind => "Kind",
        CheckKind::MainRet => "MainRet",
    }
}

/// The name of a function, or a dash.
fn func_name(program: &Program, func: u32) -> &[u8]
    ensures { result.now ≡ func_named program.now func }
{
    match program.funcs.as_slice().get(func as usize) {
        Some(func) => func.name.as_bytes(),
        None => b"-",
    }
}

/// The label of a block, or a dash.
fn block_label(program: &Program, func: u32, block: u32) -> &[u8]
    ensures { result.now ≡ block_named program.now func block }
{
    let Some(func) = program.funcs.as_slice().get(func as usize) else {
        return b"-";
    };
    match func.blocks.as_slice().get(block as usize) {
        Some(block) => block.label.as_bytes(),
        None => b"-",
    }
}

/// Adds the function and the block that a rule speaks of.
fn put_rule_place(
    text: &mut Vec<u8>,
    program: &Program,
    kind: CheckKind,
    func: u32,
    block: u32,
) -> Result<(), AllocError>
    ensures { OnOk result (text.new.items ≡ text.old.items ++ rule_place program.now kind func block) }
{
    match kind {
        CheckKind::NoMain | CheckKind::GlobalWords => text.extend_from_slice(b"- -"),
        CheckKind::Locals | CheckKind::NoEnd => {
            text.extend_from_slice(func_name(program, func))?;
            text.extend_from_slice(b" -")
        }
        _ => {
            text.extend_from_slice(func_name(program, func))?;
            text.extend_from_slice(b" ")?;
            text.extend_from_slice(block_label(program, func, block))
        }
    }
}

/// A program is refused for breaking a rule at a place.
fn broken_rule(
    alloc: Global,
    name: &str,
    program: &Program,
    kind: CheckKind,
    func: u32,
    block: u32,
    place: u32,
) -> Result<Stop, AllocError>
    ensures { IsRefusal name.now (rule_text program.now kind func block place) result }
{
    let mut line = format!(in alloc; "refused {name} ")?.into_bytes();
    put_rule_place(&mut line, program, kind, func, block)?;
    let rule = rule_name(kind);
    let rest = format!(in alloc; " {place} {rule}\n")?;
    line.extend_from_slice(rest.as_bytes())?;
    Ok(Stop::Refused(line))
}

/// What is said of a program text's fault; the error is want of memory.
fn text_fault(alloc: Global, name: &str, fault: TextFault) -> Result<Stop, AllocError>
    ensures of_text { IfOk result (λ stop. fault ≢ Memory) }
    ensures told { IsRefusal name.now (fault_text kind_text fault) result }
{
    match fault {
        TextFault::Memory => Err(AllocError),
        _ => refused(alloc, name, fault),
    }
}

fn program_in(alloc: Global, file: &File) -> Result<Program, Stop>
    requires { file.now.limit ≡ program_limit }
    ensures { MatchResult result (IsProgramText file.now.text) (StopsWith (MisreadsProgram file.now)) }
{
    match read_program(alloc, file.text()) {
        Ok(program) => Ok(program),
        Err(fault) => Err(text_fault(alloc, file.name(), fault)?),
    }
}

fn checked_in(alloc: Global, file: &File, program: Program) -> Result<Checked, Stop>
    requires { IsProgramText file.now.text program }
    ensures { MatchResult result (IsCheckedText file.now.text) (StopsWith (BreaksCheck file.now program)) }
{
    match check(program) {
        Ok(checked) => Ok(checked),
        Err(refusal) => match refusal.fault {
            CheckFault::At {
                kind,
                func,
                block,
                place,
            } => {
                let stop = broken_rule(
                    alloc,
                    file.name(),
                    &refusal.program,
                    kind,
                    func,
                    block,
                    place,
                )?;
                Err(stop)
            }
            CheckFault::Memory => Err(Stop::Starved),
        },
    }
}

/// The program of the file, which keeps the checking rules.
pub fn checked_of(alloc: Global, file: &File) -> Result<Checked, Stop>
    requires { file.now.limit ≡ program_limit }
    ensures { MatchResult result (IsCheckedText file.now.text) (StopsWith (RefusesProgram file.now)) }
{
    let program = program_in(alloc, file)?;
    checked_in(alloc, file, program)
}

/// The case of the file, which is for one of the program's operations.
pub fn case_for(alloc: Global, checked: &Checked, file: &File) -> Result<Case, Stop>
    requires { file.now.limit ≡ case_limit }
    ensures { MatchResult result (IsCaseOf checked.now file.now.text) (StopsWith (RefusesCaseOf checked.now file.now)) }
{
    let case = case_of(alloc, file)?;
    if !checked.has_operation(case.session.op) {
        return Err(no_operation(alloc, file.name(), case.session.op)?);
    }
    Ok(case)
}

/// A program is refused, for code of so many words.
pub fn too_large(alloc: Global, file: &str, words: u64) -> Result<Stop, AllocError>
    ensures { IsRefusal file.now (codes "CodeTooLarge " ++ decimal words) result }
{
    let line = format!(in alloc; "refused {file} CodeTooLarge {words}\n")?;
    Ok(Stop::Refused(line.into_bytes()))
}
