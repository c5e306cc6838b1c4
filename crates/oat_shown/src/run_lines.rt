ghost use Rattle.std.specs.Prelude.{◌≡◌, ◌++◌, ◌-◌, ◌+◌, length, drop, IfOk, OnOk};
ghost use Rattle.std.specs.List.{flat_map};
ghost use Rattle.oat_shown.specs.RunText.{trap_text, machine_fault_text, stop_text, end_text, output_line, end_line, run_text, end_left, ends_left};

use oat_a64::FaultKind;
use oat_journal::{DeviceEnd, StopKind};
use oat_lines::hexadecimal_text;
use oat_map::TrapKind;
use oat_page::Pieces;
use std::alloc::{AllocError, Global};

fn trap_name(kind: TrapKind) -> &'static str
    ensures { result.now ≡ trap_text kind }
{
    match kind {
        TrapKind::DivZero => "DivZero",
        TrapKind::Index => "Index",
        TrapKind::NullCall => "NullCall",
        TrapKind::Depth => "Depth",
        TrapKind::InputEnd => "InputEnd",
    }
}

fn stop_name(kind: StopKind) -> &'static str
    ensures { result.now ≡ stop_text kind }
{
    match kind {
        StopKind::Nested => "Nested",
        StopKind::WrongEnd => "WrongEnd",
    }
}

/// Adds the kind of a fault and its address.
fn put_fault(text: &mut Vec<u8>, kind: FaultKind) -> Result<(), AllocError>
    ensures { OnOk result (text.new.items ≡ text.old.items ++ machine_fault_text kind) }
{
    let (name, at) = match kind {
        FaultKind::Access(at) => ("Access ", at),
        FaultKind::Fetch(at) => ("Fetch ", at),
        FaultKind::Undefined(at) => ("Undefined ", at),
    };
    text.extend_from_slice(name.as_bytes())?;
    text.extend_from_slice(&hexadecimal_text::<16>(at))
}

/// Adds how a run ended.
pub fn put_end(text: &mut Vec<u8>, end: DeviceEnd) -> Result<(), AllocError>
    ensures { OnOk result (text.new.items ≡ text.old.items ++ end_text end) }
{
    match end {
        DeviceEnd::Halted => text.extend_from_slice(b"halted"),
        DeviceEnd::Trap(kind) => {
            text.extend_from_slice(b"trap ")?;
            text.extend_from_slice(trap_name(kind).as_bytes())
        }
        DeviceEnd::Fault(kind) => {
            text.extend_from_slice(b"fault ")?;
            put_fault(text, kind)
        }
        DeviceEnd::Stopped(kind) => {
            text.extend_from_slice(b"stopped ")?;
            text.extend_from_slice(stop_name(kind).as_bytes())
        }
        DeviceEnd::OutOfSteps => text.extend_from_slice(b"steps"),
    }
}

fn output_line(alloc: Global, value: i64) -> Result<Vec<u8>, AllocError>
    ensures { IfOk result (λ text. text.items ≡ output_line value) }
{
    Ok(format!(in alloc; "out {value}\n")?.into_bytes())
}

fn end_line(alloc: Global, end: DeviceEnd) -> Result<Vec<u8>, AllocError>
    ensures { IfOk result (λ text. text.items ≡ end_line end) }
{
    let mut text = Vec::from_slice(alloc, b"ended ")?;
    put_end(&mut text, end)?;
    text.extend_from_slice(b"\n")?;
    Ok(text)
}

/// The lines of a run: one for each output, and then that of its end, each made as it is put.
#[derive(Drop)]
pub struct RunLines {
    outputs: Vec<i64>,
    at: usize,
    end: Option<DeviceEnd>,
}

impl RunLines {
    pub fn of(alloc: Global, outputs: &[i64], end: DeviceEnd) -> Result<RunLines, AllocError>
        ensures { IfOk result (λ lines. ⟦<RunLines as Pieces>⟧.text lines ≡ run_text outputs.now end) }
    {
        Ok(RunLines {
            outputs: Vec::from_slice(alloc, outputs)?,
            at: 0,
            end: Some(end),
        })
    }
}

impl Pieces for RunLines {
    ghost text = { λ lines. flat_map output_line (drop lines.at lines.outputs.items) ++ end_left lines.end };

    ghost turns = { λ lines. (length lines.outputs.items - lines.at) + ends_left lines.end };

    fn next(&mut self, alloc: Global) -> Result<Option<Vec<u8>>, AllocError> {
        if self.at < self.outputs.len() {
            let line = output_line(alloc, self.outputs[self.at])?;
            self.at += 1;
            return Ok(Some(line));
        }
        match self.end {
            Some(end) => {
                let line = end_line(alloc, end)?;
                self.end = None;
                Ok(Some(line))
            }
            None => Ok(None),
        }
    }
}
