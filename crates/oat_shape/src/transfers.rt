ghost use Rattle.std.specs.Prelude.{◌≡◌, ◌↔◌, ◌||◌, ◌+◌, ◌*◌, ◌<◌, ◌≤◌, ◌^◌, IsTrue, length};
ghost use Rattle.oat_a64.specs.Step.{code_base};
ghost use Rattle.oat_shape.specs.Lowest.{Lowest, EachAt};
ghost use Rattle.oat_shape.specs.Parts.{AreApart, AreWithin, StandsInGroup};
ghost use Rattle.oat_a64.specs.Kinds.{is_measured, is_transfer};

use crate::covers::is_covered;
use crate::lowest::note;
use oat_a64::{CODE_BASE, Inst, decode};
use oat_map::Row;

/// Shape rule S3, of words: the lowest transfer instruction or measured call outside all groups.
pub(crate) fn lowest_loose_transfer(code: &[u32], rows: &[Row]) -> Option<u64>
    requires few { length code.now ≤ 131072 }
    requires apart { AreApart rows.now }
    requires within { AreWithin rows.now }
    ensures { Lowest (EachAt code.now (λ k word. code_base + 4 * k) (λ k word. StandsInGroup rows.now (code_base + 4 * k) word)) result }
{
    let mut lowest = None;
    let mut at = CODE_BASE;
    for word in code {
        lowest = note(lowest, stands_in_group(rows, *word, at), at);
        at += 4;
    }
    lowest
}

fn stands_in_group(rows: &[Row], word: u32, at: u64) -> bool
    requires apart { AreApart rows.now }
    requires within { AreWithin rows.now }
    requires low { at < 2 ^ 32 }
    ensures { IsTrue result ↔ StandsInGroup rows.now at word }
{
    match decode(word) {
        Some(inst) => !needs_group(&inst) || is_covered(rows, at),
        None => true,
    }
}

/// Whether an instruction may stand in groups alone: it transfers control, or the measurement sees it.
fn needs_group(inst: &Inst) -> bool
    ensures { result ≡ (is_transfer inst.now || is_measured inst.now) }
{
    match *inst {
        Inst::B { .. }
        | Inst::Bl { .. }
        | Inst::BCond { .. }
        | Inst::Cbz { .. }
        | Inst::Cbnz { .. }
        | Inst::Blr { .. }
        | Inst::Ret { .. } => true,
        Inst::Svc { imm } => (1..=7).contains(&imm),
        Inst::AddImm { .. }
        | Inst::SubImm { .. }
        | Inst::SubsImm { .. }
        | Inst::AddReg { .. }
        | Inst::SubReg { .. }
        | Inst::SubsReg { .. }
        | Inst::AndReg { .. }
        | Inst::OrrReg { .. }
        | Inst::EorReg { .. }
        | Inst::Madd { .. }
        | Inst::Msub { .. }
        | Inst::Udiv { .. }
        | Inst::Sdiv { .. }
        | Inst::Lslv { .. }
        | Inst::Lsrv { .. }
        | Inst::Asrv { .. }
        | Inst::Movz { .. }
        | Inst::Movk { .. }
        | Inst::Csinc { .. }
        | Inst::Ldr { .. }
        | Inst::Str { .. }
        | Inst::LdrReg { .. }
        | Inst::StrReg { .. }
        | Inst::Brk { .. }
        | Inst::Nop => false,
    }
}
