//! What an instruction of a window shows of the executed path.
ghost use Rattle.std.specs.Prelude.{◌≡◌, ℕ, Some};
ghost use Rattle.oat_attest.specs.{is_transfer, Entry as JournalEntry, edge_over, shown_edge, Map as ItsMap, Branch, IsLaid};
ghost use Rattle.oat_device.specs.Advancing.{ShowsEntry};

use crate::rows::{is_return_site, row_over};
use oat_device::{Entry, Image, Inst, MonitorCall, decode};
use oat_map::{Edge, Row};

fn is_transfer(inst: &Inst) -> bool
    ensures { result ≡ is_transfer inst.now }
{
    matches!(
        inst,
        Inst::B { .. }
            | Inst::Bl { .. }
            | Inst::BCond { .. }
            | Inst::Cbz { .. }
            | Inst::Cbnz { .. }
            | Inst::Blr { .. }
            | Inst::Ret { .. }
    )
}

/// What a transfer from `pc` to `next` shows in the group of a row.
fn edge_over(image: &Image, row: Row, pc: u64, next: u64) -> Option<Edge>
    requires { IsLaid image.now }
    ensures { result ≡ edge_over image.now.map (Some row) pc next }
{
    let stray = Some(Edge::Stray { from: pc, to: next });
    match row {
        Row::Jump { at, .. } => Some(Edge::Jump { from: at, to: next }),
        Row::Branch { at, taken, .. } => branch_edge(at, taken, pc, next),
        Row::Call { at, .. } => Some(Edge::Call { from: at, to: next }),
        Row::ICall { at, params } => {
            if image.map.is_indirect_target(params, next) {
                Some(Edge::ICall { from: at, to: next })
            } else {
                stray
            }
        }
        Row::Ret { at } => {
            if is_return_site(image, next) {
                Some(Edge::Ret { from: at, to: next })
            } else {
                stray
            }
        }
        Row::Check { .. } | Row::UseAt { .. } | Row::DefAt { .. } => None,
        Row::Begin { .. } | Row::End { .. } | Row::UseCell { .. } | Row::DefCell { .. } => stray,
    }
}

/// The group of a branch ends with the jump that is made where it isn't taken.
fn branch_edge(at: u64, taken: u64, pc: u64, next: u64) -> Option<Edge>
    ensures { (m : ItsMap) (other : ℕ) → result ≡ edge_over m (Some (Branch at taken other)) pc next }
{
    let is_last = pc.checked_sub(8) == Some(at);
    if is_last || next == taken {
        Some(Edge::Branch {
            from: at,
            bit: !is_last,
            to: next,
        })
    } else {
        None
    }
}

/// The edge that an instruction of a window shows, if any: that of a transfer, or the end that seals.
pub fn shown_edge(image: &Image, op: u16, entry: &Entry) -> Option<Edge>
    requires { IsLaid image.now }
    ensures { (e : JournalEntry) → ShowsEntry entry.now e → result ≡ shown_edge image.now.map op e }
{
    if decode(entry.word).is_some_and(|inst| is_transfer(&inst)) {
        return match row_over(image, entry.pc) {
            Some(row) => edge_over(image, row, entry.pc, entry.next),
            None => Some(Edge::Stray {
                from: entry.pc,
                to: entry.next,
            }),
        };
    }
    match entry.call() {
        Some(MonitorCall::End { op: ended }) if ended == u64::from(op) => Some(Edge::End { op }),
        _ => None,
    }
}
