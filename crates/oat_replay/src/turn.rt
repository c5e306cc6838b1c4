ghost use Rattle.oat_replay.specs.EndTurn.{EndsTurn};

use crate::cause::ReplayCause;
use oat_map::Edge;

/// What one turn of a replay does.
#[derive(Clone, Copy)]
pub enum Turn {
    /// Took an edge.
    Moved(Edge),
    /// Passed a row without an edge.
    Passed,
    /// The walk ends with this edge.
    Done(Edge),
    Stuck(ReplayCause),
}

/// What an End row of `ended` means, with so many calls open and records left.
pub(crate) fn end_turn(op: u16, ended: u16, open_calls: usize, bits: u32, targets: u32) -> Turn
    ensures { EndsTurn op ended open_calls bits targets result }
{
    if ended != op {
        Turn::Stuck(ReplayCause::WrongEnd)
    } else if open_calls > 0 {
        Turn::Stuck(ReplayCause::EndInside)
    } else if bits > 0 {
        Turn::Stuck(ReplayCause::BitsLeft(bits))
    } else if targets > 0 {
        Turn::Stuck(ReplayCause::TargetsLeft(targets))
    } else {
        Turn::Done(Edge::End { op })
    }
}
