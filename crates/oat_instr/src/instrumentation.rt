ghost use Rattle.std.specs.Prelude.{◌≡◌, ◌++◌, IfOk, OnOk};
ghost use Rattle.oat_asm.specs.declared.mark.Mark.{Mark};
ghost use Rattle.oat_asm.specs.declared.item.Item.TheVariants as item;
ghost use Rattle.oat_asm.specs.Expansion.{expanded, expansion, note_of};
ghost use Rattle.oat_asm.specs.ExpansionLaws.{IsMark, MarksAreInRange};

use crate::fault::InstrFault;
use crate::groups::push_group;
use oat_asm::{Item, Items, Mark, Note};
use oat_list::Listed;
use std::alloc::{AllocError, Global};

/// The items with each mark as its row's note and group.
///
/// It takes time about linear in the number of items. The items that are given
/// in are spent, on a refusal too.
pub fn instrument(alloc: Global, items: Items) -> Result<Items, InstrFault>
    requires marks { MarksAreInRange items }
    ensures { IfOk result (λ instrumented. instrumented ≡ expansion items) }
{
    let mut out = Vec::new(alloc);
    for item in items.as_slice() {
        push_expanded(&mut out, *item)?;
    }
    Ok(Listed::from_vec(out))
}

fn push_expanded(out: &mut Vec<Item>, piece: Item) -> Result<(), AllocError>
    requires mark { (mark : Mark) → piece ≡ item.Mark mark → IsMark mark }
    ensures { OnOk result (out.new.items ≡ out.old.items ++ expanded piece) }
{
    if let Item::Mark(mark) = piece {
        out.push(Item::Note(note_of(mark)))?;
        push_group(out, mark)
    } else {
        out.push(piece)?;
        Ok(())
    }
}

/// The note of a mark's row.
fn note_of(mark: Mark) -> Note
    ensures { result ≡ note_of mark }
{
    match mark {
        Mark::Jump { to } => Note::Jump { to },
        Mark::Branch { taken, other } => Note::Branch { taken, other },
        Mark::Call { to } => Note::Call { to },
        Mark::ICall { params } => Note::ICall { params },
        Mark::Ret => Note::Ret,
        Mark::Begin { op } => Note::Begin { op },
        Mark::End { op } => Note::End { op },
        Mark::UseCell { cell, index } => Note::UseCell { cell, index },
        Mark::DefCell { cell, index } => Note::DefCell { cell, index },
        Mark::UseAt { cell, len, index } => Note::UseAt { cell, len, index },
        Mark::DefAt { cell, len, index } => Note::DefAt { cell, len, index },
    }
}
