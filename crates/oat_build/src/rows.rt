//! The rows of notes.
ghost use Rattle.std.specs.Prelude.{◌≡◌, ◌++◌, [], ◌∷◌, IfOk, OnOk, map};
ghost use Rattle.oat_match.specs.{row_of};
ghost use Rattle.oat_build.specs.Addresses.{address_in};

use crate::addresses::LabelAddresses;
use oat_asm::{Note, NoteAt};
use oat_map::Row;
use std::alloc::{AllocError, Global};

/// The row of each note, with the addresses of the labels to which it leads.
pub(crate) fn rows(
    alloc: Global,
    notes: &[NoteAt],
    addresses: &LabelAddresses,
) -> Result<Vec<Row>, AllocError>
    ensures { IfOk result (λ rows. rows.items ≡ map (λ entry. row_of (address_in addresses.now) entry.at entry.note) notes.now) }
{
    let mut rows = Vec::new(alloc);
    for entry in notes {
        let row = row_of(addresses, entry.at, entry.note);
        rows.push(row)?;
    }
    Ok(rows)
}

fn row_of(addresses: &LabelAddresses, at: u64, note: Note) -> Row
    ensures { result ≡ row_of (address_in addresses.now) at note }
{
    match note {
        Note::Jump { to } => Row::Jump {
            at,
            to: addresses.of(to),
        },
        Note::Branch { taken, other } => Row::Branch {
            at,
            taken: addresses.of(taken),
            other: addresses.of(other),
        },
        Note::Call { to } => Row::Call {
            at,
            to: addresses.of(to),
        },
        Note::ICall { params } => Row::ICall { at, params },
        Note::Ret => Row::Ret { at },
        Note::Begin { op } => Row::Begin { at, op },
        Note::End { op } => Row::End { at, op },
        Note::UseCell { cell, .. } => Row::UseCell { at, cell },
        Note::DefCell { cell, .. } => Row::DefCell { at, cell },
        Note::UseAt { cell, len, .. } => Row::UseAt { at, cell, len },
        Note::DefAt { cell, len, .. } => Row::DefAt { at, cell, len },
        Note::Check => Row::Check { at },
    }
}
