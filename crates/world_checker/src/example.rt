//! Observations that are honest: a long run of appends, as those who measure the check want it.
ghost use Rattle.std.specs.Prelude.{◌≡◌, ◌++◌, ◌∷◌, [], IfOk, OnOk};
ghost use Rattle.world_checker.specs.Acknowledged.{acknowledged, acknowledgement};

use block_types::Group;
use std::alloc::{AllocError, Global};
use wire::{ExtentId, Note, Notes};

/// So many appends fill an extent.
const APPENDS: u64 = 64;

/// The bytes of one append.
const SIZE: u32 = 1024;

/// Adds the observation that the append of this number, counted from 0, was acknowledged.
fn add(notes: &mut Notes, number: u64, group: Group) -> Result<(), AllocError>
    ensures { OnOk result (notes.new ≡ notes.old ++ acknowledgement group number ∷ []) }
{
    notes.push(Note::Acked {
        extent: ExtentId(number / APPENDS + 1),
        offset: (number % APPENDS) as u32 * SIZE,
        group,
    })
}

/// The observations of so many acknowledged appends of a group, 64 to an extent and 1 KiB apart, which all share its bytes. An
/// error is out of memory (22).
pub fn acknowledged(alloc: Global, group: &Group, count: u64) -> Result<Notes, AllocError>
    ensures { IfOk result (λ notes. notes ≡ acknowledged group.now count) }
{
    let mut notes = Notes::new(alloc);
    for number in 0..count {
        let copy = group.copy()?;
        add(&mut notes, number, copy)?;
    }
    Ok(notes)
}
