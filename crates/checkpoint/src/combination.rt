//! Combining what the pages of several checkpoints say.
ghost use Rattle.std.specs.Prelude.{◌≡◌, ◌++◌, Some, IfOk, OnOk, OnErr};
ghost use Rattle.std.specs.List.{AllByRecursion};
ghost use Rattle.memtable.specs.Entries.{IsFit, put_all};
ghost use Rattle.checkpoint_format.specs.Page.{entries_at};
ghost use Rattle.checkpoint.specs.PageGroups.{pages_to_write};
ghost use Rattle.checkpoint.specs.Pages as specs;

use crate::checkpoint_pages::CheckpointPages;
use block_types::BlockFault;
use bytes::Bytes;
use checkpoint_format::entries_of;
use memtable::{Cell, CellMap, Cells, Key};
use metadata::KeyRange;
use std::alloc::{AllocError, Global};
use std::collections::BTreeMap;

/// Adds the entries that are within both ranges, in their order. Where memory runs out nothing has changed.
fn add_kept(
    changes: &mut Vec<(Bytes, Cell)>,
    entries: Vec<(Bytes, Cell)>,
    within: &KeyRange,
    keys: &KeyRange,
) -> Result<(), AllocError>
    ensures ok { OnOk result (changes.new.items ≡ changes.old.items ++ specs.kept_within within.now keys.now entries.items) }
    ensures err { OnErr result (changes.new.items ≡ changes.old.items) }
{
    changes.reserve(entries.len())?;
    for (key, cell) in entries {
        if within.contains(&key) && keys.contains(&key) {
            changes.push_reserved((key, cell));
        }
    }
    Ok(())
}

/// Adds the entries of a page that are within both ranges, in their order, to changes; whether the bytes are a page's. Where
/// they are no page's nothing has changed, nor where memory runs out (22). The entries share the page's buffer.
pub fn add_page(
    alloc: Global,
    changes: &mut Vec<(Bytes, Cell)>,
    page: &Bytes,
    within: &KeyRange,
    keys: &KeyRange,
) -> Result<bool, AllocError>
    ensures ok { IfOk result (specs.Adds within.now keys.now changes.old.items changes.new.items (entries_at page.now)) }
    ensures err { OnErr result (changes.new.items ≡ changes.old.items) }

    // So a map that took those before takes these too.
    ensures fit { AllByRecursion IsFit changes.old.items → AllByRecursion IsFit changes.new.items }
{
    match entries_of(alloc, page) {
        Ok(entries) => {
            add_kept(changes, entries, within, keys)?;
            Ok(true)
        }
        Err(BlockFault::Damaged) => Ok(false),
        Err(BlockFault::Memory) => Err(AllocError),
    }
}

/// The same entries again, which share their keys and values.
fn copied(alloc: Global, entries: &Cells) -> Result<Cells, AllocError>
    ensures { IfOk result (λ copy. copy.entries ≡ entries.now.entries) }
{
    let mut copy = BTreeMap::new(alloc);
    for (key, cell) in entries {
        copy.insert(key.clone()?, cell.copy()?)?;
    }
    Ok(copy)
}

/// Puts other entries over those that are there, and shares their keys and values.
fn put_copies(all: &mut Cells, newer: &Cells) -> Result<(), AllocError>
    ensures { OnOk result (all.new.entries ≡ put_all all.old.entries newer.now.entries) }
{
    for (key, cell) in newer {
        all.insert(key.clone()?, cell.copy()?)?;
    }
    Ok(())
}

/// Puts changes over the entries that are there, from left to right, and shares their keys and values.
fn put_changes(all: &mut Cells, changes: &[(Bytes, Cell)]) -> Result<(), AllocError>
    ensures { OnOk result (all.new.entries ≡ put_all all.old.entries changes.now) }
{
    for change in changes {
        all.insert(Key::of(change.0.clone()?), change.1.copy()?)?;
    }
    Ok(())
}

fn is_deleted(cell: &Cell) -> bool
    ensures { result ≡ specs.is_deleted cell.now }
{
    matches!(cell, Cell::Deleted)
}

/// The entries of a combined checkpoint: changes over the older entries, and the newer ones over both, without the keys that have
/// no value. They share the keys and values of all three.
fn combined_entries(
    alloc: Global,
    older: &Cells,
    changes: &[(Bytes, Cell)],
    newer: &Cells,
) -> Result<Cells, AllocError>
    ensures { IfOk result (λ all. all.entries ≡ specs.combined (put_all older.now.entries changes.now) (Some newer.now.entries)) }
{
    let mut all = copied(alloc, older)?;
    put_changes(&mut all, changes)?;
    put_copies(&mut all, newer)?;
    all.retain(|_key, cell| !is_deleted(cell));
    Ok(all)
}

/// The pages of a combined checkpoint, none of which stands yet: they have what was merged, changes over it, from left to right,
/// and the newer entries over both, without the keys that have no value. A key and a value beside it are copied once, into the
/// page. An error is out of memory (22).
///
/// That the changes and the newer entries are in range is the caller's condition.
pub fn combine(
    alloc: Global,
    merged: &CellMap,
    changes: &[(Bytes, Cell)],
    newer: &Cells,
) -> Result<CheckpointPages, AllocError>
    requires changes { AllByRecursion IsFit changes.now }
    requires newer { AllByRecursion IsFit newer.now.entries }
    ensures { IfOk result (λ pages. pages ≡ pages_to_write (specs.combined (put_all merged.now changes.now) (Some newer.now.entries))) }
{
    let older = merged.entries();
    let entries = combined_entries(alloc, older, changes, newer)?;
    CheckpointPages::of(alloc, &entries)
}

/// Whether a value of the entries stands outside of their pages, as their index says.
pub fn has_place(entries: &Cells) -> bool
    ensures { result ≡ specs.has_place entries.now.entries }
{
    for (_, cell) in entries {
        if matches!(cell, Cell::Placed(_)) {
            return true;
        }
    }
    false
}
