//! The entries of a page: reading them with no memory, and writing them.
ghost use Rattle.std.specs.Prelude.{◌≡◌, ◌<◌, ◌++◌, ℕ, slice_index, Some, IfOk, IfErr, OnOk, drop};
ghost use Rattle.block_types.specs.Limits.{is_within};
ghost use Rattle.blocks.specs.Format.{Gives, IsEndOf};
ghost use Rattle.commitlog.specs.Reading.{counted_at, is_small};
ghost use Rattle.commitlog.specs.Record.{key_bytes};
ghost use Rattle.metadata.specs.Reading.{place_at};
ghost use Rattle.metadata.specs.Record.{place as place_bytes};
ghost use Rattle.memtable.specs.Cell.{IsEntry, IsCell};
ghost use Rattle.memtable.specs.Limits.{IsKey};
ghost use Rattle.checkpoint_format.specs.Page.{cell_bytes, entry_bytes, large_place_at, fields_at, cell_at, entry_at};
ghost use Rattle.checkpoint_format.specs.Walk.{part_cell, part_entry, count_at, IsEntryOf};
ghost use Rattle.checkpoint_format.specs.Walk as specs;
ghost use Rattle.checkpoint_format.specs.Starts as starts;

use block_types::{BlockFault, MAX_BLOCK};
use blocks::reader::{bytes_of, u16_at, u32_at, u64_at};
use blocks::writer::{put_bytes, put_u8, put_u16, put_u32, put_u64};
use memtable::{Cell, MAX_INLINE, MAX_KEY, MAX_VALUE, Place};
use std::alloc::AllocError;
use wire::ExtentId;

/// A cell as it stands in a page.
#[derive(Clone, Copy)]
pub(crate) enum CellPart<'a> {
    /// The key has no value.
    Deleted,
    /// The bytes of a value.
    Inline(&'a [u8]),
    /// Where a value stands.
    Placed(Place),
}

/// An entry as it stands in a page.
#[derive(Clone, Copy)]
pub(crate) struct EntryPart<'a> {
    /// Its bytes, and all that are after it.
    pub(crate) bytes: &'a [u8],
    pub(crate) key: &'a [u8],
    pub(crate) cell: CellPart<'a>,
    /// The bytes after it.
    pub(crate) after: &'a [u8],
}

/// A key, and the bytes after it.
#[tactic(auto, unfolding(commitlog::specs::Reading::counted_at))]
pub(crate) fn key_of(bytes: &[u8]) -> Result<(&[u8], &[u8]), BlockFault>
    ensures read { Gives (λ x. (x.0.now, x.1.now)) result (counted_at 2 (is_within 1 256) bytes.now) }
    ensures fault { IfErr result (λ e. e ≡ BlockFault.Damaged) }
{
    let Ok((len, rest)) = u16_at(bytes) else {
        return Err(BlockFault::Damaged);
    };
    if !(1..=MAX_KEY).contains(&(len as usize)) {
        return Err(BlockFault::Damaged);
    }
    bytes_of(len as usize, rest)
}

/// A value beside its key, and the bytes after it.
#[tactic(auto, unfolding(commitlog::specs::Reading::counted_at))]
fn inline_of(bytes: &[u8]) -> Result<(&[u8], &[u8]), BlockFault>
    ensures read { Gives (λ x. (x.0.now, x.1.now)) result (counted_at 4 is_small bytes.now) }
    ensures fault { IfErr result (λ e. e ≡ BlockFault.Damaged) }
{
    let Ok((len, rest)) = u32_at(bytes) else {
        return Err(BlockFault::Damaged);
    };
    if len as usize > MAX_INLINE {
        return Err(BlockFault::Damaged);
    }
    bytes_of(len as usize, rest)
}

/// A place, and the bytes after it.
#[tactic(auto, unfolding(metadata::specs::Reading::place_at))]
pub(crate) fn place_of(bytes: &[u8]) -> Result<(Place, &[u8]), BlockFault>
    ensures read { Gives (λ x. (x.0, x.1.now)) result (place_at bytes.now) }
    ensures fault { IfErr result (λ e. e ≡ BlockFault.Damaged) }
{
    let Ok((extent, rest)) = u64_at(bytes) else {
        return Err(BlockFault::Damaged);
    };
    let Ok((offset, rest)) = u32_at(rest) else {
        return Err(BlockFault::Damaged);
    };
    let Ok((length, rest)) = u32_at(rest) else {
        return Err(BlockFault::Damaged);
    };
    let extent = ExtentId(extent);
    Ok((
        Place {
            extent,
            offset,
            length,
        },
        rest,
    ))
}

/// The place of a large value, and the bytes after it.
#[tactic(auto, unfolding(crate::specs::Page::large_place_at))]
fn large_place_of(bytes: &[u8]) -> Result<(Place, &[u8]), BlockFault>
    ensures read { Gives (λ x. (x.0, x.1.now)) result (large_place_at bytes.now) }
    ensures fault { IfErr result (λ e. e ≡ BlockFault.Damaged) }
{
    let Ok((place, rest)) = place_of(bytes) else {
        return Err(BlockFault::Damaged);
    };
    if !(MAX_INLINE + 1..=MAX_VALUE).contains(&(place.length as usize)) {
        return Err(BlockFault::Damaged);
    }
    Ok((place, rest))
}

/// The cell of a kind: 0 deleted, 1 beside its key, 2 elsewhere.
#[tactic(auto, unfolding(crate::specs::Page::fields_at))]
fn fields_of(kind: u8, fields: &[u8]) -> Result<(CellPart<'_>, &[u8]), BlockFault>
    ensures read { Gives (λ x. (part_cell x.0, x.1.now)) result (fields_at kind fields.now) }
    ensures fault { IfErr result (λ e. e ≡ BlockFault.Damaged) }
{
    match kind {
        0 => Ok((CellPart::Deleted, fields)),
        1 => match inline_of(fields) {
            Ok((value, rest)) => Ok((CellPart::Inline(value), rest)),
            Err(_) => Err(BlockFault::Damaged),
        },
        2 => match large_place_of(fields) {
            Ok((place, rest)) => Ok((CellPart::Placed(place), rest)),
            Err(_) => Err(BlockFault::Damaged),
        },
        _ => Err(BlockFault::Damaged),
    }
}

#[tactic(auto, unfolding(crate::specs::Page::cell_at))]
fn cell_of(bytes: &[u8]) -> Result<(CellPart<'_>, &[u8]), BlockFault>
    ensures read { Gives (λ x. (part_cell x.0, x.1.now)) result (cell_at bytes.now) }
    ensures fault { IfErr result (λ e. e ≡ BlockFault.Damaged) }
{
    match bytes {
        [] => Err(BlockFault::Damaged),
        [kind, fields @ ..] => fields_of(*kind, fields),
    }
}

#[tactic(auto, unfolding(crate::specs::Page::entry_at))]
fn entry_of(bytes: &[u8]) -> Result<EntryPart<'_>, BlockFault>
    ensures read { Gives (λ e. (part_entry e, e.after.now)) result (entry_at bytes.now) }
    ensures bytes { IfOk result (λ e. e.bytes.now ≡ bytes.now) }
    ensures fault { IfErr result (λ e. e ≡ BlockFault.Damaged) }
{
    let Ok((key, rest)) = key_of(bytes) else {
        return Err(BlockFault::Damaged);
    };
    let Ok((cell, after)) = cell_of(rest) else {
        return Err(BlockFault::Damaged);
    };
    Ok(EntryPart {
        bytes,
        key,
        cell,
        after,
    })
}

/// The first entry of some bytes of a page, whose key is above another.
#[tactic(auto, unfolding(crate::specs::Walk::entry_above))]
pub(crate) fn entry_above<'a>(last: &[u8], bytes: &'a [u8]) -> Result<EntryPart<'a>, BlockFault>
    ensures read { Gives (λ e. (part_entry e, e.after.now)) result (specs.entry_above last.now bytes.now) }
    ensures bytes { IfOk result (λ e. e.bytes.now ≡ bytes.now) }
    ensures entry { IfOk result (λ e. entry_at bytes.now ≡ Some (part_entry e, e.after.now)) }
    ensures end { IfOk result (λ e. IsEndOf e.after.now bytes.now) }
    ensures fault { IfErr result (λ e. e ≡ BlockFault.Damaged) }
{
    let Ok(entry) = entry_of(bytes) else {
        return Err(BlockFault::Damaged);
    };
    if !last.cmp(entry.key).is_lt() {
        return Err(BlockFault::Damaged);
    }
    Ok(entry)
}

/// The bytes of a page from a place on.
fn part_from(page: &[u8], start: u16) -> &[u8]
    ensures { result.now ≡ drop start page.now }
{
    let start = usize::from(start).min(page.len());
    &page[start..]
}

/// The key that begins at a place of a page.
pub(crate) fn key_from(page: &[u8], start: u16) -> Result<&[u8], BlockFault>
    ensures read { Gives (λ key. key.now) result (starts.key_from page.now start) }
    ensures fault { IfErr result (λ e. e ≡ BlockFault.Damaged) }
{
    match key_of(part_from(page, start)) {
        Ok((key, _)) => Ok(key),
        Err(fault) => Err(fault),
    }
}

/// The entry that begins at a place of a page.
pub(crate) fn entry_from(page: &[u8], start: u16) -> Result<EntryPart<'_>, BlockFault>
    ensures read { Gives part_entry result (starts.entry_from page.now start) }
    ensures part { IfOk result (IsEntryOf page.now) }
    ensures fault { IfErr result (λ e. e ≡ BlockFault.Damaged) }
{
    entry_of(part_from(page, start))
}

/// How many entries a page has, and the bytes after that.
#[tactic(auto, unfolding(crate::specs::Walk::count_at))]
pub(crate) fn count_of(bytes: &[u8]) -> Result<(u16, &[u8]), BlockFault>
    ensures read { Gives (λ x. (x.0, x.1.now)) result (count_at bytes.now) }
    ensures end { IfOk result (λ x. IsEndOf x.1.now bytes.now) }
    ensures bytes { (i : ℕ) → slice_index bytes.now i < 256 }
    ensures fault { IfErr result (λ e. e ≡ BlockFault.Damaged) }
{
    if bytes.len() > MAX_BLOCK as usize {
        return Err(BlockFault::Damaged);
    }
    let Ok((count, rest)) = u16_at(bytes) else {
        return Err(BlockFault::Damaged);
    };
    if count < 1 {
        return Err(BlockFault::Damaged);
    }
    Ok((count, rest))
}

/// Appends a key and its length.
pub(crate) fn put_key(out: &mut Vec<u8>, key: &[u8]) -> Result<(), AllocError>
    requires { IsKey key.now }
    ensures { OnOk result (out.new.items ≡ out.old.items ++ key_bytes key.now) }
{
    put_u16(out, key.len() as u16)?;
    put_bytes(out, key)
}

/// Appends a place.
pub(crate) fn put_place(out: &mut Vec<u8>, at: &Place) -> Result<(), AllocError>
    ensures { OnOk result (out.new.items ≡ out.old.items ++ place_bytes at.now) }
{
    put_u64(out, at.extent.0)?;
    put_u32(out, at.offset)?;
    put_u32(out, at.length)
}

fn put_cell(out: &mut Vec<u8>, cell: &Cell) -> Result<(), AllocError>
    requires { IsCell cell.now }
    ensures { OnOk result (out.new.items ≡ out.old.items ++ cell_bytes cell.now) }
{
    match cell {
        Cell::Deleted => put_u8(out, 0),
        Cell::Inline(value) => {
            put_u8(out, 1)?;
            put_u32(out, value.len() as u32)?;
            put_bytes(out, value)
        }
        Cell::Placed(place) => {
            put_u8(out, 2)?;
            put_place(out, place)
        }
    }
}

/// Appends an entry, of which it copies the key and a value beside it.
pub(crate) fn put_entry(out: &mut Vec<u8>, key: &[u8], cell: &Cell) -> Result<(), AllocError>
    requires { IsEntry key.now cell.now }
    ensures { OnOk result (out.new.items ≡ out.old.items ++ entry_bytes (key.now, cell.now)) }
{
    put_key(out, key)?;
    put_cell(out, cell)
}
