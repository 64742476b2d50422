//! Pages: the entries of a table, in blocks.
ghost use Rattle.std.specs.Prelude.{◌≡◌, ◌+◌, ◌<◌, ◌≤◌, ◌∷◌, [], is_some, IfOk, OnOk, length, map, take, drop};
ghost use Rattle.std.specs.List.{AllByRecursion};
ghost use Rattle.std.specs.List.Sorted.{IsStrictlySortedBy};
ghost use Rattle.std.specs.Map.{keys_of};
ghost use Rattle.blocks.specs.Format.{Gives, IsEndOf};
ghost use Rattle.memtable.specs.Cell.{IsEntry};
ghost use Rattle.memtable.specs.Entries.{Entries, IsFit, found, key_cmp};
ghost use Rattle.memtable.specs.Layers.{or_else};
ghost use Rattle.checkpoint_format.specs.Page.{page_of, pages_of, entries_at, found_at};
ghost use Rattle.checkpoint_format.specs.Writing.{HasWritten};
ghost use Rattle.checkpoint_format.specs.Walk.{part_cell, part_entry, IsEntryOf};

use crate::entry::{CellPart, EntryPart, count_of, entry_above};
use crate::page_text::PageText;
use block_types::BlockFault;
use blocks::reader::ended;
use bytes::Bytes;
use memtable::{Cell, Cells};
use std::alloc::{AllocError, Global};

/// A page that was written.
pub struct Page {
    /// Its first key.
    pub first: Bytes,
    /// Its bytes, of one block.
    pub bytes: Bytes,
}

// Written out, so that a crate above that lets one go has no proof of what is in it.
impl Drop for Page {
    fn drop(self) {
        let Page { first: _, bytes: _ } = self;
    }
}

/// Some of the bytes at the end of a page, which share its buffer.
fn shared(page: &Bytes, end: &[u8], from: usize, len: usize) -> Result<Bytes, AllocError>
    requires end { IsEndOf end.now page.now }
    requires inside { from + len ≤ length end.now }
    ensures { IfOk result (λ part. part ≡ take len (drop from end.now)) }
{
    let start = page.len() - end.len() + from;
    page.slice(start..start + len)
}

/// The key of an entry, which shares the buffer of its page.
fn shared_key(page: &Bytes, entry: &EntryPart<'_>) -> Result<Bytes, AllocError>
    requires { IsEntryOf page.now entry.now }
    ensures { IfOk result (λ key. key ≡ entry.now.key.now) }
{
    shared(page, entry.bytes, 2, entry.key.len())
}

/// The cell of an entry, which shares the buffer of its page.
fn shared_cell(page: &Bytes, entry: &EntryPart<'_>) -> Result<Cell, AllocError>
    requires { IsEntryOf page.now entry.now }
    ensures { IfOk result (λ cell. cell ≡ part_cell entry.now.cell) }
{
    match entry.cell {
        CellPart::Deleted => Ok(Cell::Deleted),
        CellPart::Inline(value) => {
            let from = entry.bytes.len() - entry.after.len() - value.len();
            Ok(Cell::Inline(shared(page, entry.bytes, from, value.len())?))
        }
        CellPart::Placed(place) => Ok(Cell::Placed(place)),
    }
}

/// An entry, which shares the buffer of its page.
fn shared_entry(page: &Bytes, entry: &EntryPart<'_>) -> Result<(Bytes, Cell), AllocError>
    requires { IsEntryOf page.now entry.now }
    ensures { IfOk result (λ shared. shared ≡ part_entry entry.now) }
{
    let key = shared_key(page, entry)?;
    Ok((key, shared_cell(page, entry)?))
}

/// The cell that was found before, or else that of the entry if it is at the key.
pub(crate) fn found_or(
    page: &Bytes,
    cell: Option<Cell>,
    entry: &EntryPart<'_>,
    key: &[u8],
) -> Result<Option<Cell>, AllocError>
    requires { IsEntryOf page.now entry.now }
    ensures { IfOk result (λ now. now ≡ or_else cell (found (part_entry entry.now ∷ []) key.now)) }
{
    match cell {
        Some(before) => Ok(Some(before)),
        None => {
            if key.cmp(entry.key).is_eq() {
                Ok(Some(shared_cell(page, entry)?))
            } else {
                Ok(None)
            }
        }
    }
}

/// Whether the bytes are those of a page. It takes no memory.
pub fn is_page(bytes: &[u8]) -> bool
    ensures { result ≡ is_some (entries_at bytes.now) }
{
    let Ok((count, mut rest)) = count_of(bytes) else {
        return false;
    };
    let mut last: &[u8] = &[];
    for _ in 0..count {
        let Ok(entry) = entry_above(last, rest) else {
            return false;
        };
        last = entry.key;
        rest = entry.after;
    }
    rest.is_empty()
}

/// The cell at a key of a page, which shares the page's buffer. It walks through all of the page, and copies no byte.
///
/// It is refused `Damaged` (21) exactly where the bytes are no page's. `Memory` (22) says nothing of the bytes.
pub fn find_in(page: &Bytes, key: &[u8]) -> Result<Option<Cell>, BlockFault>
    ensures { Gives (λ cell. cell) result (found_at page.now key.now) }
{
    let Ok((count, mut rest)) = count_of(page.as_slice()) else {
        return Err(BlockFault::Damaged);
    };
    let mut last: &[u8] = &[];
    let mut cell = None;
    for _ in 0..count {
        let Ok(entry) = entry_above(last, rest) else {
            return Err(BlockFault::Damaged);
        };
        cell = found_or(page, cell, &entry, key)?;
        last = entry.key;
        rest = entry.after;
    }
    ended(cell, rest)
}

/// All entries of a page, which share its buffer.
///
/// It is refused `Damaged` (21) exactly where the bytes are no page's. `Memory` (22) says nothing of the bytes.
pub fn entries_of(alloc: Global, page: &Bytes) -> Result<Vec<(Bytes, Cell)>, BlockFault>
    ensures { Gives (λ entries. entries.items) result (entries_at page.now) }
{
    let Ok((count, mut rest)) = count_of(page.as_slice()) else {
        return Err(BlockFault::Damaged);
    };
    let mut last: &[u8] = &[];
    let mut entries = Vec::new(alloc);
    for _ in 0..count {
        let Ok(entry) = entry_above(last, rest) else {
            return Err(BlockFault::Damaged);
        };
        entries.push(shared_entry(page, &entry)?)?;
        last = entry.key;
        rest = entry.after;
    }
    ended(entries, rest)
}

/// Adds an entry to the page that has begun, or where that has no room for it to a new one, after the other pages.
fn add_entry(
    alloc: Global,
    pages: &mut Vec<Page>,
    mut text: PageText,
    key: &Bytes,
    cell: &Cell,
) -> Result<PageText, AllocError>
    requires fits { IsEntry key.now cell.now }
    requires count { text.count < 65535 }
    requires room { 2 ≤ length text.bytes.items }
    ensures { (all rest : Entries) → HasWritten all pages.old.items text ((key.now, cell.now) ∷ rest)
        → IfOk result (λ next. HasWritten all pages.new.items next rest) }
{
    if text.has_room(key, cell) {
        text.add(key, cell)?;
        return Ok(text);
    }
    let mut next = PageText::new(alloc)?;
    pages.push(text.page()?)?;
    next.add(key, cell)?;
    Ok(next)
}

/// The pages of a table: all of its entries in order, each page as full as it can be. A table with no entry has no page.
/// It walks through the table once, and copies each key and each value beside it once. An error is out of memory (22).
///
/// That the entries are in range is the caller's condition.
pub fn write_pages(alloc: Global, entries: &Cells) -> Result<Vec<Page>, AllocError>
    requires { AllByRecursion IsFit entries.now.entries }
    ensures pages { IfOk result (λ pages. pages.items ≡ map page_of (pages_of entries.now.entries)) }

    // The keys of a map ascend, so that those of its pages do.
    ensures ascending { OnOk result (IsStrictlySortedBy key_cmp (keys_of entries.now.entries)) }
{
    let mut pages = Vec::new(alloc);
    let mut text = PageText::new(alloc)?;
    for (key, cell) in entries {
        text = add_entry(alloc, &mut pages, text, key.bytes(), cell)?;
    }
    if text.is_empty() {
        return Ok(pages);
    }
    pages.push(text.page()?)?;
    Ok(pages)
}
