//! What no clause says: that calls succeed where there is memory, the bytes of pages and of indexes, and what is damage.
ghost use Rattle.std.specs.Prelude.{IfOk, OnOk};
ghost use Rattle.std.specs.List.{AllByRecursion};
ghost use Rattle.memtable.specs.Cell.{IsCell};
ghost use Rattle.memtable.specs.Limits.{IsKey};
ghost use Rattle.checkpoint_format.specs.Index.{IsIndex};
ghost use Rattle.checkpoint_format.specs.Writing.{IsEntryPair};

use crate::groups::has_blocks;
use block_types::BlockFault;
use bytes::Bytes;
use checkpoint_format::{Index, Page, decode, entries_of, find_in, is_page, write_pages};
use memtable::{Cell, Cells, Key, Place};
use std::alloc::Global;
use std::collections::BTreeMap;
use std::test::Fail;
use wire::ExtentId;

/// A page with a cell of each kind: `a` is deleted, `b` has the value `x`, and the value of `c` stands in extent 3.
const KINDS: &[u8] = &[
    0, 3, // three entries
    0, 1, b'a', 0, // a key and no value
    0, 1, b'b', 1, 0, 0, 0, 1, b'x', // a key and its value
    0, 1, b'c', 2, 0, 0, 0, 0, 0, 0, 0, 3, 0, 0, 0, 11, 0, 0, 19, 136, // a key and a place
];

/// A page, and none: as `KINDS`, cut short, with a byte left over, with a count of 2, with the keys of the first two entries
/// the other way round, with a place of 4,096 bytes, and with another kind; no entry; and no byte.
const PAGES: &[(&[u8], bool)] = &[
    (KINDS, true),
    (&[0, 1, 0, 1, b'a', 0], true),
    (&[0, 1, 0, 1, b'a'], false),
    (&[0, 1, 0, 1, b'a', 0, 0], false),
    (&[0, 2, 0, 1, b'a', 0], false),
    (&[0, 2, 0, 1, b'b', 0, 0, 1, b'a', 0], false),
    (&[0, 2, 0, 1, b'a', 0, 0, 1, b'a', 0], false),
    (
        &[
            0, 1, 0, 1, b'c', 2, 0, 0, 0, 0, 0, 0, 0, 3, 0, 0, 0, 11, 0, 0, 16, 0,
        ],
        false,
    ),
    (&[0, 1, 0, 1, b'a', 3], false),
    (&[0, 1, 0, 0, 0], false),
    (&[0, 0], false),
    (&[], false),
];

/// An index without pages.
const NO_PAGES: &[u8] = &[0, 0, 0, 9, 0, 0, 0, 0, 0];

/// An index of one page, whose first key is `a`, and which has a place.
const ONE_PAGE: &[u8] = &[
    0, 0, 0, 28, // the length of the text
    0, 0, 0, 1, // one page
    1, // a cell is a place
    0, 1, b'a', 0, 0, 0, 0, 0, 0, 0, 3, 0, 0, 0, 11, 0, 0, 0, 46,
];

const SPELLED: Result<bool, BlockFault> = Ok(true);

const DAMAGED: Result<bool, BlockFault> = Err(BlockFault::Damaged);

/// Two indexes, and none: as `NO_PAGES`, with another length, a byte left over, another flag, and a page that is not there; and
/// as `ONE_PAGE`, with the same page twice.
const INDEXES: &[(&[u8], Result<bool, BlockFault>)] = &[
    (NO_PAGES, SPELLED),
    (ONE_PAGE, SPELLED),
    (&[0, 0, 0, 8, 0, 0, 0, 0, 0], DAMAGED),
    (&[0, 0, 0, 10, 0, 0, 0, 0, 0], DAMAGED),
    (&[0, 0, 0, 10, 0, 0, 0, 0, 0, 0], DAMAGED),
    (&[0, 0, 0, 9, 0, 0, 0, 0, 2], DAMAGED),
    (&[0, 0, 0, 9, 0, 0, 0, 1, 0], DAMAGED),
    (
        &[
            0, 0, 0, 47, 0, 0, 0, 2, 1, 0, 1, b'a', 0, 0, 0, 0, 0, 0, 0, 3, 0, 0, 0, 11, 0, 0, 0,
            46, 0, 1, b'a', 0, 0, 0, 0, 0, 0, 0, 3, 0, 0, 0, 11, 0, 0, 0, 46,
        ],
        DAMAGED,
    ),
];

fn put(table: &mut Cells, key: Bytes, cell: Cell) -> Result<(), Fail>
    requires old { AllByRecursion IsEntryPair table.old.entries }
    requires key { IsKey key }
    requires cell { IsCell cell }
    ensures { OnOk result (AllByRecursion IsEntryPair table.new.entries) }
{
    table.insert(Key::of(key), cell)?;
    Ok(())
}

fn kinds(alloc: Global) -> Result<Cells, Fail>
    ensures { IfOk result (λ table. AllByRecursion IsEntryPair table.entries) }
{
    let mut table = BTreeMap::new(alloc);
    let place = Place {
        extent: ExtentId(3),
        offset: 11,
        length: 5_000,
    };
    put(&mut table, Bytes::from_static(b"a"), Cell::Deleted)?;
    put(
        &mut table,
        Bytes::from_static(b"b"),
        Cell::Inline(Bytes::from_static(b"x")),
    )?;
    put(&mut table, Bytes::from_static(b"c"), Cell::Placed(place))?;
    Ok(table)
}

/// A key of two bytes.
fn key_of(number: u16) -> [u8; 2] {
    [(number / 256) as u8, (number % 256) as u8]
}

/// A thousand keys, each with a value of 100 bytes.
fn thousand(alloc: Global) -> Result<Cells, Fail>
    ensures { IfOk result (λ table. AllByRecursion IsEntryPair table.entries) }
{
    let mut table = BTreeMap::new(alloc);
    let value = Bytes::from_static(&[7; 100]);
    for number in 0..1_000u16 {
        let key = Bytes::copy_from_slice(alloc, &key_of(number))?;
        put(&mut table, key, Cell::Inline(value.clone()?))?;
    }
    Ok(table)
}

fn is_kinds(pages: &[Page]) -> bool {
    match pages {
        [only] => only.first.as_slice() == b"a".as_slice() && only.bytes.as_slice() == KINDS,
        _ => false,
    }
}

#[test]
fn a_page_has_a_cell_of_each_kind(rt: HostRuntime) -> Result<(), Fail> {
    let table = kinds(rt.alloc())?;
    let pages = write_pages(rt.alloc(), &table)?;
    let told = is_kinds(&pages);
    drop(pages);
    drop(table);
    assert!(rt; told);
    Ok(())
}

#[test]
fn no_entry_makes_no_page(rt: HostRuntime) -> Result<(), Fail> {
    let table = BTreeMap::new(rt.alloc());
    let pages = write_pages(rt.alloc(), &table)?;
    let told = pages.is_empty();
    drop(pages);
    drop(table);
    assert!(rt; told);
    Ok(())
}

/// Whether the entries of a page are those of so many keys from a number on, and the last of them is found.
fn has_keys(alloc: Global, page: &Page, from: u16, count: usize) -> Result<bool, Fail> {
    let entries = entries_of(alloc, &page.bytes)?;
    let mut told = entries.len() == count;
    let mut number = from;
    for (key, cell) in &entries {
        told = told && key.as_slice() == key_of(number).as_slice() && is_value(cell);
        number = number.wrapping_add(1);
    }
    drop(entries);
    let last = find_in(&page.bytes, &key_of(number.wrapping_sub(1)))?;
    let next = find_in(&page.bytes, &key_of(number))?;
    let is_found = last.is_some() && next.is_none();
    drop(last);
    drop(next);
    Ok(told && is_found)
}

fn is_value(cell: &Cell) -> bool {
    match cell {
        Cell::Inline(value) => value.as_slice() == [7u8; 100].as_slice(),
        _ => false,
    }
}

fn are_thousand(alloc: Global, pages: &[Page]) -> Result<bool, Fail> {
    match pages {
        [first, second] => {
            Ok(has_keys(alloc, first, 0, 601)? && has_keys(alloc, second, 601, 399)?)
        }
        _ => Ok(false),
    }
}

#[test]
fn a_thousand_keys_make_two_pages(rt: HostRuntime) -> Result<(), Fail> {
    let table = thousand(rt.alloc())?;
    let pages = write_pages(rt.alloc(), &table)?;
    let told = are_thousand(rt.alloc(), &pages);
    drop(pages);
    drop(table);
    assert!(rt; told?);
    Ok(())
}

/// Whether the bytes are a page, as each reader tells it.
fn is_read(alloc: Global, bytes: &[u8]) -> Result<bool, Fail> {
    let page = Bytes::copy_from_slice(alloc, bytes)?;
    let entries = entries_of(alloc, &page);
    let has_entries = entries.is_ok();
    drop(entries);
    let cell = find_in(&page, b"a");
    let has_answer = cell.is_ok();
    drop(cell);
    drop(page);
    Ok(has_entries && has_answer && is_page(bytes))
}

#[test]
fn damaged_pages_are_refused(rt: HostRuntime) -> Result<(), Fail> {
    for (bytes, expected) in PAGES {
        assert!(rt; is_read(rt.alloc(), *bytes)? == *expected);
        assert!(rt; is_page(*bytes) == *expected);
    }
    Ok(())
}

fn read(alloc: Global, bytes: &[u8]) -> Result<Index, BlockFault>
    ensures { IfOk result IsIndex }
{
    decode(alloc, bytes)
}

/// Whether the index of these bytes is spelled as they are.
fn is_spelled_again(alloc: Global, bytes: &[u8]) -> Result<bool, BlockFault> {
    let index = read(alloc, bytes)?;
    let fits = index.fits_a_group();
    let spelled = index.encode(alloc);
    drop(index);
    match spelled {
        Ok(group) => Ok(fits && has_blocks(group, &[bytes])),
        Err(_full) => Err(BlockFault::Memory),
    }
}

#[test]
fn indexes_are_spelled_and_damage_is_refused(rt: HostRuntime) {
    for (bytes, expected) in INDEXES {
        assert!(rt; is_spelled_again(rt.alloc(), *bytes) == *expected);
    }
}
