//! What no clause says of checkpoints: that look-ups and combining succeed, over pages that were written by hand.
ghost use Rattle.std.specs.Prelude.{IfOk, OnOk};
ghost use Rattle.std.specs.List.{AllByRecursion};
ghost use Rattle.checkpoint_format.specs.Index.{IsIndex};
ghost use Rattle.memtable.specs.Entries.{IsFit};

use crate::groups::has_blocks;
use bytes::Bytes;
use checkpoint::{
    CheckpointPages, Index, InstalledIndex, Lookup, PageAt, PageList, PageMerge, Pages, add_page,
    combine, has_place, lookup,
};
use memtable::{Cell, CellMap, Place};
use metadata::KeyRange;
use std::alloc::Global;
use std::collections::BTreeMap;
use std::test::Fail;
use wire::ExtentId;

/// `a` is `x`, and `c` is `z`.
const OLDER: &[u8] = b"\x00\x02\x00\x01a\x01\x00\x00\x00\x01x\x00\x01c\x01\x00\x00\x00\x01z";

/// `a` was deleted, and `b` has 5,000 bytes of extent 1 from 4,096 on.
const NEWER: &[u8] =
    b"\x00\x02\x00\x01a\x00\x00\x01b\x02\x00\x00\x00\x00\x00\x00\x00\x01\x00\x00\x10\x00\x00\x00\x13\x88";

/// `c` was deleted, and `d` is `w`.
const NEWEST: &[u8] = b"\x00\x02\x00\x01c\x00\x00\x01d\x01\x00\x00\x00\x01w";

/// What the three say together: `b` and `d`.
const COMBINED: &[u8] =
    b"\x00\x02\x00\x01b\x02\x00\x00\x00\x00\x00\x00\x00\x01\x00\x00\x10\x00\x00\x00\x13\x88\x00\x01d\x01\x00\x00\x00\x01w";

/// Where the older page stands.
const AT_OLDER: u32 = 0;

/// Where the newer page stands.
const AT_NEWER: u32 = 100;

/// Pages by the offsets of their places.
#[derive(Drop)]
struct AtHand {
    pages: BTreeMap<u32, Bytes>,
}

impl Pages for AtHand {
    ghost use Rattle.std.specs.BTreeMap.{get};
    ghost use Rattle.std.specs.Ordering.{nat_cmp};

    ghost source = { λ s place. get nat_cmp s.pages place.offset };

    fn page(&self, place: &Place) -> Option<&Bytes> {
        self.pages.get(&place.offset)
    }
}

fn place(offset: u32) -> Place {
    Place {
        extent: ExtentId(1),
        offset,
        length: 30,
    }
}

/// The keys below an end, or all.
fn keys_below(high: Option<&'static [u8]>) -> KeyRange {
    KeyRange {
        low: Bytes::new(),
        high: high.map(Bytes::from_static),
    }
}

/// The index of one page, which begins at `a`.
fn index(alloc: Global, offset: u32) -> Result<Index, Fail>
    ensures { IfOk result IsIndex }
{
    let mut items = Vec::new(alloc);
    items.push(PageAt {
        first: Bytes::from_static(b"a"),
        place: place(offset),
    })?;
    Ok(Index {
        pages: PageList { items },
        has_place: false,
    })
}

fn installed(
    alloc: Global,
    offset: u32,
    high: Option<&'static [u8]>,
) -> Result<InstalledIndex, Fail>
    ensures { IfOk result (λ x. IsIndex x.index) }
{
    Ok(InstalledIndex {
        place: place(4_096),
        keys: keys_below(high),
        index: index(alloc, offset)?,
    })
}

/// What is answered, as a letter: a cell by its kind, `.` for none, `?` for a page that is wanted.
fn letter(found: Lookup) -> char {
    match &found {
        Lookup::Found(Cell::Deleted) => '-',
        Lookup::Found(Cell::Inline(_)) => '=',
        Lookup::Found(Cell::Placed(_)) => '@',
        Lookup::Absent => '.',
        Lookup::Need(_) => '?',
    }
}

/// Looks a key up in both indexes, where the older page is at hand or not and the older index counts below an end.
fn answer(
    alloc: Global,
    has_older: bool,
    high: Option<&'static [u8]>,
    key: &[u8],
) -> Result<char, Fail> {
    let mut pages = BTreeMap::new(alloc);
    pages.insert(AT_NEWER, Bytes::from_static(NEWER))?;
    if has_older {
        pages.insert(AT_OLDER, Bytes::from_static(OLDER))?;
    }
    let newer = installed(alloc, AT_NEWER, None)?;
    let older = installed(alloc, AT_OLDER, high)?;
    let found = lookup(&[newer, older], &AtHand { pages }, key)?;
    Ok(letter(found))
}

#[test]
fn a_newer_index_hides_an_older_one(rt: HostRuntime) -> Result<(), Fail> {
    let alloc = rt.alloc();
    assert!(rt; answer(alloc, true, None, b"a")? == '.');
    assert!(rt; answer(alloc, true, None, b"b")? == '@');
    assert!(rt; answer(alloc, true, None, b"c")? == '=');
    assert!(rt; answer(alloc, true, None, b"0")? == '.');
    assert!(rt; answer(alloc, true, None, b"d")? == '.');
    Ok(())
}

#[test]
fn a_page_is_wanted_where_it_can_have_the_key(rt: HostRuntime) -> Result<(), Fail> {
    let alloc = rt.alloc();
    assert!(rt; answer(alloc, false, None, b"a")? == '.');
    assert!(rt; answer(alloc, false, None, b"c")? == '?');
    assert!(rt; answer(alloc, false, None, b"0")? == '.');
    assert!(rt; answer(alloc, false, Some(b"c"), b"c")? == '.');
    Ok(())
}

/// Puts the entries of a page over those that are there.
fn put_page(alloc: Global, map: &mut CellMap, page: &'static [u8]) -> Result<(), Fail>
    requires { AllByRecursion IsFit map.old }
    ensures { OnOk result (AllByRecursion IsFit map.new) }
{
    let mut changes = Vec::new(alloc);
    let keys = keys_below(None);
    let bytes = Bytes::from_static(page);
    add_page(alloc, &mut changes, &bytes, &keys, &keys)?;
    map.put_all(alloc, changes)?;
    Ok(())
}

/// The entries of two pages, or of the newest.
fn entries(alloc: Global, first: &'static [u8], second: &'static [u8]) -> Result<CellMap, Fail>
    ensures { IfOk result (AllByRecursion IsFit) }
{
    let mut map = CellMap::new(alloc);
    put_page(alloc, &mut map, first)?;
    put_page(alloc, &mut map, second)?;
    Ok(map)
}

/// Whether pages that do not stand yet are one, with these bytes.
fn is_one_page(alloc: Global, pages: &CheckpointPages, bytes: &[u8]) -> Result<bool, Fail> {
    match pages.next_group(alloc)? {
        None => Ok(false),
        Some(group) => Ok(has_blocks(group, &[bytes])),
    }
}

#[test]
fn combining_keeps_the_newest_cells_and_no_deleted_key(rt: HostRuntime) -> Result<(), Fail> {
    let alloc = rt.alloc();
    let merged = entries(alloc, OLDER, NEWER)?;
    let newest = entries(alloc, NEWEST, NEWEST)?;
    let pages = combine(alloc, &merged, &[], newest.entries())?;
    assert!(rt; is_one_page(alloc, &pages, COMBINED)?);
    assert!(rt; pages.index().has_place);
    assert!(rt; !has_place(newest.entries()));
    Ok(())
}

/// The offset of a place; none is 1.
fn offset_of(place: Option<Place>) -> u32 {
    match place {
        None => 1,
        Some(place) => place.offset,
    }
}

/// The older page at hand.
fn older_at_hand(alloc: Global) -> Result<AtHand, Fail> {
    let mut pages = BTreeMap::new(alloc);
    pages.insert(AT_OLDER, Bytes::from_static(OLDER))?;
    Ok(AtHand { pages })
}

/// The merge of both indexes once the older page, which is at hand, is taken.
fn older_merged(alloc: Global, keys: &KeyRange, pages: &AtHand) -> Result<PageMerge, Fail> {
    let newer = installed(alloc, AT_NEWER, None)?;
    let older = installed(alloc, AT_OLDER, None)?;
    let mut merge = PageMerge::of(alloc, &[newer, older])?;
    let changes = merge.at_hand(alloc, keys, pages)?;
    merge.take(alloc, changes)?;
    Ok(merge)
}

#[test]
fn pages_are_merged_as_they_come(rt: HostRuntime) -> Result<(), Fail> {
    let alloc = rt.alloc();
    let at_hand = older_at_hand(alloc)?;
    let keys = keys_below(None);
    let merge = older_merged(alloc, &keys, &at_hand)?;
    assert!(rt; offset_of(merge.next_place()) == AT_NEWER);
    let none = Bytes::from_static(b"none");
    assert!(rt; merge.with_page(alloc, &keys, &none, &at_hand)?.is_none());
    let page = Bytes::from_static(NEWER);
    let newest = entries(alloc, NEWEST, NEWEST)?;
    match merge.with_page(alloc, &keys, &page, &at_hand)? {
        None => assert!(rt; false),
        Some(changes) => {
            assert!(rt; merge.place_behind(&changes).is_none());
            let pages = merge.combined_pages(alloc, &changes, newest.entries())?;
            assert!(rt; pages.will_fit());
            assert!(rt; is_one_page(alloc, &pages, COMBINED)?);
        }
    }
    Ok(())
}

#[test]
fn nothing_is_to_be_merged_at_first(rt: HostRuntime) {
    let merge = PageMerge::new(rt.alloc());
    assert!(rt; merge.next_place().is_none());
}

#[test]
fn bytes_of_no_page_add_nothing(rt: HostRuntime) -> Result<(), Fail> {
    let alloc = rt.alloc();
    let mut changes = Vec::new(alloc);
    let keys = keys_below(None);
    let below = keys_below(Some(b"b"));
    let page = Bytes::from_static(OLDER);
    assert!(rt;
        !add_page(
            alloc,
            &mut changes,
            &Bytes::from_static(b"none"),
            &keys,
            &keys
        )?
    );
    assert!(rt; changes.is_empty());
    assert!(rt; add_page(alloc, &mut changes, &page, &keys, &below)?);
    assert!(rt; changes.len() == 1);
    Ok(())
}
