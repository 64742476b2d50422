//! The pages of several indexes while they are merged.
ghost use Rattle.std.specs.Prelude.{◌≡◌, ◌≤◌, ◌++◌, length, drop, option_map, Some, IfOk, OnOk, OnErr};
ghost use Rattle.std.specs.List.{AllByRecursion};
ghost use Rattle.memtable.specs.Entries.{IsFit};
ghost use Rattle.checkpoint_format.specs.Page.{entries_at};
ghost use Rattle.checkpoint.specs.PageGroups.{pages_to_write};
ghost use Rattle.checkpoint.specs.Pages.{Adds, combined};
ghost use Rattle.checkpoint.specs.Merges as specs;

use crate::checkpoint_pages::CheckpointPages;
use crate::combination::{add_page, combine};
use crate::installed_index::InstalledIndex;
use crate::pages::Pages;
use crate::unmerged_page::UnmergedPage;
use bytes::Bytes;
use memtable::{Cell, CellMap, Cells, Place};
use metadata::{KeyRange, copied_keys};
use std::alloc::{AllocError, Global};
use std::collections::VecDeque;
use std::marker::Model;

/// What pages bring that were read or were at hand: their changes, in order, and how many pages they are.
pub struct PageChanges {
    changes: Vec<(Bytes, Cell)>,
    count: usize,
}

// Written out, so that a crate above that lets one go has no proof of what is in it.
impl Drop for PageChanges {
    fn drop(self) {
        let PageChanges {
            changes: _,
            count: _,
        } = self;
    }
}

impl Model for PageChanges {
    ghost use Rattle.std.specs.List.{AllByRecursion};
    ghost use Rattle.memtable.specs.Entries.{IsFit};
    ghost use Rattle.checkpoint.specs.Merges.{ChangesState};

    ghost Value = { ChangesState };

    ghost view = { λ p. record { changes = p.changes.items; count = p.count } };

    // So a map can take them.
    ghost invariant = { λ p. AllByRecursion IsFit p.changes.items };
}

impl PageChanges {
    /// The changes alone.
    fn into_changes(self) -> Vec<(Bytes, Cell)>
        ensures value { result.items ≡ self.changes }
        ensures fit { AllByRecursion IsFit result.items }
    {
        let PageChanges { changes, count: _ } = self;
        changes
    }
}

/// The pages of a range's indexes while they are merged into one map: what those say that were merged, and the pages that are
/// still to be, that of the oldest index first.
pub struct PageMerge {
    entries: CellMap,
    left: VecDeque<UnmergedPage>,
}

// Written out, so that a crate above that lets one go has no proof of what is in it.
impl Drop for PageMerge {
    fn drop(self) {
        let PageMerge {
            entries: _,
            left: _,
        } = self;
    }
}

impl Model for PageMerge {
    ghost use Rattle.checkpoint.specs.Merges.{MergeState};

    ghost Value = { MergeState };

    ghost view = { λ m. record { entries = m.entries; left = m.left.items } };
}

/// Adds the pages of an index, which are to be merged behind those that are there.
fn add_pages(left: &mut VecDeque<UnmergedPage>, one: &InstalledIndex) -> Result<(), AllocError>
    ensures { OnOk result (left.new.items ≡ left.old.items ++ specs.pages_of_index one.now) }
{
    for page in one.index.pages.as_slice() {
        left.push_back(UnmergedPage {
            keys: copied_keys(&one.keys)?,
            place: page.place,
        })?;
    }
    Ok(())
}

/// The pages of all indexes, the first of which is the newest; the pages of the oldest come first.
fn pages_to_merge(
    alloc: Global,
    indexes: &[InstalledIndex],
) -> Result<VecDeque<UnmergedPage>, AllocError>
    ensures { IfOk result (λ left. left.items ≡ specs.pages_to_merge indexes.now) }
{
    let mut left = VecDeque::new(alloc);
    let mut newer = indexes.len();
    while newer > 0 {
        newer -= 1;
        add_pages(&mut left, &indexes[newer])?;
    }
    Ok(left)
}

/// Adds what counts of a page, if it is at hand; whether it is.
fn add_stored<P: Pages>(
    alloc: Global,
    changes: &mut Vec<(Bytes, Cell)>,
    page: &UnmergedPage,
    keys: &KeyRange,
    pages: &P,
) -> Result<bool, AllocError>
    ensures ok { IfOk result (Adds page.now.keys keys.now changes.old.items changes.new.items (specs.page_entries (P.source pages.now page.now.place))) }
    ensures fit { AllByRecursion IsFit changes.old.items → AllByRecursion IsFit changes.new.items }
{
    match pages.page(&page.place) {
        None => Ok(false),
        Some(bytes) => add_page(alloc, changes, bytes, &page.keys, keys),
    }
}

/// Changes, and behind them what counts of each page that comes next, as long as it is at hand.
fn more_at_hand<P: Pages>(
    alloc: Global,
    found: PageChanges,
    left: &VecDeque<UnmergedPage>,
    keys: &KeyRange,
    pages: &P,
) -> Result<PageChanges, AllocError>
    requires { found.count ≤ length left.now.items }
    ensures { IfOk result (λ all. all ≡ specs.with_more found (specs.at_hand (P.source pages.now) keys.now (drop found.count left.now.items))) }
{
    let count = found.count;
    let mut changes = found.into_changes();
    for at in count..left.len() {
        if !add_stored(alloc, &mut changes, &left[at], keys, pages)? {
            return Ok(PageChanges { changes, count: at });
        }
    }
    Ok(PageChanges {
        changes,
        count: left.len(),
    })
}

/// What counts of a page, if the bytes spell one.
fn page_changes(
    alloc: Global,
    page: &Bytes,
    within: &KeyRange,
    keys: &KeyRange,
) -> Result<Option<PageChanges>, AllocError>
    ensures { IfOk result (λ found. found ≡ option_map (specs.changes_of within.now keys.now) (entries_at page.now)) }
{
    let mut changes = Vec::new(alloc);
    if add_page(alloc, &mut changes, page, within, keys)? {
        Ok(Some(PageChanges { changes, count: 1 }))
    } else {
        Ok(None)
    }
}

impl PageMerge {
    /// Nothing is to be merged.
    pub fn new(alloc: Global) -> PageMerge
        ensures { result ≡ specs.no_merge }
    {
        PageMerge {
            entries: CellMap::new(alloc),
            left: VecDeque::new(alloc),
        }
    }

    /// The merge of all pages of these indexes, the newest first. An error is out of memory (22).
    pub fn of(alloc: Global, indexes: &[InstalledIndex]) -> Result<PageMerge, AllocError>
        ensures { IfOk result (λ merge. merge ≡ specs.merge_of indexes.now) }
    {
        Ok(PageMerge {
            entries: CellMap::new(alloc),
            left: pages_to_merge(alloc, indexes)?,
        })
    }

    /// The page that is to be merged next.
    pub fn next_place(&self) -> Option<Place>
        ensures { result ≡ specs.next_place self.now }
    {
        match self.left.front() {
            None => None,
            Some(page) => Some(page.place),
        }
    }

    /// What the pages at the front bring that are at hand, within these keys. They share the pages' buffers. An error is out of
    /// memory (22).
    pub fn at_hand<P: Pages>(
        &self,
        alloc: Global,
        keys: &KeyRange,
        pages: &P,
    ) -> Result<PageChanges, AllocError>
        ensures { IfOk result (λ changes. specs.LeadsTo changes self.now (specs.with_at_hand (P.source pages.now) keys.now self.now)) }
    {
        let none = PageChanges {
            changes: Vec::new(alloc),
            count: 0,
        };
        more_at_hand(alloc, none, &self.left, keys, pages)
    }

    /// What the page brings that is to be merged next, within these keys, and the pages behind it that are at hand; none where
    /// the bytes spell no page, or where no page is left. An error is out of memory (22).
    pub fn with_page<P: Pages>(
        &self,
        alloc: Global,
        keys: &KeyRange,
        page: &Bytes,
        pages: &P,
    ) -> Result<Option<PageChanges>, AllocError>
        ensures { IfOk result (specs.IsWithPage (P.source pages.now) keys.now self.now (entries_at page.now)) }
    {
        let Some(next) = self.left.front() else {
            return Ok(None);
        };
        match page_changes(alloc, page, &next.keys, keys)? {
            None => Ok(None),
            Some(found) => Ok(Some(more_at_hand(alloc, found, &self.left, keys, pages)?)),
        }
    }

    /// The page that is to be merged next once these changes are taken.
    pub fn place_behind(&self, changes: &PageChanges) -> Option<Place>
        ensures { (m : specs.MergeState) → specs.LeadsTo changes.now self.now m → result ≡ specs.next_place m }
    {
        match self.left.get(changes.count) {
            None => None,
            Some(page) => Some(page.place),
        }
    }

    /// Takes changes. Where memory runs out (22) nothing has changed.
    pub fn take(&mut self, alloc: Global, changes: PageChanges) -> Result<(), AllocError>
        ensures ok { OnOk result ((m : specs.MergeState) → specs.LeadsTo changes self.old m → self.new ≡ m) }
        ensures err { OnErr result (self.new ≡ self.old) }
    {
        let count = changes.count;
        self.entries.put_all(alloc, changes.into_changes())?;
        let gone = count.min(self.left.len());
        drop(self.left.drain(..gone));
        Ok(())
    }

    /// The pages of what is merged once these changes are taken, under newer entries, without the keys that have no value; none
    /// stands yet. A key and a value beside it are copied once, into the page. An error is out of memory (22).
    ///
    /// That the newer entries are in range is the caller's condition.
    pub fn combined_pages(
        &self,
        alloc: Global,
        changes: &PageChanges,
        newer: &Cells,
    ) -> Result<CheckpointPages, AllocError>
        requires { AllByRecursion IsFit newer.now.entries }
        ensures { (m : specs.MergeState) → specs.LeadsTo changes.now self.now m → IfOk result (λ pages. pages ≡ pages_to_write (combined m.entries (Some newer.now.entries))) }
    {
        combine(alloc, &self.entries, &changes.changes, newer)
    }
}
