//! The pages of a checkpoint while they are written.
ghost use Rattle.std.specs.Prelude.{◌≡◌, ℕ, ◌+◌, ◌≤◌, ◌<◌, ◌^◌, true, nat_le, length, take, drop, IfOk, OnOk, OnErr};
ghost use Rattle.std.specs.List.{AllByRecursion, sum_by};
ghost use Rattle.memtable.specs.Entries.{IsFit};
ghost use Rattle.checkpoint_format.specs.Index.{IsIndex, fits_a_group};
ghost use Rattle.checkpoint.specs.PageGroups as specs;

use crate::combination::has_place;
use block_types::Group;
use bytes::Bytes;
use checkpoint_format::{Index, Page, PageAt, PageList, write_pages};
use memtable::{Cells, Place};
use std::alloc::{AllocError, Global};
use std::marker::Model;
use wire::ExtentId;

/// The pages of a checkpoint: the index of those that stand, and those that are still to be appended, in the order of their
/// keys. A group of at most 64 is appended at a time.
pub struct CheckpointPages {
    index: Index,
    pages: Vec<Page>,
    // How many of the pages stand.
    standing: usize,
}

// Written out, so that a crate above that lets one go has no proof of what is in it.
impl Drop for CheckpointPages {
    fn drop(self) {
        let CheckpointPages {
            index: _,
            pages: _,
            standing: _,
        } = self;
    }
}

impl Model for CheckpointPages {
    ghost use Rattle.std.specs.Prelude.{◌≤◌, length, drop};
    ghost use Rattle.checkpoint.specs.PageGroups as specs;

    ghost Value = { specs.PagesState };

    ghost view = { λ p. record { index = p.index; unwritten = drop p.standing p.pages.items } };

    // So the index that they come to can be written.
    ghost invariant = { λ p. (p.standing ≤ length p.pages.items) × specs.ArePages (record { index = p.index; unwritten = drop p.standing p.pages.items }) };
}

/// The most pages of a group.
const MAX_PAGES: usize = 64;

/// Pages of which each is a block, as the blocks of a group.
fn blocks_of(alloc: Global, pages: &[Page]) -> Result<Vec<Bytes>, AllocError>
    requires { AllByRecursion specs.HasBlock pages.now }
    ensures { IfOk result (λ blocks. blocks.items ≡ specs.page_group pages.now) }
{
    let mut blocks = Vec::with_capacity(alloc, pages.len())?;
    for page in pages {
        blocks.push(page.bytes.clone()?)?;
    }
    Ok(blocks)
}

/// The first of these pages, 64 of them where there are so many.
fn first_pages(pages: &[Page]) -> &[Page]
    ensures { result.now ≡ take 64 pages.now }
{
    if pages.len() > MAX_PAGES {
        &pages[..MAX_PAGES]
    } else {
        pages
    }
}

/// Those behind the first.
fn pages_behind(pages: &[Page]) -> &[Page]
    ensures { result.now ≡ drop 64 pages.now }
{
    if pages.len() > MAX_PAGES {
        &pages[MAX_PAGES..]
    } else {
        &[]
    }
}

/// Their group, if there is a page.
fn group_of_first(alloc: Global, pages: &[Page]) -> Result<Option<Group>, AllocError>
    requires { AllByRecursion specs.HasBlock pages.now }
    ensures { IfOk result (λ group. group ≡ specs.group_of_first pages.now) }
{
    if pages.is_empty() {
        return Ok(None);
    }
    let blocks = blocks_of(alloc, first_pages(pages))?;
    Ok(Some(Group::of(blocks)?))
}

/// Whether so many bytes have room for all of these pages.
fn has_room(room: u64, pages: &[Page]) -> bool
    ensures { result ≡ nat_le (specs.pages_size pages.now) room }
{
    let mut left = room;
    for page in pages {
        let size = page.bytes.len() as u64;
        if left < size {
            return false;
        }
        left -= size;
    }
    true
}

/// The most bytes of an index, those of a group of 64 blocks.
const MAX_INDEX: u64 = 4_194_304;

/// Whether so many bytes have room for all of these pages in an index.
fn have_room(room: u64, pages: &[Page]) -> bool
    ensures { result ≡ nat_le (sum_by specs.entry_size pages.now) room }
{
    let mut left = room;
    for page in pages {
        let size = 18 + page.first.len() as u64;
        if left < size {
            return false;
        }
        left -= size;
    }
    true
}

/// These pages where they stand, one behind the other from an offset of an extent on. They share their first keys.
fn placed_pages(
    alloc: Global,
    pages: &[Page],
    extent: ExtentId,
    offset: u32,
) -> Result<Vec<PageAt>, AllocError>
    requires { offset + specs.pages_size pages.now < 2 ^ 32 }
    ensures { IfOk result (λ placed. placed.items ≡ specs.placed_pages extent offset pages.now) }
{
    let mut placed = Vec::with_capacity(alloc, pages.len())?;
    let mut at = offset;
    for page in pages {
        let length = page.bytes.len() as u32;
        placed.push(PageAt {
            first: page.first.clone()?,
            place: Place {
                extent,
                offset: at,
                length,
            },
        })?;
        at += length;
    }
    Ok(placed)
}

impl CheckpointPages {
    /// No page.
    pub fn new(alloc: Global) -> CheckpointPages
        ensures { result ≡ specs.no_pages }
    {
        CheckpointPages {
            index: Index {
                pages: PageList {
                    items: Vec::new(alloc),
                },
                has_place: false,
            },
            pages: Vec::new(alloc),
            standing: 0,
        }
    }

    /// The pages of a layer, none of which stands yet. It walks through the layer twice, and copies each key and each value
    /// beside it once. An error is out of memory (22).
    ///
    /// That the entries are in range is the caller's condition.
    pub fn of(alloc: Global, entries: &Cells) -> Result<CheckpointPages, AllocError>
        requires { AllByRecursion IsFit entries.now.entries }
        ensures { IfOk result (λ pages. pages ≡ specs.pages_to_write entries.now.entries) }
    {
        let pages = write_pages(alloc, entries)?;
        Ok(CheckpointPages {
            index: Index {
                pages: PageList {
                    items: Vec::new(alloc),
                },
                has_place: has_place(entries),
            },
            pages,
            standing: 0,
        })
    }

    /// Whether the index fits a group once all pages stand.
    pub fn will_fit(&self) -> bool
        ensures { result ≡ specs.will_fit self.now }
    {
        if !self.index.fits_a_group() {
            return false;
        }
        have_room(MAX_INDEX - self.index.size(), self.unwritten())
    }

    /// Those that do not stand.
    fn unwritten(&self) -> &[Page]
        ensures value { result.now ≡ self.now.unwritten }
        ensures blocks { AllByRecursion specs.HasBlock result.now }
    {
        &self.pages[self.standing..]
    }

    /// The group of the next pages, whose bytes it shares, 64 of them where there are so many; none where all stand. An error
    /// is out of memory (22).
    pub fn next_group(&self, alloc: Global) -> Result<Option<Group>, AllocError>
        ensures { IfOk result (λ group. group ≡ specs.next_group self.now) }
    {
        group_of_first(alloc, self.unwritten())
    }

    /// The group of the pages after those, in the same way.
    pub fn group_behind(&self, alloc: Global) -> Result<Option<Group>, AllocError>
        ensures { IfOk result (λ group. (extent offset : ℕ) → group ≡ specs.next_group (specs.with_next_placed self.now extent offset)) }
    {
        group_of_first(alloc, pages_behind(self.unwritten()))
    }

    /// Whether the next group may stand at this offset of an extent, in bytes: its end is below 2^32.
    pub fn may_stand_at(&self, offset: u32) -> bool
        ensures { result ≡ specs.may_stand_at self.now offset }
    {
        has_room(
            u32::MAX as u64 - offset as u64,
            first_pages(self.unwritten()),
        )
    }

    /// A copy of the index once the next group stands at an offset of an extent, which shares its first keys. An error is out of
    /// memory (22).
    pub fn index_behind(
        &self,
        alloc: Global,
        extent: ExtentId,
        offset: u32,
    ) -> Result<Index, AllocError>
        requires { specs.may_stand_at self.now offset ≡ true }
        ensures value { IfOk result (λ index. index ≡ (specs.with_next_placed self.now extent offset).index) }

        // Where it fits a group it can be written.
        ensures range { IfOk result (λ index. fits_a_group index ≡ true → IsIndex index) }
    {
        let placed = placed_pages(alloc, first_pages(self.unwritten()), extent, offset)?;
        let mut pages = self.index.pages.copy(alloc)?;
        pages.append(placed)?;
        Ok(Index {
            pages,
            has_place: self.index.has_place,
        })
    }

    /// The next group stands at an offset of an extent: each of its pages has its place there, one behind the other. Where
    /// memory runs out (22) nothing has changed.
    pub fn place_next(
        &mut self,
        alloc: Global,
        extent: ExtentId,
        offset: u32,
    ) -> Result<(), AllocError>
        requires { specs.may_stand_at self.old offset ≡ true }
        ensures ok { OnOk result (self.new ≡ specs.with_next_placed self.old extent offset) }
        ensures err { OnErr result (self.new ≡ self.old) }
    {
        let pages = first_pages(self.unwritten());
        let count = pages.len();
        let placed = placed_pages(alloc, pages, extent, offset)?;
        self.index.pages.append(placed)?;
        self.standing += count;
        Ok(())
    }

    /// The index of the pages that stand.
    pub fn index(&self) -> &Index
        ensures value { result.now ≡ self.now.index }

        // Where it fits a group it can be written.
        ensures range { fits_a_group self.now.index ≡ true → IsIndex self.now.index }
    {
        &self.index
    }

    /// The same index, of pages that are let go.
    pub fn into_index(self) -> Index
        ensures value { result ≡ self.index }
        ensures range { fits_a_group self.index ≡ true → IsIndex self.index }
    {
        let CheckpointPages {
            index,
            pages: _,
            standing: _,
        } = self;
        index
    }
}
