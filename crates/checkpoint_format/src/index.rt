//! An index: where the pages of a checkpoint stand, by their first keys.
ghost use Rattle.std.specs.Prelude.{◌≡◌, ◌+◌, ◌<◌, ◌^◌, ◌++◌, length, nat_le, IfOk, OnOk, OnErr, MatchResult};
ghost use Rattle.std.specs.List.{AllByRecursion, flat_map, sum_by};
ghost use Rattle.blocks.specs.Format.{Gives, only_at, many_at};
ghost use Rattle.blocks.specs.Record.{number};
ghost use Rattle.memtable.specs.Limits.{IsKey};
ghost use Rattle.metadata.specs.Record.{flag};
ghost use Rattle.checkpoint_format.specs.Index as specs;
ghost use Rattle.checkpoint_format.specs.declared.index.Index.{Index};

use crate::entry::{key_of, place_of, put_key, put_place};
use block_types::{BlockFault, Group};
use blocks::reader::{ended, u32_at};
use blocks::writer::{put_u8, put_u32};
use bytes::Bytes;
use commitlog::pieces_of;
use memtable::Place;
use metadata::flag_of;
use std::alloc::{AllocError, Global};
use std::marker::Model;

/// Where a page stands, and its first key.
pub struct PageAt {
    /// A key of 1 to 256 bytes.
    pub first: Bytes,
    pub place: Place,
}

// Written out, so that a crate above that lets one go has no proof of what is in it.
impl Drop for PageAt {
    fn drop(self) {
        let PageAt { first: _, place: _ } = self;
    }
}

/// Pages in the order of their first keys.
pub struct PageList {
    pub items: Vec<PageAt>,
}

// Written out, so that a crate above that lets one go has no proof of what is in it.
impl Drop for PageList {
    fn drop(self) {
        let PageList { items: _ } = self;
    }
}

impl PageList {
    /// The pages in order.
    pub fn as_slice(&self) -> &[PageAt]
        ensures { result.now ≡ self.now }
    {
        &self.items
    }

    /// The same pages again, which share their first keys. An error is out of memory (22).
    pub fn copy(&self, alloc: Global) -> Result<PageList, AllocError>
        ensures { IfOk result (λ copy. copy ≡ self.now) }
    {
        Ok(PageList {
            items: copied_pages(alloc, &self.items)?,
        })
    }

    /// These pages stand behind the others. Where memory runs out (22) nothing has changed.
    pub fn append(&mut self, mut more: Vec<PageAt>) -> Result<(), AllocError>
        ensures ok { OnOk result (self.new ≡ self.old ++ more.items) }
        ensures err { OnErr result (self.new ≡ self.old) }
    {
        self.items.append(&mut more)
    }
}

/// The same pages again.
fn copied_pages(alloc: Global, pages: &[PageAt]) -> Result<Vec<PageAt>, AllocError>
    ensures { IfOk result (λ copy. copy.items ≡ pages.now) }
{
    let mut copy = Vec::with_capacity(alloc, pages.len())?;
    for page in pages {
        copy.push(PageAt {
            first: page.first.clone()?,
            place: page.place,
        })?;
    }
    Ok(copy)
}

impl Model for PageList {
    ghost use Rattle.std.specs.Prelude.{List};
    ghost use Rattle.checkpoint_format.specs.declared.index.PageAt.{PageAt};

    ghost Value = { List PageAt };

    ghost view = { λ list. list.items.items };
}

/// The pages of a checkpoint, and whether one of their cells is a place.
///
/// An index may be out of range: `IsIndex` of specs/Index.antt is what has a spelling.
pub struct Index {
    /// In ascending order of their first keys.
    pub pages: PageList,
    /// Whether a value stands outside of the pages.
    pub has_place: bool,
}

// Written out, so that a crate above that lets one go has no proof of what is in it.
impl Drop for Index {
    fn drop(self) {
        let Index {
            pages: _,
            has_place: _,
        } = self;
    }
}

/// The most bytes of an index, those of a group of 64 blocks.
const MAX_TEXT: u64 = 4_194_304;

/// The bytes of an index before its first page.
const HEADER: u64 = 9;

/// How many bytes a page has in an index.
fn page_size(page: &PageAt) -> u64
    ensures { result ≡ specs.page_at_size page.now }
{
    18 + page.first.len() as u64
}

/// How many bytes an index of these pages has.
fn size_of(pages: &[PageAt]) -> u64
    requires { 9 + sum_by specs.page_at_size pages.now < 2 ^ 64 }
    ensures { result ≡ 9 + sum_by specs.page_at_size pages.now }
{
    let mut size = HEADER;
    for page in pages {
        size += page_size(page);
    }
    size
}

/// Whether an index of these pages has at most 64 blocks.
fn has_room(pages: &[PageAt]) -> bool
    ensures { result ≡ nat_le (9 + sum_by specs.page_at_size pages.now) 4194304 }
{
    let mut left = MAX_TEXT - HEADER;
    for page in pages {
        let size = page_size(page);
        if left < size {
            return false;
        }
        left -= size;
    }
    true
}

/// Whether each first key is above the one before it.
fn are_ascending(pages: &[PageAt]) -> bool
    ensures { result ≡ specs.are_ascending pages.now }
{
    let [first, rest @ ..] = pages else {
        return true;
    };
    let mut last = first;
    for page in rest {
        if !last.first.as_slice().cmp(page.first.as_slice()).is_lt() {
            return false;
        }
        last = page;
    }
    true
}

fn put_flag(out: &mut Vec<u8>, is_set: bool) -> Result<(), AllocError>
    ensures { OnOk result (out.new.items ≡ out.old.items ++ flag is_set) }
{
    if is_set {
        put_u8(out, 1)
    } else {
        put_u8(out, 0)
    }
}

fn put_page(out: &mut Vec<u8>, page: &PageAt) -> Result<(), AllocError>
    requires { IsKey page.now.first }
    ensures { OnOk result (out.new.items ≡ out.old.items ++ specs.page_at_bytes page.now) }
{
    put_key(out, &page.first)?;
    put_place(out, &page.place)
}

fn put_pages(out: &mut Vec<u8>, pages: &[PageAt]) -> Result<(), AllocError>
    requires { AllByRecursion specs.HasFirstKey pages.now }
    ensures { OnOk result (out.new.items ≡ out.old.items ++ flat_map specs.page_at_bytes pages.now) }
{
    for page in pages {
        put_page(out, page)?;
    }
    Ok(())
}

/// The text of an index of so many bytes.
fn text_of(
    alloc: Global,
    size: u32,
    pages: &[PageAt],
    has_place: bool,
) -> Result<Vec<u8>, AllocError>
    requires keys { AllByRecursion specs.HasFirstKey pages.now }
    requires count { length pages.now < 2 ^ 32 }
    ensures { IfOk result (λ text. text.items
        ≡ number 4 size ++ (number 4 (length pages.now) ++ (flag has_place ++ flat_map specs.page_at_bytes pages.now))) }
{
    let mut text = Vec::with_capacity(alloc, size as usize)?;
    put_u32(&mut text, size)?;
    put_u32(&mut text, pages.len() as u32)?;
    put_flag(&mut text, has_place)?;
    put_pages(&mut text, pages)?;
    Ok(text)
}

impl Index {
    /// How many bytes its text has. That they are fewer than 2^64 is the caller's condition.
    pub fn size(&self) -> u64
        requires { specs.index_size self.now < 2 ^ 64 }
        ensures { result ≡ specs.index_size self.now }
    {
        size_of(self.pages.as_slice())
    }

    /// Whether its text is at most 64 blocks.
    pub fn fits_a_group(&self) -> bool
        ensures { result ≡ specs.fits_a_group self.now }
    {
        has_room(self.pages.as_slice())
    }

    /// The group of one append that has its text. An error is out of memory (22).
    ///
    /// That it is in range is the caller's condition: its first keys are keys in ascending order, and its text is at most
    /// 64 blocks.
    pub fn encode(&self, alloc: Global) -> Result<Group, AllocError>
        requires { specs.IsIndex self.now }
        ensures { IfOk result (λ group. group ≡ specs.index_group self.now) }
    {
        let size = self.size();
        let pages = self.pages.as_slice();
        let text = text_of(alloc, size as u32, pages, self.has_place)?;
        Group::of(pieces_of(alloc, text)?)
    }
}

#[tactic(auto, unfolding(crate::specs::Index::one_page_at))]
fn page_of(alloc: Global, bytes: &[u8]) -> Result<(PageAt, &[u8]), BlockFault>
    ensures { Gives (λ x. (x.0, x.1.now)) result (specs.one_page_at bytes.now) }
{
    let Ok((key, rest)) = key_of(bytes) else {
        return Err(BlockFault::Damaged);
    };
    let Ok((place, rest)) = place_of(rest) else {
        return Err(BlockFault::Damaged);
    };
    match Bytes::copy_from_slice(alloc, key) {
        Ok(first) => Ok((PageAt { first, place }, rest)),
        Err(_full) => Err(BlockFault::Memory),
    }
}

fn all_pages_of(alloc: Global, count: u32, bytes: &[u8]) -> Result<(Vec<PageAt>, &[u8]), BlockFault>
    ensures { Gives (λ x. (x.0.items, x.1.now)) result (many_at specs.one_page_at count bytes.now) }
{
    let mut read = Vec::new(alloc);
    let mut rest = bytes;
    for _ in 0..count {
        let (page, after) = page_of(alloc, rest)?;
        read.push(page)?;
        rest = after;
    }
    Ok((read, rest))
}

/// Pages in ascending order.
fn pages_of(alloc: Global, count: u32, bytes: &[u8]) -> Result<(PageList, &[u8]), BlockFault>
    ensures { Gives (λ x. (x.0, x.1.now)) result (only_at specs.are_ascending (many_at specs.one_page_at count) bytes.now) }
{
    let (items, rest) = all_pages_of(alloc, count, bytes)?;
    if !are_ascending(&items) {
        return Err(BlockFault::Damaged);
    }
    Ok((PageList { items }, rest))
}

#[tactic(auto, unfolding(crate::specs::Index::body_at))]
fn body_of(alloc: Global, bytes: &[u8]) -> Result<(Index, &[u8]), BlockFault>
    ensures { Gives (λ x. (x.0, x.1.now)) result (specs.body_at bytes.now) }
{
    let Ok((count, rest)) = u32_at(bytes) else {
        return Err(BlockFault::Damaged);
    };
    let (has_place, rest) = flag_of(rest)?;
    let (pages, rest) = pages_of(alloc, count, rest)?;
    Ok((Index { pages, has_place }, rest))
}

#[tactic(auto, unfolding(crate::specs::Index::index_at))]
fn index_of(alloc: Global, bytes: &[u8]) -> Result<Index, BlockFault>
    ensures { Gives (λ i. i) result (specs.index_at bytes.now) }
{
    let Ok((size, rest)) = u32_at(bytes) else {
        return Err(BlockFault::Damaged);
    };
    if size as usize != bytes.len() || u64::from(size) > MAX_TEXT {
        return Err(BlockFault::Damaged);
    }
    let (index, rest) = body_of(alloc, rest)?;
    ended(index, rest)
}

/// The index whose text these bytes are. It copies the keys.
///
/// It is refused `Damaged` (21) only where they are the text of none: cut short, bytes left over, another length than the
/// text says, more than 64 blocks, a field out of range, keys that do not ascend. `Memory` (22) says nothing of the bytes.
pub fn decode(alloc: Global, bytes: &[u8]) -> Result<Index, BlockFault>
    ensures read { Gives (λ i. i) result (specs.index_at bytes.now) }

    // So its text is these bytes, and it is in range.
    ensures found { IfOk result (λ i. specs.IsIndex i × (specs.index_text i ≡ bytes.now)) }

    // Where the bytes are the text of an index that index is found, unless memory ran out.
    ensures only { (i : Index) → specs.IsIndex i → specs.HasPlaces i → specs.index_text i ≡ bytes.now
        → MatchResult result (λ x. x ≡ i) (λ e. e ≡ BlockFault.Memory) }
{
    index_of(alloc, bytes)
}
