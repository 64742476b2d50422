//! The text of groups, and where each of them and of their blocks ends, so that a place is found by a search.
ghost use Rattle.std.specs.Prelude.{◌≡◌, ◌+◌, ◌-◌, ◌<◌, ◌≤◌, ◌^◌, ◌++◌, [], ◌∷◌, take, drop, get_or, length, nat_le, vec_len, vec_capacity, IfNone, IfOk, IfSome, IsOk, OnOk, OnErr, MatchResult};
ghost use Rattle.std.specs.List.{AllByRecursion};
ghost use Rattle.block_types.specs.Limits.{IsBlock, group_size};
ghost use Rattle.replica.specs.Groups.{joined, size, text_length};
ghost use Rattle.replica.specs.Placed.{IsBefore, first, found_or};
ghost use Rattle.replica.specs.Reading.{bytes_at, groups_to, groups_from};
ghost use Rattle.replica.specs.Replay.{is_boundary};
ghost use Rattle.replica.specs.Room.{HasRoom, TakesRoom, block_count};
ghost use Rattle.replica.specs.Spelled.{block_sizes, blocks_of};

use crate::buffers::Buffers;
use crate::ends::Ends;
use crate::fault::PastEnd;
use block_types::{Group, Groups};
use bytes::Bytes;
use std::alloc::{AllocError, Global};
use std::marker::Model;

/// Groups in order, as one text. To find a place among them takes a search, and to read from there costs what is read.
#[derive(Drop)]
pub(crate) struct PlacedGroups {
    text: Buffers,
    ends: Ends,
    /// How many blocks there are up to the last one of each group.
    lasts: Vec<u32>,
    /// How many bytes each block has.
    sizes: Vec<u32>,
    length: u32,
}

impl Model for PlacedGroups {
    ghost use Rattle.std.specs.Prelude.{◌-◌, min, vec_capacity, vec_len};
    ghost use Rattle.replica.specs.Placed.{Placed};
    ghost use Rattle.replica.specs.Spelled.{IsSpelled, groups_of};

    ghost Value = { Placed };

    ghost view = { λ p. record {
      groups = groups_of 0 p.lasts.items p.sizes.items p.text.bytes;
      room = record {
        text = p.text.spare;
        blocks = vec_capacity p.sizes - vec_len p.sizes;
        groups = min (vec_capacity p.lasts - vec_len p.lasts) p.ends.room;
      };
    } };

    ghost invariant = { λ p. IsSpelled (groups_of 0 p.lasts.items p.sizes.items p.text.bytes) p.ends.ends p.lasts.items p.sizes.items p.text.bytes p.length };
}

/// How many bytes and blocks groups have.
#[derive(Drop)]
struct Needs {
    text: usize,
    blocks: usize,
}

/// What groups need; none where that is not a number of 64 bits.
fn needs_of(groups: &[Group]) -> Option<Needs>
    ensures some { IfSome result (λ n. (n.text ≡ text_length groups.now) × (n.blocks ≡ block_count groups.now)) }
    ensures none { IfNone result (2 ^ 64 ≤ text_length groups.now) }
{
    let mut text: usize = 0;
    let mut blocks: usize = 0;
    for group in groups {
        let Some(sum) = text.checked_add(group.size() as usize) else {
            return None;
        };
        text = sum;
        blocks += group.blocks().len();
    }
    Some(Needs { text, blocks })
}

/// Adds the bytes of blocks at the end of a text, and their sizes at the end of a list, into room that was made.
fn add_blocks(text: &mut Buffers, sizes: &mut Vec<u32>, blocks: &[Bytes])
    requires blocks { AllByRecursion IsBlock blocks.now }
    requires text { size blocks.now ≤ text.old.spare }
    requires sizes { vec_len sizes.old + length blocks.now ≤ vec_capacity sizes.old }
    ensures bytes { text.new.bytes ≡ text.old.bytes ++ joined blocks.now }
    ensures spare { text.new.spare + size blocks.now ≡ text.old.spare }
    ensures sizes { sizes.new.items ≡ sizes.old.items ++ block_sizes blocks.now }
    ensures len { vec_len sizes.new ≡ vec_len sizes.old + length blocks.now }
    ensures capacity { vec_capacity sizes.new ≡ vec_capacity sizes.old }
{
    for block in blocks {
        let bytes = block.as_slice();
        text.push(bytes);
        sizes.push_reserved(bytes.len() as u32);
    }
}

/// The blocks of these sizes that a text has from an offset on. An error is out of memory.
fn blocks_at(
    alloc: Global,
    text: &Buffers,
    offset: u32,
    sizes: &[u32],
) -> Result<Vec<Bytes>, AllocError>
    requires blocks { AllByRecursion IsBlock (blocks_of sizes.now (drop offset text.now.bytes)) }
    requires few { length sizes.now ≤ 64 }
    ensures { IfOk result (λ blocks. blocks.items ≡ blocks_of sizes.now (drop offset text.now.bytes)) }
{
    let mut at = offset as usize;
    let mut blocks = Vec::with_capacity(alloc, sizes.len())?;
    for size in sizes {
        blocks.push(text.piece(alloc, at, *size as usize)?)?;
        at += *size as usize;
    }
    Ok(blocks)
}

impl PlacedGroups {
    /// No groups; takes no memory.
    pub(crate) fn new(alloc: Global) -> PlacedGroups
        ensures { result.groups ≡ [] }
    {
        PlacedGroups {
            text: Buffers::new(alloc),
            ends: Ends::new(alloc),
            lasts: Vec::new(alloc),
            sizes: Vec::new(alloc),
            length: 0,
        }
    }

    /// How many bytes the groups have together.
    pub(crate) fn len(&self) -> u32
        ensures { result ≡ text_length self.now.groups }
    {
        self.length
    }

    /// How many groups there are.
    fn count(&self) -> usize
        ensures { result ≡ length self.now.groups }
    {
        self.ends.len()
    }

    /// Makes room for these groups. Without memory nothing has changed but room.
    pub(crate) fn reserve(&mut self, groups: &[Group]) -> Result<(), AllocError>
        ensures same { self.new.groups ≡ self.old.groups }
        ensures room { OnOk result (HasRoom self.new.room groups.now) }
        ensures ready { HasRoom self.old.room groups.now → IsOk result }
    {
        // Read, so that the proof knows that it is a number of 64 bits.
        let _spare = self.text.spare();
        let Some(needs) = needs_of(groups) else {
            return Err(AllocError);
        };
        self.make_room(needs.text, needs.blocks, groups.len())
    }

    /// Makes room for so many bytes, blocks and groups. Without memory nothing has changed but room.
    fn make_room(&mut self, text: usize, blocks: usize, groups: usize) -> Result<(), AllocError>
        ensures same { self.new.groups ≡ self.old.groups }
        ensures room { OnOk result ((text ≤ self.new.room.text) × (blocks ≤ self.new.room.blocks) × (groups ≤ self.new.room.groups)) }
        ensures ready { (text ≤ self.old.room.text) × (blocks ≤ self.old.room.blocks) × (groups ≤ self.old.room.groups) → IsOk result }
    {
        self.text.reserve(text)?;
        self.sizes.reserve(blocks)?;
        self.lasts.reserve(groups)?;
        self.ends.reserve(groups)
    }

    /// Adds a group at the end, and makes room for it first. Where there is room for it it takes no memory. Without memory
    /// nothing has changed but room.
    pub(crate) fn put(&mut self, group: &Group) -> Result<(), AllocError>
        requires below { text_length self.old.groups < 4290000000 }
        ensures ok { OnOk result (self.new.groups ≡ self.old.groups ++ group.now ∷ []) }
        ensures err { OnErr result (self.new.groups ≡ self.old.groups) }
        ensures ready { HasRoom self.old.room (group.now ∷ []) → IsOk result }
        ensures within { text_length self.new.groups ≤ text_length self.old.groups + 4194304 }
    {
        let size = group.size();
        self.make_room(size as usize, group.blocks().len(), 1)?;
        self.push_sized(group, size);
        Ok(())
    }

    /// Adds a group at the end, into room that was made.
    fn push(&mut self, group: &Group)
        requires room { HasRoom self.old.room (group.now ∷ []) }
        requires below { text_length self.old.groups < 4290000000 }
        ensures value { self.new.groups ≡ self.old.groups ++ group.now ∷ [] }
        ensures room { TakesRoom self.old.room self.new.room group.now }
    {
        self.push_sized(group, group.size());
    }

    /// As `push` of a group of so many bytes.
    fn push_sized(&mut self, group: &Group, size: u32)
        requires sized { size ≡ group_size group.now }
        requires bound { size ≤ 4194304 }
        requires room { HasRoom self.old.room (group.now ∷ []) }
        requires below { text_length self.old.groups < 4290000000 }
        ensures value { self.new.groups ≡ self.old.groups ++ group.now ∷ [] }
        ensures room { TakesRoom self.old.room self.new.room group.now }
    {
        let end = self.length + size;
        add_blocks(&mut self.text, &mut self.sizes, group.blocks());
        self.lasts.push_reserved(self.sizes.len() as u32);
        self.ends.push(end);
        self.length = end;
    }

    /// Adds groups at the end, into room that was made.
    pub(crate) fn extend(&mut self, groups: &[Group])
        requires room { HasRoom self.old.room groups.now }
        requires below { text_length self.old.groups + text_length groups.now < 4290000000 }
        ensures { self.new.groups ≡ self.old.groups ++ groups.now }
    {
        for group in groups {
            self.push(group);
        }
    }

    /// How many groups end at or before an offset.
    fn before(&self, offset: u32) -> usize
        ensures { IsBefore self.now.groups offset result }
    {
        let mut probes = 0;
        self.ends.find(offset, &mut probes)
    }

    /// Where the group with this index starts.
    fn start_of(&self, index: usize) -> u32
        requires { index ≤ length self.now.groups }
        ensures { result ≡ text_length (take index self.now.groups) }
    {
        match index.checked_sub(1) {
            None => 0,
            Some(last) => {
                let mut probes = 0;
                self.ends.end_at(last, &mut probes)
            }
        }
    }

    /// A copy of so many bytes from an offset on, as far as there are any. An error is out of memory.
    pub(crate) fn bytes(&self, alloc: Global, offset: u32, length: u32) -> Result<Bytes, AllocError>
        ensures { IfOk result (λ bytes. bytes ≡ bytes_at offset length self.now.groups) }
    {
        self.text.copied(alloc, offset as usize, length as usize)
    }

    /// Whether there are so many bytes.
    fn reaches(&self, end: u32) -> bool
        ensures { result ≡ nat_le end (text_length self.now.groups) }
    {
        match end.checked_sub(1) {
            None => true,
            Some(last) => self.before(last) < self.count(),
        }
    }

    /// Whether there are so many bytes from an offset on.
    fn has(&self, offset: u32, count: usize) -> bool
        ensures { result ≡ nat_le (offset + count) (text_length self.now.groups) }
    {
        let Ok(count) = u32::try_from(count) else {
            // Read, so that how many there are is known to the proof.
            let _length = self.length;
            return false;
        };
        match offset.checked_add(count) {
            Some(end) => self.reaches(end),
            None => {
                // Read, so that how many there are is known to the proof.
                let _length = self.length;
                false
            }
        }
    }

    /// Fills a slice with the bytes from an offset on. Where there are not so many it is refused (8), and the slice
    /// is as it was. Takes no memory.
    pub(crate) fn read_into(&self, offset: u32, out: &mut [u8]) -> Result<(), PastEnd>
        ensures ok { OnOk result (out.new ≡ bytes_at offset (length out.old) self.now.groups) }
        ensures refused { OnErr result (out.new ≡ out.old) }
        ensures fault { MatchResult result (λ _. offset + length out.old ≤ text_length self.now.groups)
            (λ _. text_length self.now.groups < offset + length out.old) }
    {
        if !self.has(offset, out.len()) {
            return Err(PastEnd);
        }
        // It ends where `out` ends, which was tested above.
        let _end = self.text.write_to(out, offset as usize);
        Ok(())
    }

    /// How many of the first groups have this many bytes together; none where a group goes over that boundary.
    fn place_of(&self, upto: u32) -> Option<usize>
        ensures found { groups_to upto self.now.groups ≡ first result self.now.groups }
        ensures within { IfSome result (λ n. n ≤ length self.now.groups) }
        ensures start { IfSome result (λ n. text_length (take n self.now.groups) ≡ upto) }
    {
        // Read, so that where each group ends is known to the proof.
        let _length = self.length;
        let index = self.before(upto);
        if self.start_of(index) == upto {
            Some(index)
        } else {
            None
        }
    }

    /// Whether a group ends there, or the first one begins. Takes no memory.
    pub(crate) fn is_boundary(&self, upto: u32) -> bool
        ensures { result ≡ is_boundary (groups_to upto self.now.groups) }
    {
        self.place_of(upto).is_some()
    }

    /// How many blocks the groups before the one with this index have.
    fn blocks_before(&self, index: usize) -> usize
        requires { index ≤ length self.now.groups }
        ensures { result ≡ block_count (take index self.now.groups) }
    {
        match index.checked_sub(1) {
            None => 0,
            Some(last) => self.lasts[last] as usize,
        }
    }

    /// The group with this index. Its blocks share their bytes, but those that do not lie in one full buffer, which are
    /// copied. An error is out of memory.
    fn group_at(&self, alloc: Global, index: usize) -> Result<Group, AllocError>
        requires { index < length self.now.groups }
        ensures { IfOk result (λ group. group ≡ get_or self.now.groups index []) }
    {
        let last = self.lasts[index] as usize;
        let first = self.blocks_before(index);
        let at = self.start_of(index);
        let blocks = blocks_at(alloc, &self.text, at, &self.sizes[first..last])?;
        Ok(Group::of(blocks)?)
    }

    /// The groups from one index to another. An error is out of memory.
    fn groups_between(&self, alloc: Global, from: usize, to: usize) -> Result<Groups, AllocError>
        requires { (from ≤ to) × (to ≤ length self.now.groups) }
        ensures { IfOk result (λ groups. groups ≡ drop from (take to self.now.groups)) }
    {
        let mut items = Vec::with_capacity(alloc, to - from)?;
        for index in from..to {
            items.push(self.group_at(alloc, index)?)?;
        }
        Ok(Groups { items })
    }

    /// The first groups, of this many bytes together; none where a group goes over that boundary. An error is out of
    /// memory.
    pub(crate) fn groups_to(&self, alloc: Global, upto: u32) -> Result<Option<Groups>, AllocError>
        ensures { IfOk result (λ groups. groups ≡ groups_to upto self.now.groups) }
    {
        let Some(index) = self.place_of(upto) else {
            return Ok(None);
        };
        let found = self.groups_between(alloc, 0, index)?;
        Ok(Some(found))
    }

    /// The groups after that boundary; none where a group goes over it. An error is want of memory.
    pub(crate) fn groups_from(&self, alloc: Global, from: u32) -> Result<Option<Groups>, AllocError>
        ensures { IfOk result (λ groups. groups ≡ groups_from from self.now.groups) }
    {
        let Some(index) = self.place_of(from) else {
            return Ok(None);
        };
        let found = self.groups_between(alloc, index, self.count())?;
        Ok(Some(found))
    }

    /// Keeps the groups up to a boundary. Where a group goes over it they stay as they are, and it says so.
    pub(crate) fn cut(&mut self, upto: u32) -> bool
        ensures boundary { result ≡ is_boundary (groups_to upto self.old.groups) }
        ensures value { self.new.groups ≡ found_or (groups_to upto self.old.groups) self.old.groups }
        ensures shorter { text_length self.new.groups ≤ text_length self.old.groups }
    {
        let Some(index) = self.place_of(upto) else {
            return false;
        };
        let blocks = self.blocks_before(index);
        self.text.truncate(upto as usize);
        self.ends.truncate(index);
        self.lasts.truncate(index);
        self.sizes.truncate(blocks);
        self.length = upto;
        true
    }
}
