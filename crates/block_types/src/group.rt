//! Blocks, groups of blocks, and lists of groups. Payloads are shared buffers: a copy of a block copies no byte.
ghost use Rattle.std.specs.Prelude.{◌≡◌, ◌++◌, ◌∷◌, [], OnOk, ◌⊎◌, ◌<◌, ◌≤◌, map, get_or, ◌*◌, ◌==◌, ◌||◌, nat_lt, false, Some, None, IfOk, IfErr, MatchResult, length};
ghost use Rattle.std.specs.List.{AllByRecursion, list_any};
ghost use Rattle.std.specs.Arc.{arc_slice_items};
ghost use Rattle.sha2.specs.Sha256.{sha256};
ghost use Rattle.block_types.specs.Limits.{IsBlock, IsGroup, group_size, group_fault, texts_of};

use crate::digests::Digests;
use crate::fault::GroupFault;
use crate::limits::{MAX_BLOCK, MAX_BLOCKS};
use bytes::Bytes;
use sha2::{Digest, Sha256};
use std::alloc::{AllocError, Global};
use std::marker::Model;
use std::sync::ArcSlice;

/// The smallest piece that is written or read, from 1 to 65,536 bytes (after Calder et al., SOSP 2011, section 4).
/// Its value is its bytes.
pub struct Block {
    bytes: Bytes,
}

// Written out, so that a crate above that lets one go has no proof of what is in it.
impl Drop for Block {
    fn drop(self) {
        let Block { bytes: _ } = self;
    }
}

impl Model for Block {
    ghost use Rattle.std.specs.Prelude.{ℕ, List};

    ghost Value = { List ℕ };

    ghost use Rattle.block_types.specs.Limits.{IsBlock};

    ghost view = { λ b. b.bytes };

    ghost invariant = { λ b. IsBlock b.bytes };
}

impl Block {
    /// The block of these bytes, which it keeps and does not copy.
    pub fn of(bytes: Bytes) -> Block
        requires { IsBlock bytes }
        ensures { result ≡ bytes }
    {
        Block { bytes }
    }

    /// The block of a copy of these bytes. An error is out of memory (22).
    pub fn copied(alloc: Global, text: &[u8]) -> Result<Block, AllocError>
        requires { IsBlock text.now }
        ensures { IfOk result (λ b. b ≡ text.now) }
    {
        Ok(Block {
            bytes: Bytes::copy_from_slice(alloc, text)?,
        })
    }

    /// The bytes, from 1 to 65,536 of them.
    pub fn as_slice(&self) -> &[u8]
        ensures value { result.now ≡ self.now }
        ensures fits { IsBlock self.now }
    {
        self.bytes.as_slice()
    }

    /// The bytes as a buffer, which shares them. An error is out of memory (22).
    pub fn share(&self) -> Result<Bytes, AllocError>
        ensures value { IfOk result (λ bytes. bytes ≡ self.now) }
        ensures fits { IsBlock self.now }
    {
        self.bytes.clone()
    }
}

/// The blocks of one append, in order, from 1 to 64 of them: all of them are kept, or none (after Calder et al., SOSP
/// 2011, section 4). Its value is the list of their bytes. Copies share the list, and the digests of the blocks where they
/// are known.
pub struct Group {
    blocks: ArcSlice<Bytes>,
    digests: Digests,
}

// Written out, so that a crate above that lets one go has no proof of what is in it.
impl Drop for Group {
    fn drop(self) {
        let Group {
            blocks: _,
            digests: _,
        } = self;
    }
}

impl Model for Group {
    ghost use Rattle.std.specs.Prelude.{ℕ, List};

    ghost Value = { List (List ℕ) };

    ghost use Rattle.std.specs.Arc.{arc_slice_items};
    ghost use Rattle.block_types.specs.Digests.{AreDigests};
    ghost use Rattle.block_types.specs.Limits.{IsGroup};

    ghost view = { λ g. arc_slice_items g.blocks };

    ghost invariant = { λ g. IsGroup (arc_slice_items g.blocks) × AreDigests (arc_slice_items g.blocks) g.digests };
}

impl Group {
    /// The group of these texts, a block each. It keeps the texts and copies no byte of them.
    ///
    /// It is refused `TooManyBlocks` (6) unless there are 1 to 64 texts, then `BadBlock` (5) unless each has 1 to 65,536
    /// bytes, then `Memory` (22). A refused call drops the texts.
    pub fn new(alloc: Global, texts: Vec<Vec<u8>>) -> Result<Group, GroupFault>
        ensures made { IfOk result (λ g. (g ≡ texts_of texts.items) × IsGroup g) }
        ensures fault { MatchResult result (λ _. group_fault (texts_of texts.items) ≡ None)
            (λ e. ((e ≡ GroupFault.Memory) × (group_fault (texts_of texts.items) ≡ None)) ⊎ (group_fault (texts_of texts.items) ≡ Some e)) }
    {
        if texts.is_empty() || texts.len() > MAX_BLOCKS as usize {
            return Err(GroupFault::TooManyBlocks);
        }
        if any_bad(&texts) {
            return Err(GroupFault::BadBlock);
        }
        Ok(Group::of(blocks_of(alloc, texts)?)?)
    }

    /// The group of these buffers, a block each, which it keeps and does not copy. An error is out of memory (22).
    pub fn of(blocks: Vec<Bytes>) -> Result<Group, AllocError>
        requires { IsGroup blocks.items }
        ensures { IfOk result (λ g. g ≡ blocks.items) }
    {
        Ok(Group {
            blocks: ArcSlice::from_vec(blocks)?,
            digests: Digests::unknown(),
        })
    }

    /// As `of`, where the SHA-256 digest of each block is known already, which it keeps. An error is out of memory (22).
    pub fn of_digests(blocks: Vec<Bytes>, digests: Vec<[u8; 32]>) -> Result<Group, AllocError>
        requires group { IsGroup blocks.items }
        requires digests { digests.items ≡ map sha256 blocks.items }
        ensures { IfOk result (λ g. g ≡ blocks.items) }
    {
        let blocks = ArcSlice::from_vec(blocks)?;
        Ok(Group {
            blocks,
            digests: Digests::of(digests)?,
        })
    }

    /// How many bytes the blocks have together, from 1 to 4,194,304.
    pub fn size(&self) -> u32
        ensures value { result ≡ group_size self.now }
        ensures bound { result ≤ 4194304 }
    {
        let blocks = self.blocks();
        total(blocks)
    }

    /// The group of a list of buffers, a block each. It shares the list: it costs the same for each. An error is out of
    /// memory (22).
    pub fn shared(buffers: &ArcSlice<Bytes>) -> Result<Group, AllocError>
        requires { IsGroup (arc_slice_items buffers.now) }
        ensures { IfOk result (λ g. g ≡ arc_slice_items buffers.now) }
    {
        Ok(Group {
            blocks: buffers.clone()?,
            digests: Digests::unknown(),
        })
    }

    /// The list of its blocks, which it shares: it costs the same for each group. An error is out of memory (22).
    pub fn share(&self) -> Result<ArcSlice<Bytes>, AllocError>
        ensures value { IfOk result (λ list. arc_slice_items list ≡ self.now) }
        ensures fits { IsGroup self.now }
    {
        self.blocks.clone()
    }

    /// The same group again, which shares the list of its blocks: it costs the same for each group. An error is out of
    /// memory (22).
    pub fn copy(&self) -> Result<Group, AllocError>
        ensures { IfOk result (λ g. g ≡ self.now) }
    {
        let blocks = self.blocks.clone()?;
        Ok(Group {
            blocks,
            digests: self.digests.copy()?,
        })
    }

    /// The same group again, which knows the SHA-256 digest of each of its blocks, so that no copy of it computes one again.
    /// An error is out of memory (22).
    pub fn with_digests(&self, alloc: Global) -> Result<Group, AllocError>
        ensures { IfOk result (λ g. g ≡ self.now) }
    {
        if self.digests.are_known() {
            return self.copy();
        }
        let blocks = self.blocks.clone()?;
        let digests = Digests::computed(alloc, &blocks)?;
        Ok(Group { blocks, digests })
    }

    /// The SHA-256 digest of the block at an index: the one that is known, or else it is computed. Takes no memory.
    pub fn digest(&self, index: usize) -> [u8; 32]
        requires { index < length self.now }
        ensures { result ≡ sha256 (get_or self.now index []) }
    {
        match self.digests.get(index) {
            Some(digest) => digest,
            None => Sha256::digest(self.blocks[index].as_slice()),
        }
    }

    /// The blocks in order, from 1 to 64 of them.
    pub fn blocks(&self) -> &[Bytes]
        ensures value { result.now ≡ self.now }
        ensures fits { IsGroup self.now }
    {
        &self.blocks
    }
}

fn any_bad(texts: &[Vec<u8>]) -> bool
    ensures { result ≡ list_any (λ b. length b == 0 || nat_lt 65536 (length b)) (texts_of texts.now) }
{
    for text in texts {
        if text.is_empty() || text.len() > MAX_BLOCK as usize {
            return true;
        }
    }
    false
}

fn blocks_of(alloc: Global, texts: Vec<Vec<u8>>) -> Result<Vec<Bytes>, GroupFault>
    requires { list_any (λ b. length b == 0 || nat_lt 65536 (length b)) (texts_of texts.items) ≡ false }
    ensures made { IfOk result (λ bs. (bs.items ≡ texts_of texts.items) × AllByRecursion IsBlock bs.items) }
    ensures fault { IfErr result (λ e. e ≡ GroupFault.Memory) }
{
    let mut made = Vec::with_capacity(alloc, texts.len())?;
    for text in texts {
        made.push(Bytes::from_vec(text)?)?;
    }
    Ok(made)
}

fn total(blocks: &[Bytes]) -> u32
    requires { IsGroup blocks.now }
    ensures value { result ≡ group_size blocks.now }
    ensures bound { result ≤ 65536 * length blocks.now }
{
    let mut size = 0;
    for block in blocks {
        size += block.len() as u32;
    }
    size
}

/// Groups in order, as an extent has them; there may be none. Its value is the list of their values.
pub struct Groups {
    pub items: Vec<Group>,
}

// Written out, so that a crate above that lets one go has no proof of what is in it.
impl Drop for Groups {
    fn drop(self) {
        let Groups { items: _ } = self;
    }
}

impl Model for Groups {
    ghost use Rattle.std.specs.Prelude.{ℕ, List};

    ghost Value = { List (List (List ℕ)) };

    ghost view = { λ g. g.items.items };
}

impl Groups {
    /// The same groups again, which share their bytes. An error is out of memory (22).
    pub fn copied(alloc: Global, groups: &[Group]) -> Result<Groups, AllocError>
        ensures { IfOk result (λ copied. copied ≡ groups.now) }
    {
        let mut copied = Vec::with_capacity(alloc, groups.len())?;
        for group in groups {
            copied.push(group.copy()?)?;
        }
        Ok(Groups { items: copied })
    }

    /// The groups as a vector, which has their room too.
    pub fn into_vec(self) -> Vec<Group>
        ensures { result.items ≡ self }
    {
        let Groups { items } = self;
        items
    }
}
