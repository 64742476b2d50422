//! One stream.
ghost use Rattle.std.specs.Prelude.{◌≡◌, ◌<◌, ◌≤◌, length, OnOk, OnErr, IfOk};
ghost use Rattle.std.specs.BTreeMap.{get};
ghost use Rattle.std.specs.Ordering.{nat_cmp};
ghost use Rattle.streams.specs.Faults.{with_refusal};
ghost use Rattle.streams.specs.Streams.{empty_stream, base_of, last_of, longer, at_index, trim_of_log, leaving, shorter, with_extents, is_unsealed};
ghost use Rattle.streams.specs.Table.{key_of, with_gone};

use crate::fault::StreamFault;
use std::alloc::{AllocError, Global};
use std::collections::BTreeMap;
use std::marker::Model;
use wire::{ExtentId, Fence, StreamKind, StreamName};

/// A stream: its fence, and its extents in order.
pub struct Listed {
    name: StreamName,
    /// How many extents have left it at the front.
    left: usize,
    /// The generation that it listens to.
    pub fence: Fence,
    /// Its extents in order, those that have left it first, so that one that leaves takes no memory.
    extents: Vec<ExtentId>,
}

// Written out, so that a crate above that lets one go has no proof of what is in it.
impl Drop for Listed {
    fn drop(self) {
        let Listed {
            name: _,
            left: _,
            fence: _,
            extents: _,
        } = self;
    }
}

impl Model for Listed {
    ghost use Rattle.std.specs.Prelude.{◌-◌, ◌≤◌, take, drop, vec_capacity, vec_len};
    ghost use Rattle.streams.specs.Table.{Entry};

    ghost Value = { Entry };

    ghost view = { λ x. record {
      name = x.name;
      stream = record { gone = take x.left x.extents.items; fence = x.fence; extents = drop x.left x.extents.items };
      room = vec_capacity x.extents - vec_len x.extents;
    } };

    ghost invariant = { λ x. x.left ≤ vec_len x.extents };
}

/// The place of a name in the order of names.
pub(crate) fn key_of(name: StreamName) -> u128
    ensures { result ≡ key_of name }
{
    let range = name.range.0 as u128;
    match name.kind {
        StreamKind::Metadata => range * 4,
        StreamKind::Log => range * 4 + 1,
        StreamKind::RowData => range * 4 + 2,
        StreamKind::BlobData => range * 4 + 3,
    }
}

impl Listed {
    /// A stream without an extent; takes no memory.
    pub(crate) fn new(alloc: Global, name: StreamName, fence: Fence) -> Listed
        ensures name { result.name ≡ name }
        ensures stream { result.stream ≡ empty_stream fence }
    {
        Listed {
            name,
            left: 0,
            fence,
            extents: Vec::new(alloc),
        }
    }

    /// A stream without an extent that these have left. Err: no memory.
    pub(crate) fn after(
        alloc: Global,
        name: StreamName,
        fence: Fence,
        gone: &[ExtentId],
    ) -> Result<Listed, AllocError>
        ensures name { IfOk result (λ x. x.name ≡ name) }
        ensures stream { IfOk result (λ x. x.stream ≡ with_gone gone.now (empty_stream fence)) }
    {
        let mut extents = Vec::new(alloc);
        extents.extend_from_slice(gone)?;
        Ok(Listed {
            name,
            left: gone.len(),
            fence,
            extents,
        })
    }

    /// Its name.
    pub(crate) fn name(&self) -> &StreamName
        ensures { result.now ≡ self.now.name }
    {
        &self.name
    }

    /// The place of its name in the order of names.
    pub(crate) fn key(&self) -> u128
        ensures { result ≡ key_of self.now.name }
    {
        key_of(self.name)
    }

    /// The index of its first extent: how many have left it at the front.
    pub fn base(&self) -> u64
        ensures { result ≡ base_of self.now.stream }
    {
        self.left as u64
    }

    /// Its extents, in order.
    pub fn extents(&self) -> &[ExtentId]
        ensures { result.now ≡ self.now.stream.extents }
    {
        &self.extents[self.left..]
    }

    /// Its last extent, if it has one.
    pub fn last(&self) -> Option<ExtentId>
        ensures { result ≡ last_of self.now.stream.extents }
    {
        self.extents().last().copied()
    }

    /// The extent of an index.
    pub(crate) fn at(&self, index: u64) -> Option<ExtentId>
        ensures { result ≡ at_index self.now.stream index }
    {
        if index < self.base() {
            return None;
        }
        self.extents().get((index - self.base()) as usize).copied()
    }

    /// Listens to another generation.
    pub(crate) fn set_fence(&mut self, fence: Fence)
        ensures { self.new ≡ record self.old { stream = record self.old.stream { fence = fence } } }
    {
        self.fence = fence;
    }

    /// Those that have left it at the front, in order.
    pub(crate) fn gone(&self) -> &[ExtentId]
        ensures { result.now ≡ self.now.stream.gone }
    {
        &self.extents[..self.left]
    }

    /// Its extents below an index, in order.
    pub(crate) fn leaving(&self, before: u64) -> &[ExtentId]
        ensures { result.now ≡ leaving before self.now.stream }
    {
        let extents = self.extents();
        let count = before.saturating_sub(self.base());
        &extents[..count.min(extents.len() as u64) as usize]
    }

    /// Whether it loses its extents below an index to a generation. 3: the generation is not its fence. 13: the last one would
    /// leave.
    pub(crate) fn trimming(&self, generation: Fence, before: u64) -> Result<bool, StreamFault>
        ensures { with_refusal result ≡ trim_of_log self.now.stream generation before }
    {
        if self.fence != generation {
            return Err(StreamFault::Stale);
        }
        if before <= self.base() {
            return Ok(false);
        }
        if before < self.extents.len() as u64 {
            Ok(true)
        } else {
            Err(StreamFault::LastOpen)
        }
    }

    /// Makes room for so many more extents. Without memory nothing has changed but room.
    pub(crate) fn reserve(&mut self, count: usize) -> Result<(), AllocError>
        ensures name { self.new.name ≡ self.old.name }
        ensures stream { self.new.stream ≡ self.old.stream }
        ensures room { OnOk result (count ≤ self.new.room) }
    {
        self.extents.reserve(count)
    }

    /// Adds an extent at the end, into room that was made.
    pub(crate) fn push(&mut self, extent: ExtentId)
        requires { 0 < self.old.room }
        ensures name { self.new.name ≡ self.old.name }
        ensures stream { self.new.stream ≡ longer extent self.old.stream }
    {
        self.extents.push_reserved(extent);
    }

    /// Adds extents at the end, into room that was made.
    pub(crate) fn extend(&mut self, extents: &[ExtentId])
        requires { length extents.now ≤ self.old.room }
        ensures name { self.new.name ≡ self.old.name }
        ensures stream { self.new.stream ≡ with_extents extents.now self.old.stream }
    {
        // It does not fail: there is room.
        let _room_was_made = self.extents.extend_from_slice(extents);
    }

    /// Adds extents at the end. Without memory nothing has changed but room.
    pub(crate) fn join(&mut self, extents: &[ExtentId]) -> Result<(), AllocError>
        ensures name { self.new.name ≡ self.old.name }
        ensures stream { OnOk result (self.new.stream ≡ with_extents extents.now self.old.stream) }
        ensures same { OnErr result (self.new.stream ≡ self.old.stream) }
    {
        self.extents.extend_from_slice(extents)
    }

    /// Whether its last extent is open, where it has one. `sealed` has the lengths of the extents that are sealed.
    pub(crate) fn is_open(&self, sealed: &BTreeMap<ExtentId, u32>) -> bool
        ensures { result ≡ is_unsealed (get nat_cmp sealed.now) (last_of self.now.stream.extents) }
    {
        match self.last() {
            None => false,
            Some(last) => sealed.get(&last).is_none(),
        }
    }

    /// Lets its extents below an index leave it at the front.
    pub(crate) fn cut(&mut self, before: u64)
        ensures name { self.new.name ≡ self.old.name }
        ensures stream { self.new.stream ≡ shorter before self.old.stream }
    {
        self.left = before.min(self.extents.len() as u64) as usize;
    }
}
