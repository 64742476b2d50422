//! Streams by name.
ghost use Rattle.std.specs.Prelude.{◌≡◌, ◌≢◌, ◌<◌, Ok, None, Some, OnOk, OnErr, IfOk, IfErr, IsErrOf, option_map};
ghost use Rattle.std.specs.BTreeMap.{get};
ghost use Rattle.std.specs.Ordering.{nat_cmp};
ghost use Rattle.streams.specs.Streams.{stream_of, with_stream, kind_number, create_fault, created, open_fault, opened, confirm_fault, behind, extending, extended, located};
ghost use Rattle.streams.specs.Table.{no_streams, streams_of, fences_of, HasRoom};
ghost use Rattle.streams.specs.Faults.{refusal_of, refusal_in, with_refusal};

use crate::entries::{find, push_extent, put, raise, reserve_extent};
use crate::fault::StreamFault;
use crate::fences::Fences;
use crate::listed::Listed;
use std::alloc::{AllocError, Global};
use std::collections::BTreeMap;
use std::marker::Model;
use wire::{ExtentId, Fence, RangeId, StreamKind, StreamName};

/// A place in a stream: the index of an extent, and an offset in it in bytes.
#[derive(Clone, Copy, PartialEq, Eq)]
pub struct Position {
    pub index: u64,
    pub offset: u32,
}

/// Streams by name, in the order of ranges and kinds. To find one takes a search.
pub struct StreamTable {
    pub(crate) alloc: Global,
    pub(crate) entries: Vec<Listed>,
}

// Written out, so that a crate above that lets one go has no proof of what is in it.
impl Drop for StreamTable {
    fn drop(self) {
        let StreamTable {
            alloc: _,
            entries: _,
        } = self;
    }
}

impl Model for StreamTable {
    ghost use Rattle.std.specs.Prelude.{◌-◌, vec_capacity, vec_len};
    ghost use Rattle.streams.specs.Table.{StreamTableState, IsStrictlySorted};

    ghost Value = { StreamTableState };

    ghost view = { λ t. record {
      entries = t.entries.items;
      room = vec_capacity t.entries - vec_len t.entries;
    } };

    ghost invariant = { λ t. IsStrictlySorted t.entries.items };
}

/// What stands after the last extent of a stream, for a caller that takes `last` for it.
fn behind(
    end: Option<ExtentId>,
    last: Option<ExtentId>,
    sealed: &BTreeMap<ExtentId, u32>,
) -> Result<Option<ExtentId>, StreamFault>
    ensures { with_refusal result ≡ behind (get nat_cmp sealed.now) end last }
{
    match end {
        None => Ok(None),
        Some(end) => {
            if last != Some(end) {
                return Ok(Some(end));
            }
            match sealed.get(&end) {
                None => Err(StreamFault::LastOpen),
                Some(_) => Ok(None),
            }
        }
    }
}

impl StreamTable {
    /// No stream; takes no memory.
    pub fn new(alloc: Global) -> StreamTable
        ensures { streams_of result ≡ no_streams }
    {
        StreamTable {
            alloc,
            entries: Vec::new(alloc),
        }
    }

    /// The stream of a name, if there is one; takes no memory.
    pub fn stream<'a>(&'a self, name: &StreamName) -> Option<&'a Listed>
        ensures { option_map (λ x. x.now.stream) result ≡ stream_of (streams_of self.now) name.now }
    {
        find(&self.entries, name)
    }

    /// Makes room for one more stream. Without memory nothing has changed but room.
    pub fn reserve(&mut self) -> Result<(), AllocError>
        ensures same { streams_of self.new ≡ streams_of self.old }
        ensures room { OnOk result (0 < self.new.room) }
    {
        self.entries.reserve(1)
    }

    /// Puts a stream without an extent under a name, into room that was made. It takes the place of the one that there was.
    pub fn put(&mut self, name: &StreamName, fence: Fence)
        requires { 0 < self.old.room }
        ensures { streams_of self.new ≡ created (streams_of self.old) name.now fence }
    {
        self.put_listed(Listed::new(self.alloc, *name, fence));
    }

    /// Puts a stream under its name, into room that was made. It takes the place of the one that there was.
    pub(crate) fn put_listed(&mut self, listed: Listed)
        requires { 0 < self.old.room }
        ensures { streams_of self.new ≡ with_stream (streams_of self.old) listed.name listed.stream }
    {
        put(&mut self.entries, listed);
    }

    /// Makes a stream without an extent. 12: there is a stream of this name. 22: no memory. After both nothing has changed.
    pub fn create(&mut self, name: &StreamName, fence: Fence) -> Result<(), StreamFault>
        ensures ok { OnOk result (streams_of self.new ≡ created (streams_of self.old) name.now fence) }
        ensures same { OnErr result (streams_of self.new ≡ streams_of self.old) }
        ensures free { OnOk result (create_fault (streams_of self.old) name.now ≡ None) }
        ensures refused { IfErr result (λ e. e ≢ StreamFault.Memory → create_fault (streams_of self.old) name.now ≡ Some (refusal_of e)) }
        ensures memory { IsErrOf result StreamFault.Memory → create_fault (streams_of self.old) name.now ≡ None }
    {
        if self.stream(name).is_some() {
            return Err(StreamFault::NameTaken);
        }
        if let Err(_full) = self.reserve() {
            return Err(StreamFault::Memory);
        }
        self.put(name, fence);
        Ok(())
    }

    /// The fence of a stream, if there is one.
    fn fence_of(&self, range: RangeId, kind: StreamKind) -> Option<Fence>
        ensures { result ≡ option_map (λ x. x.fence) (streams_of self.now range (kind_number kind)) }
    {
        match self.stream(&StreamName { range, kind }) {
            None => None,
            Some(listed) => Some(listed.fence),
        }
    }

    /// The fences of the four streams of a range, if there are the four.
    fn fences_of(&self, range: RangeId) -> Option<Fences>
        ensures { result ≡ fences_of (streams_of self.now) range }
    {
        let metadata = self.fence_of(range, StreamKind::Metadata)?;
        let log = self.fence_of(range, StreamKind::Log)?;
        let row_data = self.fence_of(range, StreamKind::RowData)?;
        let blob_data = self.fence_of(range, StreamKind::BlobData)?;
        Some(Fences {
            metadata,
            log,
            row_data,
            blob_data,
        })
    }

    /// Whether a generation may open the four streams of a range; takes no memory. 11: one of the four is missing. 3: the
    /// generation is not above each of their fences.
    pub fn opening(&self, range: RangeId, generation: Fence) -> Result<(), StreamFault>
        ensures { refusal_in result ≡ open_fault (streams_of self.now) range generation }
    {
        match self.fences_of(range) {
            None => Err(StreamFault::NoSuchStream),
            Some(fences) => {
                if fences.are_below(generation) {
                    Ok(())
                } else {
                    Err(StreamFault::Stale)
                }
            }
        }
    }

    /// Gives those of the four streams of a range that there are another fence; takes no memory.
    pub fn raise(&mut self, range: RangeId, generation: Fence)
        ensures { streams_of self.new ≡ opened (streams_of self.old) range generation }
    {
        raise(&mut self.entries, range, generation);
    }

    /// Opens the four streams of a range for a generation, which all their fences become; takes no memory. 11: one of the
    /// four is missing. 3: the generation is not above each of their fences. After both nothing has changed.
    pub fn open(&mut self, range: RangeId, generation: Fence) -> Result<(), StreamFault>
        ensures ok { OnOk result (streams_of self.new ≡ opened (streams_of self.old) range generation) }
        ensures same { OnErr result (self.new ≡ self.old) }
        ensures fault { refusal_in result ≡ open_fault (streams_of self.old) range generation }
    {
        match self.opening(range, generation) {
            Ok(()) => {
                self.raise(range, generation);
                Ok(())
            }
            Err(fault) => Err(fault),
        }
    }

    /// Whether a generation is the fence of the four streams of a range; takes no memory. 11: one of the four is missing.
    /// 3: it is not.
    pub fn confirm(&self, range: RangeId, generation: Fence) -> Result<(), StreamFault>
        ensures { refusal_in result ≡ confirm_fault (streams_of self.now) range generation }
    {
        match self.fences_of(range) {
            None => Err(StreamFault::NoSuchStream),
            Some(fences) => {
                if fences.are(generation) {
                    Ok(())
                } else {
                    Err(StreamFault::Stale)
                }
            }
        }
    }

    /// What the end of a stream answers to a generation that takes `last` for its last extent; takes no memory. `sealed` has
    /// the lengths of the extents that are sealed. None: one more extent may stand there. An extent: it is the last one,
    /// another than `last`. 11: there is no stream of this name. 3: the generation is not its fence. 13: the last extent is
    /// open.
    pub fn extending(
        &self,
        name: &StreamName,
        generation: Fence,
        last: Option<ExtentId>,
        sealed: &BTreeMap<ExtentId, u32>,
    ) -> Result<Option<ExtentId>, StreamFault>
        ensures { with_refusal result ≡ extending (get nat_cmp sealed.now) (stream_of (streams_of self.now) name.now) generation last }
    {
        match self.stream(name) {
            None => Err(StreamFault::NoSuchStream),
            Some(listed) => {
                if generation == listed.fence {
                    behind(listed.last(), last, sealed)
                } else {
                    Err(StreamFault::Stale)
                }
            }
        }
    }

    /// Makes room for one more extent at the end of a stream, where there is the stream. Without memory nothing has changed
    /// but room.
    pub fn reserve_extent(&mut self, name: &StreamName) -> Result<(), AllocError>
        ensures same { streams_of self.new ≡ streams_of self.old }
        ensures room { OnOk result (HasRoom self.new name.now) }
    {
        reserve_extent(&mut self.entries, name)
    }

    /// Adds an extent at the end of a stream, where there is the stream, into room that was made.
    pub fn push_extent(&mut self, name: &StreamName, extent: ExtentId)
        requires { HasRoom self.old name.now }
        ensures { streams_of self.new ≡ extended (streams_of self.old) name.now extent }
    {
        push_extent(&mut self.entries, name, extent);
    }

    /// Adds an extent at the end of a stream, for a generation that takes `last` for its last extent. `sealed` has the
    /// lengths of the extents that are sealed. None: it stands there. An extent: it is the last one, another than `last`, and
    /// nothing has changed. 11: there is no stream of this name. 3: the generation is not its fence. 13: the last extent is
    /// open. 22: no memory. After all four nothing has changed.
    pub fn extend(
        &mut self,
        name: &StreamName,
        generation: Fence,
        last: Option<ExtentId>,
        sealed: &BTreeMap<ExtentId, u32>,
        extent: ExtentId,
    ) -> Result<Option<ExtentId>, StreamFault>
        ensures answer { IfOk result (λ x. extending (get nat_cmp sealed.now) (stream_of (streams_of self.old) name.now) generation last ≡ Ok x) }
        ensures added { result ≡ Ok None → streams_of self.new ≡ extended (streams_of self.old) name.now extent }
        ensures same { result ≢ Ok None → streams_of self.new ≡ streams_of self.old }
        ensures refused { IfErr result (λ e. e ≢ StreamFault.Memory
            → extending (get nat_cmp sealed.now) (stream_of (streams_of self.old) name.now) generation last ≡ Err (refusal_of e)) }
        ensures memory { IsErrOf result StreamFault.Memory
            → extending (get nat_cmp sealed.now) (stream_of (streams_of self.old) name.now) generation last ≡ Ok None }
    {
        match self.extending(name, generation, last, sealed) {
            Err(fault) => Err(fault),
            Ok(Some(end)) => Ok(Some(end)),
            Ok(None) => {
                if let Err(_full) = self.reserve_extent(name) {
                    return Err(StreamFault::Memory);
                }
                self.push_extent(name, extent);
                Ok(None)
            }
        }
    }

    /// The extent of an index, with the offset in it; none where there is no such stream, or no such index in it. Takes no
    /// memory.
    pub fn locate(&self, name: &StreamName, at: Position) -> Option<(ExtentId, u32)>
        ensures { result ≡ located (stream_of (streams_of self.now) name.now) at.index at.offset }
    {
        match self.stream(name) {
            None => None,
            Some(listed) => match listed.at(at.index) {
                None => None,
                Some(extent) => Some((extent, at.offset)),
            },
        }
    }
}
