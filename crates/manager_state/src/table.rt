//! The table of streams and extents.
ghost use Rattle.std.specs.Prelude.{◌≡◌, ◌<◌, suc, not, length, Some, IfOk, OnOk, OnErr};
ghost use Rattle.std.specs.BTreeMap.{get};
ghost use Rattle.std.specs.Ordering.{nat_cmp};
ghost use Rattle.streams.specs.Streams.{stream_of, modified, modify_fault};
ghost use Rattle.streams.specs.Table.{HasRoom};
ghost use Rattle.model_streams.specs.Manager.{is_pick, is_there};
ghost use Rattle.model_streams.specs.Maps.{entry_at};
ghost use Rattle.manager_state.specs.Table.{plain, first_table, with_entry, table_after, table_fits, sealed_at, longer, lengthened_if, unasked_if, with_room, without_room, may_lengthen, lengthens, HasRoomFor, AreBuilt};

use crate::entry::ExtentEntry;
use crate::lengthening::{first_streams, lengthen, reserve_extent};
use crate::trimming::loses_extents;
use block_types::Nodes;
use model_streams::{Extent, ManagerRecord};
use std::alloc::{AllocError, Global};
use std::collections::BTreeMap;
use std::marker::Model;
use streams::{StreamFault, StreamTable};
use wire::{ExtentId, Fence, Modify, StreamName};

/// The streams by name, and the extents, numbered from 1 over all streams (after Calder et al., SOSP 2011, section 4). The
/// length of a sealed extent stands in one place, the map of lengths.
pub struct ManagerTable {
    nodes: u8,
    target: u32,
    streams: StreamTable,
    /// The streams that a record is to add, from before it is written until they stand among the others.
    built: Option<StreamTable>,
    entries: Vec<ExtentEntry>,
    lengths: BTreeMap<ExtentId, u32>,
}

// Written out, so that a crate above that lets one go has no proof of what is in it.
impl Drop for ManagerTable {
    fn drop(self) {
        let ManagerTable {
            nodes: _,
            target: _,
            streams: _,
            built: _,
            entries: _,
            lengths: _,
        } = self;
    }
}

impl Model for ManagerTable {
    ghost use Rattle.std.specs.Prelude.{◌-◌, vec_capacity, vec_len};
    ghost use Rattle.std.specs.BTreeMap.{get};
    ghost use Rattle.std.specs.Ordering.{nat_cmp};
    ghost use Rattle.manager_state.specs.Extents.{extents_from, HaveLengths};
    ghost use Rattle.manager_state.specs.Table.{ManagerTableValue};

    ghost Value = { ManagerTableValue };

    ghost view = { λ t. record {
      nodes = t.nodes;
      target = t.target;
      streams = t.streams;
      built = t.built;
      extents = extents_from 1 t.entries.items (get nat_cmp t.lengths);
      room = vec_capacity t.entries - vec_len t.entries;
    } };

    ghost invariant = { λ t. HaveLengths t.entries.items (get nat_cmp t.lengths) };
}

/// The entry of a number, if there is one.
fn entry_at(entries: &[ExtentEntry], extent: u64) -> Option<ExtentEntry>
    ensures { result ≡ entry_at entries.now extent }
{
    if extent == 0 {
        return None;
    }
    entries.get((extent - 1) as usize).copied()
}

impl ManagerTable {
    /// The first table: it knows the nodes from 1 to this one, extents are made with this target in bytes, and range 1 has
    /// four streams without an extent. An error is out of memory.
    pub fn new(alloc: Global, nodes: u8, target: u32) -> Result<ManagerTable, AllocError>
        ensures { IfOk result (λ table. plain table ≡ first_table nodes target) }
    {
        let streams = first_streams(alloc)?;
        Ok(ManagerTable {
            nodes,
            target,
            streams,
            built: None,
            entries: Vec::new(alloc),
            lengths: BTreeMap::new(alloc),
        })
    }

    /// How many nodes it knows: those from 1 to this number.
    pub fn nodes(&self) -> u8
        ensures { result ≡ self.now.nodes }
    {
        self.nodes
    }

    /// The target of each extent that is made, in bytes.
    pub fn target(&self) -> u32
        ensures { result ≡ self.now.target }
    {
        self.target
    }

    /// The streams by name.
    pub fn streams(&self) -> &StreamTable
        ensures { result.now ≡ self.now.streams }
    {
        &self.streams
    }

    /// The number of the next extent.
    pub fn next(&self) -> u64
        ensures { result ≡ suc (length self.now.extents) }
    {
        self.entries.len() as u64 + 1
    }

    /// The extent of a number, if there is one.
    pub fn entry(&self, extent: u64) -> Option<Extent>
        ensures { result ≡ entry_at self.now.extents extent }
    {
        match entry_at(&self.entries, extent) {
            None => None,
            Some(entry) => {
                let sealed = self.lengths.get(&ExtentId(extent)).copied();
                Some(entry.with_length(sealed))
            }
        }
    }

    /// The lengths of the extents that are sealed, in bytes.
    pub fn lengths(&self) -> &BTreeMap<ExtentId, u32>
        ensures { get nat_cmp result.now ≡ sealed_at self.now.extents }
    {
        &self.lengths
    }

    /// Whether these are three different nodes that the manager knows.
    pub fn is_pick(&self, pick: &Nodes) -> bool
        ensures { result ≡ is_pick self.now.nodes pick.now }
    {
        pick.are_distinct_nodes()
            && pick.primary <= self.nodes
            && pick.second <= self.nodes
            && pick.third <= self.nodes
    }

    /// Whether an extent has its length, where there is one to test.
    fn may_lengthen(&self, last: Option<ExtentId>) -> bool
        ensures { result ≡ may_lengthen self.now.extents last }
    {
        match last {
            None => true,
            Some(extent) => match self.entry(extent.0) {
                None => false,
                Some(entry) => entry.sealed.is_some(),
            },
        }
    }

    fn lengthens(&self, stream: &StreamName, generation: Fence) -> bool
        ensures { result ≡ lengthens self.now.extents generation (stream_of (plain self.now).streams stream.now) }
    {
        match self.streams.stream(stream) {
            None => false,
            Some(listed) => { generation == listed.fence && self.may_lengthen(listed.last()) }
        }
    }

    /// Whether the streams of a list may be built. An error is out of memory.
    fn may_modify(&self, list: &[Modify]) -> Result<bool, AllocError>
        ensures { IfOk result (λ may. may ≡ not (is_there (modify_fault (sealed_at self.now.extents) (plain self.now).streams list.now))) }
    {
        match self.streams.modifying(list, self.lengths()) {
            Ok(_built) => Ok(true),
            Err(StreamFault::Memory) => Err(AllocError),
            Err(_fault) => Ok(false),
        }
    }

    /// Whether a record may be written where the table is this. An error is out of memory.
    pub(crate) fn fits(&self, new_record: &ManagerRecord) -> Result<bool, AllocError>
        ensures { IfOk result (λ fits. fits ≡ table_fits (plain self.now) new_record.now) }
    {
        match new_record {
            ManagerRecord::First {
                nodes: _,
                target: _,
            } => Ok(false),
            ManagerRecord::CreateStream { stream, fence: _ } => {
                Ok(self.streams.stream(stream).is_none())
            }
            ManagerRecord::OpenStreams { range, generation } => {
                Ok(self.streams.opening(*range, *generation).is_ok())
            }
            ManagerRecord::Extend {
                stream,
                generation,
                pick,
            } => Ok(self.is_pick(pick) && self.lengthens(stream, *generation)),
            ManagerRecord::Seal { extent, length: _ } => match self.entry(extent.0) {
                None => Ok(false),
                Some(entry) => Ok(entry.sealed.is_none()),
            },
            ManagerRecord::Trim {
                range,
                before,
                to_blob: _,
            } => Ok(loses_extents(&self.streams, *range, *before)),
            ManagerRecord::MultiModify { list } => self.may_modify(&list.items),
        }
    }

    /// Puts what the places of an extent have told, and who asked, in place of what was known, where there is the extent of
    /// this number. Its length stays.
    pub fn replace(&mut self, extent: u64, entry: Extent)
        ensures { plain self.new ≡ with_entry (plain self.old) extent (record entry { sealed = sealed_at self.old.extents extent }) }
    {
        if extent == 0 {
            return;
        }
        let index = (extent - 1) as usize;
        if index < self.entries.len() {
            self.entries[index] = ExtentEntry::of(&entry);
        }
    }

    /// Forgets who asked for the seal of an extent, where there is one.
    fn forget_asker(&mut self, extent: ExtentId)
        ensures { plain self.new ≡ unasked_if (plain self.old) extent (entry_at self.old.extents extent) }
    {
        match self.entry(extent.0) {
            None => {}
            Some(entry) => {
                let mut unasked = entry;
                unasked.asker = None;
                self.replace(extent.0, unasked);
            }
        }
    }

    /// One more extent at the end of a stream, where there is the stream, into room that was made.
    fn lengthen(&mut self, stream: &StreamName, pick: Nodes)
        requires extents { 0 < self.old.room }
        requires stream { HasRoom self.old.streams stream.now }
        ensures { plain self.new ≡ longer (plain self.old) stream.now pick }
    {
        lengthen(&mut self.entries, &mut self.streams, stream, pick);
    }

    /// Gives an extent a length, where there is the extent. Without memory nothing has changed.
    fn set_length(&mut self, extent: ExtentId, length: u32) -> Result<(), AllocError>
        ensures ok { OnOk result (plain self.new ≡ lengthened_if (plain self.old) extent (entry_at self.old.extents extent) (Some length)) }
        ensures err { OnErr result (plain self.new ≡ plain self.old) }
    {
        if self.entry(extent.0).is_none() {
            return Ok(());
        }
        self.lengths.insert(extent, length)?;
        Ok(())
    }

    /// Takes the length of an extent out.
    fn remove_length(&mut self, extent: ExtentId)
        ensures { plain self.new ≡ lengthened_if (plain self.old) extent (entry_at self.old.extents extent) None }
    {
        self.lengths.remove(&extent);
    }

    /// Builds the streams of a list beside the table, and makes room for them. Without memory nothing has changed but room.
    fn reserve_built(&mut self, list: &[Modify]) -> Result<(), AllocError>
        ensures same { plain self.new ≡ plain self.old }
        ensures room { OnOk result (AreBuilt self.new.streams self.new.built list.now) }
    {
        let built = self.streams.build(list)?;
        self.streams.reserve_built(&built)?;
        self.built = Some(built);
        Ok(())
    }

    /// Puts the streams of a list, which are built, among the others.
    fn add_built(&mut self, list: &[Modify])
        requires { AreBuilt self.old.streams self.old.built list.now }
        ensures { plain self.new ≡ record (plain self.old) { streams = modified (plain self.old).streams list.now } }
    {
        // Read for its clause alone.
        let _list = list;
        if let Some(built) = self.built.take() {
            let mut built = built;
            self.streams.put_built(&mut built);
        }
    }

    /// Makes room for what a record adds. Streams are built beside the table. The room for a length is the length itself: it stands from here on, and `release`
    /// takes it out where the record was not written. Without memory nothing has changed but room.
    pub fn reserve(&mut self, new_record: &ManagerRecord) -> Result<(), AllocError>
        ensures ok { OnOk result (plain self.new ≡ with_room (plain self.old) new_record.now) }
        ensures room { OnOk result (HasRoomFor self.new new_record.now) }
        ensures err { OnErr result (plain self.new ≡ plain self.old) }
    {
        match new_record {
            ManagerRecord::First { .. } => Ok(()),
            ManagerRecord::CreateStream { .. } => self.streams.reserve(),
            ManagerRecord::OpenStreams { .. } => Ok(()),
            ManagerRecord::Extend { stream, .. } => {
                reserve_extent(&mut self.entries, &mut self.streams, stream)
            }
            ManagerRecord::Seal { extent, length } => self.set_length(*extent, *length),
            ManagerRecord::Trim {
                range,
                before,
                to_blob,
            } => self.streams.reserve_trim(*range, *before, *to_blob),
            ManagerRecord::MultiModify { list } => self.reserve_built(&list.items),
        }
    }

    /// Gives back what was made ready for a record that was not written: an extent that was to be sealed is open, and no stream
    /// is built.
    pub fn release(&mut self, new_record: &ManagerRecord)
        ensures { plain self.new ≡ without_room (plain self.old) new_record.now }
    {
        match new_record {
            ManagerRecord::Seal { extent, .. } => self.remove_length(*extent),
            ManagerRecord::MultiModify { .. } => self.built = None,
            _ => {}
        }
    }

    /// Does what a record that stands makes of it, in room that was made.
    pub fn apply(&mut self, new_record: &ManagerRecord)
        requires { HasRoomFor self.old new_record.now }
        ensures { plain self.new ≡ table_after (plain self.old) new_record.now }
    {
        match new_record {
            ManagerRecord::First { .. } => {}
            ManagerRecord::CreateStream { stream, fence } => self.streams.put(stream, *fence),
            ManagerRecord::OpenStreams { range, generation } => {
                self.streams.raise(*range, *generation)
            }
            ManagerRecord::Extend { stream, pick, .. } => self.lengthen(stream, *pick),
            ManagerRecord::Seal { extent, .. } => self.forget_asker(*extent),
            ManagerRecord::Trim {
                range,
                before,
                to_blob,
            } => self.streams.cut(*range, *before, *to_blob),
            ManagerRecord::MultiModify { list } => self.add_built(&list.items),
        }
    }
}
