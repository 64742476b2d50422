//! What a server keeps of a range.
ghost use Rattle.std.specs.Prelude.{◌≡◌, ◌≤◌, [], None, length, max, IfOk};
ghost use Rattle.client.specs.Load.{open_packet};
ghost use Rattle.model_partition.specs.Loading.{shown_table};
ghost use Rattle.model_partition.specs.declared.pause.Pause.TheVariants as pauses;
ghost use Rattle.model_partition.specs.Range.{RangeState, request, refused_users};
ghost use Rattle.model_partition.specs.RangeSteps.{put};
ghost use Rattle.model_partition.specs.Server.{new_range};
ghost use Rattle.model_partition.specs.Servers.{table_of_view};
ghost use Rattle.range_core.specs.Phases.{phase_of};

use crate::phase::Phase;
use checkpoint::InstalledIndexes;
use client::StreamClient;
use metadata::{IndexRange, Region};
use model_partition::{Pause, RangeContent, ServerContext, Stage, TableView};
use range_commit::Queue;
use range_load::begin_load;
use range_reads::Lookups;
use std::alloc::{AllocError, Global};
use std::marker::Model;
use streams::Position;
use wire::{Fence, Packet, RangeId, StreamExtent, StreamList};

/// A range at a server: the end of its lease, in ticks; its streams, its metadata and its table; the transactions that wait;
/// the end of what was appended to its log; and the Gets that wait.
pub struct RangeState {
    /// The end of its lease, in ticks.
    pub until: u64,
    /// What it takes while it is split or merged.
    pub pause: Pause,
    pub content: RangeContent,
    pub queue: Queue,
    /// The end of what was appended to its log and acknowledged.
    pub position: Position,
    pub lookups: Lookups,
}

// Written out, so that a crate above that lets one go has no proof of what is in it.
impl Drop for RangeState {
    fn drop(self) {
        let RangeState {
            until: _,
            pause: _,
            content: _,
            queue: _,
            position: _,
            lookups: _,
        } = self;
    }
}

impl Model for RangeState {
    ghost use Rattle.model_partition.specs.Range as specs;

    ghost Value = { specs.RangeState };

    ghost view = { λ r. record {
      until = r.until;
      pause = r.pause;
      load = r.content.load;
      stage = r.content.stage;
      metadata = r.content.metadata;
      log = r.content.log;
      rows = r.content.rows;
      blob_data = r.content.blob_data;
      said = r.content.said;
      regions = r.content.regions.items;
      live = r.content.table.live;
      fixed = r.content.table.fixed;
      indexes = r.content.indexes;
      reading = r.content.reading;
      control = r.content.control;
      next = r.queue.next;
      position = r.position;
      queue = r.queue.queue;
      out = r.queue.out;
      gets = r.lookups.gets;
      held = r.lookups.held;
    } };
}

/// The extents that a client knows. A call, since a struct of several direct borrows is none that the check follows.
pub(crate) fn known_extents(client: &StreamClient) -> &[StreamExtent]
    ensures { result.now ≡ client.now.extents }
{
    &client.extents
}

/// The extents of a stream.
pub(crate) fn extents_of(list: &StreamList) -> &[StreamExtent]
    ensures { result.now ≡ list.now.extents }
{
    &list.extents.items
}

/// The indexes that were read. A call, as above.
pub(crate) fn indexes_of(content: &RangeContent) -> &InstalledIndexes
    ensures { result.now ≡ content.now.indexes }
{
    &content.indexes
}

/// The range that is held, and under which generation. A call, as above.
pub(crate) fn held_under(content: &RangeContent) -> (RangeId, Fence)
    ensures { (result.0 ≡ content.now.load.range) × (result.1 ≡ content.now.load.generation) }
{
    (content.load.range, content.load.generation)
}

impl RangeState {
    /// A range of which nothing is known but what a load leaves and what is looked up.
    fn of(alloc: Global, until: u64, content: RangeContent, lookups: Lookups) -> RangeState
        ensures { (r : RangeState) → result ≡ record (put content r) {
          until = until;
          pause = pauses.Off;
          next = 1;
          position = record { index = 0; offset = 0 };
          queue = [];
          out = None;
          gets = lookups.gets;
          held = lookups.held;
        } }
    {
        RangeState {
            until,
            pause: Pause::Off,
            content,
            queue: Queue::new(alloc),
            position: Position {
                index: 0,
                offset: 0,
            },
            lookups,
        }
    }

    /// A range that is loaded under a generation, with the end of its lease, and the packet that opens its streams, which
    /// bears the next number of the server. An error is out of memory (22).
    pub fn assign(
        alloc: Global,
        context: &ServerContext,
        range: RangeId,
        generation: Fence,
        until: u64,
    ) -> Result<(RangeState, Packet), AllocError>
        ensures range { IfOk result (λ x. x.0 ≡ new_range context.now range generation until) }
        ensures packet { IfOk result (λ x. x.1 ≡ open_packet context.now.server range generation (request context.now)) }
    {
        let lookups = Lookups::new(alloc)?;
        let (content, packet) = begin_load(alloc, context, range, generation)?;
        Ok((RangeState::of(alloc, until, content, lookups), packet))
    }

    /// How far it is.
    pub fn phase(&self) -> Phase
        ensures { result ≡ phase_of self.now.stage self.now.pause self.now.control }
    {
        match self.content.stage {
            Stage::Serving => {
                if self.pause.is_paused() {
                    return Phase::Paused;
                }
                match &self.content.control {
                    None => Phase::Serving,
                    Some(_) => Phase::Checkpointing,
                }
            }
            _ => Phase::Loading,
        }
    }

    /// The end of what was appended to its log and acknowledged.
    pub fn position(&self) -> Position
        ensures { result ≡ self.now.position }
    {
        self.position
    }

    /// The number of the next transaction, from 1.
    pub fn next_number(&self) -> u64
        ensures { result ≡ self.now.next }
    {
        self.queue.next()
    }

    /// The indexes that its metadata names now, the newest first.
    pub fn indexes(&self) -> &[IndexRange]
        ensures { result.now ≡ self.now.said.indexes }
    {
        &self.content.said.indexes.items
    }

    /// What it shows once it is loaded.
    pub fn table_view(&self) -> TableView<'_>
        ensures { table_of_view result ≡ shown_table self.now }
    {
        TableView {
            live: self.content.table.live(),
            indexes: &self.content.indexes,
            keys: &self.content.said.keys,
        }
    }

    /// The regions of its log that its metadata names now, in the log's order, each with the number that a load applies next from
    /// its start on. Once the record of a checkpoint stands that is one, without end, at the position that the checkpoint noted.
    pub fn regions(&self) -> &[Region]
        ensures { result.now ≡ self.now.said.regions }
    {
        &self.content.said.regions.items
    }

    /// A lease's end never goes back.
    pub fn renew(&mut self, until: u64)
        ensures { self.new ≡ record self.old { until = max self.old.until until } }
    {
        self.until = self.until.max(until);
    }

    /// What those who wait are told where the range goes: that this server does not hold it (30). First the transactions,
    /// those that are being appended before the others, then the Gets, at most 1,280 packets. An error is out of memory (22).
    pub fn refusals(
        &self,
        alloc: Global,
        context: &ServerContext,
    ) -> Result<Vec<Packet>, AllocError>
        ensures packets { IfOk result (λ packets. packets.items ≡ refused_users context.now self.now) }
        ensures few { IfOk result (λ packets. length packets.items ≤ 1280) }
    {
        let mut packets = self.queue.refusals(alloc, context)?;
        let mut others = self.lookups.refusals(alloc, context)?;
        packets.append(&mut others)?;
        Ok(packets)
    }
}
