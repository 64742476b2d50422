//! Answers to the client of the log while the range is served.
ghost use Rattle.std.specs.Prelude.{◌≡◌, ℕ, ◌<◌, ◌≤◌, ◌+◌, ◌-◌, ◌^◌, ◌++◌, ◌&&◌, true, false, length, vec_len, vec_capacity, None, is_some, option_to_list, IfOk, IfSome, IfNone, OnOk, OnErr};
ghost use Rattle.memtable.specs.Entries.{put_all};
ghost use Rattle.client.specs.Client.{needs_memory};
ghost use Rattle.model_partition.specs.Range.{is_serving, picking, request};
ghost use Rattle.model_partition.specs.Loading.{are_counted};
ghost use Rattle.model_partition.specs.Answering.{is_taken, log_taken, may_stand};
ghost use Rattle.model_partition.specs.Serving.{log_done};
ghost use Rattle.range_commit.specs.Queue.{changes_out, committed_out, dones_out, size_out};
ghost use Rattle.range_core.specs.Replies.{IsAppended, IsAwaited, is_end_of, is_stale, reaction, taking};
ghost use Rattle.range_core.specs.Steps.{outcome, IsShort};

use crate::forming::{Begun, count_of_notes, next_group};
use crate::range_step::{RangeStep, append_reserved, push_some};
use crate::state::RangeState;
use client::{Job, StreamClient};
use model_partition::{ServerContext, TableNote, take_answer};
use std::alloc::{AllocError, Global};
use streams::Position;
use wire::{AppendBody, Body, ExtentId, Packet, Refusal};

/// What is told of a group that stands.
#[derive(Drop)]
struct Told {
    packets: Vec<Packet>,
    notes: Vec<TableNote>,
}

/// What a group that stands brings, and then what the next one does.
fn joined(told: Told, begun: Begun, count: u64) -> RangeStep
    requires few { (length told.packets.items ≤ 1024) × (length told.notes.items ≤ 1024) }
    requires room { (vec_len told.packets + 1 ≤ vec_capacity told.packets) × (vec_len told.notes + vec_len begun.notes ≤ vec_capacity told.notes) }
    requires more { length begun.notes.items ≤ 1024 }
    ensures value { result ≡ record { dropped = false; count = count; packets = told.packets.items ++ option_to_list begun.packet; notes = told.notes.items ++ begun.notes.items } }
    ensures short { IsShort result }
{
    let Told {
        mut packets,
        mut notes,
    } = told;
    let Begun {
        packet,
        notes: more,
    } = begun;
    push_some(&mut packets, packet);
    append_reserved(&mut notes, more);
    RangeStep {
        dropped: false,
        count,
        packets,
        notes,
    }
}

/// Whether the indexes of the log's extents fit 64 bits.
fn is_counted(log: &StreamClient) -> bool
    ensures { result ≡ are_counted log.now }
{
    let count = log.extents.len() as u64;
    log.base.checked_add(count).is_some()
}

/// Whether the generation is refused as an old one.
fn is_stale(body: &Body) -> bool
    ensures { result ≡ is_stale body.now }
{
    match body {
        Body::Append(AppendBody::Refused { refusal, .. }) => match refusal {
            Refusal::Stale => true,
            _ => false,
        },
        _ => false,
    }
}

impl RangeState {
    /// The extent and the offset in it where the group stands that the log's client sent, if this is the answer that says so and
    /// the client waits for it.
    pub fn appended(&self, answer: &Body) -> Option<(ExtentId, u32)>
        ensures some { IfSome result (λ x. IsAppended self.now.log.job answer.now x.0 x.1) }
        ensures none { IfNone result ((extent offset : ℕ) → IsAppended self.now.log.job answer.now extent offset → ⊥) }
    {
        match answer {
            Body::Append(
                AppendBody::Appended {
                    request,
                    offset,
                    ..
                },
            ) => {
                if !self.content.log.awaits(request) {
                    return None;
                }
                match self.content.log.job {
                    Job::Sent { extent, .. } => Some((extent, *offset)),
                    _ => None,
                }
            }
            _ => None,
        }
    }

    /// Whether the group that is out may stand at the offset: no extent reaches beyond 2^32 - 1 bytes, and the indexes of the
    /// log's extents fit 64 bits. Where none is out it may.
    pub fn may_stand(&self, offset: u32) -> bool
        ensures { result ≡ may_stand self.now self.now.out offset }
    {
        if !self.queue.is_out() {
            return true;
        }
        offset.checked_add(self.queue.out_size()).is_some() && is_counted(&self.content.log)
    }

    /// Whether an answer to the log's client counts: a group that ends where no extent reaches is told by no node.
    pub(crate) fn is_taken(&self, body: &Body) -> bool
        ensures { result ≡ is_taken self.now body.now }
    {
        match body {
            Body::Append(AppendBody::Appended { offset, .. }) => self.may_stand(*offset),
            _ => true,
        }
    }

    /// An answer that neither ends the append nor drops the range.
    fn log_goes(
        &mut self,
        alloc: Global,
        context: &ServerContext,
        packet: &Packet,
    ) -> Result<RangeStep, AllocError>
        requires numbers { context.now.count + 1024 < 2 ^ 64 }
        requires serving { is_serving self.old.stage ≡ true }
        requires current { is_stale packet.now.body ≡ false }
        requires quiet { (is_some self.old.out && is_end_of self.old.log.job packet.now.body) ≡ false }
        ensures ok { IfOk result (λ t. log_taken context.now self.old packet.now.body ≡ outcome t self.new) }
        ensures err { OnErr result (self.new ≡ self.old) }
        ensures short { IfOk result IsShort }
    {
        let mut packets = Vec::with_capacity(alloc, 1)?;
        let reaction = take_answer(&mut self.content.log, alloc, context, packet)?;
        push_some(&mut packets, reaction.packet);
        Ok(RangeStep::sends(alloc, context.count + 1, packets))
    }

    /// The group that is out stands at the offset of the extent: its changes are applied, and it is out no more. For want of
    /// memory (22) nothing has changed.
    fn apply(
        &mut self,
        alloc: Global,
        context: &ServerContext,
        packet: &Packet,
        extent: ExtentId,
        offset: u32,
    ) -> Result<(), AllocError>
        requires counted { are_counted self.old.log ≡ true }
        requires fits { offset + size_out self.old.out < 2 ^ 32 }
        requires appended { IsAppended self.old.log.job packet.now.body extent offset }
        ensures ok { OnOk result (self.new ≡ record self.old {
          log = (reaction context.now self.old packet.now.body).after;
          live = put_all self.old.live (changes_out self.old.out extent offset);
          position = record { index = (self.old.log.base + length self.old.log.extents) - 1; offset = offset + size_out self.old.out };
          out = None;
        }) }
        ensures err { OnErr result (self.new ≡ self.old) }
    {
        let changes = self.queue.changes(alloc, extent, offset)?;
        self.content.table.apply(alloc, changes)?;
        let count = self.content.log.extents.len() as u64;
        self.position = Position {
            index: (self.content.log.base + count).saturating_sub(1),
            offset: offset + self.queue.out_size(),
        };
        self.queue.finish();
        // The answer to an append takes no memory.
        let Ok(reaction) = take_answer(&mut self.content.log, alloc, context, packet) else {
            unreachable!()
        };
        drop(reaction);
        Ok(())
    }

    /// What is told of the group that is out once it stands, with room for a packet and so many observations of the next one.
    fn told(&self, alloc: Global, context: &ServerContext, more: usize) -> Result<Told, AllocError>
        ensures packets { IfOk result (λ told. told.packets.items ≡ committed_out context.now self.now.out) }
        ensures notes { IfOk result (λ told. told.notes.items ≡ dones_out self.now.load.range self.now.load.generation self.now.out) }
        ensures few { IfOk result (λ told. (length told.packets.items ≤ 1024) × (length told.notes.items ≤ 1024)) }
        ensures room { IfOk result (λ told. (vec_len told.packets + 1 ≤ vec_capacity told.packets) × (vec_len told.notes + more ≤ vec_capacity told.notes)) }
    {
        let range = self.content.load.range;
        let generation = self.content.load.generation;
        // No more are done than wait.
        let _most = self.queue.count();
        let (mut packets, mut notes) = self.queue.acknowledge(alloc, context, range, generation)?;
        packets.reserve(1)?;
        notes.reserve(more)?;
        Ok(Told { packets, notes })
    }

    /// The log's append is done: the answer says that the group that is out stands at the offset of the extent. Its transactions
    /// are applied in order, each is answered (Committed) and shown as done, the log's position moves after the group, and the
    /// next group is formed. Where memory runs out (22) nothing has changed.
    #[tactic(auto, using(crate::proofs::LogAnswers::may_be_counted, crate::proofs::LogAnswers::may_fit))]
    pub fn log_done(
        &mut self,
        alloc: Global,
        context: &ServerContext,
        packet: &Packet,
        extent: ExtentId,
        offset: u32,
    ) -> Result<RangeStep, AllocError>
        requires numbers { context.now.count + 1024 < 2 ^ 64 }
        requires out { is_some self.old.out ≡ true }
        requires appended { IsAppended self.old.log.job packet.now.body extent offset }
        requires stands { may_stand self.old self.old.out offset ≡ true }
        ensures ok { IfOk result (λ t. log_done context.now (taking context.now self.old packet.now.body) self.old.out extent offset ≡ outcome t self.new) }
        ensures err { OnErr result (self.new ≡ self.old) }
        ensures short { IfOk result IsShort }
    {
        let range = self.content.load.range;
        let generation = self.content.load.generation;
        let next = next_group(alloc, &self.queue, context, range, generation)?;
        let told = self.told(alloc, context, count_of_notes(&next))?;
        self.apply(alloc, context, packet, extent, offset)?;
        let begun = self.begin_next(alloc, context, next);
        Ok(joined(told, begun, context.count + 1))
    }

    /// An answer to the log's client while the range is served.
    #[tactic(auto, using(crate::proofs::LogAnswers::drops, crate::proofs::LogAnswers::taken_stands, crate::proofs::LogAnswers::no_end))]
    pub(crate) fn serving_reply(
        &mut self,
        alloc: Global,
        context: &ServerContext,
        packet: &Packet,
    ) -> Result<RangeStep, AllocError>
        requires numbers { context.now.count + 1024 < 2 ^ 64 }
        requires serving { is_serving self.old.stage ≡ true }
        requires taken { is_taken self.old packet.now.body ≡ true }
        requires awaited { IsAwaited self.old.log.job packet.now.body }
        ensures ok { IfOk result (λ t. log_taken context.now self.old packet.now.body ≡ outcome t self.new) }
        ensures err { OnErr result (self.new ≡ self.old) }
        ensures short { IfOk result IsShort }
    {
        if is_stale(&packet.body) {
            let packets = self.refusals(alloc, context)?;
            return Ok(RangeStep::drops(alloc, context.count + 1, packets));
        }
        if self.queue.is_out() {
            if let Some((extent, offset)) = self.appended(&packet.body) {
                return self.log_done(alloc, context, packet, extent, offset);
            }
        }
        self.log_goes(alloc, context, packet)
    }
}
