//! Answers that a range waits for.
ghost use Rattle.std.specs.Prelude.{◌≡◌, ◌<◌, ◌≤◌, ◌+◌, ◌^◌, [], Some, true, false, length, vec_len, vec_capacity, IfOk, OnErr};
ghost use Rattle.model_partition.specs.Range.{RangeState, is_serving, refused_users};
ghost use Rattle.model_partition.specs.Answering.{answer_rule, answered_number, log_reply, metadata_reply, range_awaits};
ghost use Rattle.range_checkpoint.specs.Records.{is_recorded};
ghost use Rattle.range_load.specs.Awaited.{is_awaited};
ghost use Rattle.model_partition.specs.Getting.{held_at};
ghost use Rattle.model_partition.specs.RangeSteps as steps;
ghost use Rattle.range_core.specs.Replies.{IsAwaited};
ghost use Rattle.range_core.specs.Steps.{outcome, IsShort};
ghost use Rattle.range_core.specs.Waiters.{waiter_rule};
ghost use Rattle.range_core.specs.declared.answering.Waiter.TheVariants as waiters;

use crate::range_step::{RangeStep, push_some};
use crate::state::RangeState;
use model_partition::{Progress, RangeContent, ServerContext, Service, TableNote, reads_page};
use range_checkpoint::{page_reply, record_reply, rows_reply, trim_awaits, trim_reply};
use range_commit::Queue;
use range_load::{index_reply, load_reply, log_load_reply, metadata_reply, reads_under};
use range_reads::Lookups;
use std::alloc::{AllocError, Global};
use wire::{Packet, ReqNo};

/// What a step of a load or of a checkpoint may need of memory: the farewell to those who wait, and room for a packet and an observation.
#[derive(Drop)]
pub(crate) struct Prepared {
    farewell: Vec<Packet>,
    packets: Vec<Packet>,
    notes: Vec<TableNote>,
}

/// Room for what such a step leaves, beside the farewell.
pub(crate) fn make_room(alloc: Global, farewell: Vec<Packet>) -> Result<Prepared, AllocError>
    ensures farewell { IfOk result (λ p. p.farewell.items ≡ farewell.items) }
    ensures packets { IfOk result (λ p. (p.packets.items ≡ []) × (vec_len p.packets < vec_capacity p.packets)) }
    ensures notes { IfOk result (λ p. (p.notes.items ≡ []) × (vec_len p.notes < vec_capacity p.notes)) }
{
    Ok(Prepared {
        farewell,
        packets: Vec::with_capacity(alloc, 1)?,
        notes: Vec::with_capacity(alloc, 1)?,
    })
}

/// Whose answer moves a load or a checkpoint on.
#[derive(Drop)]
pub enum Waiter {
    /// The load itself: its streams are opened, or its generation is confirmed.
    Load,
    /// The metadata's client, which is the load's until the range is served.
    Metadata,
    /// The metadata's client once the range is served, where the answer is not that the record of a checkpoint stands.
    Record,
    /// The log's client, which is the load's until the range is served.
    Log,
    /// The client of row data, which appends the pages and the index of a checkpoint.
    Rows,
    /// The read of an index.
    Index,
    /// The read of a page that a checkpoint merges.
    Page,
    /// The Trim that ends a checkpoint.
    Trim,
}

/// What an answer to this one leaves of what is loaded, and of the checkpoint that is under way. The pages that the range holds
/// are at hand.
fn progress_of(
    content: &mut RangeContent,
    alloc: Global,
    context: &ServerContext,
    waiter: Waiter,
    packet: &Packet,
    pages: &Lookups,
) -> Result<Progress, AllocError>
    requires load { waiter ≡ waiters.Load → is_awaited content.old.load.phase packet.now.body ≡ true }
    requires metadata { waiter ≡ waiters.Metadata → is_serving content.old.stage ≡ false }
    requires log { waiter ≡ waiters.Log → is_serving content.old.stage ≡ false }
    requires record { waiter ≡ waiters.Record → is_serving content.old.stage ≡ true }
    requires other { waiter ≡ waiters.Record → is_recorded content.old.metadata content.old.control packet.now.body ≡ false }
    ensures ok { IfOk result (λ p. (r : RangeState) → held_at r.held ≡ held_at pages.now.held
        → waiter_rule waiter context.now (steps.put content.old r) packet.now.body ≡ steps.outcome context.now (steps.put content.new r) p) }
    ensures err { OnErr result (content.new ≡ content.old) }
{
    match waiter {
        Waiter::Load => load_reply(content, alloc, context, packet),
        Waiter::Metadata => metadata_reply(content, alloc, context, packet),
        Waiter::Record => record_reply(content, alloc, context, packet),
        Waiter::Log => log_load_reply(content, alloc, context, packet),
        Waiter::Rows => rows_reply(content, alloc, context, packet),
        Waiter::Index => index_reply(content, alloc, context, packet),
        Waiter::Page => page_reply(content, alloc, context, packet, pages),
        Waiter::Trim => trim_reply(content, context, packet),
    }
}

impl RangeState {
    /// What a step of the load or of a checkpoint leaves of the range.
    pub(crate) fn settle(
        &mut self,
        alloc: Global,
        context: &ServerContext,
        progress: Progress,
        prepared: Prepared,
    ) -> RangeStep
        requires numbers { context.now.count + 1024 < 2 ^ 64 }
        requires farewell { prepared.farewell.items ≡ refused_users context.now self.old }
        requires few { length prepared.farewell.items ≤ 1280 }
        requires packets { (prepared.packets.items ≡ []) × (vec_len prepared.packets < vec_capacity prepared.packets) }
        requires notes { (prepared.notes.items ≡ []) × (vec_len prepared.notes < vec_capacity prepared.notes) }
        ensures rule { steps.outcome context.now self.old progress ≡ outcome result self.new }
        ensures short { IsShort result }
    {
        let Prepared {
            farewell,
            mut packets,
            mut notes,
        } = prepared;
        match progress {
            Progress::Rests => RangeStep::sends(alloc, context.count, packets),
            Progress::Goes(packet) => {
                push_some(&mut packets, packet);
                RangeStep::sends(alloc, context.count + 1, packets)
            }
            Progress::Dropped => RangeStep::drops(alloc, context.count + 1, farewell),
            Progress::Serves(
                Service {
                    next,
                    position,
                    note,
                },
            ) => {
                let mut queue = Queue::new(alloc);
                queue.set_next(next);
                self.queue = queue;
                self.position = position;
                notes.push_reserved(note);
                RangeStep {
                    dropped: false,
                    count: context.count + 1,
                    packets,
                    notes,
                }
            }
        }
    }

    /// The load goes on by the answer to this one: the streams are opened, the metadata is read, then the log, then the indexes,
    /// the generation is confirmed, and the range is served from then on, with the number of the next transaction and the log's
    /// position. Or a checkpoint goes on: the pages of older indexes are read, where it combines these, a group of pages stands, then
    /// the index, and in the end the log is trimmed. The range is dropped where its generation is an old one (3), what was read is
    /// damaged (21), or an index stands in an extent that is in none of its streams, and those who wait are told so (30). Where
    /// memory runs out (22) nothing has changed.
    pub fn load(
        &mut self,
        alloc: Global,
        context: &ServerContext,
        waiter: Waiter,
        packet: &Packet,
    ) -> Result<RangeStep, AllocError>
        requires numbers { context.now.count + 1024 < 2 ^ 64 }
        requires load { waiter ≡ waiters.Load → is_awaited self.old.load.phase packet.now.body ≡ true }
        requires metadata { waiter ≡ waiters.Metadata → is_serving self.old.stage ≡ false }
        requires loading { waiter ≡ waiters.Log → is_serving self.old.stage ≡ false }
        requires record { waiter ≡ waiters.Record → is_serving self.old.stage ≡ true }
        requires other { waiter ≡ waiters.Record → is_recorded self.old.metadata self.old.control packet.now.body ≡ false }
        ensures ok { IfOk result (λ t. waiter_rule waiter context.now self.old packet.now.body ≡ outcome t self.new) }
        ensures err { OnErr result (self.new ≡ self.old) }
        ensures short { IfOk result IsShort }
    {
        let farewell = self.refusals(alloc, context)?;
        let prepared = make_room(alloc, farewell)?;
        match progress_of(
            &mut self.content,
            alloc,
            context,
            waiter,
            packet,
            &self.lookups,
        ) {
            Ok(progress) => Ok(self.settle(alloc, context, progress, prepared)),
            Err(full) => Err(full),
        }
    }

    /// An answer to the metadata's client: to the load, or where the range is served to the record of a checkpoint.
    #[tactic(auto, using(range_checkpoint::proofs::Recorded::reply_installs))]
    fn metadata_reply(
        &mut self,
        alloc: Global,
        context: &ServerContext,
        packet: &Packet,
    ) -> Result<RangeStep, AllocError>
        requires numbers { context.now.count + 1024 < 2 ^ 64 }
        ensures ok { IfOk result (λ t. metadata_reply context.now self.old packet.now.body ≡ outcome t self.new) }
        ensures err { OnErr result (self.new ≡ self.old) }
        ensures short { IfOk result IsShort }
    {
        if !self.is_serving() {
            return self.load(alloc, context, Waiter::Metadata, packet);
        }
        if self.is_recorded(&packet.body) {
            return self.install(alloc, context, packet);
        }
        self.load(alloc, context, Waiter::Record, packet)
    }

    fn log_reply(
        &mut self,
        alloc: Global,
        context: &ServerContext,
        packet: &Packet,
    ) -> Result<RangeStep, AllocError>
        requires numbers { context.now.count + 1024 < 2 ^ 64 }
        requires awaited { IsAwaited self.old.log.job packet.now.body }
        ensures ok { IfOk result (λ t. log_reply context.now self.old packet.now.body ≡ outcome t self.new) }
        ensures err { OnErr result (self.new ≡ self.old) }
        ensures short { IfOk result IsShort }
    {
        if !self.is_taken(&packet.body) {
            return Ok(RangeStep::sends(alloc, context.count, Vec::new(alloc)));
        }
        if self.is_serving() {
            return self.serving_reply(alloc, context, packet);
        }
        self.load(alloc, context, Waiter::Log, packet)
    }

    /// Whether a job of the range waits for an answer of this number.
    pub fn awaits(&self, request: &ReqNo) -> bool
        ensures { result ≡ range_awaits self.now request.now }
    {
        self.content.load.awaits(request)
            || self.content.metadata.awaits(request)
            || self.content.log.awaits(request)
            || self.content.rows.awaits(request)
            || reads_under(&self.content.reading, request)
            || trim_awaits(&self.content.control, request)
            || self.lookups.awaits(request)
    }

    /// The answer of this number, a packet: what the load, the client of the metadata, of the log or of row data, the read of an
    /// index or of a page, the Trim or the Gets do with it, whichever waits for it first; `install` where it says that the record of
    /// a checkpoint stands, and `log_done` where a group does. That it bears the number is the caller's condition.
    /// For want of memory (22) nothing has changed.
    #[tactic(auto, using(crate::proofs::LogAnswers::awaited, crate::proofs::LogAnswers::load_awaited))]
    pub fn answer(
        &mut self,
        alloc: Global,
        context: &ServerContext,
        request: &ReqNo,
        packet: &Packet,
    ) -> Result<RangeStep, AllocError>
        requires numbers { context.now.count + 1024 < 2 ^ 64 }
        requires answer { answered_number packet.now.body ≡ Some request.now }
        ensures ok { IfOk result (λ t. answer_rule context.now self.old request.now packet.now.body ≡ outcome t self.new) }
        ensures err { OnErr result (self.new ≡ self.old) }
        ensures short { IfOk result IsShort }
    {
        if self.content.load.awaits(request) {
            return self.load(alloc, context, Waiter::Load, packet);
        }
        if self.content.metadata.awaits(request) {
            return self.metadata_reply(alloc, context, packet);
        }
        if self.content.log.awaits(request) {
            return self.log_reply(alloc, context, packet);
        }
        if self.content.rows.awaits(request) {
            return self.load(alloc, context, Waiter::Rows, packet);
        }
        if reads_under(&self.content.reading, request) {
            if reads_page(&self.content.reading) {
                return self.load(alloc, context, Waiter::Page, packet);
            }
            return self.load(alloc, context, Waiter::Index, packet);
        }
        if trim_awaits(&self.content.control, request) {
            return self.load(alloc, context, Waiter::Trim, packet);
        }
        self.gets_reply(alloc, context, request, &packet.body)
    }
}
