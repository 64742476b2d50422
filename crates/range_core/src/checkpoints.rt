//! A checkpoint of the range begins, and its index is installed once its record stands.
ghost use Rattle.std.specs.Prelude.{◌≡◌, ◌<◌, ◌+◌, ◌^◌, None, true, IfOk, OnErr};
ghost use Rattle.model_partition.specs.Checkpoints.{checkpoint_fault, checkpoint_rule, have_bytes, number_to_apply};
ghost use Rattle.range_checkpoint.specs.Records.{installs, is_recorded};
ghost use Rattle.range_core.specs.Steps.{outcome, IsShort};

use crate::answering::make_room;
use crate::range_step::{RangeStep, push_some};
use crate::state::RangeState;
use model_partition::ServerContext;
use range_checkpoint::{CheckpointStart, begin};
use std::alloc::{AllocError, Global};
use wire::{Body, Packet, Refusal};

impl RangeState {
    /// Why no checkpoint can begin: 38 until the range is served, 34 while it is paused, 35 while one is under way, the first
    /// that is met; or none. Whatever it answers, the numbers of a checkpoint have their bytes, as the rules ask.
    #[tactic(auto, using(range_checkpoint::proofs::Numbers::bytes_held))]
    pub fn checkpoint_fault(&self) -> Option<Refusal>
        ensures value { result ≡ checkpoint_fault self.now }
        ensures bytes { have_bytes self.now.live self.now.position (number_to_apply self.now.out self.now.next) ≡ true }
    {
        // For the clause on bytes: the types of these numbers and the table keep it.
        let _live = self.content.table.live();
        let _index = self.position.index;
        let _offset = self.position.offset;
        let _next = self.queue.number_to_apply();
        range_checkpoint::checkpoint_fault(&self.content, self.pause)
    }

    /// A checkpoint begins: the live layer of the memory table becomes the fixed one, what comes later goes into a new one, and its
    /// first pages are appended to row data. Where it combines, which is asked or comes of 16 indexes, the pages of all indexes are merged
    /// first: those that the range holds at once, and then the next one is read. It notes where the log is to be read from after
    /// it, and the number that is then to be applied next: the first of the group that is out. Where memory runs out (22) nothing
    /// has changed.
    pub fn freeze(
        &mut self,
        alloc: Global,
        context: &ServerContext,
        combine: bool,
    ) -> Result<RangeStep, AllocError>
        requires numbers { context.now.count + 1024 < 2 ^ 64 }
        requires may { checkpoint_fault self.old ≡ None }
        ensures ok { IfOk result (λ t. checkpoint_rule context.now self.old combine ≡ outcome t self.new) }
        ensures err { OnErr result (self.new ≡ self.old) }
        ensures short { IfOk result IsShort }
    {
        let farewell = self.refusals(alloc, context)?;
        let prepared = make_room(alloc, farewell)?;
        let start = CheckpointStart {
            position: self.position,
            next: self.queue.number_to_apply(),
            combine,
        };
        match begin(&mut self.content, alloc, context, &start, &self.lookups) {
            Ok(progress) => Ok(self.settle(alloc, context, progress, prepared)),
            Err(full) => Err(full),
        }
    }

    /// Whether an answer says that the record of the checkpoint that is under way stands.
    pub fn is_recorded(&self, answer: &Body) -> bool
        ensures { result ≡ is_recorded self.now.metadata self.now.control answer.now }
    {
        range_checkpoint::is_recorded(&self.content, answer)
    }

    /// The record of the checkpoint that is under way stands, as this answer says: the fixed layer goes, the checkpoint's index is
    /// the newest, in place of all older ones where it combines them, and the range's metadata says so, with one region of the log,
    /// which is open and begins at the position that the checkpoint noted; and the Trim of the log goes out. Where memory runs out
    /// (22) nothing has changed.
    pub fn install(
        &mut self,
        alloc: Global,
        context: &ServerContext,
        packet: &Packet,
    ) -> Result<RangeStep, AllocError>
        requires numbers { context.now.count + 1024 < 2 ^ 64 }
        requires recorded { is_recorded self.old.metadata self.old.control packet.now.body ≡ true }
        ensures ok { IfOk result (λ t. installs context.now self.old packet.now.body ≡ outcome t self.new) }
        ensures err { OnErr result (self.new ≡ self.old) }
        ensures short { IfOk result IsShort }
    {
        let mut packets = Vec::with_capacity(alloc, 1)?;
        let trim = range_checkpoint::install(&mut self.content, alloc, context, packet)?;
        push_some(&mut packets, trim);
        Ok(RangeStep::sends(alloc, context.count + 1, packets))
    }
}
