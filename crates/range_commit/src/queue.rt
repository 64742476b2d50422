//! The queue of a range.
ghost use Rattle.std.specs.Prelude.{◌≡◌, ◌+◌, ◌-◌, ◌<◌, ◌≤◌, ◌^◌, ◌++◌, ◌∷◌, List, [], None, Some, false, is_some, length, map, take, drop, IfOk, IfSome, IfNone, OnOk, OnErr};
ghost use Rattle.std.specs.List.{AllByRecursion};
ghost use Rattle.memtable.specs.Cell.{IsEntry};
ghost use Rattle.commitlog.specs.Record.{spelling, IsTransaction};
ghost use Rattle.range_commit.specs.Queue.{is_formed, changes_out, committed_out, dones_out, size_out, AreTransactions, IsNextGroup};
ghost use Rattle.model_partition.specs.declared.waiting.WaitingTransaction.{WaitingTransaction as Waiting};
ghost use Rattle.model_partition.specs.Checkpoints.{number_to_apply};
ghost use Rattle.model_partition.specs.Range.{refuses, waiting_out};
ghost use Rattle.model_partition.specs.Serving.{began, grown, record_of};
ghost use Rattle.wire.specs.declared.refusal.Refusal.TheVariants as refusals;

use crate::answering::{committed_of, dones_of, refusals_of};
use crate::forming::{Plan, form, next_plan};
use crate::placing::cells_of;
use bytes::Bytes;
use memtable::Cell;
use model_partition::{ServerContext, TableNote, WaitingTransaction};
use std::alloc::{AllocError, Global};
use std::marker::Model;
use wire::{ExtentId, Fence, Packet, RangeId};

/// How many transactions of a range wait at most, those that are out counted.
pub const MAX_WAITING: usize = 1_024;

/// The transactions that wait at a range, the group of them that is being appended, and the number of the next one, which a
/// group that is formed gives to its first. At most 1,024 are waiting, those that are out counted.
pub struct Queue {
    /// Those that are out first.
    all: Vec<WaitingTransaction>,
    out_count: usize,
    /// How many bytes the group that is out has; 0 where none is.
    size: u32,
    next: u64,
}

// Written out, so that a crate above that lets one go has no proof of what is in it.
impl Drop for Queue {
    fn drop(self) {
        let Queue {
            all: _,
            out_count: _,
            size: _,
            next: _,
        } = self;
    }
}

impl Model for Queue {
    ghost use Rattle.range_commit.specs.Queue.{QueueState, queue_of, IsQueue};

    ghost Value = { QueueState };

    ghost view = { λ q. queue_of q.all.items q.out_count q.next };

    ghost invariant = { λ q. IsQueue q.all.items q.out_count q.size q.next };
}

impl Queue {
    /// Nothing waits, and the next number is 1. Takes no memory.
    pub fn new(alloc: Global) -> Queue
        ensures { result ≡ record { queue = []; out = None; next = 1 } }
    {
        Queue {
            all: Vec::new(alloc),
            out_count: 0,
            size: 0,
            next: 1,
        }
    }

    /// The number of the next transaction, from 1. A load sets it while nothing is out.
    pub fn set_next(&mut self, next: u64)
        requires positive { 0 < next }
        requires none { self.old.out ≡ None }
        ensures { self.new ≡ record self.old { next = next } }
    {
        self.next = next;
    }

    /// The number of the next transaction, from 1.
    pub fn next(&self) -> u64
        ensures value { result ≡ self.now.next }
        ensures positive { 0 < result }
    {
        self.next
    }

    /// The number of the first transaction of the group that is out, or of the next one where none is.
    pub fn number_to_apply(&self) -> u64
        ensures { result ≡ number_to_apply self.now.out self.now.next }
    {
        self.next - self.out_count as u64
    }

    /// How many wait, those that are out counted; at most 1,024.
    pub fn count(&self) -> usize
        ensures value { result ≡ length (waiting_out self.now.out) + length self.now.queue }
        ensures bound { result ≤ 1024 }
    {
        self.all.len()
    }

    /// Whether a group is being appended.
    pub fn is_out(&self) -> bool
        ensures { result ≡ is_some self.now.out }
    {
        self.out_count > 0
    }

    /// How many bytes the group that is out has, at most 4,194,304; 0 where none is.
    pub fn out_size(&self) -> u32
        ensures value { result ≡ size_out self.now.out }
        ensures bound { result ≤ 4194304 }
    {
        self.size
    }

    /// All that wait, those that are out first.
    pub fn waiting(&self) -> &[WaitingTransaction]
        ensures { result.now ≡ waiting_out self.now.out ++ self.now.queue }
    {
        &self.all
    }

    /// Those that wait and are not out.
    pub(crate) fn queued(&self) -> &[WaitingTransaction]
        ensures value { result.now ≡ self.now.queue }
        ensures transactions { AreTransactions result.now }
        ensures most { length result.now ≤ 1024 }
    {
        let (_out, queued) = self.all.as_slice().split_at(self.out_count);
        queued
    }

    /// Adds one after all that wait. That there is room for it and that a record may hold its changes is the caller's
    /// condition. Where memory runs out (22) nothing has changed.
    pub fn push(&mut self, transaction: WaitingTransaction) -> Result<(), AllocError>
        requires room { length (waiting_out self.old.out) + length self.old.queue < 1024 }
        requires fits { IsTransaction transaction.changes }
        ensures ok { OnOk result (self.new ≡ record self.old { queue = self.old.queue ++ transaction ∷ [] }) }
        ensures err { OnErr result (self.new ≡ self.old) }
    {
        self.all.push(transaction)?;
        Ok(())
    }

    /// Drops the last of those that wait and are not out, as if it had not been pushed.
    pub fn take_back(&mut self)
        requires { 0 < length self.old.queue }
        ensures { (before : List Waiting) (last : Waiting) → self.old.queue ≡ before ++ last ∷ []
            → self.new ≡ record self.old { queue = before } }
    {
        self.all.truncate(self.all.len() - 1);
    }

    /// The group that is formed as soon as none is out, if one is then: a transaction waits, and the numbers fit 64 bits. An
    /// error is out of memory (22).
    pub fn plan(
        &self,
        alloc: Global,
        context: &ServerContext,
        range: RangeId,
        generation: Fence,
    ) -> Result<Option<Plan>, AllocError>
        ensures some { IfOk result (λ planned. IfSome planned (λ plan. plan.count
            ≡ grown self.now.next self.now.queue 0 context.now.batch)) }
        ensures none { IfOk result (λ planned. IfNone planned (is_formed self.now.next
            (grown self.now.next self.now.queue 0 context.now.batch) ≡ false)) }
        ensures begins { IfOk result (λ planned. IfSome planned (λ plan.
            IsNextGroup self.now.next self.now.queue plan.count plan.size)) }
        ensures blocks { IfOk result (λ planned. IfSome planned (λ plan. plan.blocks
            ≡ spelling (record_of self.now.next (take plan.count self.now.queue)))) }
        ensures notes { IfOk result (λ planned. IfSome planned (λ plan. plan.notes.items
            ≡ began range generation self.now.next (take plan.count self.now.queue))) }
    {
        if self.queued().is_empty() {
            return Ok(None);
        }
        let mut encodings = 0;
        let (group, count) = form(alloc, self.next(), self, context.batch, &mut encodings)?;
        // For the proof: a group has at most 64 blocks.
        let _blocks = group.blocks();
        match next_plan(alloc, self, range, generation, count, &group) {
            Ok(planned) => Ok(planned),
            Err(full) => Err(full),
        }
    }

    /// The first `count` that wait are out now, a group of `size` bytes, and have the next numbers, where none is out. Takes no
    /// memory.
    pub fn begin(&mut self, count: usize, size: u32)
        requires none { self.old.out ≡ None }
        requires group { IsNextGroup self.old.next self.old.queue count size }
        ensures { self.new ≡ record {
          queue = drop count self.old.queue;
          out = Some (record { first = self.old.next; transactions = take count self.old.queue });
          next = self.old.next + count;
        } }
    {
        self.out_count = count;
        self.size = size;
        self.next += count as u64;
    }

    /// What is answered and shown once the group that is out is acknowledged; nothing where none is. At most 1,024 packets. An
    /// error is out of memory (22).
    pub fn acknowledge(
        &self,
        alloc: Global,
        context: &ServerContext,
        range: RangeId,
        generation: Fence,
    ) -> Result<(Vec<Packet>, Vec<TableNote>), AllocError>
        ensures packets { IfOk result (λ told. told.0.items ≡ committed_out context.now self.now.out) }
        ensures notes { IfOk result (λ told. told.1.items ≡ dones_out range generation self.now.out) }
        ensures bound { IfOk result (λ told. length told.0.items ≤ 1024) }
    {
        let (group, _queue) = self.all.as_slice().split_at(self.out_count);
        let first = self.next - self.out_count as u64;
        let packets = committed_of(alloc, context, first, group)?;
        let notes = dones_of(alloc, range, generation, first, group)?;
        Ok((packets, notes))
    }

    /// What rows keep of the changes of the group that is out, if it stands in the extent from the offset on, in order; nothing
    /// where none is out. That it ends below 2^32 is the caller's condition. An error is out of memory (22).
    pub fn changes(
        &self,
        alloc: Global,
        extent: ExtentId,
        offset: u32,
    ) -> Result<Vec<(Bytes, Cell)>, AllocError>
        requires { offset + size_out self.now.out < 2 ^ 32 }
        ensures kept { IfOk result (λ kept. kept.items ≡ changes_out self.now.out extent offset) }
        ensures entries { IfOk result (λ kept. AllByRecursion (λ e. IsEntry e.0 e.1) kept.items) }
    {
        if self.out_count == 0 {
            return Ok(Vec::new(alloc));
        }
        let (group, _queue) = self.all.as_slice().split_at(self.out_count);
        match cells_of(alloc, group, self.size, extent, offset) {
            Ok(kept) => Ok(kept),
            Err(full) => Err(full),
        }
    }

    /// The group that is out is done, and its transactions are dropped. Takes no memory.
    pub fn finish(&mut self)
        ensures { self.new ≡ record self.old { out = None } }
    {
        let rest = self.all.len() - self.out_count;
        self.all.rotate_left(self.out_count);
        self.all.truncate(rest);
        self.out_count = 0;
        self.size = 0;
    }

    /// Each that waits is told that this server does not hold the range, those that are out first. An error is out of memory
    /// (22).
    pub fn refusals(
        &self,
        alloc: Global,
        context: &ServerContext,
    ) -> Result<Vec<Packet>, AllocError>
        ensures packets { IfOk result (λ told. told.items
            ≡ map (λ t. refuses context.now t.from t.request refusals.NotOwner) (waiting_out self.now.out ++ self.now.queue)) }
        ensures bound { IfOk result (λ told. length told.items ≤ 1024) }
    {
        refusals_of(alloc, context, &self.all)
    }
}
