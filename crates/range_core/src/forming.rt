//! The next group of a range.
ghost use Rattle.std.specs.Prelude.{◌≡◌, ◌<◌, ◌≤◌, ◌+◌, ◌^◌, length, take, None, true, false, option_to_list, IfOk, IfSome, IfNone, OnErr};
ghost use Rattle.client.specs.Client.{append_rule};
ghost use Rattle.commitlog.specs.Record.{spelling};
ghost use Rattle.model_partition.specs.Range.{given, goes, picking, request};
ghost use Rattle.model_partition.specs.Serving.{began, forms, grown, record_of};
ghost use Rattle.range_commit.specs.Queue.{IsNextGroup, is_formed};
ghost use Rattle.range_core.specs.Forming.{count_of_notes};
ghost use Rattle.range_core.specs.Steps.{outcome, IsShort};

use crate::range_step::{RangeStep, push_some};
use crate::state::RangeState;
use client::{Appending, StreamClient};
use model_partition::{ServerContext, TableNote, next_request};
use range_commit::{Plan, Queue};
use std::alloc::{AllocError, Global};
use wire::{Fence, Packet, RangeId};

/// A group that is ready to be appended: how many transactions it has, how many bytes, its blocks, and the observations that
/// its transactions got their numbers.
#[derive(Drop)]
pub(crate) struct Ready {
    pub(crate) count: usize,
    pub(crate) size: u32,
    pub(crate) blocks: Appending,
    pub(crate) notes: Vec<TableNote>,
}

/// The group that is formed as soon as none is out, if one is then.
pub(crate) fn next_group(
    alloc: Global,
    queue: &Queue,
    context: &ServerContext,
    range: RangeId,
    generation: Fence,
) -> Result<Option<Ready>, AllocError>
    ensures some { IfOk result (λ made. IfSome made (λ x. x.count ≡ grown queue.now.next queue.now.queue 0 context.now.batch)) }
    ensures none { IfOk result (λ made. IfNone made (is_formed queue.now.next (grown queue.now.next queue.now.queue 0 context.now.batch) ≡ false)) }
    ensures begins { IfOk result (λ made. IfSome made (λ x. IsNextGroup queue.now.next queue.now.queue x.count x.size)) }
    ensures blocks { IfOk result (λ made. IfSome made (λ x. x.blocks ≡ spelling (record_of queue.now.next (take x.count queue.now.queue)))) }
    ensures notes { IfOk result (λ made. IfSome made (λ x. x.notes.items ≡ began range generation queue.now.next (take x.count queue.now.queue))) }
    ensures formed { IfOk result (λ made. IfSome made (λ x. is_formed queue.now.next x.count ≡ true)) }
    ensures few { IfOk result (λ made. IfSome made (λ x. length x.notes.items ≤ 1024)) }
{
    // For the proof: no more are noted than wait, at most 1,024.
    let _most = queue.count();
    match queue.plan(alloc, context, range, generation)? {
        None => Ok(None),
        Some(plan) => {
            let Plan {
                count,
                size,
                blocks,
                notes,
            } = plan;
            let blocks = Appending::of(&blocks)?;
            Ok(Some(Ready {
                count,
                size,
                blocks,
                notes,
            }))
        }
    }
}

/// How many observations the group brings, if there is one.
pub(crate) fn count_of_notes(next: &Option<Ready>) -> usize
    ensures { result ≡ count_of_notes next.now }
{
    match next {
        None => 0,
        Some(ready) => ready.notes.len(),
    }
}

/// What is sent and shown where a group begins to be appended.
#[derive(Drop)]
pub(crate) struct Begun {
    pub(crate) packet: Option<Packet>,
    pub(crate) notes: Vec<TableNote>,
}

/// The group is given to the log's client, which sends it unless it is busy: then it goes later.
fn send_group(log: &mut StreamClient, context: &ServerContext, blocks: Appending) -> Option<Packet>
    ensures { given (picking context.now log.old) (append_rule (picking context.now log.old) (request context.now) blocks) ≡ record { after = log.new; packet = result; news = None } }
{
    log.pick = context.pick;
    log.append(&next_request(context), blocks).ok()
}

impl RangeState {
    /// The group that is ready, if one is, is out, where none is: it is sent, unless the log's client is busy.
    pub(crate) fn begin_next(
        &mut self,
        alloc: Global,
        context: &ServerContext,
        next: Option<Ready>,
    ) -> Begun
        requires none { self.old.out ≡ None }
        requires some { IfSome next (λ x. x.count ≡ grown self.old.next self.old.queue 0 context.now.batch) }
        requires rests { IfNone next (is_formed self.old.next (grown self.old.next self.old.queue 0 context.now.batch) ≡ false) }
        requires begins { IfSome next (λ x. IsNextGroup self.old.next self.old.queue x.count x.size) }
        requires blocks { IfSome next (λ x. x.blocks ≡ spelling (record_of self.old.next (take x.count self.old.queue))) }
        requires notes { IfSome next (λ x. x.notes.items ≡ began self.old.load.range self.old.load.generation self.old.next (take x.count self.old.queue)) }
        requires formed { IfSome next (λ x. is_formed self.old.next x.count ≡ true) }
        requires few { IfSome next (λ x. length x.notes.items ≤ 1024) }
        ensures rule { forms context.now self.old ≡ goes context.now self.new (option_to_list result.packet) result.notes.items }
        ensures few { length result.notes.items ≤ 1024 }
        ensures count { length result.notes.items ≡ count_of_notes next }
    {
        match next {
            None => Begun {
                packet: None,
                notes: Vec::new(alloc),
            },
            Some(ready) => {
                let Ready {
                    count,
                    size,
                    blocks,
                    notes,
                } = ready;
                let packet = send_group(&mut self.content.log, context, blocks);
                self.queue.begin(count, size);
                Begun { packet, notes }
            }
        }
    }

    /// Where no group is out, the next one is formed: the first of the transactions that wait, as many as fit 64 blocks and as the
    /// batch allows, get the next numbers, each is shown as begun, and they are appended to the log. Where none waits, or the
    /// numbers do not fit 64 bits, nothing is. Where memory runs out (22) nothing has changed.
    pub fn form(&mut self, alloc: Global, context: &ServerContext) -> Result<RangeStep, AllocError>
        requires numbers { context.now.count + 1024 < 2 ^ 64 }
        ensures ok { IfOk result (λ t. forms context.now self.old ≡ outcome t self.new) }
        ensures err { OnErr result (self.new ≡ self.old) }
        ensures short { IfOk result IsShort }
    {
        if self.queue.is_out() {
            return Ok(RangeStep::sends(alloc, context.count + 1, Vec::new(alloc)));
        }
        let mut packets = Vec::with_capacity(alloc, 1)?;
        let range = self.content.load.range;
        let generation = self.content.load.generation;
        let next = next_group(alloc, &self.queue, context, range, generation)?;
        let Begun { packet, notes } = self.begin_next(alloc, context, next);
        push_some(&mut packets, packet);
        Ok(RangeStep {
            dropped: false,
            count: context.count + 1,
            packets,
            notes,
        })
    }
}
