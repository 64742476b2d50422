//! Merges of two ranges of a server.
ghost use Rattle.std.specs.Prelude.{◌≡◌, ◌<◌, ◌+◌, ◌^◌, [], Some, None, if◌then◌else◌, IfOk, OnErr};
ghost use Rattle.model_partition.specs.Server.{merge_of, merge_awaiting, merge_refusal, range_of, server_merge, set_merge};
ghost use Rattle.model_partition.specs.Server as rules;
ghost use Rattle.model_partition.specs.declared.merge_job.MergeJob.{MergeJob as MergeJobState};
ghost use Rattle.range.specs.ServerStep.{IsShort, begun_so, outcome, trim_of};
ghost use Rattle.range.specs.Faults.{refusal_in};

use crate::both_ranges::{are_held, reply_to_both, trim_both};
use crate::fault::RangeFault;
use crate::merge_jobs::{has_jobs, merge_awaiting};
use crate::sent::Sent;
use crate::server::{RangeServer, has_numbers};
use crate::steps::put;
use model_partition::MergeJob;
use range_merge::{MergeTaken, begin, left_trim, merge_fault};
use std::alloc::{AllocError, Global};
use wire::{Packet, RangeId, ReqNo};

impl RangeServer {
    /// The Trim with which the checkpoint of the left range of a merge ends, where this is the answer to it.
    pub(crate) fn left_trim(
        &self,
        range: u64,
        request: &ReqNo,
        packet: &Packet,
    ) -> Option<(u64, bool)>
        ensures { result ≡ trim_of (merge_of self.now.merges range) (range_of self.now.ranges range) request.now packet.now.body }
    {
        let Some(job) = self.merges.get(&range) else {
            return None;
        };
        let Some(state) = self.ranges.get(&range) else {
            return None;
        };
        left_trim(job, state, request, &packet.body)
    }

    /// What a step of a merge leaves beside its ranges: the merge is there, unless it ends.
    fn settle_merge(&mut self, alloc: Global, left: u64, taken: MergeTaken) -> Sent
        ensures context { self.new.context ≡ record self.old.context { count = taken.count } }
        ensures ranges { self.new.ranges ≡ self.old.ranges }
        ensures splits { self.new.splits ≡ self.old.splits }
        ensures merges { self.new.merges ≡ (if taken.ended then set_merge self.old.merges left None else self.old.merges) }
        ensures sent { result ≡ record { packets = taken.packets; notes = [] } }
    {
        self.context.count = taken.count;
        if taken.ended {
            drop(self.merges.remove(&left));
        }
        Sent {
            packets: taken.packets,
            notes: Vec::new(alloc),
        }
    }

    /// The checkpoint of the left range of a merge ends, and that of the right one begins.
    pub(crate) fn left_ended(
        &mut self,
        alloc: Global,
        left: u64,
        trim: (u64, bool),
    ) -> Result<Sent, AllocError>
        requires numbers { self.old.context.count + 1024 < 2 ^ 64 }
        ensures ok { IfOk result (λ t. (job : MergeJobState) → merge_of self.old.merges left ≡ Some job
            → rules.left_ended self.old left job trim (rules.both_of self.old.ranges job) ≡ outcome t self.new) }
        ensures err { OnErr result (self.new ≡ self.old) }
        ensures short { IfOk result IsShort }
    {
        let Some(job) = self.merges.get_mut(&left) else {
            return Ok(Sent::nothing(alloc));
        };
        if !are_held(&self.ranges, job) {
            return Ok(Sent::nothing(alloc));
        }
        match trim_both(alloc, &self.context, &mut self.ranges, job, trim) {
            Ok(taken) => Ok(self.settle_merge(alloc, left, taken)),
            Err(full) => Err(full),
        }
    }

    /// An answer to a merge.
    fn merge_answer_in(
        &mut self,
        alloc: Global,
        packet: &Packet,
        left: u64,
    ) -> Result<Sent, AllocError>
        requires numbers { self.old.context.count + 1024 < 2 ^ 64 }
        ensures ok { IfOk result (λ t. rules.merge_answer_in self.old packet.now left (merge_of self.old.merges left) ≡ outcome t self.new) }
        ensures err { OnErr result (self.new ≡ self.old) }
        ensures short { IfOk result IsShort }
    {
        let Some(job) = self.merges.get_mut(&left) else {
            return Ok(Sent::nothing(alloc));
        };
        if !are_held(&self.ranges, job) {
            return Ok(Sent::nothing(alloc));
        }
        match reply_to_both(alloc, &self.context, &mut self.ranges, job, packet) {
            Ok(taken) => Ok(self.settle_merge(alloc, left, taken)),
            Err(full) => Err(full),
        }
    }

    /// The answer of this number, which no range waits for, nor the split of one: it goes to the merge that does.
    pub(crate) fn merge_answer(
        &mut self,
        alloc: Global,
        packet: &Packet,
        request: &ReqNo,
    ) -> Result<Sent, AllocError>
        requires numbers { self.old.context.count + 1024 < 2 ^ 64 }
        ensures ok { IfOk result (λ t. rules.merge_answer self.old packet.now (merge_awaiting self.old.merges request.now) ≡ outcome t self.new) }
        ensures err { OnErr result (self.new ≡ self.old) }
        ensures short { IfOk result IsShort }
    {
        match merge_awaiting(&self.merges, request) {
            None => Ok(Sent::nothing(alloc)),
            Some(left) => self.merge_answer_in(alloc, packet, left),
        }
    }

    /// The merge of two ranges, and the packet with which it begins, if nothing refuses it.
    fn begun_merge(&self, left: RangeId, right: RangeId) -> Result<(MergeJob, Packet), RangeFault>
        ensures refused { refusal_in result ≡ merge_refusal self.now left right }
        ensures ok { IfOk result (λ x. rules.merges_in self.now left (rules.pair_of (range_of self.now.ranges left) (range_of self.now.ranges right))
            ≡ (if rules.has_numbers self.now.context then begun_so self.now left x.0 x.1 else rules.rests self.now)) }
    {
        let Some(one) = self.ranges.get(&left.0) else {
            return Err(RangeFault::NotOwner);
        };
        let Some(other) = self.ranges.get(&right.0) else {
            return Err(RangeFault::NotOwner);
        };
        let left_jobs = has_jobs(&self.splits, &self.merges, left.0);
        let right_jobs = has_jobs(&self.splits, &self.merges, right.0);
        if let Some(refusal) = merge_fault(one, other, left_jobs, right_jobs) {
            return Err(RangeFault::of_beginning(refusal));
        }
        Ok(begin(&self.context, one, other))
    }

    /// A merge of two ranges begins, of which the left one ends where the right one begins: the map is asked for the number of the new
    /// range, and it goes on by the answers, and behind the steps of both. They go once the map has put the new one in their place.
    /// 22: no memory. 30: the server does not hold both. 38: one is not served yet. 34: one is paused. 35: a checkpoint, a split or a
    /// merge of one is under way. 40: they do not lie side by side. 37: they have more than 64 indexes together. Each is asked of both
    /// before the next is. After a refusal nothing has changed. A server with no numbers left for its requests does nothing.
    pub fn merge(
        &mut self,
        alloc: Global,
        left: RangeId,
        right: RangeId,
    ) -> Result<Sent, RangeFault>
        ensures ok { IfOk result (λ t. server_merge self.old left right ≡ outcome t self.new) }
        ensures refused { refusal_in result ≡ merge_refusal self.old left right }
        ensures err { OnErr result (self.new ≡ self.old) }
        ensures short { IfOk result IsShort }
    {
        let (job, packet) = self.begun_merge(left, right)?;
        if !has_numbers(&self.context) {
            return Ok(Sent::nothing(alloc));
        }
        let mut packets = Vec::with_capacity(alloc, 1)?;
        put(&mut self.merges, left.0, job)?;
        packets.push_reserved(packet);
        self.context.count += 1;
        Ok(Sent {
            packets,
            notes: Vec::new(alloc),
        })
    }
}
