//! Splits of the ranges of a server.
ghost use Rattle.std.specs.Prelude.{◌≡◌, ◌<◌, ◌+◌, ◌^◌, [], None, if◌then◌else◌, IfOk, OnErr};
ghost use Rattle.model_partition.specs.Server.{set_range, set_split, split_awaiting, split_refusal, server_split};
ghost use Rattle.model_partition.specs.Server as rules;
ghost use Rattle.range.specs.ServerStep.{IsShort, outcome};
ghost use Rattle.range.specs.Faults.{refusal_in};

use crate::fault::RangeFault;
use crate::merge_jobs::has_jobs;
use crate::sent::Sent;
use crate::server::{RangeServer, has_numbers};
use crate::steps::put;
use bytes::Bytes;
use model_partition::SplitJob;
use range_split::{SplitTaken, awaits, begin, reply, split_fault};
use std::alloc::{AllocError, Global};
use std::collections::BTreeMap;
use wire::{Packet, RangeId, ReqNo};

/// The range whose split waits for an answer of this number, if there is one.
fn split_awaiting(splits: &BTreeMap<u64, SplitJob>, request: &ReqNo) -> Option<u64>
    ensures { result ≡ split_awaiting splits.now.entries request.now }
{
    for (range, job) in splits {
        if awaits(job, request) {
            return Some(*range);
        }
    }
    None
}

impl RangeServer {
    /// What an answer to a split leaves: the range and its split are there, unless these go.
    fn settle_split(&mut self, alloc: Global, range: u64, taken: SplitTaken) -> Sent
        ensures context { self.new.context ≡ record self.old.context { count = taken.count } }
        ensures ranges { self.new.ranges ≡ (if taken.dropped then set_range self.old.ranges range None else self.old.ranges) }
        ensures splits { self.new.splits ≡ (if taken.ended then set_split self.old.splits range None else self.old.splits) }
        ensures merges { self.new.merges ≡ self.old.merges }
        ensures sent { result ≡ record { packets = taken.packets; notes = [] } }
    {
        self.context.count = taken.count;
        if taken.dropped {
            drop(self.ranges.remove(&range));
        }
        if taken.ended {
            drop(self.splits.remove(&range));
        }
        Sent {
            packets: taken.packets,
            notes: Vec::new(alloc),
        }
    }

    /// The answer of this number, which no range waits for: it goes to the split that does, or else to the merge.
    #[tactic(auto, using(crate::proofs::Entries::set_same))]
    pub(crate) fn split_answer(
        &mut self,
        alloc: Global,
        packet: &Packet,
        request: &ReqNo,
    ) -> Result<Sent, AllocError>
        requires numbers { self.old.context.count + 1024 < 2 ^ 64 }
        ensures ok { IfOk result (λ t. rules.split_answer self.old packet.now request.now (split_awaiting self.old.splits request.now) ≡ outcome t self.new) }
        ensures err { OnErr result (self.new ≡ self.old) }
        ensures short { IfOk result IsShort }
    {
        let Some(range) = split_awaiting(&self.splits, request) else {
            return self.merge_answer(alloc, packet, request);
        };
        let Some(state) = self.ranges.get_mut(&range) else {
            return Ok(Sent::nothing(alloc));
        };
        let Some(job) = self.splits.get_mut(&range) else {
            return Ok(Sent::nothing(alloc));
        };
        match reply(alloc, &self.context, state, job, packet) {
            Ok(taken) => Ok(self.settle_split(alloc, range, taken)),
            Err(full) => Err(full),
        }
    }

    /// A split of a range at a key begins: the map is asked for the numbers of the two ranges that it makes, and it goes on by the
    /// answers, and behind the steps of the range. The range goes once the map has put the two in its place.
    /// 22: no memory. 30: the server does not hold the range. 38: the range is not served yet. 34: it is paused.
    /// 35: a checkpoint, a split or a merge of it is under way. 39: the key does not split it. After a refusal nothing has changed. A server
    /// with no numbers left for its requests does nothing.
    #[tactic(auto, using(crate::proofs::Entries::set_same))]
    pub fn split(&mut self, alloc: Global, range: RangeId, key: &Bytes) -> Result<Sent, RangeFault>
        ensures ok { IfOk result (λ t. server_split self.old range key.now ≡ outcome t self.new) }
        ensures refused { refusal_in result ≡ split_refusal self.old range key.now }
        ensures err { OnErr result (self.new ≡ self.old) }
        ensures short { IfOk result IsShort }
    {
        let Some(state) = self.ranges.get(&range.0) else {
            return Err(RangeFault::NotOwner);
        };
        let jobs = has_jobs(&self.splits, &self.merges, range.0);
        if let Some(refusal) = split_fault(state, jobs, key) {
            return Err(RangeFault::of_beginning(refusal));
        }
        if !has_numbers(&self.context) {
            return Ok(Sent::nothing(alloc));
        }
        let (job, packet) = begin(&self.context, state, key)?;
        let mut packets = Vec::with_capacity(alloc, 1)?;
        put(&mut self.splits, range.0, job)?;
        packets.push_reserved(packet);
        self.context.count += 1;
        Ok(Sent {
            packets,
            notes: Vec::new(alloc),
        })
    }
}
