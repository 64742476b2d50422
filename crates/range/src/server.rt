//! A partition server.
ghost use Rattle.std.specs.Prelude.{◌≡◌, ◌<◌, ◌≤◌, ◌+◌, ◌^◌, ◌++◌, [], ◌∷◌, Some, true, length, option_map, is_some, IfOk, OnErr};
ghost use Rattle.model_partition.specs.Server.{map_rule, new_range, server_rule, table_rule, numbered_rule, has_numbers, moment_rule, give_up_rule, started, users_of, assign_rule, renew_rule, range_of, transacts_in, gets_in, answer_of, awaiting, checkpoint_refusal, server_checkpoint};
ghost use Rattle.model_partition.specs.Answering as answering;
ghost use Rattle.model_partition.specs.Servers.{give_up_fault, loads, table_of_view};
ghost use Rattle.client.specs.Load.{open_packet};
ghost use Rattle.model_partition.specs.Range.{refuses, request};
ghost use Rattle.wire.specs.declared.refusal.Refusal.TheVariants.{NotOwner};
ghost use Rattle.range.specs.ServerStep.{IsShort, outcome, needs_memory, told_needs_memory, asked_needs_memory};
ghost use Rattle.range.specs.Faults.{refusal_in};

use crate::answers::{answered_number, is_answerer};
use crate::fault::RangeFault;
use crate::merge_jobs::has_jobs;
use crate::rooms::StepRoom;
use crate::sent::Sent;
use crate::steps::{awaiting, put, refusal};
use block_types::Nodes;
use bytes::Bytes;
use model_partition::{MergeJob, ServerContext, SplitJob, TableView};
use range_core::RangeState;
use std::alloc::{AllocError, Global};
use std::collections::BTreeMap;
use std::marker::Model;
use wire::{
    ActorId, Body, Changes, Fence, MapBody, Packet, RangeId, Refusal, ReqNo, ServerNo, StreamBody,
    TableBody,
};

/// A partition server, from one start to the next stop: its ranges and the splits of these that are under way, by their numbers, and
/// the merges, by those of their left ranges.
pub struct RangeServer {
    pub(crate) context: ServerContext,
    pub(crate) ranges: BTreeMap<u64, RangeState>,
    pub(crate) splits: BTreeMap<u64, SplitJob>,
    pub(crate) merges: BTreeMap<u64, MergeJob>,
}

// Written out, so that a crate above that lets one go has no proof of what is in it.
impl Drop for RangeServer {
    fn drop(self) {
        let RangeServer {
            context: _,
            ranges: _,
            splits: _,
            merges: _,
        } = self;
    }
}

impl Model for RangeServer {
    ghost use Rattle.model_partition.specs.Server.{ServerState};

    ghost Value = { ServerState };

    ghost view = { λ s. record { context = s.context; ranges = s.ranges.entries; splits = s.splits.entries; merges = s.merges.entries } };
}

/// Whether there are numbers for the requests of any one step.
pub(crate) fn has_numbers(context: &ServerContext) -> bool
    ensures { result ≡ has_numbers context.now }
{
    context.count < u64::MAX - 1023
}

impl RangeServer {
    /// A server that starts: it holds no range. `session` was never used by it before, `now` is the last moment, new extents
    /// are made on the nodes of `pick`, the primary first, and a group holds at most `batch` transactions.
    pub fn start(
        alloc: Global,
        server: ServerNo,
        session: u64,
        now: u64,
        pick: Nodes,
        batch: u16,
    ) -> RangeServer
        ensures { result ≡ started server session now pick batch }
    {
        RangeServer {
            context: ServerContext {
                server,
                session,
                moment: now,
                pick,
                batch,
                count: 1,
            },
            ranges: BTreeMap::new(alloc),
            splits: BTreeMap::new(alloc),
            merges: BTreeMap::new(alloc),
        }
    }

    /// The clock of leases shows this. A moment that goes back changes nothing.
    pub fn moment(&mut self, now: u64)
        ensures { self.new ≡ moment_rule self.old now }
    {
        self.context.moment = self.context.moment.max(now);
    }

    /// The table that an answer is about to show: that of the range whose load it confirms.
    pub fn loading(&self, body: &Body) -> Option<TableView<'_>>
        ensures { option_map table_of_view result ≡ loads self.now body.now }
    {
        match body {
            Body::Stream(StreamBody::Confirmed { request }) => {
                let Some(range) = awaiting(&self.ranges, request) else {
                    return None;
                };
                match self.ranges.get(&range) {
                    None => None,
                    Some(state) => Some(state.table_view()),
                }
            }
            _ => None,
        }
    }

    /// A transaction of a user.
    #[tactic(auto, using(crate::proofs::Entries::found_again, crate::proofs::Entries::set_same, crate::proofs::Merged::stepped_after))]
    fn transact(
        &mut self,
        alloc: Global,
        packet: &Packet,
        range: RangeId,
        changes: &Changes,
        request: &ReqNo,
    ) -> Result<Sent, AllocError>
        requires numbers { self.old.context.count + 1024 < 2 ^ 64 }
        ensures ok { IfOk result (λ t. transacts_in self.old packet.now range changes.now request.now (range_of self.old.ranges range) ≡ outcome t self.new) }
        ensures err { OnErr result (self.new ≡ self.old) }
        ensures short { IfOk result IsShort }
    {
        match self.ranges.get_mut(&range.0) {
            None => self.refuse(alloc, packet.from, request),
            Some(state) => {
                let room = StepRoom::for_step(alloc, &self.splits, &self.merges, range.0)?;
                match state.transact(alloc, &self.context, packet.from, request, changes) {
                    Ok(taken) => Ok(self.settle(range.0, taken, room)),
                    Err(full) => Err(full),
                }
            }
        }
    }

    /// A Get of a user.
    #[tactic(auto, using(crate::proofs::Entries::found_again, crate::proofs::Entries::set_same, crate::proofs::Merged::stepped_after))]
    fn get(
        &mut self,
        alloc: Global,
        packet: &Packet,
        range: RangeId,
        key: &Bytes,
        request: &ReqNo,
    ) -> Result<Sent, AllocError>
        requires numbers { self.old.context.count + 1024 < 2 ^ 64 }
        ensures ok { IfOk result (λ t. gets_in self.old packet.now range key.now request.now (range_of self.old.ranges range) ≡ outcome t self.new) }
        ensures err { OnErr result (self.new ≡ self.old) }
        ensures short { IfOk result IsShort }
    {
        match self.ranges.get_mut(&range.0) {
            None => self.refuse(alloc, packet.from, request),
            Some(state) => {
                let room = StepRoom::for_step(alloc, &self.splits, &self.merges, range.0)?;
                match state.get(alloc, &self.context, packet.from, request, key) {
                    Ok(taken) => Ok(self.settle(range.0, taken, room)),
                    Err(full) => Err(full),
                }
            }
        }
    }

    /// The answer of this number, which a range waits for, or the split of one, or the merge of two.
    #[tactic(auto, using(crate::proofs::Entries::found_again, crate::proofs::Entries::set_same, crate::proofs::Merged::stepped_after))]
    fn answer(
        &mut self,
        alloc: Global,
        packet: &Packet,
        request: &ReqNo,
    ) -> Result<Sent, AllocError>
        requires numbers { self.old.context.count + 1024 < 2 ^ 64 }
        requires answer { answering.answered_number packet.now.body ≡ Some request.now }
        ensures ok { IfOk result (λ t. answer_of self.old packet.now request.now (awaiting self.old.ranges request.now) ≡ outcome t self.new) }
        ensures err { OnErr result (self.new ≡ self.old) }
        ensures short { IfOk result IsShort }
    {
        let Some(range) = awaiting(&self.ranges, request) else {
            return self.split_answer(alloc, packet, request);
        };
        if let Some(trim) = self.left_trim(range, request, packet) {
            return self.left_ended(alloc, range, trim);
        }
        match self.ranges.get_mut(&range) {
            None => Ok(Sent::nothing(alloc)),
            Some(state) => {
                let room = StepRoom::for_step(alloc, &self.splits, &self.merges, range)?;
                match state.answer(alloc, &self.context, request, packet) {
                    Ok(taken) => Ok(self.settle(range, taken, room)),
                    Err(full) => Err(full),
                }
            }
        }
    }

    /// An answer, or a packet that is none.
    fn answered(&mut self, alloc: Global, packet: &Packet) -> Result<Sent, AllocError>
        requires numbers { self.old.context.count + 1024 < 2 ^ 64 }
        ensures ok { IfOk result (λ t. numbered_rule self.old packet.now (answering.answered_number packet.now.body) ≡ outcome t self.new) }
        ensures needed { OnErr result (is_some (answering.answered_number packet.now.body) ≡ true) }
        ensures err { OnErr result (self.new ≡ self.old) }
        ensures short { IfOk result IsShort }
    {
        match answered_number(&packet.body) {
            None => Ok(Sent::nothing(alloc)),
            Some(request) => {
                if !is_answerer(&packet.from, &packet.body) {
                    return Ok(Sent::nothing(alloc));
                }
                self.answer(alloc, packet, &request)
            }
        }
    }

    /// What a user asks.
    fn asked(
        &mut self,
        alloc: Global,
        packet: &Packet,
        body: &TableBody,
    ) -> Result<Sent, AllocError>
        requires numbers { self.old.context.count + 1024 < 2 ^ 64 }
        ensures ok { IfOk result (λ t. table_rule self.old packet.now body.now ≡ outcome t self.new) }
        ensures needed { OnErr result (asked_needs_memory body.now ≡ true) }
        ensures err { OnErr result (self.new ≡ self.old) }
        ensures short { IfOk result IsShort }
    {
        match body {
            TableBody::Transact {
                range,
                changes,
                request,
            } => self.transact(alloc, packet, *range, changes, request),
            TableBody::Get {
                range,
                key,
                request,
            } => self.get(alloc, packet, *range, key, request),
            TableBody::Committed { .. } => Ok(Sent::nothing(alloc)),
            TableBody::Value { .. } => Ok(Sent::nothing(alloc)),
        }
    }

    /// The generation that is known of a range.
    fn generation(&self, range: RangeId) -> Option<Fence>
        ensures { result ≡ option_map (λ r. r.load.generation) (range_of self.now.ranges range) }
    {
        match self.ranges.get(&range.0) {
            None => None,
            Some(state) => Some(state.content.load.generation),
        }
    }

    /// What those who wait for a range are told where it goes.
    fn farewell(&self, alloc: Global, range: RangeId) -> Result<Vec<Packet>, AllocError>
        ensures packets { IfOk result (λ packets. packets.items ≡ users_of self.now.context (range_of self.now.ranges range)) }
        ensures few { IfOk result (λ packets. length packets.items ≤ 1400) }
    {
        match self.ranges.get(&range.0) {
            None => Ok(Vec::new(alloc)),
            Some(state) => match state.refusals(alloc, &self.context) {
                Ok(packets) => Ok(packets),
                Err(full) => Err(full),
            },
        }
    }

    /// The range as it is once its streams are asked for, and what is sent: what those who waited are told, and the asking.
    fn opening(
        &self,
        alloc: Global,
        range: RangeId,
        generation: Fence,
        until: u64,
    ) -> Result<(RangeState, Vec<Packet>), AllocError>
        ensures state { IfOk result (λ x. x.0 ≡ new_range self.now.context range generation until) }
        ensures packets { IfOk result (λ x. x.1.items ≡ users_of self.now.context (range_of self.now.ranges range)
            ++ open_packet self.now.context.server range generation (request self.now.context) ∷ []) }
        ensures few { IfOk result (λ x. length x.1.items ≤ 1401) }
    {
        let mut packets = self.farewell(alloc, range)?;
        packets.reserve(1)?;
        let (state, packet) = RangeState::assign(alloc, &self.context, range, generation, until)?;
        packets.push_reserved(packet);
        Ok((state, packets))
    }

    /// What was known of the range goes, its split or its merge among it, and its streams are opened.
    fn assign(
        &mut self,
        alloc: Global,
        range: RangeId,
        generation: Fence,
        until: u64,
    ) -> Result<Sent, AllocError>
        requires numbers { self.old.context.count + 1024 < 2 ^ 64 }
        ensures ok { IfOk result (λ t. assign_rule self.old range generation until (range_of self.old.ranges range) ≡ outcome t self.new) }
        ensures err { OnErr result (self.new ≡ self.old) }
        ensures short { IfOk result IsShort }
    {
        if let Some(known) = self.generation(range) {
            if known >= generation {
                return Ok(Sent::nothing(alloc));
            }
        }
        let (state, packets) = self.opening(alloc, range, generation, until)?;
        put(&mut self.ranges, range.0, state)?;
        drop(self.splits.remove(&range.0));
        self.context.count += 1;
        self.end_merge_of(range.0);
        Ok(Sent {
            packets,
            notes: Vec::new(alloc),
        })
    }

    /// A lease's end never goes back.
    #[tactic(auto, using(crate::proofs::Entries::set_same))]
    fn renew(&mut self, range: RangeId, generation: Fence, until: u64)
        ensures { renew_rule self.old range generation until (range_of self.old.ranges range) ≡ record { after = self.new; packets = []; notes = [] } }
    {
        if let Some(state) = self.ranges.get_mut(&range.0) {
            if state.content.load.generation == generation {
                state.renew(until);
            }
        }
    }

    /// What the map tells of leases.
    fn told(&mut self, alloc: Global, from: ActorId, body: &MapBody) -> Result<Sent, AllocError>
        requires numbers { self.old.context.count + 1024 < 2 ^ 64 }
        ensures ok { IfOk result (λ t. map_rule self.old from body.now ≡ outcome t self.new) }
        ensures needed { OnErr result (told_needs_memory body.now ≡ true) }
        ensures err { OnErr result (self.new ≡ self.old) }
        ensures short { IfOk result IsShort }
    {
        match from {
            ActorId::Map => match body {
                MapBody::Assign {
                    range,
                    generation,
                    until,
                } => self.assign(alloc, *range, *generation, *until),
                MapBody::Renew {
                    range,
                    generation,
                    until,
                } => {
                    self.renew(*range, *generation, *until);
                    Ok(Sent::nothing(alloc))
                }
                _ => Ok(Sent::nothing(alloc)),
            },
            _ => Ok(Sent::nothing(alloc)),
        }
    }

    /// What is done with a packet: the rule of its body. An error is out of memory (22), which comes only of an assignment, of
    /// what a user asks and of an answer, and nothing has changed. A server with no numbers left for its requests does nothing.
    pub fn handle(&mut self, alloc: Global, packet: &Packet) -> Result<Sent, AllocError>
        ensures ok { IfOk result (λ t. server_rule self.old packet.now packet.now.body ≡ outcome t self.new) }
        ensures needed { OnErr result (needs_memory packet.now.body ≡ true) }
        ensures err { OnErr result (self.new ≡ self.old) }
        ensures short { IfOk result IsShort }
    {
        if !has_numbers(&self.context) {
            return Ok(Sent::nothing(alloc));
        }
        match &packet.body {
            Body::Append(_) => self.answered(alloc, packet),
            Body::Check(_) => self.answered(alloc, packet),
            Body::Seal(_) => self.answered(alloc, packet),
            Body::Read(_) => self.answered(alloc, packet),
            Body::Stream(_) => self.answered(alloc, packet),
            Body::Map(body) => match body {
                MapBody::Assign { .. } => self.told(alloc, packet.from, body),
                MapBody::Renew { .. } => self.told(alloc, packet.from, body),
                _ => self.answered(alloc, packet),
            },
            Body::Table(body) => self.asked(alloc, packet, body),
        }
    }

    /// The jobs of a range give up on the answers that they wait for, its split or its merge behind them, and new extents are made on these nodes from now on.
    /// 22: no memory. 30: the server does not hold the range. After a refusal nothing has changed. A server with no numbers left
    /// for its requests does nothing, and makes new extents on the nodes that it had.
    #[tactic(auto, using(crate::proofs::Entries::found_again, crate::proofs::Entries::set_same, crate::proofs::Merged::given_up_after))]
    pub fn give_up(
        &mut self,
        alloc: Global,
        range: RangeId,
        pick: &Nodes,
    ) -> Result<Sent, RangeFault>
        ensures ok { IfOk result (λ t. give_up_rule self.old range pick.now ≡ Some (outcome t self.new)) }
        ensures refused { refusal_in result ≡ give_up_fault range pick.now (Some self.old) }
        ensures err { OnErr result (self.new ≡ self.old) }
        ensures short { IfOk result IsShort }
    {
        let told = ServerContext {
            pick: *pick,
            ..self.context
        };
        match self.ranges.get_mut(&range.0) {
            None => Err(RangeFault::NotOwner),
            Some(state) => {
                if !has_numbers(&told) {
                    return Ok(Sent::nothing(alloc));
                }
                let room = StepRoom::for_give_up(alloc, &self.splits, &self.merges, range.0)?;
                match state.give_up(alloc, &told) {
                    Ok(taken) => {
                        self.context = told;
                        Ok(self.settle_again(range.0, taken, room))
                    }
                    Err(_full) => Err(RangeFault::Memory),
                }
            }
        }
    }

    /// A checkpoint of a range begins: what its memory table has is written as pages, and goes on by the answers to them. Where it
    /// combines, which is asked or comes of 16 indexes, the pages of its indexes are read first, and what they and the memory
    /// table say together is written, in place of all older indexes.
    /// 22: no memory. 30: the server does not hold the range. 38: the range is not served yet. 34: it is paused.
    /// 35: a checkpoint, a split or a merge of it is under way. After a refusal nothing has changed. A server with no numbers left for its requests does nothing.
    #[tactic(auto, using(crate::proofs::Entries::found_again, crate::proofs::Entries::set_same, crate::proofs::Merged::stepped_after, crate::proofs::Checkpoints::refused_so))]
    pub fn checkpoint(
        &mut self,
        alloc: Global,
        range: RangeId,
        combine: bool,
    ) -> Result<Sent, RangeFault>
        ensures ok { IfOk result (λ t. server_checkpoint self.old range combine ≡ outcome t self.new) }
        ensures refused { refusal_in result ≡ checkpoint_refusal self.old range }
        ensures err { OnErr result (self.new ≡ self.old) }
        ensures short { IfOk result IsShort }
    {
        let Some(state) = self.ranges.get_mut(&range.0) else {
            return Err(RangeFault::NotOwner);
        };
        if let Some(refusal) = state.checkpoint_fault() {
            return Err(RangeFault::of_beginning(refusal));
        }
        if has_jobs(&self.splits, &self.merges, range.0) {
            return Err(RangeFault::Busy);
        }
        if !has_numbers(&self.context) {
            return Ok(Sent::nothing(alloc));
        }
        match state.freeze(alloc, &self.context, combine) {
            Ok(taken) => Ok(self.settle(range.0, taken, StepRoom::nothing())),
            Err(_full) => Err(RangeFault::Memory),
        }
    }

    fn refuse(&self, alloc: Global, to: ActorId, request: &ReqNo) -> Result<Sent, AllocError>
        ensures packets { IfOk result (λ t. t ≡ record { packets = refuses self.now.context to request.now NotOwner ∷ []; notes = [] }) }
    {
        let mut sent = Sent::nothing(alloc);
        sent.packets
            .push(refusal(&self.context, to, request, Refusal::NotOwner))?;
        Ok(sent)
    }
}
