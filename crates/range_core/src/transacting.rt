//! A transaction comes.
ghost use Rattle.std.specs.Prelude.{◌≡◌, ◌<◌, ◌+◌, ◌^◌, [], ◌∷◌, length, None, IfOk, OnErr};
ghost use Rattle.model_partition.specs.Range.{RangeState, answers, refuses, is_serving, waiting_out};
ghost use Rattle.model_partition.specs.Serving.{transact_fault, transact_rule, lease_ended};
ghost use Rattle.commitlog.specs.Record.{IsTransaction};
ghost use Rattle.range_commit.specs.Queue.{changes_fault};
ghost use Rattle.range_core.specs.Steps.{outcome, IsShort};

use crate::range_step::RangeStep;
use crate::state::RangeState;
use model_partition::{ServerContext, Stage, WaitingTransaction};
use range_commit::{MAX_WAITING, change_fault};
use std::alloc::{AllocError, Global};
use wire::{ActorId, AppendBody, Body, Changes, Packet, Refusal, ReqNo};

/// From how many bytes on a memory table takes no transaction.
const MAX_TABLE: u64 = 67_108_864;

/// A refusal goes to the one who asked, and nothing changes.
pub(crate) fn refused(
    alloc: Global,
    context: &ServerContext,
    to: ActorId,
    request: &ReqNo,
    refusal: Refusal,
) -> Result<RangeStep, AllocError>
    ensures rule { IfOk result (λ t. (r : RangeState) → answers context.now r (refuses context.now to request.now refusal ∷ []) ≡ outcome t r) }
    ensures short { IfOk result IsShort }
{
    let mut packets = Vec::with_capacity(alloc, 1)?;
    packets.push(Packet {
        from: ActorId::Server(context.server),
        to,
        body: Body::Append(AppendBody::Refused {
            request: *request,
            refusal,
        }),
    })?;
    Ok(RangeStep::sends(alloc, context.count, packets))
}

impl RangeState {
    /// Whether it is served.
    pub(crate) fn is_serving(&self) -> bool
        ensures { result ≡ is_serving self.now.stage }
    {
        match self.content.stage {
            Stage::Serving => true,
            _ => false,
        }
    }

    /// Whether its lease has ended.
    pub(crate) fn lease_ended(&self, context: &ServerContext) -> bool
        ensures { result ≡ lease_ended context.now self.now }
    {
        self.until <= context.moment
    }

    /// Why no record of the range holds these changes: 37, 36, 37 or 33, the first that is met.
    fn changes_fault(&self, changes: &Changes) -> Option<Refusal>
        ensures value { result ≡ changes_fault self.now.said.keys changes.now }
        ensures fits { result ≡ None → IsTransaction changes.now }
    {
        change_fault(changes.as_slice(), &self.content.said.keys)
    }

    /// Why a transaction is refused: 38, 34, 32, 37, 36, 37, 33 or 35, the first that is met.
    fn transact_fault(&self, context: &ServerContext, changes: &Changes) -> Option<Refusal>
        ensures value { result ≡ transact_fault context.now self.now changes.now }
        ensures room { result ≡ None → length (waiting_out self.now.out) + length self.now.queue < 1024 }
        ensures fits { result ≡ None → IsTransaction changes.now }
    {
        if !self.is_serving() {
            return Some(Refusal::Loading);
        }
        if self.pause.takes_no_transaction() {
            return Some(Refusal::Paused);
        }
        if self.lease_ended(context) {
            return Some(Refusal::LeaseEnded);
        }
        let fault = self.changes_fault(changes);
        if fault.is_some() {
            return fault;
        }
        if self.queue.count() >= MAX_WAITING || self.content.table.size() >= MAX_TABLE {
            return Some(Refusal::Busy);
        }
        None
    }

    /// A transaction of a user waits to be appended, and the next group is formed if none is out. It is refused 38 while the
    /// range is loaded, 34 from when it is being paused on, 32 once its lease has ended, 37 with no change or more than 32, 36 where a key has no byte or more than
    /// 256, 37 where a value has more than 65,536 bytes, 33 where a key is not of the range, and 35 where 1,024 wait or the
    /// memory table is full, the first of these that is met; nothing changes then. Where memory runs out (22) nothing has changed.
    pub fn transact(
        &mut self,
        alloc: Global,
        context: &ServerContext,
        from: ActorId,
        request: &ReqNo,
        changes: &Changes,
    ) -> Result<RangeStep, AllocError>
        requires numbers { context.now.count + 1024 < 2 ^ 64 }
        ensures ok { IfOk result (λ t. transact_rule context.now self.old from request.now changes.now ≡ outcome t self.new) }
        ensures err { OnErr result (self.new ≡ self.old) }
        ensures short { IfOk result IsShort }
    {
        if let Some(refusal) = self.transact_fault(context, changes) {
            return refused(alloc, context, from, request, refusal);
        }
        let changes = changes.copy()?;
        self.queue.push(WaitingTransaction {
            from,
            request: *request,
            changes,
        })?;
        match self.form(alloc, context) {
            Ok(taken) => Ok(taken),
            Err(full) => {
                self.queue.take_back();
                Err(full)
            }
        }
    }
}
