//! A Get comes, or the bytes of a page or of a value.
ghost use Rattle.std.specs.Prelude.{◌≡◌, ◌<◌, ◌+◌, ◌^◌, length, None, IfOk, OnErr};
ghost use Rattle.model_partition.specs.Getting.{get_fault, get_rule};
ghost use Rattle.model_partition.specs.Answering.{gets_reply, load_refused};
ghost use Rattle.range_core.specs.Steps.{outcome, IsShort};

use crate::range_step::RangeStep;
use crate::state::{RangeState, extents_of, indexes_of, known_extents};
use crate::transacting::refused;
use bytes::Bytes;
use memtable::MAX_KEY;
use model_partition::ServerContext;
use range_reads::{Asking, MAX_GETS};
use std::alloc::{AllocError, Global};
use wire::{ActorId, AppendBody, Body, ReadBody, Refusal, ReqNo};

impl RangeState {
    /// Why a Get is refused: 38, 34, 32, 36, 33 or 35, the first that is met.
    fn get_fault(&self, context: &ServerContext, key: &Bytes) -> Option<Refusal>
        ensures value { result ≡ get_fault context.now self.now key.now }
        ensures room { result ≡ None → length self.now.gets < 256 }
    {
        if !self.is_serving() {
            return Some(Refusal::Loading);
        }
        if self.pause.is_paused() {
            return Some(Refusal::Paused);
        }
        if self.lease_ended(context) {
            return Some(Refusal::LeaseEnded);
        }
        if key.is_empty() || key.len() > MAX_KEY {
            return Some(Refusal::BadKey);
        }
        if !self.content.said.keys.contains(key) {
            return Some(Refusal::OutOfRange);
        }
        if self.lookups.count() >= MAX_GETS {
            return Some(Refusal::Busy);
        }
        None
    }

    /// A Get of a user is answered from the memory table and the indexes, or waits for the bytes of a page or of a value. It is
    /// refused 38 while the range is loaded, 34 while it is paused, 32 once its lease has ended, 36 where the key has no byte or
    /// more than 256, 33 where it is not of the range, and 35 where 256 wait, the first of these that is met; nothing changes then. The pages that may have
    /// its key, where the memory table does not, and the value that it finds in the cache are then those most recently used. What is
    /// answered is shown. Where memory runs out (22) nothing has changed.
    pub fn get(
        &mut self,
        alloc: Global,
        context: &ServerContext,
        from: ActorId,
        request: &ReqNo,
        key: &Bytes,
    ) -> Result<RangeStep, AllocError>
        requires numbers { context.now.count + 1024 < 2 ^ 64 }
        ensures ok { IfOk result (λ t. get_rule context.now self.old from request.now key.now ≡ outcome t self.new) }
        ensures err { OnErr result (self.new ≡ self.old) }
        ensures short { IfOk result IsShort }
    {
        if let Some(refusal) = self.get_fault(context, key) {
            return refused(alloc, context, from, request, refusal);
        }
        let key = key.clone()?;
        let content = &self.content;
        let asking = Asking {
            context,
            range: content.load.range,
            generation: content.load.generation,
            until: self.until,
            pause: self.pause,
            table: &content.table,
            log: known_extents(&content.log),
            blob: extents_of(&content.blob_data),
            rows: known_extents(&content.rows),
            indexes: indexes_of(content),
        };
        match self.lookups.get(alloc, &asking, from, *request, key) {
            Ok(tried) => Ok(RangeStep::of_gets(tried)),
            Err(full) => Err(full),
        }
    }

    /// The read of a page or of a value is refused: the range is dropped where its generation is an old one (3), and those who
    /// wait are told so (30). Nothing comes of another refusal. An error is out of memory (22).
    fn read_refused(
        &self,
        alloc: Global,
        context: &ServerContext,
        body: &AppendBody,
    ) -> Result<RangeStep, AllocError>
        requires numbers { context.now.count + 1024 < 2 ^ 64 }
        ensures ok { IfOk result (λ t. load_refused context.now self.now body.now ≡ outcome t self.now) }
        ensures short { IfOk result IsShort }
    {
        match body {
            AppendBody::Refused {
                refusal: Refusal::Stale,
                ..
            } => {
                let farewell = self.refusals(alloc, context)?;
                Ok(RangeStep::drops(alloc, context.count + 1, farewell))
            }
            _ => Ok(RangeStep::sends(alloc, context.count, Vec::new(alloc))),
        }
    }

    /// The bytes of a page or of a value have come: each Get that waits is tried again (34 where the range is paused, 32 once its
    /// lease has ended), and the bytes are held, the most recently
    /// used, where they are what was asked for. Bytes that spell no page where one was asked for change nothing. Or the read is
    /// refused. No other answer is for a Get. Each Get that is answered is shown. Where memory runs out (22) nothing has changed.
    pub(crate) fn gets_reply(
        &mut self,
        alloc: Global,
        context: &ServerContext,
        request: &ReqNo,
        body: &Body,
    ) -> Result<RangeStep, AllocError>
        requires numbers { context.now.count + 1024 < 2 ^ 64 }
        ensures ok { IfOk result (λ t. gets_reply context.now self.old request.now body.now ≡ outcome t self.new) }
        ensures err { OnErr result (self.new ≡ self.old) }
        ensures short { IfOk result IsShort }
    {
        match body {
            Body::Read(
                ReadBody::Bytes {
                    extent,
                    offset,
                    bytes,
                    ..
                },
            ) => {
                let content = &self.content;
                let asking = Asking {
                    context,
                    range: content.load.range,
                    generation: content.load.generation,
                    until: self.until,
                    pause: self.pause,
                    table: &content.table,
                    log: known_extents(&content.log),
                    blob: extents_of(&content.blob_data),
                    rows: known_extents(&content.rows),
                    indexes: indexes_of(content),
                };
                match self
                    .lookups
                    .bytes(alloc, &asking, request, *extent, *offset, bytes)
                {
                    Ok(tried) => Ok(RangeStep::of_gets(tried)),
                    Err(full) => Err(full),
                }
            }
            Body::Append(refused) => self.read_refused(alloc, context, refused),
            _ => Ok(RangeStep::sends(alloc, context.count, Vec::new(alloc))),
        }
    }
}
