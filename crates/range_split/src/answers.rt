//! Answers that a split waits for.
ghost use Rattle.std.specs.Prelude.{◌≡◌, ◌<◌, ◌+◌, ◌^◌, false, IfOk, OnErr};
ghost use Rattle.model_partition.specs.Splits as rules;
ghost use Rattle.range_split.specs.Steps.{outcome, IsShort};

use crate::key_answers::{are_said, ends, keys_reply};
use crate::seals::{SealedExtent, last_sealed};
use crate::side_metadata::says_keys;
use crate::taken::SplitTaken;
use model_partition::{ServerContext, Side, SplitJob, SplitPhase};
use range_core::RangeState;
use std::alloc::{AllocError, Global};
use wire::{AppendBody, Body, MapBody, Packet, RangeId, Refusal, SealBody, StreamBody};

/// Whether a checkpoint of the range can begin, and be written.
fn may_checkpoint(state: &RangeState) -> bool
    ensures value { result ≡ rules.may_checkpoint state.now }
{
    state.checkpoint_fault().is_none()
}

/// Whether the records of the checkpoint, of the split, and of the keys of the two have numbers, and one is left after them.
fn has_record_numbers(state: &RangeState) -> bool
    ensures { result ≡ rules.has_record_numbers state.now }
{
    state.content.said.next < u64::MAX - 2
}

/// The map has numbered the two ranges: the checkpoint begins, where one can, and the record of the split comes after its record.
fn begun(
    alloc: Global,
    context: &ServerContext,
    state: &mut RangeState,
    job: &mut SplitJob,
    low: RangeId,
    high: RangeId,
) -> Result<SplitTaken, AllocError>
    requires numbers { context.now.count + 1024 < 2 ^ 64 }
    ensures ok { IfOk result (λ t. rules.begun context.now state.old job.old low high ≡ outcome t state.new job.new) }
    ensures err { OnErr result (state.new ≡ state.old) }
    ensures kept { OnErr result (job.new ≡ job.old) }
    ensures short { IfOk result IsShort }
{
    if !may_checkpoint(state) || !has_record_numbers(state) {
        return Ok(SplitTaken::rests(alloc, context.count));
    }
    let number = state.content.said.next + 1;
    let taken = state.freeze(alloc, context, false)?;
    job.low = low;
    job.high = high;
    job.number = number;
    job.phase = SplitPhase::Checkpoint;
    Ok(SplitTaken {
        dropped: taken.dropped,
        ended: false,
        count: taken.count,
        packets: taken.packets,
    })
}

/// The manager or the map refuses.
fn refused(
    alloc: Global,
    context: &ServerContext,
    state: &RangeState,
    job: &mut SplitJob,
    refusal: Refusal,
) -> Result<SplitTaken, AllocError>
    requires numbers { context.now.count + 1024 < 2 ^ 64 }
    ensures ok { IfOk result (λ t. rules.refused context.now state.now job.old job.old.phase refusal ≡ outcome t state.now job.new) }
    ensures err { OnErr result (job.new ≡ job.old) }
    ensures short { IfOk result IsShort }
{
    match refusal {
        Refusal::Stale => ends(alloc, context, state),
        Refusal::NameTaken => match job.phase {
            SplitPhase::Build { .. } => says_keys(alloc, context, state, job, Side::Low),
            _ => Ok(SplitTaken::rests(alloc, context.count)),
        },
        Refusal::GenerationChanged => match job.phase {
            SplitPhase::Complete { .. } => ends(alloc, context, state),
            _ => Ok(SplitTaken::rests(alloc, context.count)),
        },
        _ => Ok(SplitTaken::rests(alloc, context.count)),
    }
}

/// What the map tells.
fn map_told(
    alloc: Global,
    context: &ServerContext,
    state: &mut RangeState,
    job: &mut SplitJob,
    body: &MapBody,
) -> Result<SplitTaken, AllocError>
    requires numbers { context.now.count + 1024 < 2 ^ 64 }
    ensures ok { IfOk result (λ t. rules.map_told context.now state.old job.old job.old.phase body.now ≡ outcome t state.new job.new) }
    ensures err { OnErr result (state.new ≡ state.old) }
    ensures kept { OnErr result (job.new ≡ job.old) }
    ensures short { IfOk result IsShort }
{
    match job.phase {
        SplitPhase::Begin { .. } => match body {
            MapBody::SplitBegun { low, high, .. } => {
                begun(alloc, context, state, job, *low, *high)
            }
            _ => Ok(SplitTaken::rests(alloc, context.count)),
        },
        SplitPhase::Complete { .. } => match body {
            MapBody::SplitDone { .. } => ends(alloc, context, state),
            _ => Ok(SplitTaken::rests(alloc, context.count)),
        },
        _ => Ok(SplitTaken::rests(alloc, context.count)),
    }
}

/// What the manager tells of an extent.
fn seal_told(
    alloc: Global,
    context: &ServerContext,
    state: &mut RangeState,
    job: &mut SplitJob,
    body: &SealBody,
) -> Result<SplitTaken, AllocError>
    requires numbers { context.now.count + 1024 < 2 ^ 64 }
    ensures ok { IfOk result (λ t. rules.seal_told context.now state.old job.old job.old.phase body.now ≡ outcome t state.new job.new) }
    ensures err { OnErr result (state.new ≡ state.old) }
    ensures kept { OnErr result (job.new ≡ job.old) }
    ensures short { IfOk result IsShort }
{
    match job.phase {
        SplitPhase::Seal { kind, .. } => match body {
            SealBody::SealedIs { extent, length, .. } => {
                let sealed = SealedExtent {
                    kind,
                    extent: *extent,
                    length: *length,
                };
                last_sealed(alloc, context, state, job, sealed)
            }
            _ => Ok(SplitTaken::rests(alloc, context.count)),
        },
        _ => Ok(SplitTaken::rests(alloc, context.count)),
    }
}

/// What the manager tells of streams.
fn stream_told(
    alloc: Global,
    context: &ServerContext,
    state: &RangeState,
    job: &mut SplitJob,
    body: &StreamBody,
) -> Result<SplitTaken, AllocError>
    requires numbers { context.now.count + 1024 < 2 ^ 64 }
    ensures ok { IfOk result (λ t. rules.stream_told context.now state.now job.old job.old.phase body.now ≡ outcome t state.now job.new) }
    ensures err { OnErr result (job.new ≡ job.old) }
    ensures short { IfOk result IsShort }
{
    match job.phase {
        SplitPhase::Build { .. } => match body {
            StreamBody::Modified { .. } => says_keys(alloc, context, state, job, Side::Low),
            _ => Ok(SplitTaken::rests(alloc, context.count)),
        },
        _ => Ok(SplitTaken::rests(alloc, context.count)),
    }
}

/// What is told to the split itself, and not to the client of one of the two.
fn told(
    alloc: Global,
    context: &ServerContext,
    state: &mut RangeState,
    job: &mut SplitJob,
    body: &Body,
) -> Result<SplitTaken, AllocError>
    requires numbers { context.now.count + 1024 < 2 ^ 64 }
    ensures ok { IfOk result (λ t. rules.told context.now state.old job.old body.now ≡ outcome t state.new job.new) }
    ensures err { OnErr result (state.new ≡ state.old) }
    ensures kept { OnErr result (job.new ≡ job.old) }
    ensures short { IfOk result IsShort }
{
    match body {
        Body::Append(body) => match body {
            AppendBody::Refused { refusal, .. } => refused(alloc, context, state, job, *refusal),
            _ => Ok(SplitTaken::rests(alloc, context.count)),
        },
        Body::Map(body) => map_told(alloc, context, state, job, body),
        Body::Seal(body) => seal_told(alloc, context, state, job, body),
        Body::Stream(body) => stream_told(alloc, context, state, job, body),
        _ => Ok(SplitTaken::rests(alloc, context.count)),
    }
}

/// An answer that the split waits for. The map has numbered the two ranges, and a checkpoint begins where one can; the last extent
/// of a stream is sealed, and the next one is to be, or the streams of the two are to be built; these are built, or there are already
/// (12), and the keys of the lower range are appended, and then those of the higher; these stand, and the map is to put the two in
/// the place of the range; and it has, and the range goes with its split. It goes too where its generation is an old one (3), and
/// where the map has it under another (41), and those who wait are told that this server does not hold it (30). All else leaves the
/// split waiting. Where memory runs out (22) nothing has changed.
pub fn reply(
    alloc: Global,
    context: &ServerContext,
    state: &mut RangeState,
    job: &mut SplitJob,
    packet: &Packet,
) -> Result<SplitTaken, AllocError>
    requires numbers { context.now.count + 1024 < 2 ^ 64 }
    ensures ok { IfOk result (λ t. rules.split_reply context.now state.old job.old packet.now.body ≡ outcome t state.new job.new) }
    ensures err { OnErr result (state.new ≡ state.old) }
    ensures kept { OnErr result (job.new ≡ job.old) }
    ensures short { IfOk result IsShort }
{
    if are_said(&job.phase) {
        return keys_reply(alloc, context, state, job, packet);
    }
    told(alloc, context, state, job, &packet.body)
}
