//! Answers that a merge waits for.
ghost use Rattle.std.specs.Prelude.{◌≡◌, ◌<◌, ◌+◌, ◌^◌, IfOk, OnErr};
ghost use Rattle.model_partition.specs.Range.{RangeState as RangeStateOf};
ghost use Rattle.model_partition.specs.Splits.{may_checkpoint};
ghost use Rattle.model_partition.specs.declared.merge_job.MergeJob.{MergeJob as MergeJobState};
ghost use Rattle.model_partition.specs.Merges as rules;
ghost use Rattle.range_merge.specs.Steps.{outcome, IsShort};
ghost use Rattle.range_merge.specs.WriteAnswers.{is_writing};

use crate::departures::{ends, loses, parts};
use crate::seals::{SealedPart, last_sealed};
use crate::taken::MergeTaken;
use crate::write_answers::{is_writing, write_reply};
use crate::writing::{created, creates};
use model_partition::{MergeJob, MergePhase, MergeSide, ServerContext};
use range_core::RangeState;
use std::alloc::{AllocError, Global};
use wire::{AppendBody, Body, MapBody, Packet, RangeId, Refusal, SealBody, StreamBody};

/// Whether a checkpoint of the range can begin, and be written.
pub(crate) fn may_checkpoint(state: &RangeState) -> bool
    ensures value { result ≡ may_checkpoint state.now }
{
    state.checkpoint_fault().is_none()
}

/// The map has numbered the new range: the checkpoint of the left one begins, where one can.
fn begun(
    alloc: Global,
    context: &ServerContext,
    left: &mut RangeState,
    job: &mut MergeJob,
    into: RangeId,
) -> Result<MergeTaken, AllocError>
    requires numbers { context.now.count + 1024 < 2 ^ 64 }
    ensures ok { IfOk result (λ t. (r : RangeStateOf) → rules.begun context.now left.old r job.old into ≡ outcome t left.new r job.new) }
    ensures left { OnErr result (left.new ≡ left.old) }
    ensures kept { OnErr result (job.new ≡ job.old) }
    ensures short { IfOk result IsShort }
{
    if !may_checkpoint(left) {
        return Ok(MergeTaken::rests(alloc, context.count));
    }
    let taken = left.freeze(alloc, context, false)?;
    job.into = into;
    job.phase = MergePhase::Checkpoint {
        side: MergeSide::Left,
    };
    Ok(MergeTaken {
        left_dropped: taken.dropped,
        right_dropped: false,
        ended: false,
        count: taken.count,
        packets: taken.packets,
    })
}

/// The map does not begin the merge: it ends, and the left range goes where its generation is an old one.
fn begin_refused(
    alloc: Global,
    context: &ServerContext,
    left: &mut RangeState,
    right: &mut RangeState,
    refusal: Refusal,
) -> Result<MergeTaken, AllocError>
    requires numbers { context.now.count + 1 < 2 ^ 64 }
    ensures ok { IfOk result (λ t. (job : MergeJobState) → rules.begin_refused context.now left.old right.old job refusal ≡ outcome t left.new right.new job) }
    ensures left { OnErr result (left.new ≡ left.old) }
    ensures right { OnErr result (right.new ≡ right.old) }
    ensures short { IfOk result IsShort }
{
    match refusal {
        Refusal::Stale => loses(alloc, context, left, right, MergeSide::Left),
        Refusal::NotOwner => Ok(parts(alloc, context)),
        Refusal::NotAdjacent => Ok(parts(alloc, context)),
        Refusal::GenerationChanged => Ok(parts(alloc, context)),
        _ => Ok(MergeTaken::rests(alloc, context.count)),
    }
}

/// The manager refuses to seal an extent of one of the two.
fn seal_refused(
    alloc: Global,
    context: &ServerContext,
    left: &mut RangeState,
    right: &mut RangeState,
    side: MergeSide,
    refusal: Refusal,
) -> Result<MergeTaken, AllocError>
    requires numbers { context.now.count + 1 < 2 ^ 64 }
    ensures ok { IfOk result (λ t. (job : MergeJobState) → rules.seal_refused context.now left.old right.old job side refusal ≡ outcome t left.new right.new job) }
    ensures left { OnErr result (left.new ≡ left.old) }
    ensures right { OnErr result (right.new ≡ right.old) }
    ensures short { IfOk result IsShort }
{
    match refusal {
        Refusal::Stale => loses(alloc, context, left, right, side),
        _ => Ok(MergeTaken::rests(alloc, context.count)),
    }
}

/// The manager refuses to build the streams of the new range; that they are there counts as that they are built.
fn build_refused(
    alloc: Global,
    context: &ServerContext,
    left: &RangeState,
    right: &RangeState,
    job: &mut MergeJob,
    refusal: Refusal,
) -> Result<MergeTaken, AllocError>
    requires numbers { context.now.count + 1 < 2 ^ 64 }
    ensures ok { IfOk result (λ t. rules.build_refused context.now left.now right.now job.old refusal ≡ outcome t left.now right.now job.new) }
    ensures kept { OnErr result (job.new ≡ job.old) }
    ensures short { IfOk result IsShort }
{
    match refusal {
        Refusal::Stale => ends(alloc, context, left, right),
        Refusal::NameTaken => creates(alloc, context, job),
        _ => Ok(MergeTaken::rests(alloc, context.count)),
    }
}

/// The manager refuses to make the metadata of the new range; that it is there counts as that it is made.
fn create_refused(
    alloc: Global,
    context: &ServerContext,
    left: &RangeState,
    right: &RangeState,
    job: &mut MergeJob,
    refusal: Refusal,
) -> Result<MergeTaken, AllocError>
    requires numbers { context.now.count + 1 < 2 ^ 64 }
    ensures ok { IfOk result (λ t. rules.create_refused context.now left.now right.now job.old refusal ≡ outcome t left.now right.now job.new) }
    ensures kept { OnErr result (job.new ≡ job.old) }
    ensures short { IfOk result IsShort }
{
    match refusal {
        Refusal::Stale => ends(alloc, context, left, right),
        Refusal::NameTaken => created(alloc, context, left, right, job),
        _ => Ok(MergeTaken::rests(alloc, context.count)),
    }
}

/// The map refuses to put the new range in the place of the two.
fn complete_refused(
    alloc: Global,
    context: &ServerContext,
    left: &RangeState,
    right: &RangeState,
    refusal: Refusal,
) -> Result<MergeTaken, AllocError>
    requires numbers { context.now.count + 1 < 2 ^ 64 }
    ensures ok { IfOk result (λ t. (job : MergeJobState) → rules.complete_refused context.now left.now right.now job refusal ≡ outcome t left.now right.now job) }
    ensures short { IfOk result IsShort }
{
    match refusal {
        Refusal::Stale => ends(alloc, context, left, right),
        Refusal::GenerationChanged => ends(alloc, context, left, right),
        _ => Ok(MergeTaken::rests(alloc, context.count)),
    }
}

/// The manager or the map refuses.
fn refused(
    alloc: Global,
    context: &ServerContext,
    left: &mut RangeState,
    right: &mut RangeState,
    job: &mut MergeJob,
    refusal: Refusal,
) -> Result<MergeTaken, AllocError>
    requires numbers { context.now.count + 1024 < 2 ^ 64 }
    ensures ok { IfOk result (λ t. rules.refused context.now left.old right.old job.old job.old.phase refusal ≡ outcome t left.new right.new job.new) }
    ensures left { OnErr result (left.new ≡ left.old) }
    ensures right { OnErr result (right.new ≡ right.old) }
    ensures kept { OnErr result (job.new ≡ job.old) }
    ensures short { IfOk result IsShort }
{
    match job.phase {
        MergePhase::Begin { .. } => begin_refused(alloc, context, left, right, refusal),
        MergePhase::Seal { side, .. } => seal_refused(alloc, context, left, right, side, refusal),
        MergePhase::Build { .. } => build_refused(alloc, context, left, right, job, refusal),
        MergePhase::Create { .. } => create_refused(alloc, context, left, right, job, refusal),
        MergePhase::Complete { .. } => complete_refused(alloc, context, left, right, refusal),
        _ => Ok(MergeTaken::rests(alloc, context.count)),
    }
}

/// What the map tells.
fn map_told(
    alloc: Global,
    context: &ServerContext,
    left: &mut RangeState,
    right: &RangeState,
    job: &mut MergeJob,
    body: &MapBody,
) -> Result<MergeTaken, AllocError>
    requires numbers { context.now.count + 1024 < 2 ^ 64 }
    ensures ok { IfOk result (λ t. rules.map_told context.now left.old right.now job.old job.old.phase body.now ≡ outcome t left.new right.now job.new) }
    ensures left { OnErr result (left.new ≡ left.old) }
    ensures kept { OnErr result (job.new ≡ job.old) }
    ensures short { IfOk result IsShort }
{
    match job.phase {
        MergePhase::Begin { .. } => match body {
            MapBody::MergeBegun { range, .. } => begun(alloc, context, left, job, *range),
            _ => Ok(MergeTaken::rests(alloc, context.count)),
        },
        MergePhase::Complete { .. } => match body {
            MapBody::MergeDone { .. } => ends(alloc, context, left, right),
            _ => Ok(MergeTaken::rests(alloc, context.count)),
        },
        _ => Ok(MergeTaken::rests(alloc, context.count)),
    }
}

/// What the manager tells of an extent.
fn seal_told(
    alloc: Global,
    context: &ServerContext,
    left: &mut RangeState,
    right: &mut RangeState,
    job: &mut MergeJob,
    body: &SealBody,
) -> Result<MergeTaken, AllocError>
    requires numbers { context.now.count + 1024 < 2 ^ 64 }
    ensures ok { IfOk result (λ t. rules.seal_told context.now left.old right.old job.old job.old.phase body.now ≡ outcome t left.new right.new job.new) }
    ensures left { OnErr result (left.new ≡ left.old) }
    ensures right { OnErr result (right.new ≡ right.old) }
    ensures kept { OnErr result (job.new ≡ job.old) }
    ensures short { IfOk result IsShort }
{
    match job.phase {
        MergePhase::Seal { side, kind, .. } => match body {
            SealBody::SealedIs { extent, length, .. } => {
                let sealed = SealedPart {
                    side,
                    kind,
                    extent: *extent,
                    length: *length,
                };
                last_sealed(alloc, context, left, right, job, &sealed)
            }
            _ => Ok(MergeTaken::rests(alloc, context.count)),
        },
        _ => Ok(MergeTaken::rests(alloc, context.count)),
    }
}

/// What the manager tells of streams.
fn stream_told(
    alloc: Global,
    context: &ServerContext,
    left: &RangeState,
    right: &RangeState,
    job: &mut MergeJob,
    body: &StreamBody,
) -> Result<MergeTaken, AllocError>
    requires numbers { context.now.count + 1024 < 2 ^ 64 }
    ensures ok { IfOk result (λ t. rules.stream_told context.now left.now right.now job.old job.old.phase body.now ≡ outcome t left.now right.now job.new) }
    ensures kept { OnErr result (job.new ≡ job.old) }
    ensures short { IfOk result IsShort }
{
    match job.phase {
        MergePhase::Build { .. } => match body {
            StreamBody::Modified { .. } => creates(alloc, context, job),
            _ => Ok(MergeTaken::rests(alloc, context.count)),
        },
        MergePhase::Create { .. } => match body {
            StreamBody::Created { .. } => created(alloc, context, left, right, job),
            _ => Ok(MergeTaken::rests(alloc, context.count)),
        },
        _ => Ok(MergeTaken::rests(alloc, context.count)),
    }
}

/// What is told to the merge itself, and not to the client of the new range's metadata.
fn told(
    alloc: Global,
    context: &ServerContext,
    left: &mut RangeState,
    right: &mut RangeState,
    job: &mut MergeJob,
    body: &Body,
) -> Result<MergeTaken, AllocError>
    requires numbers { context.now.count + 1024 < 2 ^ 64 }
    ensures ok { IfOk result (λ t. rules.told context.now left.old right.old job.old body.now ≡ outcome t left.new right.new job.new) }
    ensures left { OnErr result (left.new ≡ left.old) }
    ensures right { OnErr result (right.new ≡ right.old) }
    ensures kept { OnErr result (job.new ≡ job.old) }
    ensures short { IfOk result IsShort }
{
    match body {
        Body::Append(body) => match body {
            AppendBody::Refused { refusal, .. } => {
                refused(alloc, context, left, right, job, *refusal)
            }
            _ => Ok(MergeTaken::rests(alloc, context.count)),
        },
        Body::Map(body) => map_told(alloc, context, left, right, job, body),
        Body::Seal(body) => seal_told(alloc, context, left, right, job, body),
        Body::Stream(body) => stream_told(alloc, context, left, right, job, body),
        _ => Ok(MergeTaken::rests(alloc, context.count)),
    }
}

/// An answer that the merge waits for. The map has numbered the new range, and the checkpoint of the left one begins where one can, or
/// the map does not begin the merge (30, 40, 41), and it ends; the last extent of a stream is sealed, and the next one is to be, or the
/// streams of the new range are to be built; these are built, or there are already (12), and its metadata is to be made; that is made,
/// or is there already (12), and the keys are appended to it, and then the indexes and regions; these stand, and the map is to put
/// the new range in the place of the two; and it has, and both go with their merge. They go too where the generation of the new
/// range is an old one (3), and where the map has one of them under another (41), and one of them goes where its seal is refused so (3);
/// those who wait are told that this server does not hold the range (30). All else leaves the merge waiting. Where memory runs out
/// (22) nothing has changed.
pub fn reply(
    alloc: Global,
    context: &ServerContext,
    left: &mut RangeState,
    right: &mut RangeState,
    job: &mut MergeJob,
    packet: &Packet,
) -> Result<MergeTaken, AllocError>
    requires numbers { context.now.count + 1024 < 2 ^ 64 }
    ensures ok { IfOk result (λ t. rules.merge_reply context.now left.old right.old job.old packet.now.body ≡ outcome t left.new right.new job.new) }
    ensures left { OnErr result (left.new ≡ left.old) }
    ensures right { OnErr result (right.new ≡ right.old) }
    ensures kept { OnErr result (job.new ≡ job.old) }
    ensures short { IfOk result IsShort }
{
    if is_writing(&job.phase) {
        return write_reply(alloc, context, left, right, job, packet);
    }
    told(alloc, context, left, right, job, &packet.body)
}
