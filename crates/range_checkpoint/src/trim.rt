//! The log is trimmed.
ghost use Rattle.std.specs.Prelude.{◌≡◌, ◌≤◌, ◌-◌, [], ◌∷◌, false, true, length, take, drop, IfOk, OnOk, OnErr};
ghost use Rattle.wire.specs.declared.actor.ReqNo.{ReqNo as Number};
ghost use Rattle.wire.specs.declared.body.StreamBody.TheVariants as streams;
ghost use Rattle.model_partition.specs.declared.server_context.ServerContext.{ServerContext as Context};
ghost use Rattle.model_partition.specs.Answering as answers;
ghost use Rattle.model_partition.specs.CheckpointStates.{CheckpointState, is_recording, last_job};
ghost use Rattle.model_partition.specs.Checkpoints as rules;
ghost use Rattle.model_partition.specs.Range.{RangeState, goes};
ghost use Rattle.model_partition.specs.RangeSteps.{RangePerforms, put};
ghost use Rattle.range_checkpoint.specs.Trims as specs;

use checkpoint::{CheckpointPages, InstalledIndex, PageMerge};
use client::StreamClient;
use model_partition::{
    CheckpointJob, CheckpointPhase, Progress, RangeContent, ServerContext, next_request,
};
use std::alloc::{AllocError, Global};
use streams::Position;
use wire::{
    ActorId, AppendBody, Body, Packet, Refusal, ReqNo, StreamBody, StreamExtent, StreamList,
};

/// The index below which the log is trimmed: that of the position, or that of the last extent where this is lower.
fn trim_index(log: &StreamClient, position: &Position) -> u64
    ensures { result ≡ rules.trim_index log.now position.now }
{
    let index = position.index;
    let count = log.extents.len() as u64;
    if count == 0 {
        return index;
    }
    match log.base.checked_add(count - 1) {
        None => index,
        Some(last) => index.min(last),
    }
}

/// Whether a value of the indexes stands in the log.
fn have_places(indexes: &[InstalledIndex]) -> bool
    ensures { result ≡ rules.have_places indexes.now }
{
    indexes.iter().any(|installed| installed.index.has_place)
}

/// The packet of a Trim.
pub(crate) fn trim_packet(
    content: &RangeContent,
    context: &ServerContext,
    before: u64,
    to_blob: bool,
    request: &ReqNo,
) -> Packet
    ensures { (r : RangeState) → result ≡ rules.trim_packet context.now (put content.now r) before to_blob request.now }
{
    Packet {
        from: ActorId::Server(context.server),
        to: ActorId::Manager,
        body: Body::Stream(StreamBody::Trim {
            range: content.load.range,
            generation: content.load.generation,
            before,
            to_blob,
            request: *request,
        }),
    }
}

/// The job of a checkpoint whose record stands.
fn trim_job(alloc: Global, position: &Position, next: u64, phase: &CheckpointPhase) -> CheckpointJob
    requires { is_recording phase.now ≡ false }
    ensures { result ≡ last_job position.now next phase.now }
{
    CheckpointJob {
        position: *position,
        next,
        combine: false,
        merge: PageMerge::new(alloc),
        pages: CheckpointPages::new(alloc),
        phase: *phase,
    }
}

/// The log is to be trimmed below the position that a checkpoint noted: the packet that asks so.
pub(crate) fn trims(
    content: &mut RangeContent,
    alloc: Global,
    context: &ServerContext,
    position: &Position,
    next: u64,
) -> Packet
    ensures { (job : CheckpointState) → job.position ≡ position.now → job.next ≡ next
        → (r : RangeState) → rules.trims context.now (put content.old r) job ≡ goes context.now (put content.new r) (result ∷ []) [] }
{
    let before = trim_index(&content.log, position);
    let to_blob = have_places(content.indexes.as_slice());
    let request = next_request(context);
    let packet = trim_packet(content, context, before, to_blob, &request);
    let phase = CheckpointPhase::Trim {
        before,
        to_blob,
        request,
    };
    content.control = Some(trim_job(alloc, position, next, &phase));
    packet
}

/// Whether a Trim is out under this number.
pub fn trim_awaits(control: &Option<CheckpointJob>, request: &ReqNo) -> bool
    ensures { result ≡ rules.trim_awaits control.now request.now }
{
    match control {
        None => false,
        Some(job) => match &job.phase {
            CheckpointPhase::Trim { request: own, .. } => own == request,
            _ => false,
        },
    }
}

/// The first of these extents stand at the end of a list. Where memory runs out (22) nothing has changed.
fn add_first(
    list: &mut StreamList,
    extents: &[StreamExtent],
    count: usize,
) -> Result<(), AllocError>
    requires { count ≤ length extents.now }
    ensures ok { OnOk result (list.new ≡ rules.with_blob list.old (take count extents.now) true) }
    ensures err { OnErr result (list.new ≡ list.old) }
{
    list.extents.items.extend_from_slice(&extents[..count])?;
    Ok(())
}

/// How many of the log's extents are below an index.
fn count_below(log: &StreamClient, before: u64) -> usize
    ensures inside { result ≤ length log.now.extents }
    ensures below { (take result log.now.extents ≡ take (before - log.now.base) log.now.extents) × (drop result log.now.extents ≡ drop (before - log.now.base) log.now.extents) }
{
    let count = log.extents.len();
    let gone = before.saturating_sub(log.base);
    if gone < count as u64 {
        gone as usize
    } else {
        count
    }
}

/// The log is trimmed below an index.
fn trimmed(content: &mut RangeContent, before: u64, to_blob: bool) -> Result<(), AllocError>
    ensures ok { (r : RangeState) → OnOk result (put content.new r ≡ rules.trimmed (put content.old r) before to_blob) }
    ensures err { OnErr result (content.new ≡ content.old) }
{
    let count = count_below(&content.log, before);
    if to_blob {
        add_first(&mut content.blob_data, &content.log.extents, count)?;
    }
    content.log.base = content.log.base.max(before);
    // Nobody asks for what leaves the log.
    let _gone = content.log.extents.drain(..count);
    content.control = None;
    Ok(())
}

/// The Trim that is out, if one is: below which index, whether the extents go to the blob stream, and its number.
pub(crate) fn trim_out(control: &Option<CheckpointJob>) -> Option<(u64, bool, ReqNo)>
    ensures { result ≡ specs.trim_out control.now }
{
    match control {
        None => None,
        Some(job) => match job.phase {
            CheckpointPhase::Trim {
                before,
                to_blob,
                request,
            } => Some((before, to_blob, request)),
            _ => None,
        },
    }
}

/// The Trim that is out, if one is, is done. Where memory runs out (22) nothing has changed.
fn take_trimmed(content: &mut RangeContent) -> Result<Progress, AllocError>
    ensures ok { IfOk result (λ p. (d : Context) (w : Number) → RangePerforms d (λ r. rules.trim_reply_in d r r.control (streams.Trimmed w)) content.old content.new p) }
    ensures err { OnErr result (content.new ≡ content.old) }
{
    match trim_out(&content.control) {
        None => Ok(Progress::Rests),
        Some((before, to_blob, _)) => {
            trimmed(content, before, to_blob)?;
            Ok(Progress::Rests)
        }
    }
}

/// The answer to a Trim: the checkpoint is over, and the log's extents below the index have left it; where an index names a
/// value in the log, they stand at the end of the blob stream. The range is dropped where its generation is old (3). Another
/// answer changes nothing, and where memory runs out (22) nothing has changed.
pub fn trim_reply(
    content: &mut RangeContent,
    context: &ServerContext,
    packet: &Packet,
) -> Result<Progress, AllocError>
    ensures ok { IfOk result (λ p. RangePerforms context.now (λ r. answers.trim_reply context.now r packet.now.body) content.old content.new p) }
    ensures err { OnErr result (content.new ≡ content.old) }
{
    match &packet.body {
        Body::Stream(StreamBody::Trimmed { .. }) => take_trimmed(content),
        Body::Append(
            AppendBody::Refused {
                refusal: Refusal::Stale,
                ..
            },
        ) => Ok(Progress::Dropped),
        _ => Ok(Progress::Rests),
    }
}
