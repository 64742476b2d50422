//! The checkpoint of the left range ends, and that of the right one begins.
ghost use Rattle.std.specs.Prelude.{◌≡◌, ◌<◌, ◌≤◌, ◌+◌, ◌-◌, ◌^◌, Bool, false, length, take, drop, IfOk, OnErr};
ghost use Rattle.model_partition.specs.Checkpoints as checkpoints;
ghost use Rattle.model_partition.specs.Merges as rules;
ghost use Rattle.range_merge.specs.Steps.{outcome, IsShort};

use crate::answers::may_checkpoint;
use crate::departures::parts;
use crate::taken::MergeTaken;
use client::StreamClient;
use model_partition::{
    CheckpointJob, CheckpointPhase, MergeJob, MergePhase, MergeSide, RangeContent, ServerContext,
};
use range_checkpoint::trim_awaits;
use range_core::{RangeState, RangeStep};
use std::alloc::{AllocError, Global};
use wire::{Body, ReqNo, StreamBody, StreamExtent, StreamExtents};

/// The Trim that is out of a checkpoint, if one is: below which index, and whether the extents go to the blob stream.
fn trim_out(control: &Option<CheckpointJob>) -> Option<(u64, bool)>
    ensures { result ≡ rules.trim_out control.now }
{
    match control {
        None => None,
        Some(job) => match job.phase {
            CheckpointPhase::Trim {
                before,
                to_blob,
                ..
            } => Some((before, to_blob)),
            _ => None,
        },
    }
}

/// The Trim that an answer of this number ends.
fn trim_under(left: &RangeState, request: &ReqNo, body: &StreamBody) -> Option<(u64, bool)>
    ensures { result ≡ rules.trim_under left.now request.now body.now }
{
    match body {
        StreamBody::Trimmed { .. } => {
            if !trim_awaits(&left.content.control, request) {
                return None;
            }
            trim_out(&left.content.control)
        }
        _ => None,
    }
}

/// The Trim with which the checkpoint of the left range ends, where the merge waits for that and this is the answer to it: below which
/// index the log is trimmed, and whether its extents go to the blob stream.
pub fn left_trim(
    job: &MergeJob,
    left: &RangeState,
    request: &ReqNo,
    body: &Body,
) -> Option<(u64, bool)>
    ensures { result ≡ rules.left_trim job.now.phase left.now request.now body.now }
{
    match job.phase {
        MergePhase::Checkpoint {
            side: MergeSide::Left,
        } => match body {
            Body::Stream(body) => trim_under(left, request, body),
            _ => None,
        },
        _ => None,
    }
}

/// How many of the log's extents are below an index.
fn count_below(log: &StreamClient, before: u64) -> usize
    ensures inside { result ≤ length log.now.extents }
    ensures below { (take result log.now.extents ≡ take (before - log.now.base) log.now.extents) × (drop result log.now.extents ≡ drop (before - log.now.base) log.now.extents) }
{
    let count = log.extents.len();
    let gone = before.saturating_sub(log.base);
    if gone < count as u64 {
        gone as usize
    } else {
        count
    }
}

/// The extents of the blob stream once the log is trimmed: the first of the log's behind them, if these go there.
fn blob_extents(
    alloc: Global,
    content: &RangeContent,
    count: usize,
    to_blob: bool,
) -> Result<Vec<StreamExtent>, AllocError>
    requires { count ≤ length content.now.log.extents }
    ensures { IfOk result (λ made. checkpoints.with_blob content.now.blob_data (take count content.now.log.extents) to_blob ≡ record content.now.blob_data { extents = made.items }) }
{
    let mut made = Vec::new(alloc);
    made.extend_from_slice(&content.blob_data.extents.items)?;
    if to_blob {
        made.extend_from_slice(&content.log.extents[..count])?;
    }
    Ok(made)
}

/// The log is trimmed: so many of its extents go, and the blob stream has these.
fn trims(state: &mut RangeState, before: u64, count: usize, blob: Vec<StreamExtent>)
    requires { count ≤ length state.old.log.extents }
    ensures { (to_blob : Bool)
        → (take count state.old.log.extents ≡ take (before - state.old.log.base) state.old.log.extents) × (drop count state.old.log.extents ≡ drop (before - state.old.log.base) state.old.log.extents)
        → checkpoints.with_blob state.old.blob_data (take count state.old.log.extents) to_blob ≡ record state.old.blob_data { extents = blob.items }
        → state.new ≡ checkpoints.trimmed state.old before to_blob }
{
    state.content.blob_data.extents = StreamExtents { items: blob };
    state.content.log.base = state.content.log.base.max(before);
    let _gone = state.content.log.extents.drain(..count);
    state.content.control = None;
}

/// What the first step of the right range's checkpoint leaves, of the merge.
fn right_taken(taken: RangeStep) -> MergeTaken
    ensures { result ≡ record { left_dropped = false; right_dropped = taken.dropped; ended = false; count = taken.count; packets = taken.packets } }
{
    MergeTaken {
        left_dropped: false,
        right_dropped: taken.dropped,
        ended: false,
        count: taken.count,
        packets: taken.packets,
    }
}

/// The Trim of the left range's checkpoint is answered, while the merge waits for that (`left_trim`): the checkpoint is over, as the
/// range's own rule says, and that of the right range begins, in the same event; where none can begin the merge ends, and both are
/// served on. Where memory runs out (22) nothing has changed.
pub fn left_trimmed(
    alloc: Global,
    context: &ServerContext,
    left: &mut RangeState,
    right: &mut RangeState,
    job: &mut MergeJob,
    trim: (u64, bool),
) -> Result<MergeTaken, AllocError>
    requires numbers { context.now.count + 1024 < 2 ^ 64 }
    ensures ok { IfOk result (λ t. rules.left_ends context.now left.old right.old job.old trim ≡ outcome t left.new right.new job.new) }
    ensures left { OnErr result (left.new ≡ left.old) }
    ensures right { OnErr result (right.new ≡ right.old) }
    ensures kept { OnErr result (job.new ≡ job.old) }
    ensures short { IfOk result IsShort }
{
    let (before, to_blob) = trim;
    let count = count_below(&left.content.log, before);
    let blob = blob_extents(alloc, &left.content, count, to_blob)?;
    if !may_checkpoint(right) {
        trims(left, before, count, blob);
        return Ok(parts(alloc, context));
    }
    let taken = right.freeze(alloc, context, false)?;
    trims(left, before, count, blob);
    job.phase = MergePhase::Checkpoint {
        side: MergeSide::Right,
    };
    Ok(right_taken(taken))
}
