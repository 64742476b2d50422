//! The answers to the read of a page that a checkpoint merges.
ghost use Rattle.std.specs.Prelude.{◌≡◌, IfOk, OnErr};
ghost use Rattle.checkpoint_format.specs.Page.{entries_at};
ghost use Rattle.model_partition.specs.Answering as answers;
ghost use Rattle.model_partition.specs.Checkpoints as rules;
ghost use Rattle.model_partition.specs.Getting.{held_at};
ghost use Rattle.model_partition.specs.PlaceReads as reads;
ghost use Rattle.model_partition.specs.Range.{RangeState};
ghost use Rattle.model_partition.specs.RangeSteps.{outcome, put};
ghost use Rattle.range_checkpoint.specs.Combining as specs;

use crate::merging::merges_on;
use bytes::Bytes;
use checkpoint::{PageChanges, Pages};
use model_partition::{PlaceRead, Progress, RangeContent, ServerContext, is_at};
use std::alloc::{AllocError, Global};
use wire::{AppendBody, Body, ExtentId, Packet, ReadBody, Refusal};

/// What the page brings that the checkpoint reads which is under way, and those behind it that are at hand; none where no page is
/// to be merged, or the bytes spell none.
fn page_changes<P: Pages>(
    content: &RangeContent,
    alloc: Global,
    bytes: &Bytes,
    pages: &P,
) -> Result<Option<PageChanges>, AllocError>
    ensures { IfOk result (specs.IsPageOf (P.source pages.now) content.now.said.keys content.now.control (entries_at bytes.now)) }
{
    match &content.control {
        None => Ok(None),
        Some(job) => job.merge.with_page(alloc, &content.said.keys, bytes, pages),
    }
}

/// The page that is read has come.
fn page_read<P: Pages>(
    content: &mut RangeContent,
    alloc: Global,
    context: &ServerContext,
    bytes: &Bytes,
    pages: &P,
) -> Result<Progress, AllocError>
    ensures ok { IfOk result (λ p. (r : RangeState) → held_at r.held ≡ P.source pages.now
        → rules.page_read context.now (put content.old r) content.old.control (entries_at bytes.now) ≡ outcome context.now (put content.new r) p) }
    ensures err { OnErr result (content.new ≡ content.old) }
{
    match page_changes(content, alloc, bytes, pages)? {
        None => Ok(Progress::Rests),
        Some(changes) => merges_on(content, alloc, context, changes),
    }
}

/// Whether a read is out, and these bytes are those of its place.
fn is_read(reading: &Option<PlaceRead>, extent: ExtentId, offset: u32, bytes: &[u8]) -> bool
    ensures { result ≡ specs.is_read reading.now (reads.place_of extent offset bytes.now) }
{
    match reading {
        None => false,
        Some(read) => is_at(&read.place, extent, offset, bytes),
    }
}

/// The answer to the read of a page that a checkpoint merges: it is merged, and those behind it that are at hand, and the next page
/// is asked for, or where all are merged what they and the fixed layer come to is written. Bytes of another place or that spell no
/// page change nothing. The range is dropped where its generation is old (3); another refusal changes nothing. Where memory runs
/// out (22) nothing has changed.
pub fn page_reply<P: Pages>(
    content: &mut RangeContent,
    alloc: Global,
    context: &ServerContext,
    packet: &Packet,
    pages: &P,
) -> Result<Progress, AllocError>
    ensures ok { IfOk result (λ p. (r : RangeState) → held_at r.held ≡ P.source pages.now
        → answers.page_reply context.now (put content.old r) packet.now.body ≡ outcome context.now (put content.new r) p) }
    ensures err { OnErr result (content.new ≡ content.old) }
{
    match &packet.body {
        Body::Read(
            ReadBody::Bytes {
                extent,
                offset,
                bytes,
                ..
            },
        ) => {
            if is_read(&content.reading, *extent, *offset, bytes) {
                page_read(content, alloc, context, bytes, pages)
            } else {
                Ok(Progress::Rests)
            }
        }
        Body::Append(
            AppendBody::Refused {
                refusal: Refusal::Stale,
                ..
            },
        ) => Ok(Progress::Dropped),
        _ => Ok(Progress::Rests),
    }
}
