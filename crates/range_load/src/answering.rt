//! The answers that a load waits for.
ghost use Rattle.std.specs.Prelude.{◌≡◌, Ok, true, false, IfOk, OnErr};
ghost use Rattle.model_partition.specs.Answering as answers;
ghost use Rattle.model_partition.specs.declared.progress.Progress.TheVariants as progress;
ghost use Rattle.range_load.specs.Awaited.{is_awaited};
ghost use Rattle.model_partition.specs.RangeSteps.{RangePerforms};

use crate::confirming::serves;
use crate::opening::opens;
use block_types::Group;
use client::LoadPhase;
use model_partition::{Progress, RangeContent, ServerContext};
use std::alloc::{AllocError, Global};
use wire::{AppendBody, Body, Packet, ReadBody, Refusal, StreamBody};

/// The groups of an answer.
pub(crate) fn groups_of(body: &Body) -> &[Group]
    ensures { result.now ≡ answers.groups_of body.now }
{
    match body {
        Body::Read(ReadBody::Groups { groups, .. }) => &groups.items,
        _ => &[],
    }
}

/// The answer to the opening or the confirmation: the metadata begins to be read, or the range is served. An answer of
/// another number than that of the load's own request changes nothing. Where memory runs out (22) nothing has changed.
pub fn load_reply(
    content: &mut RangeContent,
    alloc: Global,
    context: &ServerContext,
    packet: &Packet,
) -> Result<Progress, AllocError>
    ensures ok { is_awaited content.old.load.phase packet.now.body ≡ true
        → IfOk result (λ p. RangePerforms context.now (λ r. answers.load_reply context.now r packet.now.body) content.old content.new p) }
    ensures other { is_awaited content.old.load.phase packet.now.body ≡ false → (result ≡ Ok progress.Rests) × (content.new ≡ content.old) }
    ensures err { OnErr result (content.new ≡ content.old) }
{
    match &packet.body {
        Body::Append(
            AppendBody::Refused {
                request,
                refusal: Refusal::Stale,
            },
        ) => {
            if !content.load.awaits(request) {
                return Ok(Progress::Rests);
            }
            content.load.on_reply(packet);
            Ok(Progress::Dropped)
        }
        Body::Stream(StreamBody::Opened { request, streams }) => {
            if !content.load.awaits(request) {
                return Ok(Progress::Rests);
            }
            match content.load.phase() {
                LoadPhase::Opening { .. } => opens(
                    content,
                    alloc,
                    context,
                    packet,
                    streams.lists(),
                ),
                _ => Ok(Progress::Rests),
            }
        }
        Body::Stream(StreamBody::Confirmed { request }) => {
            if !content.load.awaits(request) {
                return Ok(Progress::Rests);
            }
            match content.load.phase() {
                LoadPhase::Confirming { .. } => serves(content, alloc, packet),
                _ => Ok(Progress::Rests),
            }
        }
        _ => Ok(Progress::Rests),
    }
}
