//! Whether an answer says that a group stands, and what else comes of an answer.
ghost use Rattle.std.specs.Prelude.{◌≡◌, None, option_to_list};
ghost use Rattle.client.specs.Client.{Outcome};
ghost use Rattle.model_partition.specs.declared.server_context.ServerContext.{ServerContext};
ghost use Rattle.model_partition.specs.Range.{RangeState};
ghost use Rattle.model_partition.specs.RangeSteps.{outcome};
ghost use Rattle.range_checkpoint.specs.Steps as specs;

use client::{Job, News, Reaction, StreamClient};
use model_partition::Progress;
use wire::{AppendBody, Body, ExtentId};

/// The extent and the offset in it where the group stands that the client sent, if the answer says so and the client waits for
/// it.
pub fn appended(client: &StreamClient, answer: &Body) -> Option<(ExtentId, u32)>
    ensures { result ≡ specs.appended client.now answer.now }
{
    match answer {
        Body::Append(
            AppendBody::Appended {
                request,
                offset,
                ..
            },
        ) => {
            if !client.awaits(request) {
                return None;
            }
            match client.job {
                Job::Sent { extent, .. } => Some((extent, *offset)),
                _ => None,
            }
        }
        _ => None,
    }
}

/// What comes of an answer that does not say so: its packet goes, and the range is of no use where its generation is old.
pub(crate) fn told(reaction: Reaction) -> Progress
    ensures { (d : ServerContext) (r : RangeState) → specs.stays d r reaction.news (option_to_list reaction.packet) ≡ outcome d r result }
{
    let Reaction { packet, news } = reaction;
    match news {
        Some(News::Fenced) => {
            drop(packet);
            Progress::Dropped
        }
        _ => Progress::Goes(packet),
    }
}
