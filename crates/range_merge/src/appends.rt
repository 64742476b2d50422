//! Groups that a client is given.
ghost use Rattle.std.specs.Prelude.{◌≡◌, None};
ghost use Rattle.client.specs.Client.{append_rule};
ghost use Rattle.model_partition.specs.Range.{given, picking, request};

use client::{Appending, StreamClient};
use model_partition::{ServerContext, next_request};
use wire::Packet;

/// The client is given the blocks, and sends them unless it is busy.
pub(crate) fn send(
    client: &mut StreamClient,
    context: &ServerContext,
    blocks: Appending,
) -> Option<Packet>
    ensures { given (picking context.now client.old) (append_rule (picking context.now client.old) (request context.now) blocks)
        ≡ record { after = client.new; packet = result; news = None } }
{
    client.pick = context.pick;
    client.append(&next_request(context), blocks).ok()
}
