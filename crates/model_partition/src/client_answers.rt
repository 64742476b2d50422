//! What a stream's client makes of an answer.
ghost use Rattle.std.specs.Prelude.{◌≡◌, true, IfOk, OnErr};
ghost use Rattle.client.specs.Client.{content_of, content_told, needs_memory, reply_rule};
ghost use Rattle.model_partition.specs.Range.{picking, request};

use crate::requests::next_request;
use crate::server_context::ServerContext;
use client::{Reaction, StreamClient};
use std::alloc::{AllocError, Global};
use wire::Packet;

/// What a stream's client makes of an answer; a new extent is asked for at the context's nodes from now on. Where memory
/// runs out (22) nothing has changed.
pub fn take_answer(
    client: &mut StreamClient,
    alloc: Global,
    context: &ServerContext,
    packet: &Packet,
) -> Result<Reaction, AllocError>
    ensures ok { IfOk result (λ x. reply_rule (picking context.now client.old) (request context.now) packet.now.body ≡ record { after = client.new; packet = x.packet; news = x.news }) }
    ensures content { IfOk result (λ x. content_told x.news ≡ content_of client.old.job packet.now.body) }
    ensures err { OnErr result (client.new ≡ client.old) }
    ensures needed { OnErr result (needs_memory packet.now.body ≡ true) }
{
    let pick = client.pick;
    client.pick = context.pick;
    match client.on_reply(alloc, &next_request(context), packet) {
        Ok(reaction) => Ok(reaction),
        Err(full) => {
            client.pick = pick;
            Err(full)
        }
    }
}
