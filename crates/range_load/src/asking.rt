//! Requests of a load, each under the server's next number.
ghost use Rattle.std.specs.Prelude.{◌≡◌, Some, None};
ghost use Rattle.client.specs.Client.{check_rule};
ghost use Rattle.model_partition.specs.Range.{request, given};
ghost use Rattle.model_partition.specs.Loading.{read_by, read_of};

use client::StreamClient;
use model_partition::{ServerContext, next_request};
use wire::{Packet, StreamExtent};

/// The check of the last extent's length.
pub(crate) fn check_last(client: &mut StreamClient, context: &ServerContext) -> Option<Packet>
    ensures { given client.old (check_rule client.old (request context.now)) ≡ record { after = client.new; packet = result; news = None } }
{
    match client.check_length(&next_request(context)) {
        Ok(packet) => Some(packet),
        Err(_fault) => None,
    }
}

/// A read of this extent, which stands at the position.
fn read_extent(
    client: &mut StreamClient,
    context: &ServerContext,
    position: u64,
    extent: &StreamExtent,
) -> Option<Packet>
    ensures { read_by context.now client.old position (Some extent.now) ≡ record { after = client.new; packet = result; news = None } }
{
    if extent.length.is_some() {
        match client.read_sealed(&next_request(context), position as usize) {
            Ok(packet) => Some(packet),
            Err(_fault) => None,
        }
    } else {
        match client.read_checked(&next_request(context)) {
            Ok(packet) => Some(packet),
            Err(_fault) => None,
        }
    }
}

/// A read of the extent at the position: whole where it is sealed, else as far as it was checked.
pub(crate) fn read_at(
    client: &mut StreamClient,
    context: &ServerContext,
    position: u64,
) -> Option<Packet>
    ensures { read_of context.now client.old position ≡ record { after = client.new; packet = result; news = None } }
{
    let extent = match client.extents.get(position as usize) {
        None => return None,
        Some(extent) => *extent,
    };
    read_extent(client, context, position, &extent)
}
