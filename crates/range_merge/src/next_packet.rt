//! The packet that a merge adds to a step of one of its ranges.
ghost use Rattle.std.specs.Prelude.{◌≡◌, ◌<◌, ◌+◌, ◌^◌, None};
ghost use Rattle.model_partition.specs.Splits as rules;

use model_partition::ServerContext;
use wire::Packet;

/// What a step sends, and the number of the server's next request.
#[derive(Drop)]
pub(crate) struct NextPacket {
    pub(crate) count: u64,
    pub(crate) packet: Option<Packet>,
}

impl NextPacket {
    /// The step uses the server's next number.
    pub(crate) fn sends(context: &ServerContext, packet: Option<Packet>) -> NextPacket
        requires numbers { context.now.count + 1 < 2 ^ 64 }
        ensures { result ≡ record { count = context.now.count + 1; packet = packet } }
    {
        NextPacket {
            count: context.count + 1,
            packet,
        }
    }

    /// Nothing is sent.
    pub(crate) fn none(context: &ServerContext) -> NextPacket
        ensures { result ≡ record { count = context.now.count; packet = None } }
    {
        NextPacket {
            count: context.count,
            packet: None,
        }
    }
}

/// Whether the server has a number for a request that comes behind a step of a range.
pub(crate) fn has_number(context: &ServerContext) -> bool
    ensures { result ≡ rules.has_number context.now }
{
    context.count < u64::MAX
}
