//! What a split asks of the map and of the manager.
ghost use Rattle.std.specs.Prelude.{◌≡◌};
ghost use Rattle.model_partition.specs.Range.{tells};
ghost use Rattle.model_partition.specs.Splits as rules;

use bytes::Bytes;
use model_partition::{ServerContext, SplitJob};
use wire::{ActorId, Body, ExtentId, MapBody, Modifies, Packet, ReqNo, SealBody, StreamBody};

fn tells(context: &ServerContext, to: ActorId, body: Body) -> Packet
    ensures { result ≡ tells context.now to body }
{
    Packet {
        from: ActorId::Server(context.server),
        to,
        body,
    }
}

/// The map is asked for the numbers of the two ranges.
pub(crate) fn begin_packet(
    context: &ServerContext,
    job: &SplitJob,
    key: Bytes,
    request: &ReqNo,
) -> Packet
    requires { key ≡ job.now.key }
    ensures { result ≡ rules.begin_packet context.now job.now request.now }
{
    let body = MapBody::BeginSplit {
        range: job.range,
        generation: job.generation,
        key,
        request: *request,
    };
    tells(context, ActorId::Map, Body::Map(body))
}

/// The manager is asked to seal an extent.
pub(crate) fn seal_packet(context: &ServerContext, extent: ExtentId, request: &ReqNo) -> Packet
    ensures { result ≡ rules.seal_packet context.now extent request.now }
{
    let body = SealBody::SealExtent {
        extent,
        request: *request,
    };
    tells(context, ActorId::Manager, Body::Seal(body))
}

/// The manager is asked to build the streams of the two.
pub(crate) fn build_packet(
    context: &ServerContext,
    job: &SplitJob,
    list: Modifies,
    request: &ReqNo,
) -> Packet
    requires { list ≡ rules.all_streams job.now }
    ensures { result ≡ rules.build_packet context.now job.now request.now }
{
    let body = StreamBody::MultiModify {
        list,
        request: *request,
    };
    tells(context, ActorId::Manager, Body::Stream(body))
}

/// The map is asked to put the two in the place of the range.
pub(crate) fn complete_packet(context: &ServerContext, job: &SplitJob, request: &ReqNo) -> Packet
    ensures { result ≡ rules.complete_packet context.now job.now request.now }
{
    let body = MapBody::CompleteSplit {
        range: job.range,
        generation: job.generation,
        request: *request,
    };
    tells(context, ActorId::Map, Body::Map(body))
}
