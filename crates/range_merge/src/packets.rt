//! What a merge asks of the map and of the manager.
ghost use Rattle.std.specs.Prelude.{◌≡◌};
ghost use Rattle.model_partition.specs.Range.{tells};
ghost use Rattle.model_partition.specs.Splits.{seal_packet};
ghost use Rattle.model_partition.specs.declared.merge_job.MergeJob.{MergeJob as MergeJobState};
ghost use Rattle.model_partition.specs.Merges as rules;

use model_partition::{MergeJob, ServerContext};
use wire::{
    ActorId, Body, ExtentId, Fence, MapBody, Modifies, Packet, ReqNo, SealBody, StreamBody,
    StreamKind, StreamName,
};

fn tells(context: &ServerContext, to: ActorId, body: Body) -> Packet
    ensures { result ≡ tells context.now to body }
{
    Packet {
        from: ActorId::Server(context.server),
        to,
        body,
    }
}

/// The map is asked for the number of the new range.
pub(crate) fn begin_packet(context: &ServerContext, job: &MergeJob, request: &ReqNo) -> Packet
    ensures { result ≡ rules.begin_packet context.now job.now request.now }
{
    let body = MapBody::BeginMerge {
        left: job.left,
        left_generation: job.left_generation,
        right: job.right,
        right_generation: job.right_generation,
        request: *request,
    };
    tells(context, ActorId::Map, Body::Map(body))
}

/// The manager is asked to seal an extent.
pub(crate) fn seal_packet(context: &ServerContext, extent: ExtentId, request: &ReqNo) -> Packet
    ensures { result ≡ seal_packet context.now extent request.now }
{
    let body = SealBody::SealExtent {
        extent,
        request: *request,
    };
    tells(context, ActorId::Manager, Body::Seal(body))
}

/// The manager is asked to build these streams.
pub(crate) fn build_packet(context: &ServerContext, list: Modifies, request: &ReqNo) -> Packet
    ensures { (job : MergeJobState) → list ≡ rules.all_streams job → result ≡ rules.build_packet context.now job request.now }
{
    let body = StreamBody::MultiModify {
        list,
        request: *request,
    };
    tells(context, ActorId::Manager, Body::Stream(body))
}

/// The greater of the two generations.
pub(crate) fn joined_generation(job: &MergeJob) -> Fence
    ensures { result ≡ rules.joined_generation job.now }
{
    Fence(job.left_generation.0.max(job.right_generation.0))
}

/// The name of the new range's metadata.
pub(crate) fn metadata_name(job: &MergeJob) -> StreamName
    ensures { result ≡ rules.metadata_name job.now }
{
    StreamName {
        range: job.into,
        kind: StreamKind::Metadata,
    }
}

/// The manager is asked to make the metadata of the new range.
pub(crate) fn create_packet(context: &ServerContext, job: &MergeJob, request: &ReqNo) -> Packet
    ensures { result ≡ rules.create_packet context.now job.now request.now }
{
    let body = StreamBody::CreateStream {
        stream: metadata_name(job),
        fence: joined_generation(job),
        request: *request,
    };
    tells(context, ActorId::Manager, Body::Stream(body))
}

/// The map is asked to put the new range in the place of the two.
pub(crate) fn complete_packet(context: &ServerContext, job: &MergeJob, request: &ReqNo) -> Packet
    ensures { result ≡ rules.complete_packet context.now job.now request.now }
{
    let body = MapBody::CompleteMerge {
        left: job.left,
        left_generation: job.left_generation,
        right: job.right,
        right_generation: job.right_generation,
        request: *request,
    };
    tells(context, ActorId::Map, Body::Map(body))
}
