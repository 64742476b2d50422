//! The extent that a packet is about.
ghost use Rattle.std.specs.Prelude.{◌≡◌};
ghost use Rattle.model_streams.specs.Node.{append_extent, check_extent, extent_of, read_extent, seal_extent};

use wire::{AppendBody, Body, CheckBody, ReadBody, SealBody};

fn append_extent(body: &AppendBody) -> u64
    ensures { result ≡ append_extent body.now }
{
    match body {
        AppendBody::Append { extent, .. } => extent.0,
        AppendBody::Put { extent, .. } => extent.0,
        AppendBody::Have { extent, .. } => extent.0,
        _ => 0,
    }
}

fn check_extent(body: &CheckBody) -> u64
    ensures { result ≡ check_extent body.now }
{
    match body {
        CheckBody::Check { extent, .. } => extent.0,
        CheckBody::Probe { extent, .. } => extent.0,
        CheckBody::Probed { extent, .. } => extent.0,
        _ => 0,
    }
}

fn seal_extent(body: &SealBody) -> u64
    ensures { result ≡ seal_extent body.now }
{
    match body {
        SealBody::Make { extent, .. } => extent.0,
        SealBody::Freeze { extent } => extent.0,
        SealBody::Seal { extent, .. } => extent.0,
        SealBody::SendTail { extent, .. } => extent.0,
        SealBody::Tail { extent, .. } => extent.0,
        _ => 0,
    }
}

fn read_extent(body: &ReadBody) -> u64
    ensures { result ≡ read_extent body.now }
{
    match body {
        ReadBody::ReadAt { extent, .. } => extent.0,
        ReadBody::ReadGroups { extent, .. } => extent.0,
        _ => 0,
    }
}

/// The extent that a packet to a node is about; 0 where it is about none.
pub(crate) fn extent_of(body: &Body) -> u64
    ensures { result ≡ extent_of body.now }
{
    match body {
        Body::Append(body) => append_extent(body),
        Body::Check(body) => check_extent(body),
        Body::Seal(body) => seal_extent(body),
        Body::Read(body) => read_extent(body),
        _ => 0,
    }
}
