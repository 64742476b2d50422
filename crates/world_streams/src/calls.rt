//! What servers may ask of nodes and of the manager.
ghost use Rattle.std.specs.Prelude.{◌≡◌, ◌==◌};
ghost use Rattle.std.specs.List.{list_all};
ghost use Rattle.model_streams.specs.RecordBytes.{kind_number};
ghost use Rattle.model_streams.specs.StreamSystem.{are_of_one_kind, is_check, is_server_call, is_server_stream_call};

use wire::{Body, CheckBody, Modify, Source, StreamBody, StreamKind};
use world_copies::{is_append, is_read, is_seal};

fn is_check(body: &CheckBody) -> bool
    ensures { result ≡ is_check body.now }
{
    match body {
        CheckBody::Check { .. } => true,
        _ => false,
    }
}

fn number(kind: StreamKind) -> u8
    ensures { result ≡ kind_number kind }
{
    match kind {
        StreamKind::Metadata => 0,
        StreamKind::Log => 1,
        StreamKind::RowData => 2,
        StreamKind::BlobData => 3,
    }
}

fn are_of_kind(sources: &[Source], kind: StreamKind) -> bool
    ensures { result ≡ list_all (λ s. kind_number s.stream.kind == kind_number kind) sources.now }
{
    sources
        .iter()
        .all(|source| number(source.stream.kind) == number(kind))
}

fn are_of_one_kind(list: &[Modify]) -> bool
    ensures { result ≡ are_of_one_kind list.now }
{
    list.iter().all(|modify| are_of_kind(&modify.sources.items, modify.stream.kind))
}

fn is_stream_call(body: &StreamBody) -> bool
    ensures { result ≡ is_server_stream_call body.now }
{
    match body {
        StreamBody::CreateStream { .. } => true,
        StreamBody::OpenStreams { .. } => true,
        StreamBody::Confirm { .. } => true,
        StreamBody::Extend { .. } => true,
        StreamBody::Trim { .. } => true,
        StreamBody::MultiModify { list, request: _ } => are_of_one_kind(&list.items),
        _ => false,
    }
}

/// Whether a server may ask this.
pub(crate) fn is_call(body: &Body) -> bool
    ensures { result ≡ is_server_call body.now }
{
    match body {
        Body::Append(body) => is_append(body),
        Body::Check(body) => is_check(body),
        Body::Seal(body) => is_seal(body),
        Body::Read(body) => is_read(body),
        Body::Stream(body) => is_stream_call(body),
        Body::Map(_body) => false,
        Body::Table(_body) => false,
    }
}
