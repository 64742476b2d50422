//! Whose answer a packet is.
ghost use Rattle.std.specs.Prelude.{◌≡◌};
ghost use Rattle.model_partition.specs.Answering as specs;

use wire::{ActorId, AppendBody, Body, CheckBody, MapBody, ReadBody, ReqNo, SealBody, StreamBody};

fn append_number(body: &AppendBody) -> Option<ReqNo>
    ensures { result ≡ specs.append_number body.now }
{
    match body {
        AppendBody::Appended { request, .. } => Some(*request),
        AppendBody::Refused { request, .. } => Some(*request),
        _ => None,
    }
}

fn stream_number(body: &StreamBody) -> Option<ReqNo>
    ensures { result ≡ specs.stream_number body.now }
{
    match body {
        StreamBody::Created { request } => Some(*request),
        StreamBody::Opened { request, .. } => Some(*request),
        StreamBody::Confirmed { request } => Some(*request),
        StreamBody::Extended { request, .. } => Some(*request),
        StreamBody::Trimmed { request } => Some(*request),
        StreamBody::Modified { request } => Some(*request),
        _ => None,
    }
}

fn map_number(body: &MapBody) -> Option<ReqNo>
    ensures { result ≡ specs.map_number body.now }
{
    match body {
        MapBody::SplitBegun { request, .. } => Some(*request),
        MapBody::SplitDone { request } => Some(*request),
        MapBody::MergeBegun { request, .. } => Some(*request),
        MapBody::MergeDone { request } => Some(*request),
        _ => None,
    }
}

fn read_number(body: &ReadBody) -> Option<ReqNo>
    ensures { result ≡ specs.read_number body.now }
{
    match body {
        ReadBody::Bytes { request, .. } => Some(*request),
        ReadBody::Groups { request, .. } => Some(*request),
        _ => None,
    }
}

/// The number that an answer repeats; none where the body is no answer.
pub(crate) fn answered_number(body: &Body) -> Option<ReqNo>
    ensures { result ≡ specs.answered_number body.now }
{
    match body {
        Body::Append(body) => append_number(body),
        Body::Check(CheckBody::Checked { request, .. }) => Some(*request),
        Body::Check(_) => None,
        Body::Seal(SealBody::SealedIs { request, .. }) => Some(*request),
        Body::Seal(_) => None,
        Body::Read(body) => read_number(body),
        Body::Stream(body) => stream_number(body),
        Body::Map(body) => map_number(body),
        Body::Table(_) => None,
    }
}

fn is_any_node(from: &ActorId) -> bool
    ensures { result ≡ specs.is_any_node from.now }
{
    match from {
        ActorId::Node(_) => true,
        _ => false,
    }
}

fn is_the_manager(from: &ActorId) -> bool
    ensures { result ≡ specs.is_the_manager from.now }
{
    match from {
        ActorId::Manager => true,
        _ => false,
    }
}

fn is_the_map(from: &ActorId) -> bool
    ensures { result ≡ specs.is_the_map from.now }
{
    match from {
        ActorId::Map => true,
        _ => false,
    }
}

/// Whether an answer comes from one who gives such answers.
pub(crate) fn is_answerer(from: &ActorId, body: &Body) -> bool
    ensures { result ≡ specs.is_answerer from.now body.now }
{
    match body {
        Body::Append(AppendBody::Refused { .. }) => {
            is_any_node(from) || is_the_manager(from) || is_the_map(from)
        }
        Body::Append(_) => is_any_node(from),
        Body::Check(_) => is_any_node(from),
        Body::Seal(_) => is_the_manager(from),
        Body::Read(_) => is_any_node(from),
        Body::Stream(_) => is_the_manager(from),
        Body::Map(_) => is_the_map(from),
        Body::Table(_) => false,
    }
}
