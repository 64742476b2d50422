//! The number of a request.
ghost use Rattle.std.specs.Prelude.{◌≡◌};
ghost use Rattle.stamp_answers.specs.Requests.{asked_append, asked_check, asked_map_call, asked_read, asked_request, asked_seal, asked_stream_call, asked_table_call, request_key};

use crate::key::{AnswerKey, key_in};
use wire::{
    AppendBody, Body, CheckBody, MapBody, ReadBody, ReqNo, SealBody, StreamBody, TableBody,
};

fn asked_append(body: &AppendBody) -> Option<ReqNo>
    ensures { result ≡ asked_append body.now }
{
    match body {
        AppendBody::Append { request, .. } => Some(*request),
        _ => None,
    }
}

fn asked_check(body: &CheckBody) -> Option<ReqNo>
    ensures { result ≡ asked_check body.now }
{
    match body {
        CheckBody::Check { request, .. } => Some(*request),
        _ => None,
    }
}

fn asked_seal(body: &SealBody) -> Option<ReqNo>
    ensures { result ≡ asked_seal body.now }
{
    match body {
        SealBody::SealExtent { request, .. } => Some(*request),
        _ => None,
    }
}

fn asked_read(body: &ReadBody) -> Option<ReqNo>
    ensures { result ≡ asked_read body.now }
{
    match body {
        ReadBody::ReadAt { request, .. } => Some(*request),
        ReadBody::ReadGroups { request, .. } => Some(*request),
        _ => None,
    }
}

fn asked_stream_call(body: &StreamBody) -> Option<ReqNo>
    ensures { result ≡ asked_stream_call body.now }
{
    match body {
        StreamBody::CreateStream { request, .. } => Some(*request),
        StreamBody::OpenStreams { request, .. } => Some(*request),
        StreamBody::Confirm { request, .. } => Some(*request),
        StreamBody::Extend { request, .. } => Some(*request),
        StreamBody::Trim { request, .. } => Some(*request),
        StreamBody::MultiModify { request, .. } => Some(*request),
        _ => None,
    }
}

fn asked_map_call(body: &MapBody) -> Option<ReqNo>
    ensures { result ≡ asked_map_call body.now }
{
    match body {
        MapBody::Route { request, .. } => Some(*request),
        MapBody::BeginSplit { request, .. } => Some(*request),
        MapBody::CompleteSplit { request, .. } => Some(*request),
        MapBody::BeginMerge { request, .. } => Some(*request),
        MapBody::CompleteMerge { request, .. } => Some(*request),
        _ => None,
    }
}

fn asked_table_call(body: &TableBody) -> Option<ReqNo>
    ensures { result ≡ asked_table_call body.now }
{
    match body {
        TableBody::Transact { request, .. } => Some(*request),
        TableBody::Get { request, .. } => Some(*request),
        _ => None,
    }
}

/// The number with which a request ends; no other body has one.
fn asked_request(body: &Body) -> Option<ReqNo>
    ensures { result ≡ asked_request body.now }
{
    match body {
        Body::Append(body) => asked_append(body),
        Body::Check(body) => asked_check(body),
        Body::Seal(body) => asked_seal(body),
        Body::Read(body) => asked_read(body),
        Body::Stream(body) => asked_stream_call(body),
        Body::Map(body) => asked_map_call(body),
        Body::Table(body) => asked_table_call(body),
    }
}

/// The key of a request of this user, by the number with which it ends. `None` where the body is no request, or its number is not
/// of this user. A request under a ticket that the user gave before has the same key.
pub fn request_key(user: u64, body: &Body) -> Option<AnswerKey>
    ensures { result ≡ request_key user body.now }
{
    key_in(user, asked_request(body))
}
