//! Which request a packet answers.
ghost use Rattle.std.specs.Prelude.{◌≡◌};
ghost use Rattle.stamp_answers.specs.Answers.{answer_key, answered_append, answered_check, answered_map_call, answered_read, answered_request, answered_seal, answered_stream_call, answered_table_call};

use crate::key::{AnswerKey, key_in};
use wire::{
    ActorId, AppendBody, Body, CheckBody, MapBody, Packet, ReadBody, ReqNo, SealBody, StreamBody,
    TableBody,
};

fn answered_append(body: &AppendBody) -> Option<ReqNo>
    ensures { result ≡ answered_append body.now }
{
    match body {
        AppendBody::Appended { request, .. } => Some(*request),
        AppendBody::Refused { request, .. } => Some(*request),
        _ => None,
    }
}

fn answered_check(body: &CheckBody) -> Option<ReqNo>
    ensures { result ≡ answered_check body.now }
{
    match body {
        CheckBody::Checked { request, .. } => Some(*request),
        _ => None,
    }
}

fn answered_seal(body: &SealBody) -> Option<ReqNo>
    ensures { result ≡ answered_seal body.now }
{
    match body {
        SealBody::SealedIs { request, .. } => Some(*request),
        _ => None,
    }
}

fn answered_read(body: &ReadBody) -> Option<ReqNo>
    ensures { result ≡ answered_read body.now }
{
    match body {
        ReadBody::Bytes { request, .. } => Some(*request),
        ReadBody::Groups { request, .. } => Some(*request),
        _ => None,
    }
}

fn answered_stream_call(body: &StreamBody) -> Option<ReqNo>
    ensures { result ≡ answered_stream_call body.now }
{
    match body {
        StreamBody::Created { request } => Some(*request),
        StreamBody::Opened { request, .. } => Some(*request),
        StreamBody::Confirmed { request } => Some(*request),
        StreamBody::Extended { request, .. } => Some(*request),
        StreamBody::Trimmed { request } => Some(*request),
        StreamBody::Modified { request } => Some(*request),
        _ => None,
    }
}

fn answered_map_call(body: &MapBody) -> Option<ReqNo>
    ensures { result ≡ answered_map_call body.now }
{
    match body {
        MapBody::RouteIs { request, .. } => Some(*request),
        MapBody::SplitBegun { request, .. } => Some(*request),
        MapBody::SplitDone { request } => Some(*request),
        MapBody::MergeBegun { request, .. } => Some(*request),
        MapBody::MergeDone { request } => Some(*request),
        _ => None,
    }
}

fn answered_table_call(body: &TableBody) -> Option<ReqNo>
    ensures { result ≡ answered_table_call body.now }
{
    match body {
        TableBody::Committed { request, .. } => Some(*request),
        TableBody::Value { request, .. } => Some(*request),
        _ => None,
    }
}

/// The number with which an answer begins; no other body has one.
fn answered_request(body: &Body) -> Option<ReqNo>
    ensures { result ≡ answered_request body.now }
{
    match body {
        Body::Append(body) => answered_append(body),
        Body::Check(body) => answered_check(body),
        Body::Seal(body) => answered_seal(body),
        Body::Read(body) => answered_read(body),
        Body::Stream(body) => answered_stream_call(body),
        Body::Map(body) => answered_map_call(body),
        Body::Table(body) => answered_table_call(body),
    }
}

/// The request that a packet answers: that of the user to whom it goes, where its body begins with a number of that user. `None`
/// where it goes to an actor, is no answer, or answers a request that is not of this user.
pub fn answer_key(packet: &Packet) -> Option<AnswerKey>
    ensures { result ≡ answer_key packet.now }
{
    match packet.to {
        ActorId::User(user) => key_in(user, answered_request(&packet.body)),
        _ => None,
    }
}
