//! What deliveries and observations print.
ghost use Rattle.std.specs.Prelude.{◌≡◌, Some, IfOk};
ghost use Rattle.block_types.specs.Limits.{groups_size};
ghost use Rattle.script_reports.specs.Telling.{answer_of, append_answer, map_answer, observed, read_answer, seal_answer, stream_answer, table_answer, told_to, told_with};

use crate::hex_text::HexText;
use crate::report::{Answer, Report};
use crate::table_telling::report_table;
use block_types::Group;
use std::alloc::{AllocError, Global};
use wire::{
    ActorId, AppendBody, Body, MapBody, Note, Packet, ReadBody, ReqNo, SealBody, StreamBody,
    TableBody,
};

fn append_answer(body: &AppendBody) -> Option<(ReqNo, Answer)>
    ensures { result ≡ append_answer body.now }
{
    match body {
        AppendBody::Appended {
            request,
            extent: _,
            offset,
        } => Some((*request, Answer::Appended(*offset))),
        AppendBody::Refused { request, refusal } => Some((*request, Answer::Refused(*refusal))),
        _ => None,
    }
}

fn stream_answer(body: &StreamBody) -> Option<(ReqNo, Answer)>
    ensures { result ≡ stream_answer body.now }
{
    match body {
        StreamBody::Created { request } => Some((*request, Answer::Created)),
        StreamBody::Extended {
            request,
            extent,
            places: _,
        } => Some((*request, Answer::Extended(extent.0))),
        _ => None,
    }
}

fn seal_answer(body: &SealBody) -> Option<(ReqNo, Answer)>
    ensures { result ≡ seal_answer body.now }
{
    match body {
        SealBody::SealedIs {
            request,
            extent,
            length,
        } => Some((
            *request,
            Answer::Sealed {
                extent: extent.0,
                length: *length,
            },
        )),
        _ => None,
    }
}

/// How many bytes the groups have together.
fn size_of(groups: &[Group]) -> u128
    ensures { result ≡ groups_size groups.now }
{
    let mut size: u128 = 0;
    for group in groups {
        size += u128::from(group.size());
    }
    size
}

fn read_answer(alloc: Global, body: &ReadBody) -> Result<Option<(ReqNo, Answer)>, AllocError>
    ensures { IfOk result (λ told. told ≡ read_answer body.now) }
{
    match body {
        ReadBody::Bytes {
            request,
            extent: _,
            offset: _,
            bytes,
        } => match HexText::of(alloc, bytes.as_slice()) {
            Ok(text) => Ok(Some((*request, Answer::Bytes(text)))),
            Err(refused) => Err(refused),
        },
        ReadBody::Groups {
            request,
            extent: _,
            groups,
        } => Ok(Some((*request, Answer::Content(size_of(&groups.items))))),
        _ => Ok(None),
    }
}

fn table_answer(alloc: Global, body: &TableBody) -> Result<Option<(ReqNo, Answer)>, AllocError>
    ensures { IfOk result (λ told. told ≡ table_answer body.now) }
{
    match body {
        TableBody::Committed { request, number } => {
            Ok(Some((*request, Answer::Committed(*number))))
        }
        TableBody::Value {
            request,
            value: None,
        } => Ok(Some((*request, Answer::NoValue))),
        TableBody::Value {
            request,
            value: Some(bytes),
        } => match HexText::of(alloc, bytes.as_slice()) {
            Ok(text) => Ok(Some((*request, Answer::Value(text)))),
            Err(refused) => Err(refused),
        },
        _ => Ok(None),
    }
}

fn map_answer(body: &MapBody) -> Option<(ReqNo, Answer)>
    ensures { result ≡ map_answer body.now }
{
    match body {
        MapBody::RouteIs {
            request,
            range,
            server,
        } => Some((
            *request,
            Answer::Route {
                range: range.0,
                server: *server,
            },
        )),
        _ => None,
    }
}

/// The answer that a body brings, and the request that it answers.
fn answer_of(alloc: Global, body: &Body) -> Result<Option<(ReqNo, Answer)>, AllocError>
    ensures { IfOk result (λ told. told ≡ answer_of body.now) }
{
    match body {
        Body::Append(body) => Ok(append_answer(body)),
        Body::Seal(body) => Ok(seal_answer(body)),
        Body::Read(body) => read_answer(alloc, body),
        Body::Stream(body) => Ok(stream_answer(body)),
        Body::Map(body) => Ok(map_answer(body)),
        Body::Table(body) => table_answer(alloc, body),
        _ => Ok(None),
    }
}

fn told(user: u64, number: ReqNo, answer: Answer) -> Option<Report>
    ensures { result ≡ told_with user (Some (number, answer)) }
{
    match number {
        ReqNo::User { user: _, ticket } => Some(Report::Told {
            user,
            ticket,
            answer,
        }),
        ReqNo::Server { .. } => None,
        ReqNo::NoRequest => None,
    }
}

/// The line of a delivery, where it brings an answer to a user. An error is out of memory (22).
pub fn report_answer(alloc: Global, packet: &Packet) -> Result<Option<Report>, AllocError>
    ensures { IfOk result (λ report. report ≡ told_to packet.now.to packet.now.body) }
{
    let ActorId::User(user) = packet.to else {
        return Ok(None);
    };
    match answer_of(alloc, &packet.body) {
        Ok(Some((number, answer))) => Ok(told(user, number, answer)),
        Ok(None) => Ok(None),
        Err(refused) => Err(refused),
    }
}

/// The line of an observation, if it has one. An error is out of memory (22).
pub fn report_note(alloc: Global, note: &Note) -> Result<Option<Report>, AllocError>
    ensures { IfOk result (λ report. report ≡ observed note.now) }
{
    match note {
        Note::Acked {
            extent,
            offset,
            group,
        } => Ok(Some(Report::Acked {
            extent: extent.0,
            offset: *offset,
            size: group.size(),
        })),
        Note::SealedAt { extent, length } => Ok(Some(Report::SealedAt {
            extent: extent.0,
            length: *length,
        })),
        Note::Content {
            extent,
            node,
            groups,
        } => Ok(Some(Report::Content {
            extent: extent.0,
            node: *node,
            size: size_of(&groups.items),
            groups: groups.items.len() as u64,
        })),
        Note::Seen {
            extent,
            node,
            offset,
            bytes,
        } => Ok(Some(Report::Seen {
            extent: extent.0,
            node: *node,
            offset: *offset,
            count: bytes.len() as u64,
        })),
        _ => report_table(alloc, note),
    }
}
