//! What users may ask, and the copy of a request.
ghost use Rattle.std.specs.Prelude.{◌≡◌, Some, None, IfOk, if◌then◌else◌};
ghost use Rattle.model_streams.specs.StreamSystem.{is_request, is_append, is_seal, is_read, is_stream_call, is_route, is_table_call};

use crate::bodies;
use std::alloc::{AllocError, Global};
use wire::{AppendBody, Body, MapBody, ReadBody, SealBody, StreamBody, TableBody};

/// Whether it asks for an append, as clients do of a primary.
pub fn is_append(body: &AppendBody) -> bool
    ensures { result ≡ is_append body.now }
{
    match body {
        AppendBody::Append { .. } => true,
        _ => false,
    }
}

/// Whether it asks for an extent to be sealed.
pub fn is_seal(body: &SealBody) -> bool
    ensures { result ≡ is_seal body.now }
{
    match body {
        SealBody::SealExtent { .. } => true,
        _ => false,
    }
}

/// Whether it asks for groups or for bytes of an extent.
pub fn is_read(body: &ReadBody) -> bool
    ensures { result ≡ is_read body.now }
{
    match body {
        ReadBody::ReadAt { .. } => true,
        ReadBody::ReadGroups { .. } => true,
        _ => false,
    }
}

fn is_stream_call(body: &StreamBody) -> bool
    ensures { result ≡ is_stream_call body.now }
{
    match body {
        StreamBody::CreateStream { .. } => true,
        StreamBody::Extend { .. } => true,
        _ => false,
    }
}

fn is_route(body: &MapBody) -> bool
    ensures { result ≡ is_route body.now }
{
    match body {
        MapBody::Route { .. } => true,
        _ => false,
    }
}

fn is_table_call(body: &TableBody) -> bool
    ensures { result ≡ is_table_call body.now }
{
    match body {
        TableBody::Transact { .. } => true,
        TableBody::Get { .. } => true,
        _ => false,
    }
}

/// Whether a user may ask this.
pub fn is_request(body: &Body) -> bool
    ensures { result ≡ is_request body.now }
{
    match body {
        Body::Append(body) => is_append(body),
        Body::Check(_body) => false,
        Body::Seal(body) => is_seal(body),
        Body::Read(body) => is_read(body),
        Body::Stream(body) => is_stream_call(body),
        Body::Map(body) => is_route(body),
        Body::Table(body) => is_table_call(body),
    }
}

/// The same request again, which shares the payload bytes, where users may ask it. An error is out of memory (22).
pub fn request(alloc: Global, body: &Body) -> Result<Option<Body>, AllocError>
    ensures { IfOk result (λ copy. copy ≡ (if is_request body.now then Some body.now else None)) }
{
    if !is_request(body) {
        return Ok(None);
    }
    Ok(Some(bodies::body(alloc, body)?))
}
