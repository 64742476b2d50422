//! The copy of what a packet says.
ghost use Rattle.std.specs.Prelude.{◌≡◌, IfOk};

use crate::append_bodies::{append_body, check_body};
use crate::map_bodies::map_body;
use crate::read_bodies::read_body;
use crate::seal_bodies::seal_body;
use crate::stream_bodies::stream_body;
use crate::table_bodies::table_body;
use std::alloc::{AllocError, Global};
use wire::Body;

/// The same again, which shares its payload. An error is out of memory (22).
pub fn body(alloc: Global, body: &Body) -> Result<Body, AllocError>
    ensures { IfOk result (λ copy. copy ≡ body.now) }
{
    match body {
        Body::Append(body) => Ok(Body::Append(append_body(body)?)),
        Body::Check(body) => Ok(Body::Check(check_body(body))),
        Body::Seal(body) => Ok(Body::Seal(seal_body(alloc, body)?)),
        Body::Read(body) => Ok(Body::Read(read_body(alloc, body)?)),
        Body::Stream(body) => Ok(Body::Stream(stream_body(alloc, body)?)),
        Body::Map(body) => Ok(Body::Map(map_body(body)?)),
        Body::Table(body) => Ok(Body::Table(table_body(body)?)),
    }
}
