//! The copy of a read, and of its answer.
ghost use Rattle.std.specs.Prelude.{◌≡◌, IfOk};

use block_types::Groups;
use std::alloc::{AllocError, Global};
use wire::ReadBody;

/// The same again, which shares its bytes. An error is out of memory (22).
pub(crate) fn read_body(alloc: Global, body: &ReadBody) -> Result<ReadBody, AllocError>
    ensures { IfOk result (λ copy. copy ≡ body.now) }
{
    match body {
        ReadBody::ReadAt {
            extent,
            offset,
            length,
            request,
        } => Ok(ReadBody::ReadAt {
            extent: *extent,
            offset: *offset,
            length: *length,
            request: *request,
        }),
        ReadBody::Bytes {
            request,
            extent,
            offset,
            bytes,
        } => {
            let bytes = bytes.clone()?;
            Ok(ReadBody::Bytes {
                request: *request,
                extent: *extent,
                offset: *offset,
                bytes,
            })
        }
        ReadBody::ReadGroups {
            extent,
            upto,
            sealed,
            request,
        } => Ok(ReadBody::ReadGroups {
            extent: *extent,
            upto: *upto,
            sealed: *sealed,
            request: *request,
        }),
        ReadBody::Groups {
            request,
            extent,
            groups,
        } => {
            let groups = Groups::copied(alloc, &groups.items)?;
            Ok(ReadBody::Groups {
                request: *request,
                extent: *extent,
                groups,
            })
        }
    }
}
