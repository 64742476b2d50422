//! The copy of what makes and seals extents.
ghost use Rattle.std.specs.Prelude.{◌≡◌, IfOk};

use block_types::Groups;
use std::alloc::{AllocError, Global};
use wire::SealBody;

/// The same again, which shares its groups. An error is out of memory (22).
pub(crate) fn seal_body(alloc: Global, body: &SealBody) -> Result<SealBody, AllocError>
    ensures { IfOk result (λ copy. copy ≡ body.now) }
{
    match body {
        SealBody::Make {
            extent,
            fence,
            target,
            places,
        } => Ok(SealBody::Make {
            extent: *extent,
            fence: *fence,
            target: *target,
            places: *places,
        }),
        SealBody::SealExtent { extent, request } => Ok(SealBody::SealExtent {
            extent: *extent,
            request: *request,
        }),
        SealBody::SealedIs {
            request,
            extent,
            length,
        } => Ok(SealBody::SealedIs {
            request: *request,
            extent: *extent,
            length: *length,
        }),
        SealBody::Freeze { extent } => Ok(SealBody::Freeze { extent: *extent }),
        SealBody::Frozen { extent, length } => Ok(SealBody::Frozen {
            extent: *extent,
            length: *length,
        }),
        SealBody::Seal { extent, length } => Ok(SealBody::Seal {
            extent: *extent,
            length: *length,
        }),
        SealBody::IsSealed { extent } => Ok(SealBody::IsSealed { extent: *extent }),
        SealBody::Short { extent, length } => Ok(SealBody::Short {
            extent: *extent,
            length: *length,
        }),
        SealBody::SendTail { extent, from, to } => Ok(SealBody::SendTail {
            extent: *extent,
            from: *from,
            to: *to,
        }),
        SealBody::Tail {
            extent,
            from,
            length,
            groups,
        } => {
            let groups = Groups::copied(alloc, &groups.items)?;
            Ok(SealBody::Tail {
                extent: *extent,
                from: *from,
                length: *length,
                groups,
            })
        }
    }
}
