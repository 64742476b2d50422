//! The copy of an append, of what acknowledges it, and of the check of a length.
ghost use Rattle.std.specs.Prelude.{◌≡◌, IfOk};

use std::alloc::AllocError;
use wire::{AppendBody, CheckBody};

/// The same again, which shares its blocks. An error is out of memory (22).
pub(crate) fn append_body(body: &AppendBody) -> Result<AppendBody, AllocError>
    ensures { IfOk result (λ copy. copy ≡ body.now) }
{
    match body {
        AppendBody::Append {
            extent,
            generation,
            blocks,
            request,
        } => {
            let blocks = blocks.copy()?;
            Ok(AppendBody::Append {
                extent: *extent,
                generation: *generation,
                blocks,
                request: *request,
            })
        }
        AppendBody::Put {
            extent,
            offset,
            group,
        } => {
            let group = group.copy()?;
            Ok(AppendBody::Put {
                extent: *extent,
                offset: *offset,
                group,
            })
        }
        AppendBody::Have { extent, length } => Ok(AppendBody::Have {
            extent: *extent,
            length: *length,
        }),
        AppendBody::Appended {
            request,
            extent,
            offset,
        } => Ok(AppendBody::Appended {
            request: *request,
            extent: *extent,
            offset: *offset,
        }),
        AppendBody::Refused { request, refusal } => Ok(AppendBody::Refused {
            request: *request,
            refusal: *refusal,
        }),
    }
}

/// The same again.
pub(crate) fn check_body(body: &CheckBody) -> CheckBody
    ensures { result ≡ body.now }
{
    match body {
        CheckBody::Check {
            extent,
            generation,
            request,
        } => CheckBody::Check {
            extent: *extent,
            generation: *generation,
            request: *request,
        },
        CheckBody::Probe { extent, generation } => CheckBody::Probe {
            extent: *extent,
            generation: *generation,
        },
        CheckBody::Probed {
            extent,
            generation,
            length,
        } => CheckBody::Probed {
            extent: *extent,
            generation: *generation,
            length: *length,
        },
        CheckBody::Checked { request, length } => CheckBody::Checked {
            request: *request,
            length: *length,
        },
    }
}
