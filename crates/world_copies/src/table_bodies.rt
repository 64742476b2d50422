//! The copy of a call of a range, and of its answer.
ghost use Rattle.std.specs.Prelude.{◌≡◌, IfOk};

use bytes::Bytes;
use std::alloc::AllocError;
use wire::TableBody;

fn optional(value: &Option<Bytes>) -> Result<Option<Bytes>, AllocError>
    ensures { IfOk result (λ copy. copy ≡ value.now) }
{
    match value {
        None => Ok(None),
        Some(bytes) => Ok(Some(bytes.clone()?)),
    }
}

/// The same again, which shares its changes, its key and its value. An error is out of memory (22).
pub(crate) fn table_body(body: &TableBody) -> Result<TableBody, AllocError>
    ensures { IfOk result (λ copy. copy ≡ body.now) }
{
    match body {
        TableBody::Transact {
            range,
            changes,
            request,
        } => {
            let changes = changes.copy()?;
            Ok(TableBody::Transact {
                range: *range,
                changes,
                request: *request,
            })
        }
        TableBody::Committed { request, number } => Ok(TableBody::Committed {
            request: *request,
            number: *number,
        }),
        TableBody::Get {
            range,
            key,
            request,
        } => {
            let key = key.clone()?;
            Ok(TableBody::Get {
                range: *range,
                key,
                request: *request,
            })
        }
        TableBody::Value { request, value } => {
            let value = optional(value)?;
            Ok(TableBody::Value {
                request: *request,
                value,
            })
        }
    }
}
