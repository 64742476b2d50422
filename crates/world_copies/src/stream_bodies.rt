//! The copy of a call of the stream manager, and of its answer.
ghost use Rattle.std.specs.Prelude.{◌≡◌, IfOk};

use crate::modifies::modifies;
use crate::stream_lists::opened;
use std::alloc::{AllocError, Global};
use wire::StreamBody;

/// The same again. An error is out of memory (22).
pub(crate) fn stream_body(alloc: Global, body: &StreamBody) -> Result<StreamBody, AllocError>
    ensures { IfOk result (λ copy. copy ≡ body.now) }
{
    match body {
        StreamBody::CreateStream {
            stream,
            fence,
            request,
        } => Ok(StreamBody::CreateStream {
            stream: *stream,
            fence: *fence,
            request: *request,
        }),
        StreamBody::Created { request } => Ok(StreamBody::Created { request: *request }),
        StreamBody::OpenStreams {
            range,
            generation,
            request,
        } => Ok(StreamBody::OpenStreams {
            range: *range,
            generation: *generation,
            request: *request,
        }),
        StreamBody::Opened { request, streams } => {
            let streams = opened(alloc, streams)?;
            Ok(StreamBody::Opened {
                request: *request,
                streams,
            })
        }
        StreamBody::Confirm {
            range,
            generation,
            request,
        } => Ok(StreamBody::Confirm {
            range: *range,
            generation: *generation,
            request: *request,
        }),
        StreamBody::Confirmed { request } => Ok(StreamBody::Confirmed { request: *request }),
        StreamBody::Extend {
            stream,
            generation,
            last,
            pick,
            request,
        } => Ok(StreamBody::Extend {
            stream: *stream,
            generation: *generation,
            last: *last,
            pick: *pick,
            request: *request,
        }),
        StreamBody::Extended {
            request,
            extent,
            places,
        } => Ok(StreamBody::Extended {
            request: *request,
            extent: *extent,
            places: *places,
        }),
        StreamBody::Trim {
            range,
            generation,
            before,
            to_blob,
            request,
        } => Ok(StreamBody::Trim {
            range: *range,
            generation: *generation,
            before: *before,
            to_blob: *to_blob,
            request: *request,
        }),
        StreamBody::Trimmed { request } => Ok(StreamBody::Trimmed { request: *request }),
        StreamBody::MultiModify { list, request } => {
            let list = modifies(alloc, &list.items)?;
            Ok(StreamBody::MultiModify {
                list,
                request: *request,
            })
        }
        StreamBody::Modified { request } => Ok(StreamBody::Modified { request: *request }),
    }
}
