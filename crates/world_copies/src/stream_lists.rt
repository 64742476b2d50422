//! The copy of the four streams of a range, as an answer tells them.
ghost use Rattle.std.specs.Prelude.{◌≡◌, IfOk};

use std::alloc::{AllocError, Global};
use wire::{OpenedStreams, StreamExtent, StreamExtents, StreamList, StreamLists};

fn extents(alloc: Global, all: &[StreamExtent]) -> Result<StreamExtents, AllocError>
    ensures { IfOk result (λ copy. copy ≡ all.now) }
{
    let mut items = Vec::new(alloc);
    items.extend_from_slice(all)?;
    Ok(StreamExtents { items })
}

fn stream(alloc: Global, list: &StreamList) -> Result<StreamList, AllocError>
    ensures { IfOk result (λ copy. copy ≡ list.now) }
{
    Ok(StreamList {
        base: list.base,
        extents: extents(alloc, &list.extents.items)?,
    })
}

fn streams(alloc: Global, lists: &StreamLists) -> Result<StreamLists, AllocError>
    ensures { IfOk result (λ copy. copy ≡ lists.now) }
{
    Ok(StreamLists {
        metadata: stream(alloc, &lists.metadata)?,
        log: stream(alloc, &lists.log)?,
        row_data: stream(alloc, &lists.row_data)?,
        blob_data: stream(alloc, &lists.blob_data)?,
    })
}

/// The same streams again. An error is out of memory (22).
pub(crate) fn opened(alloc: Global, told: &OpenedStreams) -> Result<OpenedStreams, AllocError>
    ensures { IfOk result (λ copy. copy ≡ told.now) }
{
    OpenedStreams::of(alloc, streams(alloc, told.lists())?)
}
