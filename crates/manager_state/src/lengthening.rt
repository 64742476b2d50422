//! The changes of streams: a new stream, one more extent at an end, and room for them.
ghost use Rattle.std.specs.Prelude.{◌≡◌, ◌<◌, OnOk, IfOk, length, suc, option_map, vec_len, vec_capacity};
ghost use Rattle.streams.specs.Streams.{stream_of, created, extended};
ghost use Rattle.streams.specs.Table.{streams_of, HasRoom};
ghost use Rattle.model_streams.specs.Manager.{first_streams};
ghost use Rattle.manager_state.specs.Extents.{longer_entries};

use crate::entry::{ExtentEntry, push_new};
use block_types::Nodes;
use std::alloc::{AllocError, Global};
use streams::StreamTable;
use wire::{ExtentId, Fence, RangeId, StreamKind, StreamName};

/// The fence of a stream, if there is one.
fn fence_of(streams: &StreamTable, stream: &StreamName) -> Option<Fence>
    ensures { result ≡ option_map (λ x. x.fence) (stream_of (streams_of streams.now) stream.now) }
{
    match streams.stream(stream) {
        None => None,
        Some(listed) => Some(listed.fence),
    }
}

/// Room for one more extent at the end of a stream. Without memory nothing has changed but room.
pub(crate) fn reserve_extent(
    entries: &mut Vec<ExtentEntry>,
    streams: &mut StreamTable,
    stream: &StreamName,
) -> Result<(), AllocError>
    ensures entries { entries.new.items ≡ entries.old.items }
    ensures stream { streams_of streams.new ≡ streams_of streams.old }
    ensures room { OnOk result ((vec_len entries.new < vec_capacity entries.new) × HasRoom streams.new stream.now) }
{
    entries.reserve(1)?;
    streams.reserve_extent(stream)
}

/// One more extent at the end of a stream, where there is the stream, into room that was made.
pub(crate) fn lengthen(
    entries: &mut Vec<ExtentEntry>,
    streams: &mut StreamTable,
    stream: &StreamName,
    pick: Nodes,
)
    requires entries { vec_len entries.old < vec_capacity entries.old }
    requires stream { HasRoom streams.old stream.now }
    ensures entries { entries.new.items ≡ longer_entries entries.old.items (stream_of (streams_of streams.old) stream.now) pick }
    ensures stream { streams_of streams.new ≡ extended (streams_of streams.old) stream.now (suc (length entries.old.items)) }
{
    match fence_of(streams, stream) {
        None => {}
        Some(fence) => {
            let number = entries.len() as u64 + 1;
            push_new(entries, pick, fence);
            streams.push_extent(stream, ExtentId(number));
        }
    }
}

fn add_first(streams: &mut StreamTable, kind: StreamKind) -> Result<(), AllocError>
    ensures { OnOk result (streams_of streams.new ≡ created (streams_of streams.old) (record { range = 1; kind = kind }) 0) }
{
    let range = RangeId(1);
    streams.reserve()?;
    streams.put(&StreamName { range, kind }, Fence(0));
    Ok(())
}

/// The four streams of range 1, without an extent.
pub(crate) fn first_streams(alloc: Global) -> Result<StreamTable, AllocError>
    ensures { IfOk result (λ streams. streams_of streams ≡ first_streams) }
{
    let mut streams = StreamTable::new(alloc);
    add_first(&mut streams, StreamKind::Metadata)?;
    add_first(&mut streams, StreamKind::Log)?;
    add_first(&mut streams, StreamKind::RowData)?;
    add_first(&mut streams, StreamKind::BlobData)?;
    Ok(streams)
}
