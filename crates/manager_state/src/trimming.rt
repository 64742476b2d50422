//! The extents that leave the front of a range's log.
ghost use Rattle.std.specs.Prelude.{◌≡◌};
ghost use Rattle.streams.specs.Table.{streams_of};
ghost use Rattle.model_streams.specs.Replay.{loses_extents, trim_fits};

use streams::{Listed, StreamTable};
use wire::{RangeId, StreamKind, StreamName};

/// Whether a log begins below an index and ends behind it: its last extent never leaves.
fn begins_below(log: &Listed, before: u64) -> bool
    ensures { result ≡ loses_extents log.now.stream before }
{
    let base = log.base();
    base < before && before - base < log.extents().len() as u64
}

/// Whether the log of a range loses its extents below an index, where the range has a log and a blob stream.
pub(crate) fn loses_extents(streams: &StreamTable, range: RangeId, before: u64) -> bool
    ensures { result ≡ trim_fits (streams_of streams.now range 1) (streams_of streams.now range 3) before }
{
    let kind = StreamKind::BlobData;
    if streams.stream(&StreamName { range, kind }).is_none() {
        return false;
    }
    let kind = StreamKind::Log;
    match streams.stream(&StreamName { range, kind }) {
        None => false,
        Some(log) => begins_below(log, before),
    }
}
