//! What Gets look at.
ghost use Rattle.std.specs.Prelude.{◌≡◌, ◌++◌};
ghost use Rattle.model_partition.specs.PlaceReads.{places_in as nodes_in};

use block_types::Nodes;
use checkpoint::InstalledIndexes;
use memtable::MemTable;
use model_partition::{Pause, ServerContext};
use wire::{ExtentId, Fence, RangeId, StreamExtent};

/// What a try of a Get looks at: the server, the range and its generation, the end of its lease, in ticks, what it takes, its
/// memory table, the indexes below it, and the extents of the streams that pages and values stand in.
#[derive(Drop)]
pub struct Asking<'a> {
    pub context: &'a ServerContext,
    pub range: RangeId,
    pub generation: Fence,
    pub until: u64,
    pub pause: Pause,
    pub table: &'a MemTable,
    pub indexes: &'a InstalledIndexes,
    pub log: &'a [StreamExtent],
    pub blob: &'a [StreamExtent],
    pub rows: &'a [StreamExtent],
}

/// The replicas of an extent that pages and values stand in.
pub(crate) fn places_of(asking: &Asking<'_>, extent: ExtentId) -> Option<Nodes>
    ensures { result ≡ nodes_in (asking.now.log.now ++ (asking.now.blob.now ++ asking.now.rows.now)) extent }
{
    model_partition::places_of(asking.log, asking.blob, asking.rows, extent)
}
