//! The indexes that the metadata names are read, the oldest first.
ghost use Rattle.std.specs.Prelude.{◌≡◌, ◌++◌, suc, true, option_map};
ghost use Rattle.client.specs.Load.{is_open};
ghost use Rattle.metadata.specs.declared.record.KeyRange.{KeyRange};
ghost use Rattle.model_partition.specs.PlaceReads as reads;
ghost use Rattle.model_partition.specs.Loading as rows;
ghost use Rattle.model_partition.specs.RangeSteps.{RangePerforms};

use crate::confirming::confirms;
use block_types::Nodes;
use client::Place as Replica;
use memtable::Place;
use metadata::IndexRange;
use model_partition::{
    PlaceRead, Progress, RangeContent, ServerContext, Stage, next_request, places_of, reads_place,
};
use wire::ExtentId;

/// The index at a position, from 0 for the oldest, of indexes of which the newest stands first.
pub(crate) fn index_named(indexes: &[IndexRange], position: u64) -> Option<&IndexRange>
    ensures { option_map (λ index. index.now) result ≡ rows.index_named indexes.now position }
{
    let count = indexes.len() as u64;
    if position < count {
        indexes.get((count - 1 - position) as usize)
    } else {
        None
    }
}

/// The replicas of an extent that the load was told of.
pub(crate) fn places_known(content: &RangeContent, extent: ExtentId) -> Option<Nodes>
    ensures { result ≡ reads.places_in (content.now.log.extents ++ (content.now.blob_data.extents ++ content.now.rows.extents)) extent }
{
    places_of(
        &content.log.extents,
        &content.blob_data.extents.items,
        &content.rows.extents,
        extent,
    )
}

/// The index at the position, which stands at this place, is asked for at the first replica. One in an extent that the load was
/// not told of never comes.
fn asks_index(
    content: &mut RangeContent,
    context: &ServerContext,
    position: u64,
    place: Place,
) -> Progress
    requires { is_open content.old.load.phase ≡ true }
    ensures { (keys : KeyRange) → RangePerforms context.now
        (λ r. rows.asks_index context.now r position (record { place = place; keys = keys }) (reads.places_of r place.extent)) content.old content.new result }
{
    let Some(places) = places_known(content, place.extent) else {
        return Progress::Dropped;
    };
    let read = PlaceRead {
        request: next_request(context),
        place,
        page: false,
        replica: Replica::First,
    };
    content.stage = Stage::Indexing { position };
    content.reading = Some(read);
    Progress::Goes(Some(reads_place(context, &places, &read)))
}

/// The index at the position is read, from 0 for the oldest, or all are.
pub(crate) fn reads_index(
    content: &mut RangeContent,
    context: &ServerContext,
    position: u64,
) -> Progress
    requires { is_open content.old.load.phase ≡ true }
    ensures { RangePerforms context.now (λ r. rows.reads_index context.now r position) content.old content.new result }
{
    let place = match index_named(&content.said.indexes.items, position) {
        None => return confirms(content, context),
        Some(index) => index.place,
    };
    asks_index(content, context, position, place)
}

/// The same after the position.
pub(crate) fn reads_index_behind(
    content: &mut RangeContent,
    context: &ServerContext,
    position: u64,
) -> Progress
    requires { is_open content.old.load.phase ≡ true }
    ensures { RangePerforms context.now (λ r. rows.reads_index context.now r (suc position)) content.old content.new result }
{
    if position < content.said.indexes.items.len() as u64 {
        reads_index(content, context, position + 1)
    } else {
        confirms(content, context)
    }
}
