//! Pages of older indexes are merged.
ghost use Rattle.std.specs.Prelude.{◌≡◌, ◌++◌, Some, None, IfOk, OnOk, OnErr};
ghost use Rattle.checkpoint.specs.Merges.{LeadsTo, MergeState, next_place};
ghost use Rattle.model_partition.specs.CheckpointStates.{CheckpointState};
ghost use Rattle.model_partition.specs.Checkpoints as rules;
ghost use Rattle.model_partition.specs.PlaceReads as reads;
ghost use Rattle.model_partition.specs.Range.{RangeState};
ghost use Rattle.model_partition.specs.RangeSteps.{RangePerforms, outcome, put};

use crate::writing::{combined_job, writes};
use block_types::Nodes;
use checkpoint::PageChanges;
use client::Place as Replica;
use memtable::Place;
use model_partition::{
    CheckpointJob, PlaceRead, Progress, RangeContent, ServerContext, next_request, places_of,
    reads_place,
};
use std::alloc::{AllocError, Global};
use wire::ExtentId;

/// The replicas of an extent that the load was told of.
fn places_known(content: &RangeContent, extent: ExtentId) -> Option<Nodes>
    ensures { result ≡ reads.places_in (content.now.log.extents ++ (content.now.blob_data.extents ++ content.now.rows.extents)) extent }
{
    places_of(
        &content.log.extents,
        &content.blob_data.extents.items,
        &content.rows.extents,
        extent,
    )
}

/// The page at a place is asked for at the first replica. One in an extent that the load was not told of never comes.
fn asks_page(content: &mut RangeContent, context: &ServerContext, place: &Place) -> Progress
    ensures { RangePerforms context.now (λ r. rules.asks_page context.now r place.now (reads.places_of r place.now.extent)) content.old content.new result }
{
    let Some(places) = places_known(content, place.extent) else {
        return Progress::Goes(None);
    };
    let read = PlaceRead {
        request: next_request(context),
        place: *place,
        page: true,
        replica: Replica::First,
    };
    content.reading = Some(read);
    Progress::Goes(Some(reads_place(context, &places, &read)))
}

/// The checkpoint is under way, and the page at a place is asked for.
pub(crate) fn asks_first(
    content: &mut RangeContent,
    context: &ServerContext,
    job: CheckpointJob,
    place: &Place,
) -> Progress
    ensures { RangePerforms context.now (λ r. rules.asks_page context.now (record r { control = Some job }) place.now (reads.places_of r place.now.extent)) content.old content.new result }
{
    content.control = Some(job);
    asks_page(content, context, place)
}

/// Changes are taken into the merge of the checkpoint that is under way. Where memory runs out (22) nothing has changed.
fn take(
    control: &mut Option<CheckpointJob>,
    alloc: Global,
    changes: PageChanges,
) -> Result<(), AllocError>
    ensures ok { OnOk result ((job : CheckpointState) (m : MergeState) → control.old ≡ Some job → LeadsTo changes job.merge m → control.new ≡ Some (record job { merge = m })) }
    ensures err { OnErr result (control.new ≡ control.old) }
{
    match control {
        None => Ok(()),
        Some(job) => {
            job.merge.take(alloc, changes)?;
            Ok(())
        }
    }
}

/// All older pages are merged once changes are taken: what they and the fixed layer come to is written.
fn writes_combined(
    content: &mut RangeContent,
    alloc: Global,
    context: &ServerContext,
    changes: &PageChanges,
) -> Result<Progress, AllocError>
    ensures ok { IfOk result (λ p. (r : RangeState) (job : CheckpointState) (m : MergeState) → content.old.control ≡ Some job → LeadsTo changes.now job.merge m
        → rules.writes_combined context.now (record (put content.old r) { reading = None }) (record job { merge = m }) content.old.table.fixed ≡ outcome context.now (put content.new r) p) }
    ensures err { OnErr result (content.new ≡ content.old) }
{
    let Some(job) = &content.control else {
        return Ok(Progress::Rests);
    };
    let Some(newer) = content.table.fixed() else {
        content.reading = None;
        return Ok(Progress::Goes(None));
    };
    let (job, blocks) = combined_job(alloc, job, changes, newer)?;
    content.reading = None;
    Ok(writes(content, context, job, blocks))
}

/// The checkpoint that is under way goes on with these changes: the next page is asked for, or where all are merged what they and
/// the fixed layer come to is written. Where memory runs out (22) nothing has changed.
pub(crate) fn merges_on(
    content: &mut RangeContent,
    alloc: Global,
    context: &ServerContext,
    changes: PageChanges,
) -> Result<Progress, AllocError>
    ensures ok { IfOk result (λ p. (r : RangeState) (job : CheckpointState) (m : MergeState) → content.old.control ≡ Some job → LeadsTo changes job.merge m
        → rules.merges_next context.now (record (put content.old r) { reading = None }) (record job { merge = m }) (next_place m) ≡ outcome context.now (put content.new r) p) }
    ensures err { OnErr result (content.new ≡ content.old) }
{
    let Some(job) = &content.control else {
        return Ok(Progress::Rests);
    };
    let Some(place) = job.merge.place_behind(&changes) else {
        return writes_combined(content, alloc, context, &changes);
    };
    take(&mut content.control, alloc, changes)?;
    content.reading = None;
    Ok(asks_page(content, context, &place))
}
