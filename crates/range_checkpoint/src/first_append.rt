//! How a checkpoint begins.
ghost use Rattle.std.specs.Prelude.{◌≡◌, None, true, IfOk, OnErr};
ghost use Rattle.checkpoint.specs.Merges.{LeadsTo, with_at_hand};
ghost use Rattle.model_partition.specs.Checkpoints as rules;
ghost use Rattle.model_partition.specs.Getting.{held_at};
ghost use Rattle.model_partition.specs.Range.{RangeState};
ghost use Rattle.model_partition.specs.RangeSteps.{outcome, put};
ghost use Rattle.range_checkpoint.specs.Combining as specs;

use crate::appends::NextAppend;
use crate::merging::asks_first;
use crate::starts::CheckpointStart;
use crate::writing::{combined_job, first_append, writes, writing_job};
use checkpoint::{CheckpointPages, PageChanges, PageMerge, Pages};
use model_partition::{
    CheckpointJob, CheckpointPhase, Pause, Progress, RangeContent, ServerContext, Stage,
};
use std::alloc::{AllocError, Global};
use wire::Refusal;

/// How many indexes are combined also where that is not asked.
const MAX_INDEXES: usize = 16;

/// Why no checkpoint can begin: the range is not served (`Loading`, 38), it is paused (`Paused`, 34), or one is under way (`Busy`,
/// 35), the first that is met. What the range takes is told.
pub fn checkpoint_fault(content: &RangeContent, pause: Pause) -> Option<Refusal>
    ensures { (r : RangeState) → result ≡ rules.checkpoint_fault (record (put content.now r) { pause = pause }) }
{
    if content.stage != Stage::Serving {
        return Some(Refusal::Loading);
    }
    if pause.is_paused() {
        return Some(Refusal::Paused);
    }
    if content.control.is_some() || content.table.fixed().is_some() {
        return Some(Refusal::Busy);
    }
    None
}

/// The live layer becomes the fixed one, and its first pages are appended.
fn begins_pages(
    content: &mut RangeContent,
    alloc: Global,
    context: &ServerContext,
    start: &CheckpointStart,
) -> Result<Progress, AllocError>
    requires { content.old.table.fixed ≡ None }
    ensures ok { IfOk result (λ p. (r : RangeState) → r.position ≡ start.now.position → rules.number_to_apply r.out r.next ≡ start.now.next
        → rules.begins_pages context.now (put content.old r) ≡ outcome context.now (put content.new r) p) }
    ensures err { OnErr result (content.new ≡ content.old) }
{
    let pages = CheckpointPages::of(alloc, content.table.live())?;
    let NextAppend { phase, blocks } = first_append(alloc, &pages)?;
    let plain = CheckpointStart {
        position: start.position,
        next: start.next,
        combine: false,
    };
    // It always is: no layer is fixed, as the caller sees to.
    let _frozen = content.table.freeze_layer(alloc);
    let job = writing_job(alloc, &plain, pages, &phase);
    Ok(writes(content, context, job, blocks))
}

/// The job of a checkpoint that combines the indexes, none of whose pages is merged yet.
fn combining_job(
    content: &RangeContent,
    alloc: Global,
    start: &CheckpointStart,
) -> Result<CheckpointJob, AllocError>
    ensures { IfOk result (λ job. job ≡ specs.combining_job start.now content.now.indexes) }
{
    Ok(CheckpointJob {
        position: start.position,
        next: start.next,
        combine: true,
        merge: PageMerge::of(alloc, content.indexes.as_slice())?,
        pages: CheckpointPages::new(alloc),
        phase: CheckpointPhase::Combining,
    })
}

/// What the pages bring that are to be merged first and are at hand.
fn changes_at_hand<P: Pages>(
    content: &RangeContent,
    alloc: Global,
    merge: &PageMerge,
    pages: &P,
) -> Result<PageChanges, AllocError>
    ensures { IfOk result (λ changes. LeadsTo changes merge.now (with_at_hand (P.source pages.now) content.now.said.keys merge.now)) }
{
    merge.at_hand(alloc, &content.said.keys, pages)
}

/// The live layer becomes the fixed one, and the first page of the older indexes that is not at hand is asked for, or where there
/// is none what they and this layer come to is written.
fn begins_combining<P: Pages>(
    content: &mut RangeContent,
    alloc: Global,
    context: &ServerContext,
    start: &CheckpointStart,
    pages: &P,
) -> Result<Progress, AllocError>
    requires { content.old.table.fixed ≡ None }
    ensures ok { IfOk result (λ p. (r : RangeState) → r.position ≡ start.now.position → rules.number_to_apply r.out r.next ≡ start.now.next → held_at r.held ≡ P.source pages.now
        → rules.begins_combining context.now (put content.old r) ≡ outcome context.now (put content.new r) p) }
    ensures err { OnErr result (content.new ≡ content.old) }
{
    let mut job = combining_job(content, alloc, start)?;
    let changes = changes_at_hand(content, alloc, &job.merge, pages)?;
    match job.merge.place_behind(&changes) {
        Some(place) => {
            job.merge.take(alloc, changes)?;
            // It always is, as above.
            let _frozen = content.table.freeze_layer(alloc);
            content.reading = None;
            Ok(asks_first(content, context, job, &place))
        }
        None => {
            let (job, blocks) = combined_job(alloc, &job, &changes, content.table.live())?;
            // It always is, as above.
            let _frozen = content.table.freeze_layer(alloc);
            content.reading = None;
            Ok(writes(content, context, job, blocks))
        }
    }
}

/// Whether a checkpoint combines the indexes: where that is asked, or there are 16. Whatever it answers, the numbers of the
/// checkpoint have their bytes, as its rule asks.
#[tactic(auto, using(crate::proofs::Numbers::bytes_held))]
fn combines(content: &RangeContent, start: &CheckpointStart) -> bool
    ensures value { result ≡ rules.combines start.now.combine content.now.indexes }
    ensures bytes { rules.have_bytes content.now.table.live start.now.position start.now.next ≡ true }
{
    // For the clause on bytes: the types of these numbers and the table keep it.
    let _live = content.table.live();
    let _index = start.position.index;
    let _offset = start.position.offset;
    let _next = start.next;
    start.combine || content.indexes.as_slice().len() >= MAX_INDEXES
}

/// A checkpoint begins: the live layer becomes the fixed one, and its first pages are appended to row data, or where it has no
/// entry its index. Where that is asked, or 16 indexes are installed, it combines them: the first of their pages that is not at
/// hand is asked for, or where there is none what they and the layer come to is written. The position is that up to which the
/// layer has the log, and `next` the number that a load from there applies next. Where memory runs out (22) nothing has changed.
pub fn begin<P: Pages>(
    content: &mut RangeContent,
    alloc: Global,
    context: &ServerContext,
    start: &CheckpointStart,
    pages: &P,
) -> Result<Progress, AllocError>
    requires { content.old.table.fixed ≡ None }
    ensures ok { IfOk result (λ p. (r : RangeState) → r.position ≡ start.now.position → rules.number_to_apply r.out r.next ≡ start.now.next → held_at r.held ≡ P.source pages.now
        → rules.checkpoint_rule context.now (put content.old r) start.now.combine ≡ outcome context.now (put content.new r) p) }
    ensures err { OnErr result (content.new ≡ content.old) }
{
    if combines(content, start) {
        begins_combining(content, alloc, context, start, pages)
    } else {
        begins_pages(content, alloc, context, start)
    }
}
