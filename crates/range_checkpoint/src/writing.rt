//! The first append of a checkpoint.
ghost use Rattle.std.specs.Prelude.{◌≡◌, false, IfOk};
ghost use Rattle.std.specs.List.{AllByRecursion};
ghost use Rattle.memtable.specs.Entries.{IsFit};
ghost use Rattle.checkpoint.specs.Merges.{LeadsTo, MergeState, no_merge};
ghost use Rattle.checkpoint.specs.PageGroups.{next_group};
ghost use Rattle.model_partition.specs.CheckpointStates.{CheckpointState, is_recording};
ghost use Rattle.model_partition.specs.Checkpoints as rules;
ghost use Rattle.model_partition.specs.RangeSteps.{RangePerforms};
ghost use Rattle.range_checkpoint.specs.Combining as specs;

use crate::appends::{NextAppend, append_of, send};
use crate::starts::{CheckpointStart, start_of};
use checkpoint::{CheckpointPages, PageChanges, PageMerge};
use client::Appending;
use memtable::Cells;
use model_partition::{CheckpointJob, CheckpointPhase, Progress, RangeContent, ServerContext};
use std::alloc::{AllocError, Global};

/// What is appended first of pages none of which stands.
pub(crate) fn first_append(alloc: Global, pages: &CheckpointPages) -> Result<NextAppend, AllocError>
    ensures next { IfOk result (λ next. (job : CheckpointState) → job.pages ≡ pages.now → rules.next_append job (next_group pages.now) ≡ (rules.with_phase job next.phase, next.blocks)) }
    ensures phase { IfOk result (λ next. is_recording next.phase ≡ false) }
{
    let group = pages.next_group(alloc)?;
    append_of(alloc, group, pages.index())
}

/// The pages of what is merged once changes are taken, under newer entries, and that they combine; where their index would fit no
/// group those of the newer entries alone, and that they do not.
pub(crate) fn combined_or_newer(
    alloc: Global,
    merge: &PageMerge,
    changes: &PageChanges,
    newer: &Cells,
) -> Result<(bool, CheckpointPages), AllocError>
    requires { AllByRecursion IsFit newer.now.entries }
    ensures { (m : MergeState) → LeadsTo changes.now merge.now m → IfOk result (λ x. (x.0, x.1) ≡ specs.combined_or_newer m newer.now.entries) }
{
    let pages = merge.combined_pages(alloc, changes, newer)?;
    if pages.will_fit() {
        return Ok((true, pages));
    }
    drop(pages);
    Ok((false, CheckpointPages::of(alloc, newer)?))
}

/// The job of a checkpoint that writes pages.
pub(crate) fn writing_job(
    alloc: Global,
    start: &CheckpointStart,
    pages: CheckpointPages,
    phase: &CheckpointPhase,
) -> CheckpointJob
    requires { is_recording phase.now ≡ false }
    ensures { result ≡ record { position = start.now.position; next = start.now.next; combine = start.now.combine; merge = no_merge; pages = pages; phase = phase.now } }
{
    CheckpointJob {
        position: start.position,
        next: start.next,
        combine: start.combine,
        merge: PageMerge::new(alloc),
        pages,
        phase: *phase,
    }
}

/// A checkpoint whose older pages are all merged once changes are taken: its job as it goes on to write them under newer entries,
/// and its first group. Where their index would fit no group it goes on as a plain one, of the newer entries alone.
pub(crate) fn combined_job(
    alloc: Global,
    job: &CheckpointJob,
    changes: &PageChanges,
    newer: &Cells,
) -> Result<(CheckpointJob, Option<Appending>), AllocError>
    requires { AllByRecursion IsFit newer.now.entries }
    ensures { (m : MergeState) → LeadsTo changes.now job.now.merge m → IfOk result (λ x. specs.combined_append (record job.now { merge = m }) newer.now.entries ≡ (x.0, x.1)) }
{
    let (fits, pages) = combined_or_newer(alloc, &job.merge, changes, newer)?;
    let NextAppend { phase, blocks } = first_append(alloc, &pages)?;
    let start = start_of(job, fits);
    Ok((writing_job(alloc, &start, pages, &phase), blocks))
}

/// The checkpoint is under way, and its group, if there is one, is appended to row data.
pub(crate) fn writes(
    content: &mut RangeContent,
    context: &ServerContext,
    job: CheckpointJob,
    blocks: Option<Appending>,
) -> Progress
    ensures { RangePerforms context.now (λ r. rules.rows_go context.now r (job, blocks)) content.old content.new result }
{
    let packet = send(&mut content.rows, context, blocks);
    content.control = Some(job);
    Progress::Goes(packet)
}
