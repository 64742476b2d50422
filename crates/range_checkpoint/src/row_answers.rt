//! The answers to the client of row data.
ghost use Rattle.std.specs.Prelude.{◌≡◌, ◌∷◌, [], ◌+◌, ◌<◌, ◌^◌, false, true, Some, None, IfOk, OnOk, OnErr};
ghost use Rattle.metadata.specs.declared.record.MetaItem.TheVariants.{Checkpoint};
ghost use Rattle.metadata.specs.Record.{IsPlace, IsPosition, spelling};
ghost use Rattle.checkpoint_format.specs.Index.{fits_a_group, index_size};
ghost use Rattle.checkpoint.specs.PageGroups as groups;
ghost use Rattle.model_partition.specs.declared.checkpoint_job.CheckpointPhase.TheVariants as phases;
ghost use Rattle.model_partition.specs.declared.server_context.ServerContext.{ServerContext as Context};
ghost use Rattle.model_partition.specs.Checkpoints as rules;
ghost use Rattle.model_partition.specs.CheckpointStates.{CheckpointState, is_recording};
ghost use Rattle.model_partition.specs.Range.{RangeState};
ghost use Rattle.model_partition.specs.RangeSteps.{RangePerforms};
ghost use Rattle.range_checkpoint.specs.Steps as specs;

use crate::append_answers::{appended, told};
use crate::appends::{NextAppend, append_of, appending_of, send};
use checkpoint::CheckpointPages;
use client::Appending;
use memtable::Place;
use metadata::{MetaItem, MetaRecord, encode};
use model_partition::{
    CheckpointJob, CheckpointPhase, Progress, RangeContent, ServerContext, take_answer,
};
use std::alloc::{AllocError, Global};
use streams::Position;
use wire::{AppendBody, Body, ExtentId, Packet};

/// What a checkpoint does next: it appends to row data, or to the metadata, or rests.
#[derive(Drop)]
pub(crate) enum NextStep {
    Rows(Option<Appending>),
    Metadata(Appending),
    Rests,
}

/// The next group of pages stands at an offset of an extent: what is appended then.
fn pages_stand(
    pages: &mut CheckpointPages,
    alloc: Global,
    extent: ExtentId,
    offset: u32,
) -> Result<NextAppend, AllocError>
    requires { groups.may_stand_at pages.old offset ≡ true }
    ensures pages { OnOk result (pages.new ≡ groups.with_next_placed pages.old extent offset) }
    ensures next { IfOk result (λ next. (job : CheckpointState) → job.pages ≡ pages.new → rules.next_append job (groups.next_group pages.new) ≡ (rules.with_phase job next.phase, next.blocks)) }
    ensures phase { IfOk result (λ next. is_recording next.phase ≡ false) }
    ensures err { OnErr result (pages.new ≡ pages.old) }
{
    let group = pages.group_behind(alloc)?;
    let index = pages.index_behind(alloc, extent, offset)?;
    let next = append_of(alloc, group, &index)?;
    pages.place_next(alloc, extent, offset)?;
    Ok(next)
}

/// A place of these numbers, which fit their bytes.
fn fit_place(extent: u64, offset: u32, length: u32) -> Place
    ensures value { result ≡ record { extent = extent; offset = offset; length = length } }
    ensures fits { IsPlace result }
{
    Place {
        extent: ExtentId(extent),
        offset,
        length,
    }
}

/// A position of these numbers, which fit their bytes.
fn fit_position(index: u64, offset: u32) -> Position
    ensures value { result ≡ record { index = index; offset = offset } }
    ensures fits { IsPosition result }
{
    Position { index, offset }
}

/// The record of a checkpoint whose index stands at a place, under a number, ready to be appended.
fn record_append(
    alloc: Global,
    number: u64,
    combine: bool,
    index: &Place,
    position: &Position,
    next: u64,
) -> Result<Appending, AllocError>
    requires number { (0 < number) × (number + 1 < 2 ^ 64) }
    requires next { 0 < next }
    ensures { IfOk result (λ blocks. blocks ≡ spelling (record { number = number; item = Checkpoint combine index.now position.now next }) ∷ []) }
{
    let record = MetaRecord {
        number,
        item: MetaItem::Checkpoint {
            combine,
            index: fit_place(index.extent.0, index.offset, index.length),
            position: fit_position(position.index, position.offset),
            next,
        },
    };
    match encode(alloc, &record) {
        Ok(group) => appending_of(&group),
        Err(_full) => Err(AllocError),
    }
}

/// Whether the record of a checkpoint can be written under a number: its index fits a group, its numbers are from 1 on, and its
/// own leaves one.
fn may_record(number: u64, job: &CheckpointJob) -> bool
    ensures { result ≡ specs.may_record_at number job.now }
{
    job.pages.index().fits_a_group() && number < u64::MAX && 0 < number && 0 < job.next
}

/// Where an index stands that fits a group, at an offset of an extent.
fn index_place(pages: &CheckpointPages, extent: ExtentId, offset: u32) -> Place
    requires { fits_a_group pages.now.index ≡ true }
    ensures { result ≡ record { extent = extent; offset = offset; length = index_size pages.now.index } }
{
    Place {
        extent,
        offset,
        length: pages.index().size() as u32,
    }
}

/// A group of pages stands: the job goes on.
fn group_stands(
    job: &mut CheckpointJob,
    alloc: Global,
    extent: ExtentId,
    offset: u32,
) -> Result<NextStep, AllocError>
    requires { groups.may_stand_at job.old.pages offset ≡ true }
    ensures ok { IfOk result (λ next. (d : Context) (r : RangeState) → specs.stands_in d r job.old phases.Pages extent offset ≡ (job.new, next)) }
    ensures err { OnErr result (job.new ≡ job.old) }
{
    let next = pages_stand(&mut job.pages, alloc, extent, offset)?;
    job.phase = next.phase;
    Ok(NextStep::Rows(next.blocks))
}

/// The index stands: its record goes to the metadata under a number, if it can be written.
fn index_stands(
    job: &mut CheckpointJob,
    alloc: Global,
    number: u64,
    extent: ExtentId,
    offset: u32,
) -> Result<NextStep, AllocError>
    ensures ok { IfOk result (λ next. (d : Context) (r : RangeState) → r.said.next ≡ number → job.old.phase ≡ phases.Index → specs.stands_in d r job.old phases.Index extent offset ≡ (job.new, next)) }
    ensures err { OnErr result (job.new ≡ job.old) }
{
    if may_record(number, job) {
        let place = index_place(&job.pages, extent, offset);
        let blocks = record_append(alloc, number, job.combine, &place, &job.position, job.next)?;
        job.phase = CheckpointPhase::Record { index: place };
        Ok(NextStep::Metadata(blocks))
    } else {
        Ok(NextStep::Rests)
    }
}

/// The group of a checkpoint stands at an offset of an extent of row data: its job goes on, where `number` is that of the next
/// record. Where memory runs out (22) nothing has changed.
fn job_stands(
    job: &mut CheckpointJob,
    alloc: Global,
    number: u64,
    extent: ExtentId,
    offset: u32,
) -> Result<NextStep, AllocError>
    requires { groups.may_stand_at job.old.pages offset ≡ true }
    ensures ok { IfOk result (λ next. (d : Context) (r : RangeState) → r.said.next ≡ number → specs.stands d r job.old extent offset ≡ (job.new, next)) }
    ensures err { OnErr result (job.new ≡ job.old) }
{
    let phase = job.phase;
    match phase {
        CheckpointPhase::Pages => {
            let next = group_stands(job, alloc, extent, offset)?;
            Ok(next)
        }
        CheckpointPhase::Index => {
            let next = index_stands(job, alloc, number, extent, offset)?;
            Ok(next)
        }
        _ => Ok(NextStep::Rests),
    }
}

/// What is next is given to its client.
fn goes_on(content: &mut RangeContent, context: &ServerContext, next: NextStep) -> Progress
    ensures { RangePerforms context.now (λ r. specs.goes_on context.now r next) content.old content.new result }
{
    match next {
        NextStep::Rows(blocks) => Progress::Goes(send(&mut content.rows, context, blocks)),
        NextStep::Metadata(blocks) => {
            Progress::Goes(send(&mut content.metadata, context, Some(blocks)))
        }
        NextStep::Rests => Progress::Goes(None),
    }
}

/// The same of the checkpoint that is under way, if one is.
fn control_stands(
    control: &mut Option<CheckpointJob>,
    alloc: Global,
    number: u64,
    extent: ExtentId,
    offset: u32,
) -> Result<NextStep, AllocError>
    requires { rules.job_may_stand control.old offset ≡ true }
    ensures ok { IfOk result (λ next. (d : Context) (r : RangeState) → r.said.next ≡ number → specs.control_stands d r control.old extent offset ≡ (control.new, next)) }
    ensures err { OnErr result (control.new ≡ control.old) }
{
    match control {
        None => Ok(NextStep::Rests),
        Some(job) => {
            let next = job_stands(job, alloc, number, extent, offset)?;
            Ok(next)
        }
    }
}

/// The same of a range.
fn content_stands(
    content: &mut RangeContent,
    alloc: Global,
    extent: ExtentId,
    offset: u32,
) -> Result<NextStep, AllocError>
    requires { rules.job_may_stand content.old.control offset ≡ true }
    ensures ok { IfOk result (λ next. (d : Context) (r : RangeState) → r.said.next ≡ content.old.said.next → specs.control_stands d r content.old.control extent offset ≡ (content.new.control, next)) }
    ensures rest { OnOk result (content.new ≡ record content.old { control = content.new.control }) }
    ensures err { OnErr result (content.new ≡ content.old) }
{
    let number = content.said.next;
    let next = control_stands(&mut content.control, alloc, number, extent, offset)?;
    Ok(next)
}

/// The answer says that the group that is out stands at an offset of an extent.
fn rows_stand(
    content: &mut RangeContent,
    alloc: Global,
    context: &ServerContext,
    packet: &Packet,
    extent: u64,
    offset: u32,
) -> Result<Progress, AllocError>
    requires appended { specs.appended content.old.rows packet.now.body ≡ Some (extent, offset) }
    requires stands { rules.job_may_stand content.old.control offset ≡ true }
    ensures ok { IfOk result (λ p. RangePerforms context.now (λ r. rules.rows_reply context.now r packet.now.body) content.old content.new p) }
    ensures err { OnErr result (content.new ≡ content.old) }
{
    let next = content_stands(content, alloc, ExtentId(extent), offset)?;
    // The answer to an append takes no memory.
    let Ok(reaction) = take_answer(&mut content.rows, alloc, context, packet) else {
        unreachable!()
    };
    drop(reaction);
    Ok(goes_on(content, context, next))
}

/// Another answer.
fn rows_told(
    content: &mut RangeContent,
    alloc: Global,
    context: &ServerContext,
    packet: &Packet,
) -> Result<Progress, AllocError>
    requires other { specs.appended content.old.rows packet.now.body ≡ None }
    requires stands { rules.rows_may_stand content.old.control packet.now.body ≡ true }
    ensures ok { IfOk result (λ p. RangePerforms context.now (λ r. rules.rows_reply context.now r packet.now.body) content.old content.new p) }
    ensures err { OnErr result (content.new ≡ content.old) }
{
    let reaction = take_answer(&mut content.rows, alloc, context, packet)?;
    Ok(told(reaction))
}

/// Whether an answer counts: a group whose end no extent reaches is told by no node.
fn may_stand(control: &Option<CheckpointJob>, body: &Body) -> bool
    ensures { result ≡ rules.rows_may_stand control.now body.now }
{
    match body {
        Body::Append(AppendBody::Appended { offset, .. }) => match control {
            None => true,
            Some(job) => job.pages.may_stand_at(*offset),
        },
        _ => true,
    }
}

/// The answer to what is out to row data. Where the group stands, the next pages are appended, or the index behind the last of
/// them, or where that stands its record to the metadata. A group that ends where no extent reaches is told by no node, and
/// changes nothing. The range is dropped where its generation is old (3). Where memory runs out (22) nothing has changed.
pub fn rows_reply(
    content: &mut RangeContent,
    alloc: Global,
    context: &ServerContext,
    packet: &Packet,
) -> Result<Progress, AllocError>
    ensures ok { IfOk result (λ p. RangePerforms context.now (λ r. rules.rows_reply context.now r packet.now.body) content.old content.new p) }
    ensures err { OnErr result (content.new ≡ content.old) }
{
    if !may_stand(&content.control, &packet.body) {
        return Ok(Progress::Rests);
    }
    match appended(&content.rows, &packet.body) {
        Some((extent, offset)) => rows_stand(content, alloc, context, packet, extent.0, offset),
        None => rows_told(content, alloc, context, packet),
    }
}
