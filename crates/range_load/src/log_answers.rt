//! The answers to the log's client while the range is loaded.
ghost use Rattle.std.specs.Prelude.{◌≡◌, ◌+◌, ◌^◌, ◌<◌, ◌↔◌, [], ℕ, List, Some, None, true, false, IfOk, IfSome, IsSome, OnErr, option_to_list};
ghost use Rattle.client.specs.declared.job.Job.TheVariants as jobs;
ghost use Rattle.client.specs.declared.job.News.TheVariants as news;
ghost use Rattle.client.specs.Client.{content_of, content_told};
ghost use Rattle.client.specs.Load.{is_open};
ghost use Rattle.model_partition.specs.Range.{picking, is_serving};
ghost use Rattle.model_partition.specs.Loading as rows;
ghost use Rattle.model_partition.specs.Answering as answers;
ghost use Rattle.model_partition.specs.declared.progress.Progress.TheVariants as progress;
ghost use Rattle.model_partition.specs.RangeSteps.{RangePerforms};

use crate::answering::groups_of;
use crate::log_reading::{reads_log, reads_log_behind, reads_log_from_start};
use crate::turning::{Turn, sent, turn_of};
use block_types::{BlockFault, Group};
use client::{News, StreamClient};
use metadata::{KeyRange, Metadata};
use model_partition::{Progress, RangeContent, ServerContext, Stage, take_answer};
use range_replay::replayed;
use std::alloc::{AllocError, Global};
use wire::{ExtentId, Packet};

// These two are calls, since the check does not follow what reads parts of a range's parts and then changes it.

/// The index of the extent at a position, if it fits 64 bits.
fn index_at(log: &StreamClient, position: u64) -> Option<u64>
    ensures fits { IsSome result ↔ (log.now.base + position < 2 ^ 64) }
    ensures value { IfSome result (λ index. index ≡ log.now.base + position) }
{
    log.base.checked_add(position)
}

/// The keys of the range.
fn keys_of(said: &Metadata) -> &KeyRange
    ensures { result.now ≡ said.now.keys }
{
    &said.keys
}

/// News of the log's client, other than of groups.
fn log_news(
    content: &mut RangeContent,
    context: &ServerContext,
    told: &Option<News>,
    packet: Option<Packet>,
) -> Progress
    requires { content_told told.now ≡ None }
    ensures { (groups : List rows.Group) → RangePerforms context.now (λ r. rows.log_news context.now r groups r.stage told.now (option_to_list packet)) content.old content.new result }
{
    match turn_of(told, &content.stage) {
        Turn::Stays => sent(told, packet),
        Turn::Starts => {
            drop(packet);
            reads_log_from_start(content, context)
        }
        Turn::Reads(position) => {
            drop(packet);
            reads_log(content, context, position)
        }
    }
}

/// An answer that brings no groups.
fn log_told(
    content: &mut RangeContent,
    alloc: Global,
    context: &ServerContext,
    packet: &Packet,
) -> Result<Progress, AllocError>
    requires loading { is_serving content.old.stage ≡ false }
    requires other { content_of content.old.log.job packet.now.body ≡ None }
    ensures ok { IfOk result (λ p. RangePerforms context.now (λ r. answers.log_taken context.now r packet.now.body) content.old content.new p) }
    ensures err { OnErr result (content.new ≡ content.old) }
{
    match take_answer(&mut content.log, alloc, context, packet) {
        Ok(reaction) => {
            let told = reaction.news;
            Ok(log_news(content, context, &told, reaction.packet))
        }
        Err(full) => Err(full),
    }
}

/// The read of the log that is out is over.
fn end_log_read(content: &mut RangeContent, alloc: Global, context: &ServerContext)
    ensures { content.new ≡ record content.old { log = record (picking context.now content.old.log) { job = jobs.Idle; group = [] } } }
{
    content.log.pick = context.pick;
    content.log.end_read();
}

/// The groups of an extent, which is the one at the position, are read.
fn log_read(
    content: &mut RangeContent,
    alloc: Global,
    context: &ServerContext,
    position: u64,
    extent: ExtentId,
    groups: &[Group],
) -> Result<Progress, AllocError>
    requires { is_open content.old.load.phase ≡ true }
    ensures ok { IfOk result (λ p. RangePerforms context.now
        (λ r. rows.log_read context.now (record r { log = record (picking context.now r.log) { job = jobs.Idle; group = [] } }) position extent groups.now)
        content.old content.new p) }
    ensures err { OnErr result (content.new ≡ content.old) }
{
    let Some(index) = index_at(&content.log, position) else {
        return Ok(Progress::Dropped);
    };
    match replayed(
        alloc,
        &content.regions,
        keys_of(&content.said),
        extent,
        index,
        groups,
    ) {
        Ok((regions, changes)) => {
            content.table.apply(alloc, changes)?;
            content.regions = regions;
            end_log_read(content, alloc, context);
            Ok(reads_log_behind(content, context, position))
        }
        Err(BlockFault::Damaged) => Ok(Progress::Dropped),
        Err(_full) => Err(AllocError),
    }
}

/// Groups that nothing is made of.
fn log_passed(content: &mut RangeContent, alloc: Global, context: &ServerContext) -> Progress
    ensures state { content.new ≡ record content.old { log = record (picking context.now content.old.log) { job = jobs.Idle; group = [] } } }
    ensures value { result ≡ progress.Goes None }
{
    end_log_read(content, alloc, context);
    Progress::Goes(None)
}

/// An answer that brings groups of an extent.
fn log_content(
    content: &mut RangeContent,
    alloc: Global,
    context: &ServerContext,
    extent: ExtentId,
    groups: &[Group],
) -> Result<Progress, AllocError>
    ensures ok { IfOk result (λ p. (upto : ℕ) → RangePerforms context.now
        (λ r. rows.log_news context.now (record r { log = record (picking context.now r.log) { job = jobs.Idle; group = [] } }) groups.now r.stage (Some (news.Content extent upto)) [])
        content.old content.new p) }
    ensures err { OnErr result (content.new ≡ content.old) }
{
    let stage = content.stage;
    match stage {
        Stage::Reading { position, .. } => log_read(
            content, alloc, context, position, extent, groups,
        ),
        _ => Ok(log_passed(content, alloc, context)),
    }
}

/// The answer to the job of the log's client while the range is loaded: its last extent is checked, and then the extents from
/// the first region on are read in order. The range is dropped where its generation is old, or what is read is damaged.
/// Where memory runs out (22) nothing has changed.
pub fn log_load_reply(
    content: &mut RangeContent,
    alloc: Global,
    context: &ServerContext,
    packet: &Packet,
) -> Result<Progress, AllocError>
    requires { is_serving content.old.stage ≡ false }
    ensures ok { IfOk result (λ p. RangePerforms context.now (λ r. answers.log_taken context.now r packet.now.body) content.old content.new p) }
    ensures err { OnErr result (content.new ≡ content.old) }
{
    match content.log.content(&packet.body) {
        None => log_told(content, alloc, context, packet),
        Some((extent, _upto)) => {
            let groups = groups_of(&packet.body);
            log_content(content, alloc, context, extent, groups)
        }
    }
}
