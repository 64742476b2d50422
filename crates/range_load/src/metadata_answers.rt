//! The answers to the metadata's client.
ghost use Rattle.std.specs.Prelude.{◌≡◌, [], ℕ, List, Some, None, true, false, IfOk, OnErr, option_to_list};
ghost use Rattle.client.specs.declared.job.Job.TheVariants as jobs;
ghost use Rattle.client.specs.declared.job.News.TheVariants as news;
ghost use Rattle.client.specs.Client.{content_of, content_told};
ghost use Rattle.client.specs.Load.{is_open};
ghost use Rattle.model_partition.specs.Range.{picking, is_serving};
ghost use Rattle.model_partition.specs.Loading as rows;
ghost use Rattle.model_partition.specs.Answering as answers;
ghost use Rattle.model_partition.specs.declared.progress.Progress.TheVariants as progress;
ghost use Rattle.model_partition.specs.RangeSteps.{RangePerforms};

use crate::answering::groups_of;
use crate::metadata_reading::{reads_metadata, reads_metadata_behind};
use crate::turning::{Turn, sent, turn_of};
use block_types::{BlockFault, Group};
use client::News;
use metadata::{Region, copied_regions};
use model_partition::{Progress, RangeContent, ServerContext, Stage, take_answer};
use range_replay::folded;
use std::alloc::{AllocError, Global};
use wire::Packet;

/// News of the metadata's client, other than of groups. The regions are a copy of those that the metadata says.
fn metadata_news(
    content: &mut RangeContent,
    context: &ServerContext,
    told: &Option<News>,
    packet: Option<Packet>,
    regions: Vec<Region>,
) -> Progress
    requires regions { regions.items ≡ content.old.said.regions }
    requires other { content_told told.now ≡ None }
    ensures { (groups : List rows.Group) → RangePerforms context.now (λ r. rows.metadata_news context.now r groups r.stage told.now (option_to_list packet)) content.old content.new result }
{
    match turn_of(told, &content.stage) {
        Turn::Stays => sent(told, packet),
        Turn::Starts => {
            drop(packet);
            reads_metadata(content, context, 0, regions)
        }
        Turn::Reads(position) => {
            drop(packet);
            reads_metadata(content, context, position, regions)
        }
    }
}

/// An answer that brings no groups.
fn metadata_told(
    content: &mut RangeContent,
    alloc: Global,
    context: &ServerContext,
    packet: &Packet,
) -> Result<Progress, AllocError>
    requires loading { is_serving content.old.stage ≡ false }
    requires other { content_of content.old.metadata.job packet.now.body ≡ None }
    ensures ok { IfOk result (λ p. RangePerforms context.now (λ r. answers.metadata_reply context.now r packet.now.body) content.old content.new p) }
    ensures err { OnErr result (content.new ≡ content.old) }
{
    let regions = copied_regions(alloc, &content.said.regions.items)?;
    match take_answer(&mut content.metadata, alloc, context, packet) {
        Ok(reaction) => {
            let told = reaction.news;
            Ok(metadata_news(content, context, &told, reaction.packet, regions))
        }
        Err(full) => Err(full),
    }
}

/// The read of the metadata that is out is over.
fn end_metadata_read(content: &mut RangeContent, alloc: Global, context: &ServerContext)
    ensures { content.new ≡ record content.old { metadata = record (picking context.now content.old.metadata) { job = jobs.Idle; group = [] } } }
{
    content.metadata.pick = context.pick;
    content.metadata.end_read();
}

/// The groups of the extent at the position are read.
fn metadata_read(
    content: &mut RangeContent,
    alloc: Global,
    context: &ServerContext,
    position: u64,
    groups: &[Group],
) -> Result<Progress, AllocError>
    requires { is_open content.old.load.phase ≡ true }
    ensures ok { IfOk result (λ p. RangePerforms context.now
        (λ r. rows.says context.now (record r { metadata = record (picking context.now r.metadata) { job = jobs.Idle; group = [] } }) position (rows.said_after r.said groups.now))
        content.old content.new p) }
    ensures err { OnErr result (content.new ≡ content.old) }
{
    match folded(alloc, &content.said, groups) {
        Ok(said) => {
            let regions = copied_regions(alloc, &said.regions.items)?;
            end_metadata_read(content, alloc, context);
            content.said = said;
            Ok(reads_metadata_behind(content, context, position, regions))
        }
        Err(BlockFault::Damaged) => Ok(Progress::Dropped),
        Err(_full) => Err(AllocError),
    }
}

/// An answer that brings groups.
fn metadata_content(
    content: &mut RangeContent,
    alloc: Global,
    context: &ServerContext,
    groups: &[Group],
) -> Result<Progress, AllocError>
    ensures ok { IfOk result (λ p. (extent upto : ℕ) → RangePerforms context.now
        (λ r. rows.metadata_news context.now (record r { metadata = record (picking context.now r.metadata) { job = jobs.Idle; group = [] } }) groups.now r.stage (Some (news.Content extent upto)) [])
        content.old content.new p) }
    ensures err { OnErr result (content.new ≡ content.old) }
{
    let stage = content.stage;
    match stage {
        Stage::Reading { position, .. } => metadata_read(content, alloc, context, position, groups),
        _ => Ok(metadata_passed(content, alloc, context)),
    }
}

/// Groups that nothing is made of.
fn metadata_passed(content: &mut RangeContent, alloc: Global, context: &ServerContext) -> Progress
    ensures state { content.new ≡ record content.old { metadata = record (picking context.now content.old.metadata) { job = jobs.Idle; group = [] } } }
    ensures value { result ≡ progress.Goes None }
{
    end_metadata_read(content, alloc, context);
    Progress::Goes(None)
}

/// The answer to the job of the metadata's client while the range is loaded: its last extent is checked, then all extents are
/// read in order, and then the log. The range is dropped where its generation is old, or what is read is damaged. Where memory
/// runs out (22) nothing has changed.
pub fn metadata_reply(
    content: &mut RangeContent,
    alloc: Global,
    context: &ServerContext,
    packet: &Packet,
) -> Result<Progress, AllocError>
    requires { is_serving content.old.stage ≡ false }
    ensures ok { IfOk result (λ p. RangePerforms context.now (λ r. answers.metadata_reply context.now r packet.now.body) content.old content.new p) }
    ensures err { OnErr result (content.new ≡ content.old) }
{
    match content.metadata.content(&packet.body) {
        None => metadata_told(content, alloc, context, packet),
        Some(_read) => metadata_content(content, alloc, context, groups_of(&packet.body)),
    }
}
