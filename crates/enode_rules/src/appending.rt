//! An append at its primary.
ghost use Rattle.std.specs.Prelude.{◌≡◌, ◌<◌, IfOk, false, true};
ghost use Rattle.std.specs.Option.{IfNone};
ghost use Rattle.block_types.specs.Limits.{IsGroup};
ghost use Rattle.replica.specs.Groups.{text_length};
ghost use Rattle.model_streams.specs.Node.{append_refusal, append_rule, append_taken, is_open as is_open_phase};
ghost use Rattle.enode_rules.specs.KeptStep.{empty_step, told};
ghost use Rattle.enode_rules.specs.Performs.{ReplicaPerforms};

use crate::actors::generation_of;
use crate::sending::{add_puts, fill, refuse};
use block_types::{Group, MAX_BLOCKS, Version};
use disk::{Disk, DiskFault, RecordFile};
use enode_replica::{NodeReplica, is_open};
use std::alloc::{AllocError, Global};
use wire::{Blocks, ExtentId, Fence, Packet, Refusal, ReqNo, Step};

/// Why an append is not taken, the first reason.
fn append_refusal(
    hosted: &NodeReplica,
    node: u8,
    packet: &Packet,
    fence: Fence,
    blocks: &Blocks,
) -> Option<Refusal>
    ensures value { result ≡ append_refusal node hosted.now packet.now fence blocks.now }
    ensures fits { IfNone result (IsGroup blocks.now) }
    ensures open { IfNone result (is_open_phase hosted.now.content.phase ≡ true) }
    ensures room { IfNone result (text_length hosted.now.content.groups < hosted.now.content.target) }
{
    if node != hosted.replica().places().primary {
        return Some(Refusal::NotPrimary);
    }
    if !is_open(hosted.replica().state()) {
        return Some(Refusal::NotOpen);
    }
    if generation_of(packet.from, fence) < hosted.replica().fence() {
        return Some(Refusal::Stale);
    }
    let count = blocks.as_slice().len();
    if count == 0 || count > usize::from(MAX_BLOCKS) {
        return Some(Refusal::TooManyBlocks);
    }
    if blocks.has_bad_block() {
        return Some(Refusal::BadBlock);
    }
    if hosted.replica().len() >= hosted.replica().target() {
        return Some(Refusal::ExtentFull);
    }
    if hosted.waiting().is_full() {
        return Some(Refusal::Busy);
    }
    None
}

/// An append: refused for the first reason, or taken.
pub(crate) fn append<D: Disk>(
    hosted: &mut NodeReplica,
    file: &mut RecordFile<D>,
    alloc: Global,
    node: u8,
    packet: &Packet,
    extent: ExtentId,
    generation: Fence,
    blocks: &Blocks,
    request: ReqNo,
    step: &mut Step,
) -> Result<(), DiskFault>
    requires running { file.old.stopped ≡ false }
    requires empty { step.old ≡ empty_step }
    ensures { ReplicaPerforms D.state hosted.old hosted.new file.old file.new (append_rule node hosted.old packet.now extent generation blocks.now request) (told result step.new) }
{
    match append_refusal(hosted, node, packet, generation, blocks) {
        Some(refusal) => fill(step, refuse(alloc, node, packet.from, request, refusal)),
        None => append_taken(
            hosted, file, alloc, node, packet, extent, blocks, request, step,
        ),
    }
}

/// The group of these blocks, with their digests where a record of the version spells them.
fn group_of(alloc: Global, version: Version, blocks: &Blocks) -> Result<Group, AllocError>
    requires { IsGroup blocks.now }
    ensures { IfOk result (λ group. group ≡ blocks.now) }
{
    let group = blocks.group()?;
    match version {
        Version::V1 => Ok(group),
        Version::V2 => group.with_digests(alloc),
    }
}

// The packets are made before the record, since that may want memory.
fn append_taken<D: Disk>(
    hosted: &mut NodeReplica,
    file: &mut RecordFile<D>,
    alloc: Global,
    node: u8,
    packet: &Packet,
    extent: ExtentId,
    blocks: &Blocks,
    request: ReqNo,
    step: &mut Step,
) -> Result<(), DiskFault>
    requires running { file.old.stopped ≡ false }
    requires empty { step.old ≡ empty_step }
    requires group { IsGroup blocks.now }
    requires open { is_open_phase hosted.old.content.phase ≡ true }
    requires room { text_length hosted.old.content.groups < hosted.old.content.target }
    ensures { ReplicaPerforms D.state hosted.old hosted.new file.old file.new (append_taken node hosted.old packet.now extent blocks.now request) (told result step.new) }
{
    // One list for the packets, the record and what waits, and one list of digests.
    let group = group_of(alloc, file.version(), blocks)?;
    let replica = hosted.replica();
    add_puts(node, replica.places(), extent, replica.len(), &group, step)?;
    match hosted.append(alloc, file, extent, group, packet.from, request) {
        Ok(()) => Ok(()),
        Err(fault) => Err(fault),
    }
}
