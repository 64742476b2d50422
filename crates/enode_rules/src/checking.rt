//! The check of an open extent's length, which raises the fence of its replicas.
ghost use Rattle.std.specs.Prelude.{◌≡◌, [], ◌∷◌, None, Some, true, false, IfNone, IfOk, IfErr};
ghost use Rattle.disk.specs.declared.device.DiskFault.TheVariants as faults;
ghost use Rattle.wire.specs.declared.actor.ActorId.TheVariants.{Node};
ghost use Rattle.wire.specs.declared.body.Body.TheVariants as bodies;
ghost use Rattle.wire.specs.declared.body.CheckBody.TheVariants.{Probed};
ghost use Rattle.model_streams.specs.Actors.{generation_of};
ghost use Rattle.model_streams.specs.Node.{check_begun, check_refusal, check_rule, check_taken, checked_as, common_length, is_open as is_open_phase, probe_refusal, probe_rule, probe_taken, probed_rule, probes, settled, with_probed};
ghost use Rattle.model_streams.specs.Outcome.{packet as sent};
ghost use Rattle.enode_rules.specs.Performs.{ReplicaPerforms, ReplicaPerformsInMemory};

use crate::actors::{generation_of, is_node};
use crate::sending::{one, refuse};
use block_types::Nodes;
use disk::{Disk, DiskFault, RecordFile};
use enode_replica::{NodeReplica, is_open};
use model_streams::Checking;
use std::alloc::Global;
use wire::{ActorId, Body, CheckBody, ExtentId, Fence, Packet, Refusal, ReqNo, Step};

/// A Probe to each secondary.
fn probes_of(
    alloc: Global,
    node: u8,
    places: Nodes,
    extent: ExtentId,
    generation: Fence,
) -> Result<Step, DiskFault>
    ensures packets { IfOk result (λ step. step.packets ≡ probes node places extent generation) }
    ensures notes { IfOk result (λ step. step.notes ≡ []) }
    ensures fault { IfErr result (λ e. e ≡ faults.Memory) }
{
    let second = Body::Check(CheckBody::Probe { extent, generation });
    let mut step = one(alloc, node, ActorId::Node(places.second), second)?;
    step.packets.push(Packet {
        from: ActorId::Node(node),
        to: ActorId::Node(places.third),
        body: Body::Check(CheckBody::Probe { extent, generation }),
    })?;
    Ok(step)
}

/// How long the extent is, or none.
fn tell_checked(
    alloc: Global,
    node: u8,
    asker: ActorId,
    request: ReqNo,
    length: Option<u32>,
) -> Result<Step, DiskFault>
    ensures packets { IfOk result (λ step. step.packets ≡ checked_as node asker request length) }
    ensures notes { IfOk result (λ step. step.notes ≡ []) }
    ensures fault { IfErr result (λ e. e ≡ faults.Memory) }
{
    let body = Body::Check(CheckBody::Checked { request, length });
    one(alloc, node, asker, body)
}

/// How long a secondary is that a check asks.
fn tell_probed(
    alloc: Global,
    node: u8,
    primary: u8,
    extent: ExtentId,
    generation: Fence,
    length: u32,
) -> Result<Step, DiskFault>
    ensures packets { IfOk result (λ step. step.packets ≡ sent (Node node) (Node primary) (bodies.Check (Probed extent generation length)) ∷ []) }
    ensures notes { IfOk result (λ step. step.notes ≡ []) }
    ensures fault { IfErr result (λ e. e ≡ faults.Memory) }
{
    let body = Body::Check(CheckBody::Probed {
        extent,
        generation,
        length,
    });
    one(alloc, node, ActorId::Node(primary), body)
}

/// Why a check is not taken, the first reason.
fn check_refusal(hosted: &NodeReplica, node: u8, generation: Fence) -> Option<Refusal>
    ensures { result ≡ check_refusal node hosted.now generation }
{
    if node != hosted.replica().places().primary {
        return Some(Refusal::NotPrimary);
    }
    if generation.0 < hosted.replica().fence() {
        return Some(Refusal::Stale);
    }
    None
}

/// A check of the length: refused for the first reason, or taken.
pub(crate) fn check<D: Disk>(
    hosted: &mut NodeReplica,
    file: &mut RecordFile<D>,
    alloc: Global,
    node: u8,
    packet: &Packet,
    extent: ExtentId,
    generation: Fence,
    request: ReqNo,
) -> Result<Step, DiskFault>
    requires running { file.old.stopped ≡ false }
    ensures { ReplicaPerforms D.state hosted.old hosted.new file.old file.new
        (check_rule node hosted.old packet.now extent (generation_of packet.now.from generation) request) result }
{
    let counted = Fence(generation_of(packet.from, generation));
    match check_refusal(hosted, node, counted) {
        Some(refusal) => refuse(alloc, node, packet.from, request, refusal),
        None => check_taken(hosted, file, alloc, node, packet, extent, counted, request),
    }
}

/// Begun where the replica is open, and else answered with none.
fn check_taken<D: Disk>(
    hosted: &mut NodeReplica,
    file: &mut RecordFile<D>,
    alloc: Global,
    node: u8,
    packet: &Packet,
    extent: ExtentId,
    generation: Fence,
    request: ReqNo,
) -> Result<Step, DiskFault>
    requires running { file.old.stopped ≡ false }
    ensures { ReplicaPerforms D.state hosted.old hosted.new file.old file.new (check_taken node hosted.old packet.now extent generation request) result }
{
    if !is_open(hosted.replica().state()) {
        return tell_checked(alloc, node, packet.from, request, None);
    }
    begin(
        hosted, file, alloc, node, packet, extent, generation, request,
    )
}

// All that takes memory comes before the record, and the record before the change.
fn begin<D: Disk>(
    hosted: &mut NodeReplica,
    file: &mut RecordFile<D>,
    alloc: Global,
    node: u8,
    packet: &Packet,
    extent: ExtentId,
    generation: Fence,
    request: ReqNo,
) -> Result<Step, DiskFault>
    requires running { file.old.stopped ≡ false }
    requires open { is_open_phase hosted.old.content.phase ≡ true }
    ensures { ReplicaPerforms D.state hosted.old hosted.new file.old file.new (check_begun node hosted.old packet.now extent generation request) result }
{
    let begun = Checking {
        generation,
        asker: packet.from,
        request,
        second: None,
        third: None,
    };
    let step = probes_of(alloc, node, hosted.replica().places(), extent, generation)?;
    match hosted.raise(alloc, file, extent, generation) {
        Ok(()) => {
            hosted.check = Some(begun);
            Ok(step)
        }
        Err(fault) => Err(fault),
    }
}

/// Why a probe is not taken, the first reason.
fn probe_refusal(hosted: &NodeReplica, generation: Fence) -> Option<Refusal>
    ensures value { result ≡ probe_refusal hosted.now generation }
    ensures open { IfNone result (is_open_phase hosted.now.content.phase ≡ true) }
{
    if !is_open(hosted.replica().state()) {
        return Some(Refusal::NotOpen);
    }
    if generation.0 < hosted.replica().fence() {
        return Some(Refusal::Stale);
    }
    None
}

/// A probe of the primary: refused for the first reason, or taken. Any other is passed over.
pub(crate) fn probe<D: Disk>(
    hosted: &mut NodeReplica,
    file: &mut RecordFile<D>,
    alloc: Global,
    node: u8,
    packet: &Packet,
    extent: ExtentId,
    generation: Fence,
) -> Result<Step, DiskFault>
    requires running { file.old.stopped ≡ false }
    ensures { ReplicaPerforms D.state hosted.old hosted.new file.old file.new (probe_rule node hosted.old packet.now extent generation) result }
{
    if !is_node(hosted.replica().places().primary, packet.from) {
        return Ok(Step::silent(alloc));
    }
    match probe_refusal(hosted, generation) {
        Some(refusal) => refuse(alloc, node, packet.from, ReqNo::NoRequest, refusal),
        None => probe_taken(hosted, file, alloc, node, extent, generation),
    }
}

// All that takes memory comes before the record.
fn probe_taken<D: Disk>(
    hosted: &mut NodeReplica,
    file: &mut RecordFile<D>,
    alloc: Global,
    node: u8,
    extent: ExtentId,
    generation: Fence,
) -> Result<Step, DiskFault>
    requires running { file.old.stopped ≡ false }
    requires open { is_open_phase hosted.old.content.phase ≡ true }
    ensures { ReplicaPerforms D.state hosted.old hosted.new file.old file.new (probe_taken node hosted.old extent generation) result }
{
    let length = hosted.replica().len();
    let primary = hosted.replica().places().primary;
    let step = tell_probed(alloc, node, primary, extent, generation, length)?;
    match hosted.raise(alloc, file, extent, generation) {
        Ok(()) => Ok(step),
        Err(fault) => Err(fault),
    }
}

/// The check with what a secondary tells of its length; none where the sender is no secondary.
fn with_probed(check: Checking, places: Nodes, packet: &Packet, length: u32) -> Option<Checking>
    ensures { result ≡ with_probed check places packet.now.from length }
{
    if is_node(places.second, packet.from) {
        return Some(Checking {
            second: Some(length),
            ..check
        });
    }
    if is_node(places.third, packet.from) {
        return Some(Checking {
            third: Some(length),
            ..check
        });
    }
    None
}

/// The length that all three have, while the replica is open.
fn common_length(hosted: &NodeReplica, second: u32, third: u32) -> Option<u32>
    ensures { result ≡ common_length hosted.now second third }
{
    let length = hosted.replica().len();
    if !is_open(hosted.replica().state()) {
        return None;
    }
    if second != length {
        return None;
    }
    if third != length {
        return None;
    }
    Some(length)
}

/// What a secondary tells the check that is under way, if it has the check's generation.
pub(crate) fn probed(
    hosted: &mut NodeReplica,
    alloc: Global,
    node: u8,
    packet: &Packet,
    generation: Fence,
    length: u32,
) -> Result<Step, DiskFault>
    ensures { ReplicaPerformsInMemory hosted.old hosted.new (probed_rule node hosted.old packet.now generation length) result }
{
    let Some(check) = hosted.check else {
        return Ok(Step::silent(alloc));
    };
    if check.generation != generation {
        return Ok(Step::silent(alloc));
    }
    match with_probed(check, hosted.replica().places(), packet, length) {
        None => Ok(Step::silent(alloc)),
        Some(told) => settle(hosted, alloc, node, told),
    }
}

/// Answers a check that both secondaries have told; another goes on.
fn settle(
    hosted: &mut NodeReplica,
    alloc: Global,
    node: u8,
    check: Checking,
) -> Result<Step, DiskFault>
    ensures { ReplicaPerformsInMemory hosted.old hosted.new (settled node hosted.old check check.second check.third) result }
{
    let Some(second) = check.second else {
        hosted.check = Some(check);
        return Ok(Step::silent(alloc));
    };
    let Some(third) = check.third else {
        hosted.check = Some(check);
        return Ok(Step::silent(alloc));
    };
    let length = common_length(hosted, second, third);
    let step = tell_checked(alloc, node, check.asker, check.request, length)?;
    hosted.check = None;
    Ok(step)
}
