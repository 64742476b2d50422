//! How an extent ends at a node: its replica is frozen, cut to a length, or brought to one, and then sealed.
ghost use Rattle.std.specs.Prelude.{◌≡◌, Some, None, true, false};
ghost use Rattle.std.specs.List.{AllByRecursion};
ghost use Rattle.block_types.specs.Limits.{IsGroup};
ghost use Rattle.replica.specs.Reading.{groups_to};
ghost use Rattle.replica.specs.Replay.{is_tail};
ghost use Rattle.model_streams.specs.Node.{cuts, freeze_rule, is_frozen as is_frozen_phase, is_open as is_open_phase, is_sealed as is_sealed_phase, seal_rule, send_tail_rule, shorts, tail_rule, tail_taken};
ghost use Rattle.enode_rules.specs.Sealing.{closes};
ghost use Rattle.enode_rules.specs.Performs.{ReplicaPerforms, ReplicaPerformsInMemory};

use crate::actors::{is_from_place, is_manager};
use crate::sending::{one, refuse, tell_manager};
use block_types::Groups;
use disk::{Disk, DiskFault, RecordFile};
use enode_replica::{NodeReplica, is_frozen, is_sealed};
use replica::Phase;
use std::alloc::Global;
use wire::{ActorId, Body, ExtentId, Packet, Refusal, ReqNo, SealBody, Step};

/// An open replica takes no more groups and drops what waits, and the manager is told.
fn close<D: Disk>(
    hosted: &mut NodeReplica,
    file: &mut RecordFile<D>,
    alloc: Global,
    node: u8,
    extent: ExtentId,
    body: SealBody,
) -> Result<Step, DiskFault>
    requires running { file.old.stopped ≡ false }
    requires open { is_open_phase hosted.old.content.phase ≡ true }
    ensures { ReplicaPerforms D.state hosted.old hosted.new file.old file.new (closes node hosted.old extent body) result }
{
    let step = tell_manager(alloc, node, body)?;
    match hosted.freeze(alloc, file, extent) {
        Ok(()) => Ok(step),
        Err(fault) => Err(fault),
    }
}

/// The manager asks for the length, after which no more groups are taken.
pub(crate) fn freeze<D: Disk>(
    hosted: &mut NodeReplica,
    file: &mut RecordFile<D>,
    alloc: Global,
    node: u8,
    packet: &Packet,
    extent: ExtentId,
) -> Result<Step, DiskFault>
    requires running { file.old.stopped ≡ false }
    ensures { ReplicaPerforms D.state hosted.old hosted.new file.old file.new (freeze_rule node hosted.old packet.now extent) result }
{
    let asker = packet.from;
    if !is_manager(asker) {
        return Ok(Step::silent(alloc));
    }
    let length = hosted.replica().len();
    match hosted.replica().state() {
        Phase::Open => close(
            hosted,
            file,
            alloc,
            node,
            extent,
            SealBody::Frozen { extent, length },
        ),
        Phase::Frozen => tell_manager(alloc, node, SealBody::Frozen { extent, length }),
        Phase::Sealed => tell_manager(alloc, node, SealBody::IsSealed { extent }),
    }
}

/// The manager seals the extent at a length: cut to it, or told to be too short for it. 8 where it is no boundary, 4
/// where the replica is sealed at another.
pub(crate) fn seal<D: Disk>(
    hosted: &mut NodeReplica,
    file: &mut RecordFile<D>,
    alloc: Global,
    node: u8,
    packet: &Packet,
    extent: ExtentId,
    length: u32,
) -> Result<Step, DiskFault>
    requires running { file.old.stopped ≡ false }
    ensures { ReplicaPerforms D.state hosted.old hosted.new file.old file.new (seal_rule node hosted.old packet.now extent length) result }
{
    if !is_manager(packet.from) {
        return Ok(Step::silent(alloc));
    }
    let own = hosted.replica().len();
    if is_sealed(hosted.replica().state()) {
        if own == length {
            return tell_manager(alloc, node, SealBody::IsSealed { extent });
        }
        return refuse(alloc, node, packet.from, ReqNo::NoRequest, Refusal::NotOpen);
    }
    if own < length {
        return fall_short(hosted, file, alloc, node, extent);
    }
    cut(hosted, file, alloc, node, packet, extent, length)
}

/// Too short for the length of the seal: it freezes, if it is open, and says how long it is.
fn fall_short<D: Disk>(
    hosted: &mut NodeReplica,
    file: &mut RecordFile<D>,
    alloc: Global,
    node: u8,
    extent: ExtentId,
) -> Result<Step, DiskFault>
    requires running { file.old.stopped ≡ false }
    ensures { ReplicaPerforms D.state hosted.old hosted.new file.old file.new (shorts node hosted.old extent hosted.old.content.phase) result }
{
    let length = hosted.replica().len();
    match hosted.replica().state() {
        Phase::Open => close(
            hosted,
            file,
            alloc,
            node,
            extent,
            SealBody::Short { extent, length },
        ),
        Phase::Frozen => tell_manager(alloc, node, SealBody::Short { extent, length }),
        Phase::Sealed => tell_manager(alloc, node, SealBody::Short { extent, length }),
    }
}

/// Cut to a length at which a group ends, for good; 8 where none does.
fn cut<D: Disk>(
    hosted: &mut NodeReplica,
    file: &mut RecordFile<D>,
    alloc: Global,
    node: u8,
    packet: &Packet,
    extent: ExtentId,
    length: u32,
) -> Result<Step, DiskFault>
    requires running { file.old.stopped ≡ false }
    requires not_sealed { is_sealed_phase hosted.old.content.phase ≡ false }
    ensures { ReplicaPerforms D.state hosted.old hosted.new file.old file.new
        (cuts node hosted.old packet.now extent length (groups_to length hosted.old.content.groups)) result }
{
    if !hosted.replica().is_boundary(length) {
        return refuse(alloc, node, packet.from, ReqNo::NoRequest, Refusal::PastEnd);
    }
    let step = tell_manager(alloc, node, SealBody::IsSealed { extent })?;
    match hosted.seal(alloc, file, extent, length) {
        Ok(()) => Ok(step),
        Err(fault) => Err(fault),
    }
}

/// The manager has the groups from a boundary on sent to a node that lacks them; 9 where the replica is not sealed,
/// 8 where that is no boundary.
pub(crate) fn send_tail(
    hosted: &NodeReplica,
    alloc: Global,
    node: u8,
    packet: &Packet,
    extent: ExtentId,
    from: u32,
    to: u8,
) -> Result<Step, DiskFault>
    ensures { ReplicaPerformsInMemory hosted.now hosted.now (send_tail_rule node hosted.now packet.now extent from to) result }
{
    if !is_manager(packet.from) {
        return Ok(Step::silent(alloc));
    }
    if !is_sealed(hosted.replica().state()) {
        return refuse(
            alloc,
            node,
            packet.from,
            ReqNo::NoRequest,
            Refusal::NotSealed,
        );
    }
    let length = hosted.replica().len();
    match hosted.replica().groups_from(alloc, from)? {
        None => refuse(alloc, node, packet.from, ReqNo::NoRequest, Refusal::PastEnd),
        Some(groups) => one(
            alloc,
            node,
            ActorId::Node(to),
            Body::Seal(SealBody::Tail {
                extent,
                from,
                length,
                groups,
            }),
        ),
    }
}

/// Groups of another place that bring this frozen replica to its length, for good; any others are passed over.
pub(crate) fn tail<D: Disk>(
    hosted: &mut NodeReplica,
    file: &mut RecordFile<D>,
    alloc: Global,
    node: u8,
    packet: &Packet,
    extent: ExtentId,
    from: u32,
    length: u32,
    groups: &Groups,
) -> Result<Step, DiskFault>
    requires running { file.old.stopped ≡ false }
    ensures { ReplicaPerforms D.state hosted.old hosted.new file.old file.new (tail_rule node hosted.old packet.now extent from length groups.now) result }
{
    if !is_from_place(hosted.replica().places(), packet) {
        return Ok(Step::silent(alloc));
    }
    if !is_frozen(hosted.replica().state()) {
        return Ok(Step::silent(alloc));
    }
    if !hosted.replica().is_tail(from, length, groups) {
        return Ok(Step::silent(alloc));
    }
    fill(hosted, file, alloc, node, extent, from, length, groups)
}

// The packet is made before the record, since that may want memory.
fn fill<D: Disk>(
    hosted: &mut NodeReplica,
    file: &mut RecordFile<D>,
    alloc: Global,
    node: u8,
    extent: ExtentId,
    from: u32,
    length: u32,
    groups: &Groups,
) -> Result<Step, DiskFault>
    requires running { file.old.stopped ≡ false }
    requires frozen { is_frozen_phase hosted.old.content.phase ≡ true }
    requires tail { is_tail hosted.old.content from length groups.now ≡ true }
    requires groups { AllByRecursion IsGroup groups.now }
    ensures { ReplicaPerforms D.state hosted.old hosted.new file.old file.new (tail_taken node hosted.old extent from length groups.now) result }
{
    let step = tell_manager(alloc, node, SealBody::IsSealed { extent })?;
    match hosted.fill(alloc, file, extent, from, length, groups) {
        Ok(()) => Ok(step),
        Err(fault) => Err(fault),
    }
}
