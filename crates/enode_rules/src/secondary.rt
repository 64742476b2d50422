//! A replica at a secondary: groups that its primary puts to it.
ghost use Rattle.std.specs.Prelude.{◌≡◌, ◌<◌, false, true};
ghost use Rattle.replica.specs.Groups.{text_length};
ghost use Rattle.model_streams.specs.Node.{is_open as is_open_phase, put_added, put_rule};
ghost use Rattle.enode_rules.specs.KeptStep.{empty_step, told};
ghost use Rattle.enode_rules.specs.Performs.{ReplicaPerforms};

use crate::actors::is_node;
use crate::sending::{fill, refuse, tell_length};
use block_types::Group;
use disk::{Disk, DiskFault, RecordFile};
use enode_replica::{NodeReplica, is_open};
use std::alloc::Global;
use wire::{ExtentId, Packet, Refusal, ReqNo, Step};

/// A Put of the primary: taken where the group is the next one and there is room. In any case the primary is told the
/// length.
pub(crate) fn put<D: Disk>(
    hosted: &mut NodeReplica,
    file: &mut RecordFile<D>,
    alloc: Global,
    node: u8,
    packet: &Packet,
    extent: ExtentId,
    offset: u32,
    group: &Group,
    step: &mut Step,
) -> Result<(), DiskFault>
    requires running { file.old.stopped ≡ false }
    requires empty { step.old ≡ empty_step }
    ensures { ReplicaPerforms D.state hosted.old hosted.new file.old file.new (put_rule node hosted.old packet.now extent offset group.now) (told result step.new) }
{
    let primary = hosted.replica().places().primary;
    if !is_node(primary, packet.from) {
        return Ok(());
    }
    if !is_open(hosted.replica().state()) {
        return fill(
            step,
            refuse(alloc, node, packet.from, ReqNo::NoRequest, Refusal::NotOpen),
        );
    }
    let length = hosted.replica().len();
    if offset != length {
        return tell_length(node, primary, extent, length, step);
    }
    if length >= hosted.replica().target() {
        return tell_length(node, primary, extent, length, step);
    }
    put_added(hosted, file, alloc, node, extent, group, step)
}

// The packet is made before the record, since that may want memory.
fn put_added<D: Disk>(
    hosted: &mut NodeReplica,
    file: &mut RecordFile<D>,
    alloc: Global,
    node: u8,
    extent: ExtentId,
    group: &Group,
    step: &mut Step,
) -> Result<(), DiskFault>
    requires running { file.old.stopped ≡ false }
    requires empty { step.old ≡ empty_step }
    requires open { is_open_phase hosted.old.content.phase ≡ true }
    requires room { text_length hosted.old.content.groups < hosted.old.content.target }
    ensures { ReplicaPerforms D.state hosted.old hosted.new file.old file.new (put_added node hosted.old extent (text_length hosted.old.content.groups) group.now) (told result step.new) }
{
    let replica = hosted.replica();
    let offset = replica.len();
    // Asked for, so that the proof knows how long it is at most.
    let _blocks = group.blocks();
    let end = offset + group.size();
    tell_length(node, replica.places().primary, extent, end, step)?;
    match hosted.put(alloc, file, extent, group) {
        Ok(()) => Ok(()),
        Err(fault) => Err(fault),
    }
}
