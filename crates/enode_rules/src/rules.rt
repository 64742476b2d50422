//! The rules of a node's table for a replica that it has.
ghost use Rattle.std.specs.Prelude.{◌≡◌, Some, false};
ghost use Rattle.model_streams.specs.Node.{append_body_rule, check_body_rule, node_rule, read_body_rule, seal_body_rule};
ghost use Rattle.enode_rules.specs.KeptStep.{empty_step, told};
ghost use Rattle.enode_rules.specs.Performs.{ReplicaPerforms, ReplicaPerformsInMemory};

use crate::appending::append;
use crate::checking::{check, probe, probed};
use crate::primary::have;
use crate::reading::{read, read_groups};
use crate::sealing::{freeze, seal, send_tail, tail};
use crate::secondary::put;
use crate::sending::fill;
use disk::{Disk, DiskFault, RecordFile};
use enode_replica::NodeReplica;
use std::alloc::Global;
use wire::{AppendBody, Body, CheckBody, Packet, ReadBody, SealBody, Step};

fn take_append<D: Disk>(
    hosted: &mut NodeReplica,
    file: &mut RecordFile<D>,
    alloc: Global,
    node: u8,
    packet: &Packet,
    body: &AppendBody,
    step: &mut Step,
) -> Result<(), DiskFault>
    requires running { file.old.stopped ≡ false }
    requires empty { step.old ≡ empty_step }
    ensures { ReplicaPerforms D.state hosted.old hosted.new file.old file.new (append_body_rule node (Some hosted.old) packet.now body.now) (told result step.new) }
{
    match body {
        AppendBody::Append {
            extent,
            generation,
            blocks,
            request,
        } => append(
            hosted,
            file,
            alloc,
            node,
            packet,
            *extent,
            *generation,
            blocks,
            *request,
            step,
        ),
        AppendBody::Put {
            extent,
            offset,
            group,
        } => put(
            hosted, file, alloc, node, packet, *extent, *offset, group, step,
        ),
        AppendBody::Have { extent, length } => {
            have(hosted, alloc, node, packet, *extent, *length, step)
        }
        _ => Ok(()),
    }
}

fn take_check<D: Disk>(
    hosted: &mut NodeReplica,
    file: &mut RecordFile<D>,
    alloc: Global,
    node: u8,
    packet: &Packet,
    body: &CheckBody,
) -> Result<Step, DiskFault>
    requires running { file.old.stopped ≡ false }
    ensures { ReplicaPerforms D.state hosted.old hosted.new file.old file.new (check_body_rule node (Some hosted.old) packet.now body.now) result }
{
    match body {
        CheckBody::Check {
            extent,
            generation: fence,
            request,
        } => check(hosted, file, alloc, node, packet, *extent, *fence, *request),
        CheckBody::Probe { extent, generation } => {
            probe(hosted, file, alloc, node, packet, *extent, *generation)
        }
        CheckBody::Probed {
            extent: _,
            generation: fence,
            length,
        } => probed(hosted, alloc, node, packet, *fence, *length),
        _ => Ok(Step::silent(alloc)),
    }
}

fn take_seal<D: Disk>(
    hosted: &mut NodeReplica,
    file: &mut RecordFile<D>,
    alloc: Global,
    node: u8,
    packet: &Packet,
    body: &SealBody,
) -> Result<Step, DiskFault>
    requires running { file.old.stopped ≡ false }
    ensures { ReplicaPerforms D.state hosted.old hosted.new file.old file.new (seal_body_rule node (Some hosted.old) packet.now body.now) result }
{
    match body {
        SealBody::Freeze { extent } => freeze(hosted, file, alloc, node, packet, *extent),
        SealBody::Seal { extent, length } => {
            seal(hosted, file, alloc, node, packet, *extent, *length)
        }
        SealBody::SendTail { extent, from, to } => {
            send_tail(hosted, alloc, node, packet, *extent, *from, *to)
        }
        SealBody::Tail {
            extent,
            from,
            length,
            groups,
        } => tail(
            hosted, file, alloc, node, packet, *extent, *from, *length, groups,
        ),
        _ => Ok(Step::silent(alloc)),
    }
}

fn take_read(
    hosted: &NodeReplica,
    alloc: Global,
    node: u8,
    packet: &Packet,
    body: &ReadBody,
) -> Result<Step, DiskFault>
    ensures { ReplicaPerformsInMemory hosted.now hosted.now (read_body_rule node (Some hosted.now) packet.now body.now) result }
{
    match body {
        ReadBody::ReadAt {
            extent,
            offset,
            length,
            request,
        } => read(
            hosted, alloc, node, packet, *extent, *offset, *length, *request,
        ),
        ReadBody::ReadGroups {
            extent,
            upto,
            sealed,
            request,
        } => read_groups(
            hosted, alloc, node, packet, *extent, *upto, *sealed, *request,
        ),
        _ => Ok(Step::silent(alloc)),
    }
}

/// What node `node` does with a packet about an extent of which this is its replica: the rule of its table, exactly. What it
/// sends and shows fills the step, which is empty before. The record, if there is one, is on the disk before the call returns. 20:
/// the disk failed, and the file is stopped; 22: nothing has changed. After either the step may hold something, which is not
/// sent.
pub fn handle_into<D: Disk>(
    hosted: &mut NodeReplica,
    file: &mut RecordFile<D>,
    alloc: Global,
    node: u8,
    packet: &Packet,
    step: &mut Step,
) -> Result<(), DiskFault>
    requires running { file.old.stopped ≡ false }
    requires empty { step.old ≡ empty_step }
    ensures { ReplicaPerforms D.state hosted.old hosted.new file.old file.new (node_rule node (Some hosted.old) packet.now packet.now.body) (told result step.new) }
{
    match &packet.body {
        Body::Append(body) => take_append(hosted, file, alloc, node, packet, body, step),
        Body::Check(body) => fill(step, take_check(hosted, file, alloc, node, packet, body)),
        Body::Seal(body) => fill(step, take_seal(hosted, file, alloc, node, packet, body)),
        Body::Read(body) => fill(step, take_read(hosted, alloc, node, packet, body)),
        _ => Ok(()),
    }
}
