//! The rules of a node's table, over its replicas and its file.
ghost use Rattle.std.specs.Prelude.{◌≡◌, None, false};
ghost use Rattle.model_streams.specs.Node.{extent_of, node_rule, seal_body_rule, seal_extent};
ghost use Rattle.enode_rules.specs.KeptStep.{empty_step, told};
ghost use Rattle.enode.specs.Node.{find};
ghost use Rattle.enode.specs.Performs.{NodePerforms};

use crate::absent::{missing, refuse_request, take_append, take_check, take_read};
use crate::extents::extent_of;
use crate::making::make;
use disk::{Disk, DiskFault, RecordFile};
use enode_replica::NodeReplica;
use enode_rules::{fill, handle_into};
use std::alloc::Global;
use std::collections::BTreeMap;
use wire::{Body, Packet, ReqNo, SealBody, Step};

/// What a node does with a packet about the end of an extent of which it has no replica.
fn take_seal<D: Disk>(
    replicas: &mut BTreeMap<u64, NodeReplica>,
    file: &mut RecordFile<D>,
    alloc: Global,
    number: u8,
    packet: &Packet,
    body: &SealBody,
) -> Result<Step, DiskFault>
    requires running { file.old.stopped ≡ false }
    requires absent { find replicas.old.entries (seal_extent body.now) ≡ None }
    ensures { NodePerforms D.state replicas.old.entries replicas.new.entries file.old file.new (seal_extent body.now)
        (seal_body_rule number None packet.now body.now) result }
{
    match body {
        SealBody::Make {
            extent,
            fence,
            target,
            places,
        } => make(
            replicas, file, alloc, number, packet, *extent, *fence, *target, places,
        ),
        SealBody::Freeze { .. } => missing(alloc, number, packet),
        SealBody::Seal { .. } => missing(alloc, number, packet),
        SealBody::SendTail { .. } => missing(alloc, number, packet),
        SealBody::Tail { .. } => refuse_request(alloc, number, packet, ReqNo::NoRequest),
        _ => Ok(Step::silent(alloc)),
    }
}

/// What a node does with a packet about an extent of which it has no replica.
fn take_absent<D: Disk>(
    replicas: &mut BTreeMap<u64, NodeReplica>,
    file: &mut RecordFile<D>,
    alloc: Global,
    number: u8,
    packet: &Packet,
) -> Result<Step, DiskFault>
    requires running { file.old.stopped ≡ false }
    requires absent { find replicas.old.entries (extent_of packet.now.body) ≡ None }
    ensures { NodePerforms D.state replicas.old.entries replicas.new.entries file.old file.new (extent_of packet.now.body)
        (node_rule number None packet.now packet.now.body) result }
{
    match &packet.body {
        Body::Append(body) => take_append(alloc, number, packet, body),
        Body::Check(body) => take_check(alloc, number, packet, body),
        Body::Seal(body) => take_seal(replicas, file, alloc, number, packet, body),
        Body::Read(body) => take_read(alloc, number, packet, body),
        _ => Ok(Step::silent(alloc)),
    }
}

/// What a node does with a packet, which fills a step.
pub(crate) fn take<D: Disk>(
    replicas: &mut BTreeMap<u64, NodeReplica>,
    file: &mut RecordFile<D>,
    alloc: Global,
    number: u8,
    packet: &Packet,
    step: &mut Step,
) -> Result<(), DiskFault>
    requires running { file.old.stopped ≡ false }
    requires empty { step.old ≡ empty_step }
    ensures { NodePerforms D.state replicas.old.entries replicas.new.entries file.old file.new (extent_of packet.now.body)
        (node_rule number (find replicas.old.entries (extent_of packet.now.body)) packet.now packet.now.body) (told result step.new) }
{
    let extent = extent_of(&packet.body);
    match replicas.get_mut(&extent) {
        None => fill(step, take_absent(replicas, file, alloc, number, packet)),
        Some(hosted) => handle_into(hosted, file, alloc, number, packet, step),
    }
}
