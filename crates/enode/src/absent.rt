//! The rules of a node's table for an extent of which it has no replica, but for those about the end of an extent.
ghost use Rattle.std.specs.Prelude.{None};
ghost use Rattle.wire.specs.declared.actor.ActorId.TheVariants.{Node};
ghost use Rattle.wire.specs.declared.refusal.Refusal.TheVariants.{NoSuchExtent};
ghost use Rattle.model_streams.specs.Outcome.{refused};
ghost use Rattle.model_streams.specs.Node.{append_body_rule, check_body_rule, missing as missing_rule, read_body_rule};
ghost use Rattle.enode.specs.Performs.{AnswersWithoutReplica};

use disk::DiskFault;
use enode_rules::{is_manager, refuse};
use std::alloc::Global;
use wire::{AppendBody, CheckBody, Packet, ReadBody, Refusal, ReqNo, Step};

/// There is no replica, and the request is refused.
pub(crate) fn refuse_request(
    alloc: Global,
    number: u8,
    packet: &Packet,
    request: ReqNo,
) -> Result<Step, DiskFault>
    ensures { AnswersWithoutReplica (refused None (Node number) packet.now request NoSuchExtent) result }
{
    refuse(alloc, number, packet.from, request, Refusal::NoSuchExtent)
}

/// The manager alone is told that there is no replica.
pub(crate) fn missing(alloc: Global, number: u8, packet: &Packet) -> Result<Step, DiskFault>
    ensures { AnswersWithoutReplica (missing_rule number packet.now) result }
{
    if is_manager(packet.from) {
        return refuse_request(alloc, number, packet, ReqNo::NoRequest);
    }
    Ok(Step::silent(alloc))
}

pub(crate) fn take_append(
    alloc: Global,
    number: u8,
    packet: &Packet,
    body: &AppendBody,
) -> Result<Step, DiskFault>
    ensures { AnswersWithoutReplica (append_body_rule number None packet.now body.now) result }
{
    match body {
        AppendBody::Append { request, .. } => refuse_request(alloc, number, packet, *request),
        AppendBody::Put { .. } => refuse_request(alloc, number, packet, ReqNo::NoRequest),
        AppendBody::Have { .. } => refuse_request(alloc, number, packet, ReqNo::NoRequest),
        _ => Ok(Step::silent(alloc)),
    }
}

pub(crate) fn take_check(
    alloc: Global,
    number: u8,
    packet: &Packet,
    body: &CheckBody,
) -> Result<Step, DiskFault>
    ensures { AnswersWithoutReplica (check_body_rule number None packet.now body.now) result }
{
    match body {
        CheckBody::Check { request, .. } => refuse_request(alloc, number, packet, *request),
        CheckBody::Probe { .. } => refuse_request(alloc, number, packet, ReqNo::NoRequest),
        CheckBody::Probed { .. } => refuse_request(alloc, number, packet, ReqNo::NoRequest),
        _ => Ok(Step::silent(alloc)),
    }
}

pub(crate) fn take_read(
    alloc: Global,
    number: u8,
    packet: &Packet,
    body: &ReadBody,
) -> Result<Step, DiskFault>
    ensures { AnswersWithoutReplica (read_body_rule number None packet.now body.now) result }
{
    match body {
        ReadBody::ReadAt { request, .. } => refuse_request(alloc, number, packet, *request),
        ReadBody::ReadGroups { request, .. } => refuse_request(alloc, number, packet, *request),
        _ => Ok(Step::silent(alloc)),
    }
}
