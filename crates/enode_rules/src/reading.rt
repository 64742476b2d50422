//! What is read from a replica.
ghost use Rattle.std.specs.Prelude.{◌≡◌, Some, IfOk, IfErr, ◌+◌};
ghost use Rattle.disk.specs.declared.device.DiskFault.TheVariants as faults;
ghost use Rattle.replica.specs.Groups.{text};
ghost use Rattle.replica.specs.Reading.{groups_to};
ghost use Rattle.wire.specs.declared.note.Note.TheVariants as notes;
ghost use Rattle.model_streams.specs.Node.{groups_note, groups_rule, groups_shown, read_rule};
ghost use Rattle.enode_rules.specs.Performs.{ReplicaPerformsInMemory};

use crate::sending::{one_and_a_note, refuse};
use block_types::Groups;
use disk::DiskFault;
use enode_replica::{NodeReplica, is_sealed};
use std::alloc::Global;
use wire::{Body, ExtentId, Note, Packet, ReadBody, Refusal, ReqNo, Step};

/// So many bytes from an offset on, which are shown by it; 8 where they go past the end.
pub(crate) fn read(
    hosted: &NodeReplica,
    alloc: Global,
    node: u8,
    packet: &Packet,
    extent: ExtentId,
    offset: u32,
    length: u32,
    request: ReqNo,
) -> Result<Step, DiskFault>
    ensures { ReplicaPerformsInMemory hosted.now hosted.now (read_rule node hosted.now packet.now extent offset length request) result }
{
    if u64::from(offset) + u64::from(length) > u64::from(hosted.replica().len()) {
        return refuse(alloc, node, packet.from, request, Refusal::PastEnd);
    }
    let bytes = hosted.replica().bytes(alloc, offset, length)?;
    let shown = Note::Seen {
        extent,
        node,
        offset,
        bytes: bytes.clone()?,
    };
    let body = Body::Read(ReadBody::Bytes {
        request,
        extent,
        offset,
        bytes,
    });
    one_and_a_note(alloc, node, packet.from, body, shown)
}

/// The groups up to a boundary; 9 where only sealed ones are asked for and the replica is not sealed, 8 where that is
/// no boundary. A sealed replica that is read to its end shows its content.
pub(crate) fn read_groups(
    hosted: &NodeReplica,
    alloc: Global,
    node: u8,
    packet: &Packet,
    extent: ExtentId,
    upto: u32,
    sealed: bool,
    request: ReqNo,
) -> Result<Step, DiskFault>
    ensures { ReplicaPerformsInMemory hosted.now hosted.now (groups_rule node hosted.now packet.now extent upto sealed request) result }
{
    if sealed && !is_sealed(hosted.replica().state()) {
        return refuse(alloc, node, packet.from, request, Refusal::NotSealed);
    }
    match hosted.replica().groups_to(alloc, upto)? {
        None => refuse(alloc, node, packet.from, request, Refusal::PastEnd),
        Some(groups) => show(hosted, alloc, node, packet, extent, upto, groups, request),
    }
}

/// Groups that were found up to a boundary.
fn show(
    hosted: &NodeReplica,
    alloc: Global,
    node: u8,
    packet: &Packet,
    extent: ExtentId,
    upto: u32,
    groups: Groups,
    request: ReqNo,
) -> Result<Step, DiskFault>
    requires { groups_to upto hosted.now.content.groups ≡ Some groups }
    ensures { ReplicaPerformsInMemory hosted.now hosted.now (groups_shown node hosted.now packet.now extent upto request groups) result }
{
    let shown = note_of(hosted, alloc, node, extent, upto, &groups)?;
    let body = Body::Read(ReadBody::Groups {
        request,
        extent,
        groups,
    });
    one_and_a_note(alloc, node, packet.from, body, shown)
}

fn note_of(
    hosted: &NodeReplica,
    alloc: Global,
    node: u8,
    extent: ExtentId,
    upto: u32,
    groups: &Groups,
) -> Result<Note, DiskFault>
    requires { groups_to upto hosted.now.content.groups ≡ Some groups.now }
    ensures note { IfOk result (λ note. note ≡ groups_note node hosted.now extent upto groups.now) }
    ensures fault { IfErr result (λ e. e ≡ faults.Memory) }
{
    if !is_sealed(hosted.replica().state()) {
        return text_note(hosted, alloc, node, extent, upto, groups);
    }
    if upto != hosted.replica().len() {
        return text_note(hosted, alloc, node, extent, upto, groups);
    }
    Ok(Note::Content {
        extent,
        node,
        groups: Groups::copied(alloc, &groups.items)?,
    })
}

/// That the text of the groups up to a boundary was seen.
fn text_note(
    hosted: &NodeReplica,
    alloc: Global,
    node: u8,
    extent: ExtentId,
    upto: u32,
    groups: &Groups,
) -> Result<Note, DiskFault>
    requires { groups_to upto hosted.now.content.groups ≡ Some groups.now }
    ensures note { IfOk result (λ note. note ≡ notes.Seen extent node 0 (text groups.now)) }
    ensures fault { IfErr result (λ e. e ≡ faults.Memory) }
{
    // Read, so that the groups are known to the proof.
    let _groups = &groups.items;
    Ok(Note::Seen {
        extent,
        node,
        offset: 0,
        bytes: hosted.replica().bytes(alloc, 0, upto)?,
    })
}
