//! What the manager sends.
ghost use Rattle.std.specs.Prelude.{◌≡◌, ◌++◌, ◌∷◌, [], IfOk, OnOk};
ghost use Rattle.wire.specs.declared.actor.ActorId.TheVariants.{Manager};
ghost use Rattle.wire.specs.declared.body.Body.TheVariants as bodies;
ghost use Rattle.model_streams.specs.Manager.{each_place, closes, told_sealed, tells_asker};
ghost use Rattle.model_streams.specs.Outcome.{packet};
ghost use Rattle.manager_rules.specs.Plan.{Plans, still, told, denied, make_of, reminding, plan_of, created_of, opened_of, confirmed_of, extended_of, trimmed_of, modified_of};
ghost use Rattle.manager_rules.specs.declared.plan.Change.TheVariants as changes;

use crate::plan::{Change, Plan};
use block_types::Nodes;
use model_streams::{Asker, Extent};
use std::alloc::{AllocError, Global};
use wire::{
    ActorId, AppendBody, Body, ExtentId, Fence, Notes, OpenedStreams, Packet, Packets, Refusal,
    ReqNo, SealBody, Step, StreamBody,
};

/// A packet of the manager.
pub(crate) fn send(to: ActorId, body: Body) -> Packet
    ensures { result ≡ packet Manager to body }
{
    Packet {
        from: ActorId::Manager,
        to,
        body,
    }
}

pub(crate) fn created(request: ReqNo) -> Body
    ensures { result ≡ created_of request }
{
    Body::Stream(StreamBody::Created { request })
}

pub(crate) fn opened(request: ReqNo, streams: OpenedStreams) -> Body
    ensures { result ≡ opened_of request streams }
{
    Body::Stream(StreamBody::Opened { request, streams })
}

pub(crate) fn confirmed(request: ReqNo) -> Body
    ensures { result ≡ confirmed_of request }
{
    Body::Stream(StreamBody::Confirmed { request })
}

pub(crate) fn extended(request: ReqNo, extent: u64, places: Nodes) -> Body
    ensures { result ≡ extended_of request extent places }
{
    Body::Stream(StreamBody::Extended {
        request,
        extent: ExtentId(extent),
        places,
    })
}

pub(crate) fn trimmed(request: ReqNo) -> Body
    ensures { result ≡ trimmed_of request }
{
    Body::Stream(StreamBody::Trimmed { request })
}

pub(crate) fn modified(request: ReqNo) -> Body
    ensures { result ≡ modified_of request }
{
    Body::Stream(StreamBody::Modified { request })
}

/// The demand for a replica of an extent.
fn make(extent: u64, fence: Fence, target: u32, places: Nodes) -> Body
    ensures { result ≡ make_of extent fence target places }
{
    Body::Seal(SealBody::Make {
        extent: ExtentId(extent),
        fence,
        target,
        places,
    })
}

/// The demand to close a replica: at a length, or where it ends.
fn close(extent: u64, sealed: Option<u32>) -> Body
    ensures { result ≡ bodies.Seal (closes extent sealed) }
{
    let extent = ExtentId(extent);
    Body::Seal(match sealed {
        None => SealBody::Freeze { extent },
        Some(length) => SealBody::Seal { extent, length },
    })
}

/// Nothing is sent, and nothing changes.
pub(crate) fn silent(alloc: Global) -> Plan
    ensures { result ≡ still }
{
    Plan {
        step: Step::silent(alloc),
        change: Change::Nothing,
    }
}

/// Packets and a change, and nothing shown.
pub(crate) fn with_change(alloc: Global, packets: Packets, change: Change) -> Plan
    ensures { result ≡ plan_of packets change }
{
    Plan {
        step: Step {
            packets,
            notes: Notes::new(alloc),
        },
        change,
    }
}

/// One packet.
pub(crate) fn one(alloc: Global, to: ActorId, body: Body) -> Result<Packets, AllocError>
    ensures { IfOk result (λ packets. packets ≡ packet Manager to body ∷ []) }
{
    let mut packets = Packets::new(alloc);
    packets.push(send(to, body))?;
    Ok(packets)
}

/// One packet, and nothing changes.
pub(crate) fn tell(alloc: Global, to: ActorId, body: Body) -> Result<Plan, AllocError>
    ensures { Plans (told to body) result }
{
    let packets = one(alloc, to, body)?;
    Ok(with_change(alloc, packets, Change::Nothing))
}

/// The refusal of a request, to its sender.
pub(crate) fn deny(
    alloc: Global,
    packet: &Packet,
    request: ReqNo,
    refusal: Refusal,
) -> Result<Plan, AllocError>
    ensures { Plans (denied packet.now request refusal) result }
{
    let body = Body::Append(AppendBody::Refused { request, refusal });
    tell(alloc, packet.from, body)
}

/// A demand for a replica to each place.
pub(crate) fn makes(
    alloc: Global,
    extent: u64,
    fence: Fence,
    target: u32,
    places: Nodes,
) -> Result<Packets, AllocError>
    ensures { IfOk result (λ packets. packets ≡ each_place places (make_of extent fence target places)) }
{
    let mut packets = Packets::new(alloc);
    packets.push(send(
        ActorId::Node(places.primary),
        make(extent, fence, target, places),
    ))?;
    packets.push(send(
        ActorId::Node(places.second),
        make(extent, fence, target, places),
    ))?;
    packets.push(send(
        ActorId::Node(places.third),
        make(extent, fence, target, places),
    ))?;
    Ok(packets)
}

/// Each place is told to have a replica, and to close it.
pub(crate) fn remind(
    alloc: Global,
    target: u32,
    extent: u64,
    entry: &Extent,
) -> Result<Packets, AllocError>
    ensures { IfOk result (λ packets. packets ≡ reminding target extent entry.now) }
{
    let places = entry.places;
    let mut packets = makes(alloc, extent, entry.fence, target, places)?;
    packets.push(send(ActorId::Node(places.primary), close(extent, entry.sealed)))?;
    packets.push(send(ActorId::Node(places.second), close(extent, entry.sealed)))?;
    packets.push(send(ActorId::Node(places.third), close(extent, entry.sealed)))?;
    Ok(packets)
}

/// Tells who asked at which length an extent is sealed.
pub(crate) fn tell_sealed(
    packets: &mut Packets,
    who: ActorId,
    request: ReqNo,
    extent: u64,
    length: u32,
) -> Result<(), AllocError>
    ensures { OnOk result (packets.new ≡ packets.old ++ told_sealed who request extent length) }
{
    let body = Body::Seal(SealBody::SealedIs {
        request,
        extent: ExtentId(extent),
        length,
    });
    packets.push(send(who, body))
}

/// Tells the last one to ask, if there is one, at which length an extent is sealed.
pub(crate) fn tell_asker(
    packets: &mut Packets,
    extent: u64,
    length: u32,
    asker: Option<Asker>,
) -> Result<(), AllocError>
    ensures { OnOk result (packets.new ≡ packets.old ++ tells_asker extent length asker) }
{
    match asker {
        None => Ok(()),
        Some(asker) => tell_sealed(packets, asker.who, asker.request, extent, length),
    }
}
