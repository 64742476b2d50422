//! Whole runs in which a blow falls at one packet: an actor stops once it has come and comes back, and each range that the map then
//! has is assigned; or the packet is lost, and the server gives up. Each extent that is asked to be sealed is.
use crate::drives::{Drive, begun, restart_of, step, stop_of, transaction_in, unless_failed};
use block_types::Nodes;
use bytes::Bytes;
use model_streams::Event;
use std::alloc::Global;
use std::test::Fail;
use wire::{
    ActorId, Body, Change, Changes, ExtentId, MapBody, Packet, RangeId, ReqNo, SealBody, ServerNo,
};
use world::Setup;

/// Enough for all that is sent between two seals.
pub(crate) const MOST_DELIVERIES: usize = 2_000;

/// Enough for all the seals of a run.
const MOST_SEALS: usize = 50;

/// How often the server gives up on a packet that was lost.
const MOST_TRIES: usize = 3;

/// The last of the ranges that a run comes to have.
const LAST_RANGE: u64 = 4;

/// What befalls a run at a packet.
#[derive(Clone, Copy)]
pub(crate) enum Blow {
    /// After its delivery this actor stops and comes back, and each range that the map has is assigned.
    Stops(ActorId),
    /// It is lost.
    Loses,
}

/// A blow, and how many packets come up to it.
#[derive(Clone, Copy)]
pub(crate) struct Fault {
    pub(crate) blow: Blow,
    pub(crate) after: usize,
}

/// No blow falls.
pub(crate) const NONE: Fault = Fault {
    blow: Blow::Stops(ActorId::Map),
    after: 0,
};

/// A run, and how many packets were looked at for seals that were asked for.
#[derive(Drop)]
pub(crate) struct Drill {
    pub(crate) drive: Drive,
    looked: usize,
}

pub(crate) fn assign(drive: &mut Drive, alloc: Global, range: RangeId) -> Result<(), Fail> {
    let server = ServerNo(1);
    step(
        drive,
        alloc,
        Event::Assign {
            range,
            server,
            until: 100,
        },
    )
}

fn question(alloc: Global, key: u8) -> Result<Event, Fail> {
    Ok(Event::Submit {
        user: 1,
        to: ActorId::Map,
        body: Body::Map(MapBody::Route {
            key: Bytes::copy_from_slice(alloc, &[key])?,
            request: ReqNo::User { user: 1, ticket: 9 },
        }),
    })
}

/// The range that the packet answers a route with.
fn answered(packet: &Packet) -> Option<RangeId> {
    match &packet.body {
        Body::Map(MapBody::RouteIs { range, .. }) => Some(*range),
        _ => None,
    }
}

/// Asks the map at once which range has this key.
fn range_of(drive: &mut Drive, alloc: Global, key: u8) -> Result<RangeId, Fail> {
    let number = drive.run.sent().len();
    let event = question(alloc, key)?;
    step(drive, alloc, event)?;
    step(drive, alloc, Event::Deliver { number })?;
    match drive.run.sent().last() {
        Some(packet) => match answered(packet) {
            Some(range) => Ok(range),
            None => Err(Fail::from("no route")),
        },
        None => Err(Fail::from("no route")),
    }
}

/// Assigns each range that the map has: the one of all keys, or the two of the key `a` and of the key `z`.
pub(crate) fn assign_all(drive: &mut Drive, alloc: Global) -> Result<(), Fail> {
    let low = range_of(drive, alloc, b'a')?;
    let high = range_of(drive, alloc, b'z')?;
    assign(drive, alloc, low)?;
    if low != high {
        assign(drive, alloc, high)?;
    }
    Ok(())
}

fn deliver(drive: &mut Drive, alloc: Global, number: usize) -> Result<(), Fail> {
    step(drive, alloc, Event::Deliver { number })
}

fn stops(drive: &mut Drive, alloc: Global, actor: &ActorId) -> Result<(), Fail> {
    step(drive, alloc, stop_of(actor))?;
    step(drive, alloc, restart_of(actor))?;
    assign_all(drive, alloc)
}

/// The packet at which the blow falls comes, or is lost.
fn deliver_struck(
    drive: &mut Drive,
    alloc: Global,
    number: usize,
    blow: &Blow,
) -> Result<(), Fail> {
    match blow {
        Blow::Stops(actor) => {
            deliver(drive, alloc, number)?;
            stops(drive, alloc, actor)
        }
        Blow::Loses => Ok(()),
    }
}

/// Delivers the next packet, with the fault where it is due, and answers whether there was one.
fn deliver_next(drive: &mut Drive, alloc: Global, fault: &Fault) -> Result<bool, Fail> {
    let number = drive.delivered;
    if number >= drive.run.sent().len() {
        return Ok(false);
    }
    drive.delivered = number.saturating_add(1);
    if drive.delivered == fault.after {
        deliver_struck(drive, alloc, number, &fault.blow)?;
    } else {
        deliver(drive, alloc, number)?;
    }
    Ok(true)
}

/// Delivers as many packets as there are, and at most so many.
pub(crate) fn deliver_some(
    drive: &mut Drive,
    alloc: Global,
    fault: &Fault,
    most: usize,
) -> Result<(), Fail> {
    for _ in 0..most {
        let more = deliver_next(drive, alloc, fault)?;
        if !more {
            return Ok(());
        }
    }
    Ok(())
}

/// The extent that the packet asks to be sealed.
fn sealed_by(packet: &Packet) -> Option<ExtentId> {
    match &packet.body {
        Body::Seal(SealBody::SealExtent { extent, .. }) => Some(*extent),
        _ => None,
    }
}

/// The next extent that was asked to be sealed, and how many packets there are up to that one.
fn next_seal(sent: &[Packet], looked: usize) -> Option<(ExtentId, usize)> {
    sent.iter().enumerate().skip(looked).find_map(|(number, packet)| Some((
        sealed_by(packet)?,
        number.saturating_add(1),
    )))
}

/// Delivers all, and has each extent sealed for which that is asked, until nothing more follows.
pub(crate) fn settle_all(drill: &mut Drill, alloc: Global, fault: &Fault) -> Result<(), Fail> {
    for _ in 0..MOST_SEALS {
        deliver_some(&mut drill.drive, alloc, fault, MOST_DELIVERIES)?;
        let Some((extent, looked)) = next_seal(drill.drive.run.sent(), drill.looked) else {
            return Ok(());
        };
        drill.looked = looked;
        step(&mut drill.drive, alloc, Event::Decide { extent })?;
    }
    Ok(())
}

/// A key gets this value, or none.
pub(crate) fn change(alloc: Global, key: u8, value: Option<u8>) -> Result<Change, Fail> {
    let value = match value {
        Some(byte) => Some(Bytes::copy_from_slice(alloc, &[byte])?),
        None => None,
    };
    let key = Bytes::copy_from_slice(alloc, &[key])?;
    Ok(Change { key, value })
}

/// A transaction of these changes is asked of a range.
pub(crate) fn transact(
    drive: &mut Drive,
    alloc: Global,
    range: RangeId,
    changes: Vec<Change>,
) -> Result<(), Fail> {
    let changes = Changes::of(changes)?;
    step(drive, alloc, transaction_in(range, changes, 1))
}

pub(crate) fn merge_of(left: u64, right: u64) -> Event {
    Event::Merge {
        server: ServerNo(1),
        left: RangeId(left),
        right: RangeId(right),
    }
}

/// The range 1 is to be split at `m`.
pub(crate) fn split(drive: &mut Drive, alloc: Global) -> Result<(), Fail> {
    let event = Event::Split {
        server: ServerNo(1),
        range: RangeId(1),
        key: Bytes::copy_from_slice(alloc, b"m")?,
    };
    step(drive, alloc, event)
}

fn give_up(drive: &mut Drive, alloc: Global, range: RangeId) -> Result<(), Fail> {
    let event = Event::GiveUp {
        server: ServerNo(1),
        range,
        pick: Nodes {
            primary: 1,
            second: 2,
            third: 3,
        },
    };
    step(drive, alloc, event)
}

/// The server gives up on what its ranges wait for, again and again.
fn try_again(drill: &mut Drill, alloc: Global, fault: &Fault) -> Result<(), Fail> {
    for _ in 0..MOST_TRIES {
        for number in 1..=LAST_RANGE {
            give_up(&mut drill.drive, alloc, RangeId(number))?;
        }
        settle_all(drill, alloc, fault)?;
    }
    Ok(())
}

/// What was lost is asked for again, and the ranges that there are then are assigned. A load may want a replica that was not told of its
/// seal, and then asks for the next one.
pub(crate) fn end_all(drill: &mut Drill, alloc: Global, fault: &Fault) -> Result<(), Fail> {
    try_again(drill, alloc, fault)?;
    assign_all(&mut drill.drive, alloc)?;
    settle_all(drill, alloc, fault)?;
    try_again(drill, alloc, fault)
}

/// The run, unless a step of it failed.
pub(crate) fn drilled(drill: Drill, stepped: Result<(), Fail>) -> Result<Drive, Fail> {
    let Drill { drive, looked: _ } = drill;
    unless_failed(drive, stepped)
}

/// A run of three nodes and a server, to which the range 1 is assigned.
pub(crate) fn started(alloc: Global) -> Result<Drill, Fail> {
    let Some(setup) = Setup::new(3, 1, 4096, 1) else {
        return Err(Fail::from("no setup"));
    };
    let drive = begun(alloc, &setup)?;
    Ok(Drill { drive, looked: 0 })
}

fn is_assignment(packet: &Packet) -> bool {
    match &packet.body {
        Body::Map(MapBody::Assign { .. }) => true,
        _ => false,
    }
}

/// How many times the map has assigned a range.
pub(crate) fn assignments(sent: &[Packet]) -> usize {
    sent.iter().filter(|packet| is_assignment(packet)).count()
}
