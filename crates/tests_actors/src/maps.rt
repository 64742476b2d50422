//! Cases of the partition map, which has one range.
mod failing_disks;

use crate::cases::{Actor, holds};
use crate::record_disks::disk_of;
use bytes::Bytes;
use disk::{DiskFault, MemDisk};
use pmap::{MapFault, PartitionMap};
use std::alloc::Global;
use wire::{ActorId, Body, MapBody, Packet, RangeId, ReqNo, ServerNo, Step};

type Held = PartitionMap<MemDisk>;

/// What a server is told: to whom it goes, the generation, and the end of the lease.
pub type Told = Option<(u8, u64, u64)>;

/// What happens to a map, or what is seen of it.
#[derive(Clone, Copy)]
pub enum Event {
    /// The range is assigned to this server, at this moment and up to another, and a server is told so, or it is refused.
    Assigns(u8, u64, u64, Result<Told, MapFault>),
    /// The server's lease is renewed up to this moment, and a server is told so, or it is refused.
    Renews(u8, u64, Result<Told, MapFault>),
    /// A range that is not there is neither assigned nor renewed.
    KnowsNoOther,
    /// The only range has this generation, this holder, and this end of the lease.
    Has(u64, Option<u8>, u64),
    /// The key is of the only range, and this server holds it.
    Routes(&'static [u8], Option<u8>),
    /// A user asks where a key is, and is told: the range, and who holds it.
    Tells(Option<(u64, Option<u8>)>),
    /// Of a packet that is no question nothing comes.
    PassesOver,
    /// It runs.
    Runs,
    /// Its disk is told to stop in the third call of the next record, and to keep that call's bytes or not.
    IsToldToStop(bool),
    StopsNow,
    /// It has stopped, its disk is told to stop at no call, and nothing comes of a question.
    HasStopped,
    /// A map starts from its disk in its place.
    Restarts,
    /// A map starts from a copy of its disk, made while it runs, in its place.
    IsCopied,
}

// These calls pass no contract on, so that a test is proved from what it reads alone.
fn started(alloc: Global, disk: MemDisk) -> Option<Held> {
    match PartitionMap::restart(alloc, disk) {
        Ok(map) => Some(map),
        Err((_fault, _disk)) => None,
    }
}

fn copied(alloc: Global, map: Held) -> Option<Held> {
    match map.file().copy_disk(alloc) {
        Ok(disk) => started(alloc, disk),
        Err(_fault) => None,
    }
}

fn told(step: &Step) -> Told {
    match step.packets.items.as_slice() {
        [only] => match (&only.to, &only.body) {
            (
                ActorId::Server(server),
                Body::Map(
                    MapBody::Assign {
                        generation,
                        until,
                        ..
                    }
                    | MapBody::Renew {
                        generation,
                        until,
                        ..
                    },
                ),
            ) => Some((server.0, generation.0, *until)),
            _ => None,
        },
        _ => None,
    }
}

fn assign(
    alloc: Global,
    map: &mut Held,
    server: u8,
    now: u64,
    until: u64,
) -> Result<Told, MapFault> {
    if map.is_stopped() {
        return Err(MapFault::DiskFailed);
    }
    match map.assign(alloc, RangeId(1), ServerNo(server), now, until) {
        Ok(step) => Ok(told(&step)),
        Err(fault) => Err(fault),
    }
}

fn renew(alloc: Global, map: &mut Held, server: u8, until: u64) -> Result<Told, MapFault> {
    if map.is_stopped() {
        return Err(MapFault::DiskFailed);
    }
    match map.renew(alloc, RangeId(1), ServerNo(server), until) {
        Ok(step) => Ok(told(&step)),
        Err(fault) => Err(fault),
    }
}

fn knows_no_other(alloc: Global, map: &mut Held) -> bool {
    if map.is_stopped() {
        return false;
    }
    let assigned = map.assign(alloc, RangeId(2), ServerNo(2), 0, 50).err();
    if map.is_stopped() {
        return false;
    }
    let renewed = map.renew(alloc, RangeId(2), ServerNo(2), 50).err();
    assigned == Some(MapFault::NotOwner) && renewed == Some(MapFault::NotOwner)
}

/// The holder's number, since a constant cannot hold the id.
fn number(server: Option<ServerNo>) -> Option<u8> {
    server.map(|server| server.0)
}

fn has(map: &Held, generation: u64, holder: Option<u8>, until: u64) -> bool {
    match map.ranges() {
        [range] => {
            range.range.0 == 1
                && range.generation.0 == generation
                && number(range.holder) == holder
                && range.until == until
        }
        _ => false,
    }
}

fn routes(map: &Held, key: &[u8], holder: Option<u8>) -> bool {
    let (range, found) = map.route(key);
    range.0 == 1 && number(found) == holder
}

const REQUEST: ReqNo = ReqNo::User { user: 7, ticket: 3 };

fn ask(alloc: Global, map: &mut Held, body: MapBody) -> Result<Step, DiskFault> {
    let packet = Packet {
        from: ActorId::User(7),
        to: ActorId::Map,
        body: Body::Map(body),
    };
    map.handle(alloc, &packet)
}

/// What a step tells a user who asked where a key is.
fn answered(step: &Step) -> Option<(u64, Option<u8>)> {
    match step.packets.items.as_slice() {
        [only] => match (&only.to, &only.body) {
            (
                ActorId::User(7),
                Body::Map(
                    MapBody::RouteIs {
                        request: REQUEST,
                        range,
                        server,
                    },
                ),
            ) => Some((range.0, number(*server))),
            _ => None,
        },
        _ => None,
    }
}

fn tells(alloc: Global, map: &mut Held, wanted: Option<(u64, Option<u8>)>) -> bool {
    let key = Bytes::from_static(b"k");
    let request = REQUEST;
    match ask(alloc, map, MapBody::Route { key, request }) {
        Ok(step) => answered(&step) == wanted,
        Err(_fault) => false,
    }
}

fn is_silent(step: &Step) -> bool {
    step.packets.items.is_empty() && step.notes.items.is_empty()
}

fn passes_over(alloc: Global, map: &mut Held) -> bool {
    match ask(alloc, map, MapBody::SplitDone { request: REQUEST }) {
        Ok(step) => is_silent(&step),
        Err(_fault) => false,
    }
}

fn is_told_to_stop(map: &mut Held, keep: bool) -> bool {
    map.stop_at(3, keep);
    map.file().told().is_some()
}

fn stops_now(map: &mut Held) -> bool {
    map.stop_now();
    true
}

fn has_stopped(alloc: Global, map: &mut Held) -> bool {
    if !map.is_stopped() || map.file().told().is_some() {
        return false;
    }
    let key = Bytes::from_static(b"k");
    let request = REQUEST;
    match ask(alloc, map, MapBody::Route { key, request }) {
        Ok(step) => is_silent(&step),
        Err(_fault) => false,
    }
}

fn fits(alloc: Global, map: &mut Held, event: Event) -> bool {
    match event {
        Event::Assigns(server, now, until, wanted) => {
            assign(alloc, map, server, now, until) == wanted
        }
        Event::Renews(server, until, wanted) => renew(alloc, map, server, until) == wanted,
        Event::KnowsNoOther => knows_no_other(alloc, map),
        Event::Has(generation, holder, until) => has(map, generation, holder, until),
        Event::Routes(key, holder) => routes(map, key, holder),
        Event::Tells(wanted) => tells(alloc, map, wanted),
        Event::PassesOver => passes_over(alloc, map),
        Event::Runs => !map.is_stopped(),
        Event::IsToldToStop(keep) => is_told_to_stop(map, keep),
        Event::StopsNow => stops_now(map),
        Event::HasStopped => has_stopped(alloc, map),
        Event::Restarts | Event::IsCopied => false,
    }
}

impl Actor for Held {
    type Event = Event;

    fn after(self, alloc: Global, event: Event) -> Option<Self> {
        let mut map = self;
        match event {
            Event::Restarts => started(alloc, map.into_disk()),
            Event::IsCopied => copied(alloc, map),
            _ => if fits(alloc, &mut map, event) {
                Some(map)
            } else {
                None
            },
        }
    }
}

/// The map that records of these texts make.
fn map_of(alloc: Global, texts: &[&[u8]]) -> Option<Held> {
    match disk_of(alloc, texts) {
        Some(disk) => started(alloc, disk),
        None => None,
    }
}

/// Server 2 is assigned the range up to moment 50.
const ASSIGNED: Event = Event::Assigns(2, 0, 50, Ok(Some((2, 1, 50))));

/// The next record fails on a disk that was told to stop in it, and until a restart all is as it was.
const STOPS_INSIDE: &[Event] = &[
    Event::Assigns(2, 0, 50, Err(MapFault::DiskFailed)),
    Event::HasStopped,
    Event::Has(0, None, 0),
    Event::Restarts,
];

/// What a case shows, and its parts.
const CASES: &[(&str, &[&[Event]])] = &[
    (
        "at first nobody holds the range",
        &[&[
            Event::Has(0, None, 0),
            Event::Runs,
            Event::Routes(b"", None),
            Event::KnowsNoOther,
        ]],
    ),
    (
        "it is assigned to another once the lease has ended",
        &[&[
            ASSIGNED,
            Event::Assigns(3, 49, 60, Err(MapFault::LeaseHeld)),
            Event::Has(1, Some(2), 50),
            Event::Assigns(2, 10, 40, Ok(Some((2, 2, 50)))),
            Event::Assigns(3, 50, 70, Ok(Some((3, 3, 70)))),
            Event::Has(3, Some(3), 70),
        ]],
    ),
    (
        "its holder's lease is renewed",
        &[&[
            Event::Renews(2, 50, Err(MapFault::NotOwner)),
            ASSIGNED,
            Event::Renews(3, 90, Err(MapFault::NotOwner)),
            Event::Renews(2, 30, Ok(Some((2, 1, 50)))),
            Event::Renews(2, 80, Ok(Some((2, 1, 80)))),
            Event::Has(1, Some(2), 80),
        ]],
    ),
    (
        "it has all keys",
        &[&[
            Event::Tells(Some((1, None))),
            Event::Assigns(4, 0, 50, Ok(Some((4, 1, 50)))),
            Event::Tells(Some((1, Some(4)))),
            Event::Routes(b"", Some(4)),
            Event::Routes(b"\0", Some(4)),
            Event::Routes(b"\xff\xff", Some(4)),
            Event::PassesOver,
        ]],
    ),
    (
        "the map starts again from its disk, and from a copy",
        &[&[
            ASSIGNED,
            Event::Renews(2, 80, Ok(Some((2, 1, 80)))),
            Event::Restarts,
            Event::Has(1, Some(2), 80),
            Event::Assigns(3, 79, 99, Err(MapFault::LeaseHeld)),
            Event::Assigns(3, 80, 99, Ok(Some((3, 2, 99)))),
            Event::IsCopied,
            Event::Has(2, Some(3), 99),
        ]],
    ),
    (
        "a stop inside a record keeps it",
        &[
            &[Event::IsToldToStop(true)],
            STOPS_INSIDE,
            &[Event::Has(1, Some(2), 50)],
        ],
    ),
    (
        "a stop inside a record loses it",
        &[
            &[Event::IsToldToStop(false)],
            STOPS_INSIDE,
            &[Event::Has(0, None, 0)],
        ],
    ),
    (
        "a stop at once leaves the records",
        &[&[
            ASSIGNED,
            Event::StopsNow,
            Event::HasStopped,
            Event::Tells(None),
            Event::Restarts,
            Event::Has(1, Some(2), 50),
        ]],
    ),
];

#[test]
fn maps_go_as_their_cases_say(rt: HostRuntime) {
    for (shows, parts) in CASES {
        assert!(rt;
            holds(rt.alloc(), map_of(rt.alloc(), &[]), parts),
            "{shows}"
        );
    }
}

// Kind 16: range 1, server 2, up to 50; and kind 17: range 1, up to 70.
const ASSIGN: &[u8] = &[16, 0, 0, 0, 0, 0, 0, 0, 1, 2, 0, 0, 0, 0, 0, 0, 0, 50];

const RENEW: &[u8] = &[17, 0, 0, 0, 0, 0, 0, 0, 1, 0, 0, 0, 0, 0, 0, 0, 70];

#[test]
fn reads_records(rt: HostRuntime) {
    let read = map_of(rt.alloc(), &[ASSIGN, RENEW, ASSIGN]);
    assert!(rt; holds(rt.alloc(), read, &[&[Event::Has(2, Some(2), 70)]]));
}
