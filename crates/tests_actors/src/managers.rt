//! Cases of the stream manager.
mod asking;
mod failing_disks;
mod modifying;
mod ranges;
mod sealing;
mod starting;
mod strangers;
mod trimming;

use crate::answers::{Answer, comes_to, counts, is_answer};
use crate::cases::{Actor, holds};
use crate::senders::{Sender, actor_of};
use asking::{Ask, body_of};
use disk::MemDisk;
use manager::{Manager, ManagerFault};
use std::alloc::Global;
use wire::{ActorId, ExtentId, Packet, RangeId, StreamKind, StreamName};

/// What happens to a manager of four nodes, or what is seen of it.
#[derive(Clone, Copy)]
pub enum Event {
    /// It takes a packet of this sender, and its step comes to this answer.
    Takes(Sender, Ask, Answer),
    /// Such a packet of any of these senders changes nothing, and nothing is sent or shown.
    Ignores(&'static [Sender], Ask),
    /// It is to decide a seal of this extent, and does, or does not for this fault.
    Decides(u64, Option<ManagerFault>),
    /// It decides a seal of extent 1, and tells who asked this length.
    DecidesAt(u32),
    /// Whether it has this extent, and the length at which that is sealed, if it is.
    HasExtent(u64, Option<Option<u32>>),
    /// The length at which it would seal extent 1.
    WouldSealAt(Option<u32>),
    /// It has not stopped, and knows its four nodes and its target.
    Runs,
    /// The base and the extents of a stream of range 1.
    Lists(StreamKind, u64, &'static [u64]),
    /// The base and the extents of the log of a range.
    HasLog(u64, u64, &'static [u64]),
    /// The range has no log.
    HasNoLog(u64),
    /// Its disk is told to stop in a call of the next record, and to keep that call's bytes or not.
    IsToldToStop(u64, bool),
    StopsNow,
    HasStopped,
    /// Its disk is told to stop at no call.
    IsToldNothing,
    /// A manager starts from its disk in its place.
    Restarts,
    /// A manager starts from a copy of its disk, made while it runs, in its place.
    IsCopied,
}

/// What a case shows, and its parts.
type Case = (&'static str, &'static [&'static [Event]]);

/// One stream.
const CREATES: &[Event] = &[Event::Takes(Sender::User, Ask::Create(0), Answer::Taken)];

/// One open extent of that stream.
const OPENS: &[Event] = &[Event::Takes(Sender::User, Ask::Extend(None, 3), Answer::Taken)];

/// Somebody asks to seal that extent.
const ASKS: &[Event] = &[Event::Takes(Sender::User, Ask::SealExtent(1), Answer::Taken)];

/// Two places have frozen the extent, and another node that is none says so.
const FREEZES: &[Event] = &[
    Event::Takes(Sender::Node(1), Ask::Frozen(30), Answer::Taken),
    Event::Takes(Sender::Node(3), Ask::Frozen(20), Answer::Taken),
    Event::Takes(Sender::Node(4), Ask::Frozen(10), Answer::Taken),
];

// These calls pass no contract on, so that a test is proved from what it reads alone.
fn begun(alloc: Global) -> Option<Manager<MemDisk>> {
    match Manager::create(alloc, 4, 4096, MemDisk::new(alloc)) {
        Ok(manager) => Some(manager),
        Err((_fault, _disk)) => None,
    }
}

fn restarted(alloc: Global, disk: MemDisk) -> Option<Manager<MemDisk>> {
    match Manager::restart(alloc, disk) {
        Ok(manager) => Some(manager),
        Err((_fault, _disk)) => None,
    }
}

fn copied(alloc: Global, manager: Manager<MemDisk>) -> Option<Manager<MemDisk>> {
    match manager.file().copy_disk(alloc) {
        Ok(disk) => restarted(alloc, disk),
        Err(_fault) => None,
    }
}

// The packet is handed over whole: a local that lives on is dropped at each exit, and each costs the proof.
fn takes(alloc: Global, manager: &mut Manager<MemDisk>, packet: Packet, answer: Answer) -> bool {
    comes_to(manager.handle(alloc, &packet), answer)
}

fn packet_of(alloc: Global, from: Sender, ask: Ask) -> Packet {
    Packet {
        from: actor_of(from),
        to: ActorId::Manager,
        body: body_of(alloc, ask),
    }
}

/// A user's packet to create a stream of row data of range 0, with fence 0.
pub fn create_of(alloc: Global) -> Packet {
    packet_of(alloc, Sender::User, Ask::Create(0))
}

/// Why a decision is refused, if it is. One that has stopped is not asked.
fn undecided(alloc: Global, manager: &mut Manager<MemDisk>, extent: u64) -> Option<ManagerFault> {
    if manager.is_stopped() {
        return None;
    }
    match manager.decide(alloc, ExtentId(extent)) {
        Ok(_step) => None,
        Err(fault) => Some(fault),
    }
}

/// Whether a decision is taken, and tells who asked this length.
fn decides_at(alloc: Global, manager: &mut Manager<MemDisk>, length: u32) -> bool {
    if manager.is_stopped() {
        return false;
    }
    match manager.decide(alloc, ExtentId(1)) {
        Ok(step) => counts(&step) == (7, 1) && is_answer(&step, Answer::Tells(length)),
        Err(_fault) => false,
    }
}

fn sealed_at(manager: &Manager<MemDisk>, extent: u64) -> Option<Option<u32>> {
    match manager.table().entry(extent) {
        Some(entry) => Some(entry.sealed),
        None => None,
    }
}

fn runs(manager: &Manager<MemDisk>) -> bool {
    let table = manager.table();
    table.nodes() == 4 && table.target() == 4096 && !manager.is_stopped()
}

fn are_numbers(extents: &[ExtentId], numbers: &[u64]) -> bool {
    extents.len() == numbers.len()
        && extents
            .iter()
            .zip(numbers)
            .all(|(extent, number)| extent.0 == *number)
}

fn lists(
    manager: &Manager<MemDisk>,
    range: u64,
    kind: StreamKind,
    base: u64,
    numbers: &[u64],
) -> bool {
    let name = StreamName {
        range: RangeId(range),
        kind,
    };
    match manager.table().streams().stream(&name) {
        Some(listed) => listed.base() == base && are_numbers(listed.extents(), numbers),
        None => false,
    }
}

fn has_log(manager: &Manager<MemDisk>, range: u64) -> bool {
    let name = StreamName {
        range: RangeId(range),
        kind: StreamKind::Log,
    };
    manager.table().streams().stream(&name).is_some()
}

fn is_told_to_stop(manager: &mut Manager<MemDisk>, call: u64, keep: bool) -> bool {
    manager.stop_at(call, keep);
    manager.file().told().is_some()
}

fn stops_now(manager: &mut Manager<MemDisk>) -> bool {
    manager.stop_now();
    true
}

fn fits(alloc: Global, manager: &mut Manager<MemDisk>, event: Event) -> bool {
    match event {
        Event::Takes(from, ask, answer) => takes(
            alloc,
            manager,
            packet_of(alloc, from, ask),
            answer,
        ),
        Event::Ignores(senders, ask) => strangers::ignores(alloc, manager, senders, ask),
        Event::Decides(extent, wanted) => undecided(alloc, manager, extent) == wanted,
        Event::DecidesAt(length) => decides_at(alloc, manager, length),
        Event::HasExtent(extent, wanted) => sealed_at(manager, extent) == wanted,
        Event::WouldSealAt(wanted) => manager.sealing(ExtentId(1)) == wanted,
        Event::Runs => runs(manager),
        Event::Lists(kind, base, numbers) => lists(manager, 1, kind, base, numbers),
        Event::HasLog(range, base, numbers) => {
            lists(manager, range, StreamKind::Log, base, numbers)
        }
        Event::HasNoLog(range) => !has_log(manager, range),
        Event::IsToldToStop(call, keep) => is_told_to_stop(manager, call, keep),
        Event::StopsNow => stops_now(manager),
        Event::HasStopped => manager.is_stopped(),
        Event::IsToldNothing => manager.file().told().is_none(),
        Event::Restarts | Event::IsCopied => false,
    }
}

impl Actor for Manager<MemDisk> {
    type Event = Event;

    fn after(self, alloc: Global, event: Event) -> Option<Self> {
        let mut manager = self;
        match event {
            Event::Restarts => restarted(alloc, manager.into_disk()),
            Event::IsCopied => copied(alloc, manager),
            _ => if fits(alloc, &mut manager, event) {
                Some(manager)
            } else {
                None
            },
        }
    }
}

/// Whether a case holds of a new manager.
fn holds_of(alloc: Global, case: &[&[Event]]) -> bool {
    holds(alloc, begun(alloc), case)
}
