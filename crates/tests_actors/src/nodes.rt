//! Cases of extent nodes.
mod appending;
mod asking;
mod checking;
mod failing_disks;
mod sealing;
mod strangers;

use crate::answers::{Answer, comes_to};
use crate::cases::{Actor, holds};
use crate::senders::{Sender, actor_of};
use asking::{Ask, body_of};
use disk::{MemDisk, RecordFile};
use enode::{Node, NodeFault};
use std::alloc::Global;
use wire::{ActorId, ExtentId, Packet, Step};

/// What happens to a node, or what is seen of it.
#[derive(Clone, Copy)]
pub enum Event {
    /// It takes a packet of this sender, and its step comes to this answer.
    Takes(Sender, Ask, Answer),
    /// It takes so many such packets, one after the other.
    TakesMany(u32, Sender, Ask, Answer),
    /// Such a packet of any of these senders changes nothing, and nothing is sent or shown.
    Ignores(&'static [Sender], Ask),
    /// The length of its replica of extent 1, if it has one.
    HasLength(Option<u32>),
    /// The fence of its replica of extent 1, if it has one.
    HasFence(Option<u64>),
    /// It has this number and has not stopped.
    Runs(u8),
    HasStopped,
    /// A node of the same number starts from its disk in its place.
    Restarts,
}

/// What a case shows, the number of its node, and its parts.
type Case = (&'static str, u8, &'static [&'static [Event]]);

/// The body of the record of a replica of extent 1, under fence 0.
pub const MADE: &[u8] = b"\x01\0\0\0\0\0\0\0\x01\0\0\0\0\0\0\0\0\0\0\x10\0\x01\x02\x03";

/// A replica of extent 1 with no groups.
const MAKES: &[Event] = &[Event::Takes(Sender::Manager, Ask::Make(0, 4096), Answer::Taken)];

/// "abc" and "def" in an empty replica of the primary.
const FILLS: &[Event] = &[
    Event::Takes(Sender::User, Ask::Append(1, 9, &["abc"]), Answer::Taken),
    Event::Takes(Sender::User, Ask::Append(1, 9, &["def"]), Answer::Taken),
];

// These calls pass no contract on, so that a test is proved from what it reads alone.
fn started(alloc: Global, number: u8, disk: MemDisk) -> Option<Node<MemDisk>> {
    match Node::restart(alloc, number, disk) {
        Ok(node) => Some(node),
        Err((_fault, _disk)) => None,
    }
}

fn formatted(alloc: Global) -> Option<RecordFile<MemDisk>> {
    match RecordFile::format(MemDisk::new(alloc)) {
        Ok(file) => Some(file),
        Err((_fault, _disk)) => None,
    }
}

/// An append of "abc" to extent 1 of node 1.
pub fn append_of(alloc: Global) -> Option<Packet> {
    let Ok(body) = body_of(alloc, Ask::Append(1, 9, &["abc"])) else {
        return None;
    };
    Some(Packet {
        from: actor_of(Sender::User),
        to: ActorId::Node(1),
        body,
    })
}

fn handled(
    node: &mut Node<MemDisk>,
    alloc: Global,
    from: Sender,
    ask: Ask,
) -> Result<Step, NodeFault> {
    let Ok(body) = body_of(alloc, ask) else {
        return Err(NodeFault::Memory);
    };
    let packet = Packet {
        from: actor_of(from),
        to: ActorId::Node(node.number()),
        body,
    };
    node.handle(alloc, &packet)
}

fn takes(
    alloc: Global,
    node: &mut Node<MemDisk>,
    times: u32,
    from: Sender,
    ask: Ask,
    answer: Answer,
) -> bool {
    for _ in 0..times {
        if !comes_to(handled(node, alloc, from, ask), answer) {
            return false;
        }
    }
    true
}

fn length(node: &Node<MemDisk>) -> Option<u32> {
    match node.replica(ExtentId(1)) {
        Some(replica) => Some(replica.len()),
        None => None,
    }
}

fn fence(node: &Node<MemDisk>) -> Option<u64> {
    match node.replica(ExtentId(1)) {
        Some(replica) => Some(replica.fence()),
        None => None,
    }
}

fn fits(alloc: Global, node: &mut Node<MemDisk>, event: Event) -> bool {
    match event {
        Event::Takes(from, ask, answer) => takes(alloc, node, 1, from, ask, answer),
        Event::TakesMany(times, from, ask, answer) => takes(alloc, node, times, from, ask, answer),
        Event::Ignores(senders, ask) => strangers::ignores(alloc, node, senders, ask),
        Event::HasLength(wanted) => length(node) == wanted,
        Event::HasFence(wanted) => fence(node) == wanted,
        Event::Runs(number) => node.number() == number && !node.is_stopped(),
        Event::HasStopped => node.is_stopped(),
        Event::Restarts => false,
    }
}

impl Actor for Node<MemDisk> {
    type Event = Event;

    fn after(self, alloc: Global, event: Event) -> Option<Self> {
        let mut node = self;
        match event {
            Event::Restarts => started(alloc, node.number(), node.into_disk()),
            _ => if fits(alloc, &mut node, event) {
                Some(node)
            } else {
                None
            },
        }
    }
}

/// The node of this number that a file of records makes.
fn node_of(alloc: Global, number: u8, file: Option<RecordFile<MemDisk>>) -> Option<Node<MemDisk>> {
    started(alloc, number, file?.into_disk())
}

/// Whether a case holds of a new node of this number.
fn holds_of(alloc: Global, number: u8, case: &[&[Event]]) -> bool {
    holds(alloc, node_of(alloc, number, formatted(alloc)), case)
}
