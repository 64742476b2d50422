//! Packets whose sender is not the one of whom the node takes them.
use super::asking::Ask;
use super::{Case, Event, FILLS, MAKES, handled, holds_of};
use crate::answers::{Answer, comes_to};
use crate::seen_bytes::{are_same, bytes_of};
use crate::senders::Sender;
use Answer::{Checks, Finds, Freezes, Has, IsSealed, Probes, Refuses, Sends, SendsTail, Taken};
use Ask::{Check, Freeze, Have, Make, Probe, Probed, Put, Seal, SendTail, Tail};
use Event::{HasFence, HasLength, Ignores, Takes};
use Sender::{Manager, Map, Node, Server, User};
use disk::MemDisk;
use replica::{Phase, Replica};
use std::alloc::{AllocError, Global};
use wire::{ExtentId, Refusal};

type Held = enode::Node<MemDisk>;

const BUT_THE_MANAGER: &[Sender] = &[User, Server, Map, Node(1), Node(2), Node(4)];

const BUT_THE_PRIMARY: &[Sender] = &[User, Server, Manager, Map, Node(2), Node(3), Node(4)];

const BUT_SECONDARIES: &[Sender] = &[User, Server, Manager, Map, Node(1), Node(4)];

const BUT_PLACES: &[Sender] = &[User, Server, Manager, Map, Node(4)];

const MADE_BY_THE_MANAGER: &[Event] = &[
    Ignores(BUT_THE_MANAGER, Make(0, 4096)),
    Ignores(BUT_THE_MANAGER, Freeze(1)),
    Ignores(BUT_THE_MANAGER, Seal(0)),
    Ignores(BUT_THE_MANAGER, SendTail(0)),
    HasLength(None),
    Takes(Manager, Freeze(1), Refuses(Refusal::NoSuchExtent)),
    Takes(Manager, Make(0, 4096), Sends(0, 0)),
    HasLength(Some(0)),
];

const PUT_BY_THE_PRIMARY: &[Event] = &[
    Ignores(BUT_THE_PRIMARY, Put(0, "abc")),
    Takes(Node(1), Put(0, "abc"), Has(3)),
    Ignores(BUT_THE_PRIMARY, Put(3, "def")),
    HasLength(Some(3)),
];

const PROBED_BY_THE_PRIMARY: &[Event] = &[
    Ignores(BUT_THE_PRIMARY, Probe(5)),
    HasFence(Some(0)),
    Takes(Node(1), Probe(5), Finds(5, 0)),
    Ignores(BUT_THE_PRIMARY, Probe(6)),
    HasFence(Some(5)),
];

/// Were a stranger heard as the third place, the second place's word would be enough.
const HAD_BY_SECONDARIES: &[Event] = &[
    Ignores(BUT_SECONDARIES, Have(6)),
    Takes(Node(2), Have(6), Sends(0, 0)),
    Ignores(BUT_SECONDARIES, Have(6)),
    Takes(Node(3), Have(6), Sends(2, 2)),
];

const TOLD_BY_SECONDARIES: &[Event] = &[
    Takes(Server, Check(1, 5), Probes(5)),
    Ignores(BUT_SECONDARIES, Probed(5, 6)),
    Takes(Node(2), Probed(5, 6), Sends(0, 0)),
    Ignores(BUT_SECONDARIES, Probed(5, 3)),
    Takes(Node(3), Probed(5, 6), Checks(Some(6))),
];

/// What waits is answered, so it was not dropped.
const OPEN_TO_THE_MANAGER: &[Event] = &[
    Ignores(BUT_THE_MANAGER, Freeze(1)),
    Ignores(BUT_THE_MANAGER, Seal(3)),
    Ignores(BUT_THE_MANAGER, Seal(9)),
    Ignores(BUT_THE_MANAGER, SendTail(0)),
    Takes(Node(2), Have(6), Sends(0, 0)),
    Takes(Node(3), Have(6), Sends(2, 2)),
];

const SEALED_BY_THE_MANAGER: &[Event] = &[
    Takes(Manager, Freeze(1), Freezes(6)),
    Ignores(BUT_THE_MANAGER, Freeze(1)),
    Ignores(BUT_THE_MANAGER, Seal(3)),
    Takes(Manager, Seal(3), IsSealed),
    Ignores(BUT_THE_MANAGER, Freeze(1)),
    Ignores(BUT_THE_MANAGER, Seal(3)),
    Ignores(BUT_THE_MANAGER, SendTail(0)),
    Takes(Manager, SendTail(0), SendsTail(0, 3)),
];

const FILLED_BY_A_PLACE: &[Event] = &[
    Takes(Manager, Freeze(1), Taken),
    Ignores(BUT_PLACES, Tail(6)),
    HasLength(Some(6)),
    Takes(Node(2), Tail(6), IsSealed),
    HasLength(Some(9)),
];

const CASES: &[Case] = &[
    (
        "the manager makes a replica, and nobody else",
        1,
        &[MADE_BY_THE_MANAGER],
    ),
    (
        "the primary puts, and nobody else",
        2,
        &[MAKES, PUT_BY_THE_PRIMARY],
    ),
    (
        "the primary probes, and nobody else",
        2,
        &[MAKES, PROBED_BY_THE_PRIMARY],
    ),
    (
        "secondaries have a group, and nobody else",
        1,
        &[MAKES, FILLS, HAD_BY_SECONDARIES],
    ),
    (
        "secondaries tell a length, and nobody else",
        1,
        &[MAKES, FILLS, TOLD_BY_SECONDARIES],
    ),
    (
        "the manager freezes and seals, and nobody else",
        1,
        &[MAKES, FILLS, OPEN_TO_THE_MANAGER, SEALED_BY_THE_MANAGER],
    ),
    (
        "places send a tail, and nobody else",
        1,
        &[MAKES, FILLS, FILLED_BY_A_PLACE],
    ),
];

/// Adds the phase of a replica, its fence and its text.
fn add_replica(alloc: Global, seen: &mut Vec<u8>, replica: &Replica) -> Result<(), AllocError> {
    seen.push(match replica.state() {
        Phase::Open => 0,
        Phase::Frozen => 1,
        Phase::Sealed => 2,
    })?;
    seen.extend_from_slice(&replica.fence().to_be_bytes())?;
    let text = replica.bytes(alloc, 0, replica.len())?;
    seen.extend_from_slice(&text)
}

/// All that is seen of a node: the bytes of its file, and its replica of extent 1.
fn seen_of(alloc: Global, node: &Held) -> Result<Vec<u8>, AllocError> {
    let mut seen = bytes_of(alloc, node.file())?;
    if let Some(replica) = node.replica(ExtentId(1)) {
        add_replica(alloc, &mut seen, replica)?;
    }
    Ok(seen)
}

/// Whether nothing is sent or shown for such a packet of any of these, and nothing that is seen of the node changes.
pub fn ignores(alloc: Global, node: &mut Held, senders: &[Sender], ask: Ask) -> bool {
    for from in senders {
        let before = seen_of(alloc, node);
        let is_silent = comes_to(handled(node, alloc, *from, ask), Sends(0, 0));
        if !are_same(before, seen_of(alloc, node)) || !is_silent {
            return false;
        }
    }
    true
}

#[test]
fn ignores_strangers(rt: HostRuntime) {
    for (shows, number, parts) in CASES {
        assert!(rt; holds_of(rt.alloc(), *number, parts), "{shows}");
    }
}
