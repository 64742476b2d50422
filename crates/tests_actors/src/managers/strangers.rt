//! What no place of an extent tells of it.
use super::asking::Ask;
use super::{ASKS, CREATES, Case, Event, FREEZES, OPENS, holds_of, packet_of, takes};
use crate::answers::Answer;
use crate::seen_bytes::{are_same, bytes_of};
use crate::senders::Sender;
use Answer::Sends;
use Ask::{Frozen, IsSealed, Short};
use Event::{Decides, DecidesAt, Ignores, Takes, WouldSealAt};
use Sender::{Manager, Map, Node, Server, User};
use disk::MemDisk;
use model_streams::{Asker, Extent, PlaceReport};
use std::alloc::Global;

type Held = manager::Manager<MemDisk>;

/// Node 4 is known, and no place of the extent.
const BUT_PLACES: &[Sender] = &[User, Server, Manager, Map, Node(4)];

const LENGTH_OF_A_PLACE: &[Event] = &[
    Ignores(BUT_PLACES, Frozen(10)),
    WouldSealAt(None),
    Takes(Node(1), Frozen(30), Sends(0, 0)),
    Ignores(BUT_PLACES, Frozen(10)),
    WouldSealAt(Some(30)),
    DecidesAt(30),
    Ignores(BUT_PLACES, Frozen(10)),
];

const SEAL_OF_A_PLACE: &[Event] = &[
    Decides(1, None),
    Ignores(BUT_PLACES, IsSealed),
    Takes(Node(2), Short(5), Sends(0, 0)),
    Takes(Node(3), IsSealed, Sends(0, 0)),
    Ignores(BUT_PLACES, Short(5)),
    Takes(Node(2), Short(5), Sends(1, 0)),
];

const CASES: &[Case] = &[
    (
        "the length of a place counts, and no other",
        &[CREATES, OPENS, ASKS, LENGTH_OF_A_PLACE],
    ),
    (
        "the seal of a place counts, and no other",
        &[CREATES, OPENS, ASKS, FREEZES, SEAL_OF_A_PLACE],
    ),
];

fn is_same_report(one: PlaceReport, other: PlaceReport) -> bool {
    one.frozen == other.frozen && one.sealed == other.sealed
}

fn is_same_asker(one: Option<Asker>, other: Option<Asker>) -> bool {
    match (one, other) {
        (None, None) => true,
        (Some(one), Some(other)) => one.who == other.who && one.request == other.request,
        _ => false,
    }
}

/// Whether extent 1 is there both times, and has the same.
fn is_same_extent(before: Option<Extent>, after: Option<Extent>) -> bool {
    match (before, after) {
        (Some(one), Some(other)) => {
            one.places == other.places
                && one.fence == other.fence
                && one.sealed == other.sealed
                && is_same_report(one.primary, other.primary)
                && is_same_report(one.second, other.second)
                && is_same_report(one.third, other.third)
                && is_same_asker(one.asker, other.asker)
        }
        _ => false,
    }
}

/// Whether nothing is sent or shown for such a packet of any of these, and neither the bytes of the manager's file nor what it has of
/// extent 1 change.
pub fn ignores(alloc: Global, manager: &mut Held, senders: &[Sender], ask: Ask) -> bool {
    for from in senders {
        let bytes = bytes_of(alloc, manager.file());
        let extent = manager.table().entry(1);
        let is_silent = takes(alloc, manager, packet_of(alloc, *from, ask), Sends(0, 0));
        let is_written = !are_same(bytes, bytes_of(alloc, manager.file()));
        if is_written || !is_silent || !is_same_extent(extent, manager.table().entry(1)) {
            return false;
        }
    }
    true
}

#[test]
fn ignores_strangers(rt: HostRuntime) {
    for (shows, parts) in CASES {
        assert!(rt; holds_of(rt.alloc(), parts), "{shows}");
    }
}
