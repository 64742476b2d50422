//! Streams that are built from the lists of others.
use super::asking::Ask;
use super::{Case, Event, FREEZES, holds_of, lists};
use crate::answers::Answer;
use crate::record_disks::disk_of;
use crate::senders::Sender;
use Answer::{Fails, Modifies, Refuses, Taken};
use Ask::{LengthenLog, Modify, Open};
use Event::{Decides, HasLog, HasNoLog, HasStopped, IsToldToStop, Restarts, Takes};
use Sender::{Server, User};
use disk::MemDisk;
use manager::Manager;
use std::alloc::Global;
use wire::{Refusal, StreamKind};

/// Range 1 is opened for generation 4, and its log has the open extent 1.
const SERVES: &[Event] = &[
    Takes(Server, Open(1, 4), Taken),
    Takes(Server, LengthenLog(None), Taken),
];

const SEALS: &[Event] = &[Decides(1, None)];

const AS_BEFORE: &[Event] = &[HasLog(1, 0, &[1]), HasNoLog(2), HasNoLog(3)];

const LAST_IS_OPEN: &[Event] = &[Takes(
    Server,
    Modify(&[(2, &[(1, 4)])]),
    Refuses(Refusal::LastOpen),
)];

const IS_REFUSED: &[Event] = &[
    Takes(User, Modify(&[(2, &[(1, 4)])]), Refuses(Refusal::Stale)),
    Takes(
        Server,
        Modify(&[(1, &[(1, 4)]), (2, &[])]),
        Refuses(Refusal::NoSuchStream),
    ),
    Takes(
        Server,
        Modify(&[(1, &[(1, 4)])]),
        Refuses(Refusal::NameTaken),
    ),
    Takes(
        Server,
        Modify(&[(2, &[(1, 3), (9, 4)])]),
        Refuses(Refusal::NoSuchStream),
    ),
    Takes(
        Server,
        Modify(&[(2, &[(1, 4)]), (3, &[(2, 3)])]),
        Refuses(Refusal::Stale),
    ),
    Takes(
        Server,
        Modify(&[(2, &[(1, 4)]), (2, &[(1, 4)])]),
        Refuses(Refusal::NameTaken),
    ),
];

/// Two logs are built, the second from the first and from the log of range 1.
const BUILDS: Event = Takes(
    Server,
    Modify(&[(2, &[(1, 4)]), (3, &[(2, 4), (1, 4)])]),
    Modifies,
);

const HAS_ALL: &[Event] = &[
    HasLog(1, 0, &[1]),
    HasLog(2, 0, &[1]),
    HasLog(3, 0, &[1, 1]),
];

/// The log of range 1 goes on, and the others stay as they were built.
const GOES_ON: &[Event] = &[
    Takes(Server, LengthenLog(Some(1)), Taken),
    HasLog(1, 0, &[1, 2]),
    HasLog(2, 0, &[1]),
    HasLog(3, 0, &[1, 1]),
];

/// The record comes upon a stop, and a manager starts from the disk.
const STOPS: &[Event] = &[
    Takes(
        Server,
        Modify(&[(2, &[(1, 4)]), (3, &[(2, 4), (1, 4)])]),
        Fails,
    ),
    HasStopped,
    Restarts,
];

const CASES: &[Case] = &[
    ("an open end", &[SERVES, LAST_IS_OPEN, AS_BEFORE]),
    (
        "a list is refused",
        &[SERVES, FREEZES, SEALS, IS_REFUSED, AS_BEFORE],
    ),
    (
        "streams are built",
        &[SERVES, FREEZES, SEALS, &[BUILDS], HAS_ALL, GOES_ON],
    ),
    (
        "a restart has them",
        &[SERVES, FREEZES, SEALS, &[BUILDS, Restarts], HAS_ALL],
    ),
    (
        "a stop keeps the record",
        &[
            SERVES,
            FREEZES,
            SEALS,
            &[IsToldToStop(3, true)],
            STOPS,
            HAS_ALL,
        ],
    ),
    (
        "a stop loses the record",
        &[
            SERVES,
            FREEZES,
            SEALS,
            &[IsToldToStop(3, false)],
            STOPS,
            AS_BEFORE,
        ],
    ),
];

#[test]
fn builds_streams(rt: HostRuntime) {
    for (shows, parts) in CASES {
        assert!(rt; holds_of(rt.alloc(), parts), "{shows}");
    }
}

/// The first record of a manager of four nodes.
const FIRST: &[u8] = &[1, 4, 0, 0, 16, 0];

/// The log of range 2 is built from that of range 1, whose fence is 0.
const ONE_LOG: &[u8] = &[
    7, 1, 0, 0, 0, 0, 0, 0, 0, 2, 1, 1, 0, 0, 0, 0, 0, 0, 0, 1, 1, 0, 0, 0, 0, 0, 0, 0, 0,
];

fn has_built(alloc: Global, disk: MemDisk) -> bool {
    match Manager::restart(alloc, disk) {
        Ok(manager) => lists(&manager, 2, StreamKind::Log, 0, &[]),
        Err((_fault, _disk)) => false,
    }
}

/// Whether a manager has the log of range 2 from a file of the first record and this one.
fn has_log_of(alloc: Global, text: &[u8]) -> bool {
    match disk_of(alloc, &[FIRST, text]) {
        Some(disk) => has_built(alloc, disk),
        None => false,
    }
}

#[test]
fn reads_lists(rt: HostRuntime) {
    assert!(rt; has_log_of(rt.alloc(), ONE_LOG));
}
