//! Making of replicas, appends, and reads of what is there.
use super::asking::Ask;
use super::{Case, Event, FILLS, MAKES, formatted, holds_of, node_of};
use crate::answers::Answer;
use crate::cases::holds;
use crate::senders::Sender;
use Answer::{Fails, Gives, GivesGroups, Has, Puts, Refuses, Sends, Taken};
use Ask::{Append, Have, Make, Put, ReadAt, ReadGroups};
use Event::{HasLength, HasStopped, Restarts, Runs, Takes, TakesMany};
use Sender::{Manager, Node, User};
use disk::{MemDisk, RecordFile};
use std::alloc::Global;
use wire::Refusal;

const COMES_BACK: &[Event] = &[
    Takes(User, Append(1, 9, &["abc", "de"]), Puts(0)),
    Takes(User, Append(1, 9, &["f"]), Puts(5)),
    Restarts,
    HasLength(Some(6)),
    Runs(1),
];

const THREE_REFUSED: &[Event] = &[
    Takes(User, Append(2, 9, &["a"]), Refuses(Refusal::NoSuchExtent)),
    Takes(User, Append(1, 9, &[]), Refuses(Refusal::TooManyBlocks)),
    Takes(User, Append(1, 9, &[""]), Refuses(Refusal::BadBlock)),
    HasLength(Some(0)),
];

const STALE_BEHIND_ITS_FENCE: &[Event] = &[
    Takes(Manager, Make(3, 4096), Taken),
    Takes(User, Append(1, 9, &["a"]), Refuses(Refusal::Stale)),
];

const BUSY_AT_THE_NEXT: &[Event] = &[
    TakesMany(256, User, Append(1, 9, &["a"]), Taken),
    Takes(User, Append(1, 9, &["a"]), Refuses(Refusal::Busy)),
    HasLength(Some(256)),
];

const MAKES_AT_4096_ALONE: &[Event] = &[
    Takes(Manager, Make(0, 4095), Taken),
    HasLength(None),
    Takes(Manager, Make(0, 4096), Taken),
    Takes(User, Append(1, 9, &["a"]), Taken),
    Takes(Manager, Make(0, 4096), Taken),
    HasLength(Some(1)),
];

// The sync of the restart is the first call, and the gate of the record is opened in the fourth.
fn stopping(alloc: Global) -> Option<RecordFile<MemDisk>> {
    let mut file = formatted(alloc)?;
    file.stop_at(4, true);
    Some(file)
}

const STOPS_AND_IS_EMPTY: &[Event] = &[
    Takes(Manager, Make(0, 4096), Fails),
    HasStopped,
    Takes(User, Append(1, 9, &["a"]), Sends(0, 0)),
    Restarts,
    HasLength(Some(0)),
];

#[test]
fn stops_where_its_disk_fails(rt: HostRuntime) {
    let alloc = rt.alloc();
    let node = node_of(alloc, 1, stopping(alloc));
    assert!(rt; holds(alloc, node, &[STOPS_AND_IS_EMPTY]));
}

const GROUPS_IN_TURN: &[Event] = &[
    Takes(Node(1), Put(3, "def"), Has(0)),
    Takes(Node(1), Put(0, "abc"), Has(3)),
    Takes(Node(1), Put(0, "abc"), Has(3)),
    Takes(Node(1), Put(3, "def"), Has(6)),
    Takes(Node(3), Put(6, "ghi"), Sends(0, 0)),
    HasLength(Some(6)),
];

/// Each append that is answered is also acknowledged.
const ANSWERS_BOTH: &[Event] = &[
    Takes(Node(2), Have(6), Sends(0, 0)),
    Takes(Node(4), Have(6), Sends(0, 0)),
    Takes(Node(3), Have(5), Sends(1, 1)),
    Takes(Node(3), Have(3), Sends(0, 0)),
    Takes(Node(3), Have(6), Sends(1, 1)),
];

/// "abcde" and "fgh" in an empty replica.
const FILLS_EIGHT: &[Event] = &[
    Takes(User, Append(1, 9, &["abc", "de"]), Taken),
    Takes(User, Append(1, 9, &["fgh"]), Taken),
];

const READS_WITHIN: &[Event] = &[
    Takes(User, ReadAt(2, 4), Gives(b"cdef")),
    Takes(User, ReadAt(5, 4), Refuses(Refusal::PastEnd)),
];

const READS_GROUPS_WITHIN: &[Event] = &[
    Takes(User, ReadGroups(5, false), GivesGroups(1)),
    Takes(User, ReadGroups(6, false), Refuses(Refusal::PastEnd)),
    Takes(User, ReadGroups(8, true), Refuses(Refusal::NotSealed)),
];

const CASES: &[Case] = &[
    (
        "a node comes back from its records",
        1,
        &[MAKES, COMES_BACK],
    ),
    (
        "three appends are refused by name",
        1,
        &[MAKES, THREE_REFUSED],
    ),
    ("an old generation is refused", 1, &[STALE_BEHIND_ITS_FENCE]),
    (
        "a primary is busy with 256 waiting",
        1,
        &[MAKES, BUSY_AT_THE_NEXT],
    ),
    (
        "one replica is made, with a target within the limits",
        1,
        &[MAKES_AT_4096_ALONE],
    ),
    (
        "a secondary takes the next group alone",
        2,
        &[MAKES, GROUPS_IN_TURN],
    ),
    (
        "an append is answered when both secondaries have it",
        1,
        &[MAKES, FILLS, ANSWERS_BOTH],
    ),
    (
        "a read gives what is there",
        1,
        &[MAKES, FILLS_EIGHT, READS_WITHIN],
    ),
    (
        "groups are read up to a boundary",
        1,
        &[MAKES, FILLS_EIGHT, READS_GROUPS_WITHIN],
    ),
];

#[test]
fn appends_and_reads(rt: HostRuntime) {
    for (shows, number, parts) in CASES {
        assert!(rt; holds_of(rt.alloc(), *number, parts), "{shows}");
    }
}
