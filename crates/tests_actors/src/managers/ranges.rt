//! Streams of ranges, which a server opens for a generation.
use super::asking::Ask;
use super::{Case, Event, FREEZES, holds_of};
use crate::answers::Answer;
use crate::senders::Sender;
use Answer::{Confirms, Names, Opens, Refuses, Taken};
use Ask::{Confirm, Lengthen, Open};
use Event::{Decides, Restarts, Takes};
use Sender::{Server, User};
use wire::Refusal;

/// Range 1 is opened for generation 4, with one open extent.
const SERVES: &[Event] = &[
    Takes(Server, Open(1, 4), Taken),
    Takes(Server, Lengthen(4, None, 3), Taken),
];

/// The extent of that range is sealed.
const SEALS: &[Event] = &[Decides(1, None)];

const RANGE_1: &[Event] = &[
    Takes(Server, Open(1, 4), Opens(0, None)),
    Takes(Server, Open(1, 4), Refuses(Refusal::Stale)),
    Takes(Server, Open(2, 4), Refuses(Refusal::NoSuchStream)),
    Takes(User, Open(1, 9), Refuses(Refusal::Stale)),
];

const TWO_EXTENTS: &[Event] = &[
    Takes(Server, Lengthen(4, Some(1), 3), Taken),
    Takes(Server, Open(1, 6), Opens(2, Some(20))),
];

const GENERATION_4_ALONE: &[Event] = &[
    Takes(Server, Confirm(1, 4), Confirms),
    Takes(Server, Confirm(1, 3), Refuses(Refusal::Stale)),
    Takes(Server, Confirm(2, 4), Refuses(Refusal::NoSuchStream)),
    Takes(User, Confirm(1, 4), Refuses(Refusal::Stale)),
];

const EXTENDS_FOR_GENERATION_4: &[Event] = &[
    Takes(Server, Lengthen(3, Some(1), 3), Refuses(Refusal::Stale)),
    Takes(Server, Lengthen(4, Some(1), 3), Refuses(Refusal::LastOpen)),
    Takes(Server, Lengthen(4, None, 3), Names(1, 1)),
    Takes(User, Lengthen(4, Some(1), 3), Refuses(Refusal::Stale)),
    Takes(Server, Lengthen(4, Some(1), 3), Refuses(Refusal::LastOpen)),
];

const THREE_NODES: &[Event] = &[
    Takes(Server, Lengthen(0, None, 5), Refuses(Refusal::BadPick)),
    Takes(Server, Lengthen(0, None, 2), Refuses(Refusal::BadPick)),
    Takes(Server, Lengthen(0, None, 4), Names(4, 1)),
];

const KEEPS_FENCES: &[Event] = &[
    Restarts,
    Takes(Server, Open(1, 4), Refuses(Refusal::Stale)),
    Takes(Server, Confirm(1, 4), Confirms),
    Takes(Server, Lengthen(4, Some(1), 3), Names(4, 2)),
];

const CASES: &[Case] = &[
    ("a range is opened", &[RANGE_1]),
    (
        "an opened range is told its extents",
        &[SERVES, FREEZES, SEALS, TWO_EXTENTS],
    ),
    ("a generation is confirmed", &[SERVES, GENERATION_4_ALONE]),
    (
        "a stream is extended for its generation",
        &[SERVES, EXTENDS_FOR_GENERATION_4],
    ),
    ("three nodes are picked", &[THREE_NODES]),
    (
        "a restart keeps the fences",
        &[SERVES, FREEZES, SEALS, KEEPS_FENCES],
    ),
];

#[test]
fn streams_of_ranges(rt: HostRuntime) {
    for (shows, parts) in CASES {
        assert!(rt; holds_of(rt.alloc(), parts), "{shows}");
    }
}
