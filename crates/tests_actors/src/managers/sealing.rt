//! Streams of a user, their extents, and how these are sealed.
use super::asking::Ask;
use super::{ASKS, CREATES, Case, Event, FREEZES, OPENS, holds_of};
use crate::answers::Answer;
use crate::senders::Sender;
use Answer::{Names, Refuses, Sends, Tells};
use Ask::{Create, Extend, IsSealed, SealExtent, Short};
use Event::{Decides, DecidesAt, HasExtent, Runs, Takes, WouldSealAt};
use Sender::{Node, User};
use manager::ManagerFault;
use wire::Refusal;

const ONE_STREAM: &[Event] = &[
    Runs,
    Takes(User, Extend(None, 3), Refuses(Refusal::NoSuchStream)),
    Takes(User, Create(9), Refuses(Refusal::Stale)),
    Takes(User, Create(0), Sends(1, 0)),
    Takes(User, Create(0), Refuses(Refusal::NameTaken)),
];

const ONE_EXTENT: &[Event] = &[
    Takes(User, Extend(None, 5), Refuses(Refusal::BadPick)),
    Takes(User, Extend(None, 3), Names(4, 1)),
    Takes(User, Extend(Some(1), 3), Refuses(Refusal::LastOpen)),
    Takes(User, Extend(None, 3), Names(1, 1)),
];

const ASKS_THREE_PLACES: &[Event] = &[
    Takes(User, SealExtent(2), Refuses(Refusal::NoSuchExtent)),
    Takes(User, SealExtent(1), Sends(6, 0)),
];

const SEALS_AT_20: &[Event] = &[
    WouldSealAt(Some(20)),
    DecidesAt(20),
    HasExtent(1, Some(Some(20))),
    WouldSealAt(None),
    Takes(User, SealExtent(1), Tells(20)),
    Takes(User, Extend(Some(1), 3), Names(4, 2)),
];

const ASKS_FOR_A_TAIL: &[Event] = &[
    Decides(1, None),
    Takes(Node(3), IsSealed, Sends(0, 0)),
    Takes(Node(2), Short(5), Sends(1, 0)),
];

const NO_DECISION: &[Event] = &[
    Decides(2, Some(ManagerFault::NoSuchExtent)),
    Decides(1, Some(ManagerFault::NoReply)),
    HasExtent(1, Some(None)),
    HasExtent(2, None),
    HasExtent(0, None),
    Runs,
];

const CASES: &[Case] = &[
    ("one stream is made", &[ONE_STREAM]),
    ("a stream is extended by one extent", &[CREATES, ONE_EXTENT]),
    (
        "three places are asked to freeze",
        &[CREATES, OPENS, ASKS_THREE_PLACES],
    ),
    (
        "an extent is sealed at the least length",
        &[CREATES, OPENS, ASKS, FREEZES, SEALS_AT_20],
    ),
    (
        "a short replica is sent a tail",
        &[CREATES, OPENS, ASKS, FREEZES, ASKS_FOR_A_TAIL],
    ),
    ("decisions are refused", &[CREATES, OPENS, NO_DECISION]),
];

#[test]
fn streams_of_a_user(rt: HostRuntime) {
    for (shows, parts) in CASES {
        assert!(rt; holds_of(rt.alloc(), parts), "{shows}");
    }
}
