//! Freezing, sealing, and tails.
use super::asking::Ask;
use super::{Case, Event, FILLS, MAKES, holds_of};
use crate::answers::Answer;
use crate::senders::Sender;
use Answer::{Freezes, IsSealed, IsShort, Refuses, Sends, SendsTail, Taken};
use Ask::{Append, Freeze, Put, Seal, SendTail, Tail};
use Event::{HasLength, Restarts, Takes};
use Sender::{Manager, Node, User};
use wire::Refusal;

const FROZEN_BY_THE_MANAGER: &[Event] = &[
    Takes(User, Freeze(1), Sends(0, 0)),
    Takes(Manager, Freeze(1), Freezes(6)),
    Restarts,
    Takes(Manager, Freeze(1), Freezes(6)),
    Takes(User, Append(1, 9, &["a"]), Refuses(Refusal::NotOpen)),
];

const NO_GROUP_ONCE_FROZEN: &[Event] = &[
    Takes(Manager, Freeze(1), Freezes(0)),
    Takes(Node(1), Put(0, "abc"), Refuses(Refusal::NotOpen)),
    HasLength(Some(0)),
];

const IS_CUT: &[Event] = &[
    Takes(Manager, Seal(4), Refuses(Refusal::PastEnd)),
    Takes(Manager, Seal(3), IsSealed),
    Restarts,
    Takes(Manager, Seal(3), IsSealed),
    Takes(Manager, Seal(6), Refuses(Refusal::NotOpen)),
    HasLength(Some(3)),
];

const IS_FILLED: &[Event] = &[
    Takes(Node(2), Tail(6), Sends(0, 0)),
    Takes(Manager, Seal(9), IsShort(6)),
    Takes(Node(2), Tail(7), Sends(0, 0)),
    Takes(Node(4), Tail(6), Sends(0, 0)),
    HasLength(Some(6)),
    Takes(Node(2), Tail(6), IsSealed),
    Restarts,
    HasLength(Some(9)),
];

const SENDS_ITS_TAIL: &[Event] = &[
    Takes(Manager, SendTail(3), Refuses(Refusal::NotSealed)),
    Takes(Manager, Seal(6), Taken),
    Takes(Manager, SendTail(4), Refuses(Refusal::PastEnd)),
    Takes(Manager, SendTail(3), SendsTail(3, 6)),
];

const TELLS_THE_MANAGER: &[Event] = &[
    Takes(Manager, Freeze(2), Refuses(Refusal::NoSuchExtent)),
    Takes(User, Freeze(2), Sends(0, 0)),
];

const CASES: &[Case] = &[
    (
        "a freeze survives a restart",
        1,
        &[MAKES, FILLS, FROZEN_BY_THE_MANAGER],
    ),
    (
        "a frozen secondary takes no group",
        2,
        &[MAKES, NO_GROUP_ONCE_FROZEN],
    ),
    ("a longer replica is cut", 1, &[MAKES, FILLS, IS_CUT]),
    ("a shorter replica is filled", 1, &[MAKES, FILLS, IS_FILLED]),
    (
        "the tail of a sealed replica is sent",
        1,
        &[MAKES, FILLS, SENDS_ITS_TAIL],
    ),
    (
        "the manager alone is told that there is no extent",
        1,
        &[MAKES, TELLS_THE_MANAGER],
    ),
];

#[test]
fn freezes_and_seals(rt: HostRuntime) {
    for (shows, number, parts) in CASES {
        assert!(rt; holds_of(rt.alloc(), *number, parts), "{shows}");
    }
}
