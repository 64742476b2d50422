//! Checks of an open extent's length.
use super::asking::Ask;
use super::{Case, Event, FILLS, MAKES, holds_of};
use crate::answers::Answer;
use crate::senders::Sender;
use Answer::{Checks, Finds, Probes, Puts, Refuses, Sends, Taken};
use Ask::{Append, Check, Freeze, Probe, Probed, Put, Seal};
use Event::{HasFence, HasLength, Restarts, Takes};
use Sender::{Manager, Node, Server, User};
use wire::Refusal;

/// "abc" and "def" in an empty replica of a secondary.
const FOLLOWS: &[Event] = &[
    Takes(Node(1), Put(0, "abc"), Taken),
    Takes(Node(1), Put(3, "def"), Taken),
];

/// A server begins a check with generation 5.
const BEGINS: &[Event] = &[Takes(Server, Check(1, 5), Taken)];

const CHECKS_SIX: &[Event] = &[
    Takes(Server, Check(1, 5), Probes(5)),
    Takes(Node(2), Probed(5, 6), Sends(0, 0)),
    Takes(Node(3), Probed(5, 6), Checks(Some(6))),
];

const IS_PROBED: &[Event] = &[Takes(Node(1), Probe(5), Finds(5, 6)), HasFence(Some(5))];

const APPENDS_OF_THE_CHECK: &[Event] = &[
    Takes(Server, Append(1, 4, &["g"]), Refuses(Refusal::Stale)),
    Takes(Server, Append(1, 5, &["g"]), Puts(6)),
    HasLength(Some(7)),
];

const FIRST_IS_LEFT: &[Event] = &[Takes(Node(2), Probed(5, 6), Taken)];

const NO_OLDER_CHECK: &[Event] = &[
    Takes(Server, Check(1, 4), Refuses(Refusal::Stale)),
    HasFence(Some(5)),
];

const TWO_REFUSED: &[Event] = &[
    Takes(Server, Check(1, 5), Refuses(Refusal::NotPrimary)),
    Takes(Manager, Check(2, 5), Refuses(Refusal::NoSuchExtent)),
    HasFence(Some(0)),
];

/// The secondaries tell the lengths that they would be asked for, and nobody waits for them.
const TOLD_IN_VAIN: &[Event] = &[
    Takes(Node(2), Probed(5, 6), Sends(0, 0)),
    Takes(Node(3), Probed(5, 6), Sends(0, 0)),
];

const IS_FROZEN: &[Event] = &[Takes(Manager, Freeze(1), Taken)];

const NO_LENGTH_ONCE_FROZEN: &[Event] = &[
    Takes(Server, Check(1, 6), Checks(None)),
    Takes(Manager, Seal(6), Taken),
    Takes(Server, Check(1, 6), Checks(None)),
    HasFence(Some(5)),
];

const NO_COMMON_LENGTH: &[Event] = &[
    Takes(Node(2), Probed(5, 6), Sends(0, 0)),
    Takes(Node(3), Probed(5, 3), Checks(None)),
    Takes(Server, Check(1, 6), Taken),
    Takes(Node(2), Probed(6, 9), Sends(0, 0)),
    Takes(Node(3), Probed(6, 6), Checks(None)),
];

const SECONDARIES_ALONE: &[Event] = &[
    Takes(Node(2), Probed(5, 6), Taken),
    Takes(Node(3), Probed(4, 6), Sends(0, 0)),
    Takes(Node(4), Probed(5, 6), Sends(0, 0)),
    Takes(Node(3), Probed(5, 6), Checks(Some(6))),
    Takes(Node(3), Probed(5, 6), Sends(0, 0)),
];

const FENCE_ALONE: &[Event] = &[
    Takes(Server, Append(1, 4, &["g"]), Refuses(Refusal::Stale)),
    HasFence(Some(5)),
];

const PROBES_REFUSED: &[Event] = &[
    Takes(Node(3), Probe(9), Sends(0, 0)),
    Takes(Node(1), Probe(5), Taken),
    Takes(Node(1), Probe(4), Refuses(Refusal::Stale)),
    Restarts,
    HasFence(Some(5)),
    Takes(Manager, Freeze(1), Taken),
    Takes(Node(1), Probe(5), Refuses(Refusal::NotOpen)),
];

const USER_FOR_0: &[Event] = &[
    Takes(User, Check(1, 9), Probes(0)),
    Takes(Server, Check(1, 1), Taken),
    Takes(User, Check(1, 9), Refuses(Refusal::Stale)),
];

const CASES: &[Case] = &[
    (
        "a check raises the fence at the primary",
        1,
        &[MAKES, FILLS, CHECKS_SIX, &[HasFence(Some(5))]],
    ),
    (
        "a check raises the fence at the second place",
        2,
        &[MAKES, FOLLOWS, IS_PROBED],
    ),
    (
        "a check raises the fence at the third place",
        3,
        &[MAKES, FOLLOWS, IS_PROBED],
    ),
    (
        "no older append is taken after a check",
        1,
        &[MAKES, FILLS, BEGINS, APPENDS_OF_THE_CHECK],
    ),
    (
        "a second check drops the first",
        1,
        &[
            MAKES,
            FILLS,
            BEGINS,
            FIRST_IS_LEFT,
            CHECKS_SIX,
            NO_OLDER_CHECK,
        ],
    ),
    (
        "two checks are refused by name",
        2,
        &[MAKES, FOLLOWS, TWO_REFUSED],
    ),
    (
        "what takes no more groups has no length to check",
        1,
        &[
            MAKES,
            FILLS,
            BEGINS,
            IS_FROZEN,
            TOLD_IN_VAIN,
            NO_LENGTH_ONCE_FROZEN,
        ],
    ),
    (
        "three lengths that differ are none",
        1,
        &[MAKES, FILLS, BEGINS, NO_COMMON_LENGTH],
    ),
    (
        "another generation or a stranger tells nothing",
        1,
        &[MAKES, FILLS, BEGINS, SECONDARIES_ALONE],
    ),
    (
        "a stop leaves the fence and drops the check",
        1,
        &[MAKES, FILLS, BEGINS, &[Restarts], TOLD_IN_VAIN, FENCE_ALONE],
    ),
    (
        "two probes are refused by name",
        2,
        &[MAKES, FOLLOWS, PROBES_REFUSED],
    ),
    (
        "a user checks with generation 0",
        1,
        &[MAKES, FILLS, USER_FOR_0],
    ),
];

#[test]
fn checks_lengths(rt: HostRuntime) {
    for (shows, number, parts) in CASES {
        assert!(rt; holds_of(rt.alloc(), *number, parts), "{shows}");
    }
}
