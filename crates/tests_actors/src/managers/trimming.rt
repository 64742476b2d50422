//! Extents that leave the front of a range's log.
use super::asking::Ask;
use super::{Case, Event, FREEZES, holds_of};
use crate::answers::Answer;
use crate::senders::Sender;
use Answer::{Fails, OpensLog, Refuses, Taken, Trims};
use Ask::{LengthenLog, Open, Trim};
use Event::{Decides, HasStopped, IsToldToStop, Lists, Restarts, Takes};
use Sender::{Server, User};
use StreamKind::{BlobData, Log};
use wire::{Refusal, StreamKind};

/// Range 1 is opened for generation 4, and its log has the sealed extent 1 and then the open extent 2.
const SERVES: &[Event] = &[
    Takes(Server, Open(1, 4), Taken),
    Takes(Server, LengthenLog(None), Taken),
];

const LENGTHENS: &[Event] = &[Decides(1, None), Takes(Server, LengthenLog(Some(1)), Taken)];

const HAS_BOTH: &[Event] = &[Lists(Log, 0, &[1, 2]), Lists(BlobData, 0, &[])];

/// Extent 1 has left, for good or for the blob stream.
const HAS_ONE: &[Event] = &[Lists(Log, 1, &[2]), Lists(BlobData, 0, &[])];

const KEEPS_ONE: &[Event] = &[Lists(Log, 1, &[2]), Lists(BlobData, 0, &[1])];

const IS_REFUSED: &[Event] = &[
    Takes(User, Trim(1, 4, 1, true), Refuses(Refusal::Stale)),
    Takes(Server, Trim(2, 4, 1, true), Refuses(Refusal::NoSuchStream)),
    Takes(Server, Trim(1, 3, 1, true), Refuses(Refusal::Stale)),
    Takes(Server, Trim(1, 5, 0, true), Refuses(Refusal::Stale)),
    Takes(Server, Trim(1, 4, 2, true), Refuses(Refusal::LastOpen)),
    Takes(Server, Trim(1, 4, 9, false), Refuses(Refusal::LastOpen)),
];

const LEAVES: &[Event] = &[Takes(Server, Trim(1, 4, 1, false), Trims)];

const IS_KEPT: &[Event] = &[Takes(Server, Trim(1, 4, 1, true), Trims)];

/// A record would stop the manager at its first call.
const WRITES_NOTHING: &[Event] = &[IsToldToStop(1, false)];

const AT_THE_BASE: &[Event] = &[Takes(Server, Trim(1, 4, 0, true), Trims)];

const TELLS_THE_BASE: &[Event] = &[Restarts, Takes(Server, Open(1, 5), OpensLog(1, 1))];

/// The record comes upon a stop, and a manager starts from the disk.
const STOPS: &[Event] = &[
    Takes(Server, Trim(1, 4, 1, true), Fails),
    HasStopped,
    Restarts,
];

/// A stop in each call of the record, which keeps the bytes of that call or not, and whether a restart has the record then.
const STOPS_IN_EACH_CALL: &[Case] = &[
    (
        "call 1, kept",
        &[
            SERVES,
            FREEZES,
            LENGTHENS,
            &[IsToldToStop(1, true)],
            STOPS,
            HAS_BOTH,
        ],
    ),
    (
        "call 1, dropped",
        &[
            SERVES,
            FREEZES,
            LENGTHENS,
            &[IsToldToStop(1, false)],
            STOPS,
            HAS_BOTH,
        ],
    ),
    (
        "call 2, kept",
        &[
            SERVES,
            FREEZES,
            LENGTHENS,
            &[IsToldToStop(2, true)],
            STOPS,
            HAS_BOTH,
        ],
    ),
    (
        "call 2, dropped",
        &[
            SERVES,
            FREEZES,
            LENGTHENS,
            &[IsToldToStop(2, false)],
            STOPS,
            HAS_BOTH,
        ],
    ),
    (
        "call 3, kept",
        &[
            SERVES,
            FREEZES,
            LENGTHENS,
            &[IsToldToStop(3, true)],
            STOPS,
            KEEPS_ONE,
        ],
    ),
    (
        "call 3, dropped",
        &[
            SERVES,
            FREEZES,
            LENGTHENS,
            &[IsToldToStop(3, false)],
            STOPS,
            HAS_BOTH,
        ],
    ),
    (
        "call 4, kept",
        &[
            SERVES,
            FREEZES,
            LENGTHENS,
            &[IsToldToStop(4, true)],
            STOPS,
            KEEPS_ONE,
        ],
    ),
    (
        "call 4, dropped",
        &[
            SERVES,
            FREEZES,
            LENGTHENS,
            &[IsToldToStop(4, false)],
            STOPS,
            HAS_BOTH,
        ],
    ),
];

const CASES: &[Case] = &[
    (
        "a trim is refused",
        &[SERVES, FREEZES, LENGTHENS, IS_REFUSED, HAS_BOTH],
    ),
    (
        "a trim at the base has no record",
        &[
            SERVES,
            FREEZES,
            LENGTHENS,
            WRITES_NOTHING,
            AT_THE_BASE,
            HAS_BOTH,
        ],
    ),
    (
        "an extent leaves for good",
        &[
            SERVES,
            FREEZES,
            LENGTHENS,
            LEAVES,
            HAS_ONE,
            WRITES_NOTHING,
            LEAVES,
            HAS_ONE,
        ],
    ),
    (
        "an extent leaves for the blob stream",
        &[
            SERVES,
            FREEZES,
            LENGTHENS,
            IS_KEPT,
            KEEPS_ONE,
            WRITES_NOTHING,
            IS_KEPT,
            KEEPS_ONE,
        ],
    ),
    (
        "a restart has a trim",
        &[
            SERVES,
            FREEZES,
            LENGTHENS,
            IS_KEPT,
            TELLS_THE_BASE,
            KEEPS_ONE,
        ],
    ),
];

#[test]
fn trims_of_a_log(rt: HostRuntime) {
    for (shows, parts) in CASES {
        assert!(rt; holds_of(rt.alloc(), parts), "{shows}");
    }
}

#[test]
fn stops_in_a_trim(rt: HostRuntime) {
    for (shows, parts) in STOPS_IN_EACH_CALL {
        assert!(rt; holds_of(rt.alloc(), parts), "{shows}");
    }
}
