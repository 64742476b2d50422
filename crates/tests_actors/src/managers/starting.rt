//! Starts from a disk: after a stop, and from a copy.
use super::asking::Ask;
use super::{ASKS, CREATES, Case, Event, FREEZES, OPENS, holds_of};
use crate::answers::Answer;
use crate::senders::Sender;
use Answer::{Sends, Taken};
use Ask::{Extend, Frozen};
use Event::{
    Decides, HasExtent, HasStopped, IsCopied, IsToldNothing, IsToldToStop, Restarts, Runs,
    StopsNow, Takes, WouldSealAt,
};
use Sender::{Node, User};
use manager::ManagerFault;

/// After a restart the extent is sealed at what a place tells then.
const DECIDES_ANEW: &[Event] = &[
    Restarts,
    Runs,
    HasExtent(1, Some(None)),
    WouldSealAt(None),
    Takes(Node(2), Frozen(40), Taken),
    Decides(1, None),
    Restarts,
    HasExtent(1, Some(Some(40))),
];

/// A decision comes upon a stop, and the manager does nothing from then on.
const STOPS_INSIDE: &[Event] = &[
    Decides(1, Some(ManagerFault::DiskFailed)),
    HasStopped,
    Takes(User, Extend(Some(1), 3), Sends(0, 0)),
    Restarts,
];

const STOPS_AND_GOES_ON: &[Event] = &[
    StopsNow,
    HasStopped,
    IsToldNothing,
    Restarts,
    Runs,
    HasExtent(1, Some(None)),
];

const KNOWS_ITS_EXTENT: &[Event] = &[IsCopied, Runs, HasExtent(1, Some(None))];

const CASES: &[Case] = &[
    (
        "a decision is made anew after a restart",
        &[CREATES, OPENS, ASKS, FREEZES, DECIDES_ANEW],
    ),
    (
        "a stop leaves the records",
        &[CREATES, OPENS, STOPS_AND_GOES_ON],
    ),
    (
        "a copy of the disk has the records",
        &[CREATES, OPENS, KNOWS_ITS_EXTENT],
    ),
    (
        "a stop inside a record keeps it",
        &[
            CREATES,
            OPENS,
            ASKS,
            FREEZES,
            &[IsToldToStop(3, true)],
            STOPS_INSIDE,
            &[HasExtent(1, Some(Some(20)))],
        ],
    ),
    (
        "a stop inside a record loses it",
        &[
            CREATES,
            OPENS,
            ASKS,
            FREEZES,
            &[IsToldToStop(3, false)],
            STOPS_INSIDE,
            &[HasExtent(1, Some(None))],
        ],
    ),
];

#[test]
fn starts_again(rt: HostRuntime) {
    for (shows, parts) in CASES {
        assert!(rt; holds_of(rt.alloc(), parts), "{shows}");
    }
}
