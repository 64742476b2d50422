//! Runs in which one actor stops and comes back: each is honest.
use crate::requests::Ask;
use crate::runs::{Actor, EXTENDS, Run, Step, started, takes, takes_part};
use Actor::{Manager, Node};
use Ask::{Append, Content, Seal};
use Step::{Asks, AsksEach, IsHonest, MayDecide, Restarts, Settles, Stops};
use std::alloc::Global;

/// The second append is cut off from the third place, and the extent is sealed.
const SHORT: &[Step] = &[
    Asks(Node(1), Append),
    Settles(&[]),
    Asks(Node(1), Append),
    Settles(&[3]),
    Asks(Manager, Seal),
    Settles(&[]),
    MayDecide,
    Settles(&[]),
];

/// The first place alone is heard, and the others are brought to its length later.
const FILLED: &[Step] = &[
    Asks(Node(1), Append),
    Settles(&[]),
    Asks(Node(1), Append),
    Settles(&[3]),
    Asks(Manager, Seal),
    Settles(&[2, 3]),
    MayDecide,
    Settles(&[2, 3]),
    MayDecide,
    Settles(&[]),
    AsksEach(Content(6)),
    Settles(&[]),
];

/// The third place alone is heard, and the others are cut later.
const LONGER: &[Step] = &[
    Asks(Node(1), Append),
    Asks(Node(1), Append),
    Settles(&[]),
    Asks(Node(1), Append),
    Settles(&[3]),
    Asks(Manager, Seal),
    Settles(&[1, 2]),
    MayDecide,
    Settles(&[1, 2]),
    MayDecide,
    Settles(&[]),
    AsksEach(Content(6)),
    Settles(&[]),
];

/// What is done after the restart.
const AGAIN: &[Step] = &[
    Asks(Manager, Seal),
    Settles(&[]),
    MayDecide,
    Settles(&[]),
    AsksEach(Content(3)),
    AsksEach(Content(6)),
    Settles(&[]),
    MayDecide,
    Settles(&[]),
    IsHonest,
];

/// What a case shows, and what is done while an actor is stopped, or is told to stop.
const CASES: &[(&str, &[Step])] = &[
    ("an extent is sealed behind a short replica", SHORT),
    ("replicas are brought to the length of the first", FILLED),
    ("replicas are cut to the length of the third", LONGER),
];

const ACTORS: &[Actor] = &[Manager, Node(1), Node(2), Node(3)];

/// Whether a run goes as its steps say in which this actor stops in this device call, and comes back.
fn stops_once(
    alloc: Global,
    run: &mut Run,
    steps: &[Step],
    actor: Actor,
    call: u64,
    keep: bool,
) -> bool {
    takes_part(alloc, run, EXTENDS)
        && takes(alloc, run, Stops(actor, call, keep))
        && takes_part(alloc, run, steps)
        && takes(alloc, run, Restarts(actor))
        && takes_part(alloc, run, AGAIN)
}

/// Whether such a run is honest, from its start.
fn stays_honest(alloc: Global, steps: &[Step], actor: Actor, call: u64, keep: bool) -> bool {
    match started(alloc) {
        Some(run) => {
            let mut run = run;
            stops_once(alloc, &mut run, steps, actor, call, keep)
        }
        None => false,
    }
}

/// Whether each run is honest in which an actor stops in one of eight device calls.
fn stay_honest(alloc: Global, steps: &[Step]) -> bool {
    for actor in ACTORS {
        for call in 1..9 {
            for keep in [false, true] {
                if !stays_honest(alloc, steps, *actor, call, keep) {
                    return false;
                }
            }
        }
    }
    true
}

#[test]
fn stops_leave_it_honest(rt: HostRuntime) {
    for (shows, steps) in CASES {
        assert!(rt; stay_honest(rt.alloc(), steps), "{shows}");
    }
}
