//! The smallest actor, and what the promise of a trace comes to where steps are a function.
ghost use Rattle.std.specs.Prelude.{◌≡◌, ◌+◌, OnOk, length};
ghost use Rattle.stamp_traces.specs.Traces.{events_of_actor};

use crate::actor::Actor;
use crate::cell::Cell;
use crate::entry::Entry;
use crate::fault::TraceFault;
use crate::guards::act;
use crate::journal::Journal;
use crate::pass::Pass;
use stamp_marks::{Identity, Marks};
use std::alloc::Global;
use std::sync::Wait;

/// An actor that counts its events, and replies how many there were.
#[derive(Drop)]
pub struct Counter {
    pub count: u64,
}

impl Actor<u64, u64> for Counter {
    ghost use Rattle.std.specs.Prelude.{◌≡◌, ◌+◌};

    ghost first = { λ ns n. record { count = 0 } };

    ghost goes = { λ s e t r. (t.count ≡ s.count + 1) × (r ≡ t.count) };

    fn step(&mut self, _alloc: Global, _event: &u64) -> Result<u64, TraceFault> {
        if self.count == u64::MAX {
            return Err(TraceFault::Full);
        }
        self.count += 1;
        Ok(self.count)
    }
}

impl Counter {
    /// A counter that has counted nothing.
    pub fn new() -> Counter
        ensures { result ≡ record { count = 0 } }
    {
        Counter { count: 0 }
    }
}

/// Has a counter take an event; it has counted exactly those that the trace has of it.
pub fn count<K: Identity, W: Wait + AllocGlobal>(
    cell: &mut Cell<Counter, u64, u64, K>,
    journal: &mut Journal<Counter, u64, u64, K>,
    rt: &W,
    marks: &Marks<u64, Counter, Entry<u64, u64>>,
    pass: &mut Pass<u64, u64, K>,
    event: u64,
) -> Result<(u64, u64), TraceFault>
    requires named { (marks.now.events ≡ K.events) × (marks.now.prefixes ≡ K.prefixes) }
    ensures found { OnOk result (cell.old.actor.count ≡ length (events_of_actor cell.old.number journal.old.entries)) }
    ensures counted { OnOk result (cell.new.actor.count ≡ cell.old.actor.count + 1) }
{
    act(cell, journal, rt, marks, pass, event)
}
