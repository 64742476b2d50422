//! Two counters, each on a thread of its own, and one trace.
ghost use Rattle.std.specs.Prelude.{◌≡◌};

use crate::named_marks::NamedMarks;
use stamp_marks::{Identity, Marks};
use stamp_traces::{Cell, Counter, Entry, Journal, Pass, TraceFault, act};
use std::alloc::{AllocError, Global};
use std::marker::Brand;
use std::process::Abort;
use std::sync::{Mutex, Wait};
use std::test::Fail;
use std::thread::{Threads, join};

/// What threads share.
#[derive(Drop)]
struct Shared<K: Identity> {
    marks: NamedMarks<Counter, K>,
    journal: Mutex<Journal<Counter, u64, u64, K>>,
    first: Mutex<Cell<Counter, u64, u64, K>>,
    second: Mutex<Cell<Counter, u64, u64, K>>,
}

impl<K: Identity> Shared<K> {
    fn new(alloc: Global, marks: NamedMarks<Counter, K>) -> Result<Shared<K>, AllocError> {
        let journal = Journal::new(alloc, 2, 40)?;
        Ok(Shared {
            marks,
            journal: Mutex::new(journal),
            first: Mutex::new(Cell::new(0, Counter::new())),
            second: Mutex::new(Cell::new(1, Counter::new())),
        })
    }

    fn admit<W: Wait>(&self, rt: &W) -> Result<Pass<u64, u64, K>, TraceFault> {
        self.journal.lock(rt).admit()
    }

    /// A counter takes an event under its lock and the trace's.
    fn take<W: Wait + AllocGlobal>(
        &self,
        rt: &W,
        cell: &Mutex<Cell<Counter, u64, u64, K>>,
        pass: &mut Pass<u64, u64, K>,
        event: u64,
    ) -> Result<u64, TraceFault> {
        let mut cell = cell.lock(rt);
        let mut journal = self.journal.lock(rt);
        let (_, reply) = act(&mut cell, &mut journal, rt, self.marks.all(), pass, event)?;
        Ok(reply)
    }

    /// It takes some, and tells the reply to the last.
    fn take_some<W: Wait + AllocGlobal>(
        &self,
        rt: &W,
        cell: &Mutex<Cell<Counter, u64, u64, K>>,
        pass: &mut Pass<u64, u64, K>,
    ) -> Result<u64, TraceFault> {
        let mut last = 0;
        for event in 0..20 {
            last = self.take(rt, cell, pass, event)?;
        }
        Ok(last)
    }

    fn len<W: Wait>(&self, rt: &W) -> usize {
        self.journal.lock(rt).len()
    }
}

fn take_both<K: Identity + Send + Sync, R: Threads + Wait + AllocGlobal + Sync>(
    rt: &R,
    shared: &Shared<K>,
    one: &mut Pass<u64, u64, K>,
    two: &mut Pass<u64, u64, K>,
) -> (Result<u64, TraceFault>, Result<u64, TraceFault>) {
    join(
        rt,
        || shared.take_some(rt, &shared.first, one),
        || shared.take_some(rt, &shared.second, two),
    )
}

/// All events of both are in the trace.
fn at_once<K: Identity + Send + Sync, R: Threads + Wait + Abort + AllocGlobal + Sync>(
    rt: &R,
    shared: &Shared<K>,
) -> Result<(), Fail> {
    let mut one = shared.admit(rt)?;
    let mut two = shared.admit(rt)?;
    let last = take_both(rt, shared, &mut one, &mut two);
    assert_eq!(rt; last, (Ok(20), Ok(20)));
    assert_eq!(rt; shared.len(rt), 40);
    Ok(())
}

fn two_counters<K: Identity + Send + Sync, R: Threads + Wait + Abort + AllocGlobal + Sync>(
    rt: &R,
    marks: Marks<u64, Counter, Entry<u64, u64>>,
) -> Result<(), Fail>
    requires named { (marks.events ≡ K.events) × (marks.prefixes ≡ K.prefixes) }
{
    let marks = NamedMarks::<Counter, K>::new(marks);
    let shared = Shared::new(rt.alloc(), marks)?;
    at_once(rt, &shared)
}

#[test]
fn two_threads(rt: HostRuntime) -> Result<(), Fail> {
    two_counters::<Brand, _>(&rt, Marks::new(rt.alloc())?)
}
