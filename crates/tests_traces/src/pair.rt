//! Two actors in cells, their trace, and a pass.
ghost use Rattle.std.specs.Prelude.{◌≡◌};

use crate::named_marks::NamedMarks;
use stamp_marks::{Identity, Marks};
use stamp_traces::{Actor, Cell, Entry, Journal, Pass, TraceFault, act};
use std::alloc::Global;
use std::sync::Wait;
use std::test::Fail;

/// Two actors in cells, their trace, and a pass. No clause says what they hold: the tests compare it as they run.
#[derive(Drop)]
pub struct Pair<A: Actor<u64, u64>, K: Identity> {
    pub marks: NamedMarks<A, K>,
    pub journal: Journal<A, u64, u64, K>,
    pub pass: Pass<u64, u64, K>,
    pub first: Cell<A, u64, u64, K>,
    pub second: Cell<A, u64, u64, K>,
}

impl<A: Actor<u64, u64>, K: Identity> Pair<A, K> {
    /// Two actors that have taken nothing, and a trace with room for so many entries.
    pub fn new(
        alloc: Global,
        marks: NamedMarks<A, K>,
        first: A,
        second: A,
        room: usize,
    ) -> Result<Pair<A, K>, Fail>
        requires first { first ≡ A.first K.numbers 0 }
        requires second { second ≡ A.first K.numbers 1 }
    {
        let mut journal = Journal::new(alloc, 2, room)?;
        let pass = journal.admit()?;
        Ok(Pair {
            marks,
            journal,
            pass,
            first: Cell::new(0, first),
            second: Cell::new(1, second),
        })
    }

    /// The reply of the first actor.
    pub fn act_first<W: Wait + AllocGlobal>(
        &mut self,
        rt: &W,
        event: u64,
    ) -> Result<u64, TraceFault> {
        let (_, reply) = act(
            &mut self.first,
            &mut self.journal,
            rt,
            self.marks.all(),
            &mut self.pass,
            event,
        )?;
        Ok(reply)
    }

    /// The reply of the second actor.
    pub fn act_second<W: Wait + AllocGlobal>(
        &mut self,
        rt: &W,
        event: u64,
    ) -> Result<u64, TraceFault> {
        let (_, reply) = act(
            &mut self.second,
            &mut self.journal,
            rt,
            self.marks.all(),
            &mut self.pass,
            event,
        )?;
        Ok(reply)
    }
}
