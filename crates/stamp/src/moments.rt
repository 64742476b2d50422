//! How the clock shows a moment.
ghost use Rattle.std.specs.Prelude.{◌≡◌, IfOk, OnErr};
ghost use Rattle.model_streams.specs.declared.event.Event.TheVariants.{Moment};
ghost use Rattle.stamp.specs.Handling.{PutsAt};
ghost use Rattle.stamp.specs.Moments.{IsMomentOf};

use crate::fault::StampFault;
use crate::gate::Gate;
use crate::guards::{append_moment, tick};
use crate::stamp::Stamp;
use stamp_marks::Identity;
use stamp_run::{BookedMoment, Pass};
use std::sync::Wait;

impl<G: Gate + Drop, K: Identity> Stamp<G, K> {
    /// Shows a moment to the map and all servers at once, the stopped ones too, and answers its place in the trace.
    pub(crate) fn show<W: Wait + AllocGlobal>(
        &self,
        rt: &W,
        pass: &mut Pass<K>,
        now: u64,
    ) -> Result<usize, StampFault>
        ensures puts { IfOk result (PutsAt pass.old.sight (Moment now) pass.new.sight) }
        ensures answered { pass.new.answered ≡ pass.old.answered }
        ensures err { OnErr result (pass.new ≡ pass.old) }
    {
        let booked = self.trace.lock(rt).book_moment(rt, &self.run, pass, now)?;
        let first = usize::from(self.run.setup().nodes) + 1;
        match self.show_from(rt, pass, now, first, booked) {
            Ok(place) => Ok(place),
            Err(fault) => {
                self.trace.lock(rt).unbook_moment();
                Err(fault)
            }
        }
    }

    /// Shows a moment to the actors from a number on, and holds the lock of each until the moment stands in the trace.
    fn show_from<W: Wait + AllocGlobal>(
        &self,
        rt: &W,
        pass: &mut Pass<K>,
        now: u64,
        at: usize,
        booked: BookedMoment<K>,
    ) -> Result<usize, StampFault>
        requires moment { IsMomentOf K.numbers now booked.moment }
        requires logged { booked.logged ≡ Moment now }
        ensures puts { IfOk result (PutsAt pass.old.sight (Moment now) pass.new.sight) }
        ensures answered { pass.new.answered ≡ pass.old.answered }
        ensures err { OnErr result (pass.new ≡ pass.old) }
    {
        let Some(lock) = self.cells.get(at) else {
            return self.append_shown(rt, pass, now, booked);
        };
        let mut cell = lock.lock(rt);
        match tick(&mut cell, &self.run, now, booked) {
            Ok(booked) => match self.show_from(rt, pass, now, at + 1, booked) {
                Ok(place) => Ok(place),
                Err(fault) => {
                    cell.stop();
                    Err(fault)
                }
            },
            Err(fault) => Err(fault),
        }
    }

    /// Appends a moment that was shown to all, and answers its place.
    fn append_shown<W: Wait + AllocGlobal>(
        &self,
        rt: &W,
        pass: &mut Pass<K>,
        now: u64,
        booked: BookedMoment<K>,
    ) -> Result<usize, StampFault>
        requires moment { IsMomentOf K.numbers now booked.moment }
        requires logged { booked.logged ≡ Moment now }
        ensures puts { IfOk result (PutsAt pass.old.sight (Moment now) pass.new.sight) }
        ensures answered { pass.new.answered ≡ pass.old.answered }
        ensures err { OnErr result (pass.new ≡ pass.old) }
    {
        let mut trace = self.trace.lock(rt);
        append_moment(&mut trace, rt.alloc(), &self.run, pass, now, booked)
    }
}
