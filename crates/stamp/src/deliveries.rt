//! How packets are delivered.
ghost use Rattle.std.specs.Prelude.{◌≡◌, IfOk, OnErr, OnOk};
ghost use Rattle.model_streams.specs.declared.event.Event.TheVariants.{Deliver};
ghost use Rattle.stamp_run.specs.Passes.{Delivers, PutsEvent};
ghost use Rattle.stamp.specs.Handling.{PutsAt};

use crate::fault::StampFault;
use crate::gate::Gate;
use crate::guards::{append, step_booked};
use crate::stamp::{RunCell, Stamp};
use stamp_marks::Identity;
use stamp_run::{Booked, Opening, Pass};
use std::sync::Wait;
use world_actors::actor_of;

impl<G: Gate + Drop, K: Identity> Stamp<G, K> {
    /// Delivers the packet of a number, counted from 0 in the order in which packets were sent; it may be delivered again, and in any
    /// order. Where there is no such packet, the pass has seen that; else the delivery stands in the trace, after all that the pass had
    /// seen. 52 where the addressee has stopped, or the pass is not of this stamp, else 50 where the trace has no room for one event and
    /// 2,048 packets, else 22 where there was no memory. Then the pass is as it was, and the trace has no event more.
    pub fn deliver<W: Wait + AllocGlobal>(
        &self,
        rt: &W,
        pass: &mut Pass<K>,
        number: usize,
    ) -> Result<(), StampFault>
        ensures ok { OnOk result (Delivers number pass.old.sight pass.new.sight) }
        ensures answered { pass.new.answered ≡ pass.old.answered }
        ensures err { OnErr result (pass.new ≡ pass.old) }
    {
        let opening = self
            .trace
            .lock(rt)
            .open_delivery(rt, &self.run, pass, number)?;
        match opening {
            Opening::Done => Ok(()),
            Opening::At(actor) => self.deliver_to(rt, pass, actor, number),
        }
    }

    /// Delivers the packet of a number to the actor of a number, which takes it.
    fn deliver_to<W: Wait + AllocGlobal>(
        &self,
        rt: &W,
        pass: &mut Pass<K>,
        actor: usize,
        number: usize,
    ) -> Result<(), StampFault>
        ensures ok { OnOk result (PutsEvent pass.old.sight (Deliver number) pass.new.sight) }
        ensures answered { pass.new.answered ≡ pass.old.answered }
        ensures err { OnErr result (pass.new ≡ pass.old) }
    {
        let Some(lock) = self.cells.get(actor) else {
            return Err(StampFault::Stopped);
        };
        let mut cell = lock.lock(rt);
        if cell.actor().is_stopped() {
            return Err(StampFault::Stopped);
        }
        let booked = self
            .trace
            .lock(rt)
            .book_delivery(rt, &self.run, pass, actor, number)?;
        self.gate.enter(actor_of(self.run.setup(), actor));
        match self.act(rt, &mut cell, pass, booked) {
            Ok(_place) => Ok(()),
            Err(fault) => Err(fault),
        }
    }

    /// Has the actor of a cell take what was booked for it, appends that to the trace, and answers its place there.
    pub(crate) fn act<W: Wait + AllocGlobal>(
        &self,
        rt: &W,
        cell: &mut RunCell<K>,
        pass: &mut Pass<K>,
        booked: Booked<K>,
    ) -> Result<usize, StampFault>
        ensures puts { IfOk result (PutsAt pass.old.sight booked.event pass.new.sight) }
        ensures answered { pass.new.answered ≡ pass.old.answered }
        ensures err { OnErr result (pass.new ≡ pass.old) }
    {
        match step_booked(cell, rt.alloc(), &self.run, booked) {
            Ok(stepped) => {
                let mut trace = self.trace.lock(rt);
                append(cell, &mut trace, &self.run, pass, stepped)
            }
            Err(fault) => {
                self.trace.lock(rt).unbook(cell.number());
                Err(StampFault::from(fault))
            }
        }
    }
}
