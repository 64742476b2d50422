//! How a worker delivers what no other worker does.
ghost use Rattle.std.specs.Prelude.{◌≡◌};
ghost use Rattle.stamp.specs.Turns.{IsTurn, WorksFor};

use crate::gate::Gate;
use crate::stamp::Stamp;
use stamp_marks::Identity;
use stamp_run::Pass;
use std::sync::Wait;
use std::thread;

/// What a turn came to.
#[derive(Clone, Copy, Debug, PartialEq, Eq)]
enum Turn {
    /// There was no packet that no turn had taken.
    Idle,
    Delivered,
    /// The delivery was refused, and no turn takes the packet again.
    Lost,
}

impl<G: Gate + Drop, K: Identity> Stamp<G, K> {
    /// Delivers packets, in so many turns: each takes the lowest number of a packet that no turn has taken, whosever, and delivers that
    /// packet. A turn that finds none leaves the processor to others. A refused delivery loses its packet to the workers, though
    /// not to [`Stamp::deliver`]; the answer is how many were lost.
    pub fn work<W: Wait + AllocGlobal>(&self, rt: &W, pass: &mut Pass<K>, turns: u64) -> u64
        ensures works { WorksFor turns result pass.old.sight pass.new.sight }
        ensures answered { pass.new.answered ≡ pass.old.answered }
    {
        let mut lost = 0;
        for _turn in 0..turns {
            match self.take_turn(rt, pass) {
                Turn::Idle => thread::yield_now(),
                Turn::Delivered => {}
                Turn::Lost => lost += 1,
            }
        }
        lost
    }

    /// Delivers the packet of the lowest number that no turn has taken, if there is one.
    fn take_turn<W: Wait + AllocGlobal>(&self, rt: &W, pass: &mut Pass<K>) -> Turn
        ensures turn { IsTurn result pass.old.sight pass.new.sight }
        ensures answered { pass.new.answered ≡ pass.old.answered }
    {
        let taken = self.trace.lock(rt).take_number();
        match taken {
            None => Turn::Idle,
            Some(number) => match self.deliver(rt, pass, number) {
                Ok(()) => Turn::Delivered,
                Err(_refused) => Turn::Lost,
            },
        }
    }
}
