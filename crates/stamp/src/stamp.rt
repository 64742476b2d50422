//! A stamp.
ghost use Rattle.std.specs.Prelude.{◌≡◌, [], IfOk, length};
ghost use Rattle.world_actors.specs.Numbers.{count_of, numbers_of};

use crate::fault::StampFault;
use crate::gate::Gate;
use shelf::Shelf;
use stamp_marks::{Identity, Marks};
use stamp_run::{Pass, RunEntry, RunMarks, Trace};
use stamp_traces::Cell;
use std::alloc::{AllocError, Global};
use std::marker::Model;
use std::sync::{Mutex, Wait};
use world_actors::{ActorInput, RunActor, count, first};
use world_setup::Setup;
use world_steps::ActorStep;

/// The cell of an actor of a run.
pub(crate) type RunCell<K> = Cell<RunActor, ActorInput, ActorStep, K>;

/// The actors of a setup, each in a cell under a lock of its own, the trace of what they did under another, and a shelf of texts.
/// Threads share it by a `&`. Its value is its shelf.
pub struct Stamp<G: Gate + Drop, K: Identity> {
    pub(crate) run: RunMarks<K>,
    pub(crate) gate: G,
    pub(crate) cells: Vec<Mutex<RunCell<K>>>,
    pub(crate) trace: Mutex<Trace<K>>,
    pub(crate) shelf: Shelf,
}

// Written out, so that a crate above that lets one go has no proof of what is in it.
impl<G: Gate + Drop, K: Identity> Drop for Stamp<G, K> {
    fn drop(self) {
        let Stamp {
            run: _,
            gate: _,
            cells: _,
            trace: _,
            shelf: _,
        } = self;
    }
}

impl<G: Gate + Drop, K: Identity> Model for Stamp<G, K> {
    ghost use Rattle.std.specs.Prelude.{◌≡◌, length};
    ghost use Rattle.boxcar.specs.Table.{Shelves, shelves_coded};
    ghost use Rattle.world_actors.specs.Numbers.{count_of};

    ghost Value = { Shelves };

    ghost coded = { shelves_coded };

    ghost view = { λ s. s.shelf };

    ghost invariant = { λ s. length s.cells.items ≡ count_of K.numbers };
}

/// The cells of the actors of a setup, by their numbers. An error is out of memory (22).
fn cells<K: Identity>(alloc: Global, setup: &Setup) -> Result<Vec<Mutex<RunCell<K>>>, AllocError>
    requires { numbers_of setup.now ≡ K.numbers }
    ensures { IfOk result (λ v. length v.items ≡ count_of (numbers_of setup.now)) }
{
    let mut cells = Vec::with_capacity(alloc, count(setup))?;
    for number in 0..count(setup) {
        let actor = first(alloc, setup, number)?;
        cells.push(Mutex::new(Cell::new(number, actor)))?;
    }
    Ok(cells)
}

impl<G: Gate + Drop, K: Identity> Stamp<G, K> {
    /// The actors of a setup, with nothing on their disks, and a trace in which nothing has happened, with room for so many events
    /// and packets. 22 where there was no memory for them.
    pub fn new(
        alloc: Global,
        marks: Marks<ActorInput, RunActor, RunEntry>,
        setup: &Setup,
        gate: G,
        events: usize,
        packets: usize,
    ) -> Result<Stamp<G, K>, StampFault>
        requires named { (marks.events ≡ K.events) × (marks.prefixes ≡ K.prefixes) }
        requires numbers { numbers_of setup.now ≡ K.numbers }
    {
        let cells = cells(alloc, setup)?;
        let trace = Trace::new(alloc, setup, events, packets)?;
        let shelf = Shelf::new(alloc)?;
        Ok(Stamp {
            run: RunMarks::new(marks, setup),
            gate,
            cells,
            trace: Mutex::new(trace),
            shelf,
        })
    }

    /// A pass for a thread of its own, which has seen nothing and was answered nothing. 22 where there was no memory for one more.
    pub fn pass<W: Wait>(&self, rt: &W) -> Result<Pass<K>, StampFault>
        ensures { IfOk result (λ p. (p.sight.seen ≡ []) × (p.answered ≡ [])) }
    {
        let admitted = self.trace.lock(rt).admit();
        match admitted {
            Ok(pass) => Ok(pass),
            Err(fault) => Err(StampFault::from(fault)),
        }
    }

    /// The trace, with the marks and the setup; all else is let go.
    pub(crate) fn into_trace(self) -> (RunMarks<K>, Trace<K>) {
        let Stamp {
            run,
            gate: _,
            cells: _,
            trace,
            shelf: _,
        } = self;
        (run, trace.into_inner())
    }

    /// The shelf on which texts are published.
    pub fn shelf(&self) -> &Shelf
        ensures { result.now ≡ self.now }
    {
        &self.shelf
    }
}
