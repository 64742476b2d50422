//! The marks of a run, with its setup.
ghost use Rattle.std.specs.Prelude.{◌≡◌};
ghost use Rattle.world_actors.specs.Numbers.{numbers_of};

use stamp_marks::{Identity, Marks};
use stamp_traces::{Entry, Timed};
use std::marker::{Model, PhantomData};
use world_actors::ActorInput;
use world_setup::Setup;
use world_steps::ActorStep;

/// An entry of the trace of a run.
pub type RunEntry = Entry<ActorInput, ActorStep>;

/// The marks of a run and its setup, those that the identity names.
#[derive(Drop)]
pub struct MarksOf<A: Timed<ActorInput, ActorStep>, K: Identity> {
    marks: Marks<ActorInput, A, RunEntry>,
    setup: Setup,
    of: PhantomData<K>,
}

impl<A: Timed<ActorInput, ActorStep>, K: Identity> Model for MarksOf<A, K> {
    ghost use Rattle.std.specs.Prelude.{◌≡◌};
    ghost use Rattle.world_setup.specs.declared.setup.Setup.{Setup};
    ghost use Rattle.world_actors.specs.Numbers.{numbers_of};

    ghost Value = { Setup };

    ghost view = { λ r. r.setup };

    ghost invariant = { λ r. (r.marks.events ≡ K.events) × (r.marks.prefixes ≡ K.prefixes) × (numbers_of r.setup ≡ K.numbers) };
}

impl<A: Timed<ActorInput, ActorStep>, K: Identity> MarksOf<A, K> {
    /// These marks, and this setup.
    pub fn new(marks: Marks<ActorInput, A, RunEntry>, setup: &Setup) -> MarksOf<A, K>
        requires named { (marks.events ≡ K.events) × (marks.prefixes ≡ K.prefixes) }
        requires numbers { numbers_of setup.now ≡ K.numbers }
        ensures { result ≡ setup.now }
    {
        MarksOf {
            marks,
            setup: *setup,
            of: PhantomData,
        }
    }

    /// The marks.
    pub fn marks(&self) -> &Marks<ActorInput, A, RunEntry>
        ensures named { (result.now.events ≡ K.events) × (result.now.prefixes ≡ K.prefixes) }
    {
        &self.marks
    }

    /// The setup.
    pub fn setup(&self) -> &Setup
        ensures setup { result.now ≡ self.now }
        ensures numbers { numbers_of result.now ≡ K.numbers }
    {
        &self.setup
    }
}
