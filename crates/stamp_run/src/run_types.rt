//! What is generic in its actors, over those of a run.
use crate::booked::BookedFor;
use crate::booked_moment::BookedMomentOf;
use crate::run_marks::MarksOf;
use crate::trace::TraceOf;
use world_actors::RunActor;

/// The marks of a run and its setup.
pub type RunMarks<K> = MarksOf<RunActor, K>;

/// What happened in a run, in order, on the actors of a setup.
pub type Trace<K> = TraceOf<RunActor, K>;

/// What is booked for an event of an actor of a run.
pub type Booked<K> = BookedFor<RunActor, K>;

/// A moment that is booked in a run.
pub type BookedMoment<K> = BookedMomentOf<RunActor, K>;
