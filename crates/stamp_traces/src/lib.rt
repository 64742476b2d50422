//! Actors in cells, each under a lock of its own, and one legal trace of what they did, under another.
//!
//! This crate touches memory only, and takes no lock itself: each call is made on what a guard lends. It offers one promise, for
//! any actor whose steps are as a relation says: an event is appended to the trace only where its actor stood in the state in which
//! the trace's earlier events leave it ([`commit`], [`act`]). Cell and trace share no fact; each keeps a token of the actor's
//! history, and an event is appended where the two have one index. Where they differ, nothing is appended, and the cell stays
//! stopped for good.
//!
//! A [`Pass`] is what one thread knows of the trace: a prefix of it. Whatever a pass puts there stands after all that it had seen.
//!
//! Several actors take one event as a moment, all or nothing ([`Journal::book_moment`], [`Cell::tick`], [`Journal::append_moment`]).
#![tactic(auto)]

mod actor;
mod additions;
mod bookings;
mod cell;
mod cell_step;
mod counter;
mod entry;
mod fault;
mod guards;
mod journal;
mod moment_booking;
mod moment_step;
mod moments;
mod pass;
mod passes;
mod places;
mod takers;

pub use actor::{Actor, Timed};
pub use bookings::EventBooking;
pub use cell::Cell;
pub use cell_step::CellStep;
pub use counter::{Counter, count};
pub use entry::Entry;
pub use fault::TraceFault;
pub use guards::{act, commit};
pub use journal::Journal;
pub use moment_booking::MomentBooking;
pub use moment_step::MomentStep;
pub use pass::Pass;
pub use takers::Takers;
