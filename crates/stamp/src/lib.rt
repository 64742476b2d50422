//! A stamp: actors that threads share, each in a cell under a lock of its own, and the trace of what they did under another.
//!
//! This crate touches memory only, and starts no thread: any number of threads share a [`Stamp`] by a `&`. Each has a [`Pass`] of its
//! own, which stands for what it has seen of the trace, and each promise is about the pass alone: what a call answered or put there
//! stands after all that the pass had seen, and nothing is said of what other threads do meanwhile. Whatever they do, the trace is a run
//! of the model, so what it shows agrees, is kept, and, where no ranges are merged, is honest ([`Stamp::audit`], [`Stamp::finish`]).
//!
//! Each call may wait for a lock, so its promises hold if it returns. The lock order is cell, then trace: the addressee of a packet is
//! read under the lock of the trace, which is let go; then its cell is locked, the event is booked, the [`Gate`] is entered, the actor
//! steps, and the step is appended. So actors of two cells step at once. A moment is taken under the locks of the map and all servers.
//!
//! Texts of sealed extents are put on a shelf ([`Stamp::publish`]), and read there for good without a lock.
#![tactic(auto)]

mod audits;
mod deliveries;
mod endings;
mod fault;
mod gate;
mod guards;
mod handling;
mod moments;
mod requests;
mod stamp;
mod texts;
mod turns;

pub use audits::Audit;
pub use endings::FinalTrace;
pub use fault::StampFault;
pub use gate::{Gate, OpenGate};
pub use stamp::Stamp;
pub use stamp_answers::{Answer, Ticket};
pub use stamp_run::{Pass, RunEntry};
pub use texts::publish_from;
