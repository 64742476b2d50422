//! The trace of a run, and what is done on its lent guard.
//!
//! This crate touches memory only, takes no lock and starts no thread. A [`Trace`] keeps what happened in a run, in order, on whichever
//! thread: a legal list of entries (`laws_traces`), all packets that were sent, what the log has of each entry, and the first answer to
//! each request. It is never otherwise than legal: what an actor did is appended where the actor stood in the state in which the earlier
//! entries leave it ([`commit`]), an event that no actor takes by [`TraceOf::note_request`] and [`TraceOf::open_delivery`], and a moment
//! by [`TraceOf::append_moment`]. Room for an entry, its packets and its line of the log is booked before an actor acts, so that none of
//! these can fail for want of memory when it is too late.
//!
//! A [`Pass`] is what one thread, which is one user, knows of the trace: a prefix of it, and what it was answered.
#![tactic(auto)]

mod asked;
mod audits;
mod booked;
mod booked_moment;
mod bookings;
mod deliveries;
mod log_entry;
mod logged_event;
mod moments;
mod opening;
mod planned;
mod records;
mod run_marks;
mod run_pass;
mod run_types;
mod seen;
mod steps;
mod trace;
mod untaken;

pub use booked::{Announcement, BookedFor};
pub use booked_moment::BookedMomentOf;
pub use log_entry::LogEntry;
pub use logged_event::LoggedEvent;
pub use opening::Opening;
pub use run_marks::{MarksOf, RunEntry};
pub use run_pass::Pass;
pub use run_types::{Booked, BookedMoment, RunMarks, Trace};
pub use steps::commit;
pub use trace::TraceOf;
