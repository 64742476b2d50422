//! The transactions that wait at a range, in groups: which of them are appended together, and what follows once they are.
//!
//! The queue is one list, whose front is the group that is out, so that a group is formed and is done without moving a
//! transaction. This crate touches memory alone, and answers what is to be sent and shown; it sends nothing.
//! What the layers above may build on, each a clause here:
//! - `Queue` holds at most 1,024 transactions, each of which a record may hold, and what is out is one record.
//! - `form` answers the group of those that wait and are not out, each encoded once, and one more at most.
//! - `plan` answers exactly the group that is formed next, whatever is out, and `begin` takes it, with the next numbers.
//! - `acknowledge` and `changes` answer what the group that is out commits and leaves, in order, and `finish` drops it.
//! - `change_fault` answers the first reason why changes are refused, and what it lets pass a record may hold.
//!
//! Running out of memory is the one error that no clause limits.
#![tactic(auto)]

mod answering;
mod faults;
mod forming;
mod placing;
mod queue;

pub use faults::change_fault;
pub use forming::{Plan, form};
pub use queue::{MAX_WAITING, Queue};
