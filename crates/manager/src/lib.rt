//! The stream manager: which streams there are, which extents they have on which nodes, and how extents are sealed, over
//! a file of records.
//!
//! This crate touches memory and the disk that a manager is given, through its file of records, and nothing else. It
//! offers the table of the manager exactly: after a packet or a decision the catalog, the record, the packets and the
//! observations are the rule's, the record is on the disk before a packet leaves, and while a manager runs its catalog, but
//! for what a stop drops, is what its records make. Running out of memory changes nothing.
#![tactic(auto)]

mod fault;
mod manager;
mod performing;
mod sealing;

pub use fault::ManagerFault;
pub use manager::Manager;
