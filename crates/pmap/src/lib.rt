//! The partition map: which range has which keys, and which server holds it until when, over a file of records.
//!
//! This crate touches memory and the disk that a map is given, through its file of records, and nothing else. It offers the
//! rules of the map exactly: after an assignment, a renewal, a call of a split or a merge, or a packet, the ranges, the record, the
//! packets and the observations are the rule's, the record is on the disk before a packet leaves, and while a map runs its ranges
//! are what its records make. The ranges have each key once, at any time. Running out of memory changes nothing.
#![tactic(auto)]

mod caller;
mod fault;
mod partition_map;
mod performing;
mod plan;
mod planning;
mod refusing;
mod showing;

pub use caller::{Caller, KnownRange};
pub use fault::MapFault;
pub use partition_map::PartitionMap;
