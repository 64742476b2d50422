//! One extent node: its replicas, its file of records, and what it does with a packet.
//!
//! This crate touches memory and the disk that a node is given, through its file of records, and nothing else. It
//! offers the table of a node exactly: after a packet the replicas, the record, the packets and the observations are
//! the rule's, the record is on the disk before a packet leaves, and while a node runs its replicas, but for what a
//! stop drops, are what its records make of them. Running out of memory changes nothing.
#![tactic(auto)]

mod absent;
mod extents;
mod fault;
mod making;
mod node;
mod recovery;
mod rules;

pub use enode_replica::Waiting;
pub use fault::NodeFault;
pub use node::Node;
