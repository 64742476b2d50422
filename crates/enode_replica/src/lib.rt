//! One replica at its node: every change of it that is kept is written down before it is made.
//!
//! This crate touches memory and the node's file of records that a call is handed, and nothing else: no packet, no other
//! replica. It offers the layers above a replica with what a stop drops, and its steps. A step that a record keeps takes
//! all its memory first, writes the record, and changes the replica only once the record stands; an error leaves the
//! replica as it was. [`NodeReplica::recover`] takes the same records back, one by one.
#![tactic(auto)]

mod node_replica;
mod phases;
mod recording;
mod recovery;
mod waiting;
mod writing;

pub use node_replica::NodeReplica;
pub use phases::{is_frozen, is_open, is_sealed};
pub use waiting::Waiting;
