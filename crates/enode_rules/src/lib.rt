//! What a node does with one packet about a replica that it has: the rules of its table for one extent.
//!
//! This crate touches memory and, through the steps of [`enode_replica::NodeReplica`], the node's file of records, and nothing else. It offers
//! the layer above [`handle_into`]: after a packet the replica, the record, the packets and the observations are the rule's,
//! and the record stands before a packet is handed out. Running out of memory changes nothing.
#![tactic(auto)]

mod actors;
mod appending;
mod checking;
mod primary;
mod reading;
mod rules;
mod sealing;
mod secondary;
mod sending;

pub use actors::is_manager;
pub use rules::handle_into;
pub use sending::{fill, refuse};
