//! An extent node of a run: the node on a disk in memory, which stops by a plan and comes back.
//!
//! This crate touches memory only. Each call of a `NodeActor` is the step of the model's node exactly, in whatever stream system has
//! it: the rule of the node, or a stop inside the rule's record, after which the record stands or not as the disk's plan says. A
//! step that runs out of memory changes nothing.
#![tactic(auto)]

mod node_actor;

pub use node_actor::{NodeActor, empty};
