//! The partition map of a run: the map on a disk in memory, which stops by a plan and comes back.
//!
//! This crate touches memory only. A `MapActor` stands alone: its value is all that decides its next step, and each call is the step of the model's cluster exactly: the rule of the map, or a
//! stop inside the rule's record, after which the record stands or not as the disk's plan says. A step that runs out of memory
//! changes nothing.
#![tactic(auto)]

mod map_actor;

pub use map_actor::MapActor;
