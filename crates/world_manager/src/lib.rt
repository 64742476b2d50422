//! The stream manager of a run: the manager on a disk in memory, which stops by a plan and comes back.
//!
//! This crate touches memory only. Each call of a `ManagerActor` is the step of the model's manager exactly, in whatever stream
//! system has it: the rule of the manager, or a stop inside the rule's record, after which the record stands or not as the disk's
//! plan says. A step that runs out of memory changes nothing.
#![tactic(auto)]

mod manager_actor;

pub use manager_actor::ManagerActor;
