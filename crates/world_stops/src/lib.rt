//! What becomes of a record file whose actor stops in it, beside the model's actor.
//!
//! This crate touches memory only. Its definitions stand in specs/Plan, the plan of an actor's disk where the model's actor is to
//! stop, and in specs/LastRecord, what the record leaves that an actor stops in. Its lemmas say what a rule's record leaves of the
//! file and of the model's actor: it stands, or the actor stops in it, and then it stands or not as both plans say. `world_nodes`,
//! `world_manager` and `world_map` use them.
#![tactic(auto)]

mod last_record;

pub use last_record::{stands, unsent};
