//! What one step of an actor comes to, the same for nodes, the manager, the map and servers.
//!
//! This crate touches memory only. An `ActorStep` has the packets that are sent, the observations of extents and those of tables,
//! each in order, and why the call was refused, if it was.
#![tactic(auto)]

mod actor_step;

pub use actor_step::ActorStep;
