//! An actor of a run as one value, whichever it is: a node, the manager, the map or a server.
//!
//! This crate touches memory only. Its one promise is of steps ([`RunActor`] as an actor of the crate `stamp_traces`): whatever
//! cluster has the actor that was, what the event makes of that cluster in the model has the actor that is, sends and shows what the
//! step does, and has all other actors as they were. So actors may step apart from each other, each on a thread of its own, and a
//! list of their steps is still a run of the model. Actors have numbers: the nodes from 0 on, then the manager, the map and the
//! servers; [`place_of`] and [`takers_of`] say which.
#![tactic(auto)]

mod actor_input;
mod manager_steps;
mod map_steps;
mod node_steps;
mod numbers;
mod run_actor;
mod server_steps;
mod start;
mod takers;

pub use actor_input::ActorInput;
pub use numbers::{actor_of, count, place_of};
pub use run_actor::RunActor;
pub use start::first;
pub use takers::takers_of;
