//! One partition server of a run, over its starts and stops.
//!
//! This crate touches memory only. A `ServerActor` stands alone: its value is all that decides its next step, and each call is what
//! the model's server does of the same, exactly. An error is out of memory (22), and nothing has changed; that is the one error
//! that no clause limits.
#![tactic(auto)]

mod server_actor;

pub use server_actor::ServerActor;
