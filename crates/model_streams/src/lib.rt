//! The tables of the actors and whole runs, as definitions: what each actor does with a packet, as a function of its
//! state, what the network may deliver, and what the observations of a run owe to those who see them.
//!
//! This crate has no code but the plain values that states and events are made of, and touches nothing. The actors' crates
//! prove that their calls are these functions, and the laws of whole runs are proved of the functions alone.
#![tactic(auto)]

mod checking;
mod event;
mod extent;
mod manager_record;
mod waiting_append;

pub use checking::Checking;
pub use event::Event;
pub use extent::{Asker, Extent, PlaceReport};
pub use manager_record::ManagerRecord;
pub use waiting_append::WaitingAppend;
