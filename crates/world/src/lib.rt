//! Runs of events over real actors: extent nodes and the stream manager on disks in memory, partition servers, and the map.
//!
//! This crate touches memory only. The network of a run is the list of all packets that were sent, and an event has one
//! of them delivered, or a user send one more. After each event the run is what the model makes of its cluster, exactly:
//! the stream layer, the servers, the map and the clock. A step that runs out of memory changes nothing.
//!
//! An `Observation` is what the actors note as they step, `wire::Note` under the name that callers of runs use; they are one
//! type. `check` finds the first observation that breaks the two laws of honest runs, and takes no memory; `check_indexed`
//! answers the same sooner on long lists.
#![tactic(auto)]

mod cluster;
mod running;
mod whole;

pub use model_streams::Event;
pub use running::Run;
pub use whole::run;
pub use wire::Note as Observation;
pub use world_checker::{check, check_indexed};
pub use world_streams::{Setup, WorldFault};
