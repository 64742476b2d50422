//! The stream layer of a run: real extent nodes and the stream manager, on disks in memory, which may stop inside any device
//! call and come back.
//!
//! This crate touches memory only. The network of a run is the list of all packets that were sent, and an event has one
//! of them delivered, or a user send one more. After each event the layer is what the model makes of its stream system, exactly:
//! the packets, the observations, the replicas of each node and the manager's catalog. A step that runs out of memory changes
//! nothing.
#![tactic(auto)]

mod calls;
mod fault;
mod nodes;
mod observations;
mod post;
mod showing;
mod stream_layer;

pub use fault::WorldFault;
pub use stream_layer::StreamLayer;
pub use world_setup::Setup;
