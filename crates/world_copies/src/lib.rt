//! Packets, their bodies and events, once more: exact copies.
//!
//! This crate touches memory only. A copy is the same value exactly and shares its payload, and there is no copied request of a
//! body that users may not ask: `request` answers `None` for it. An error is out of memory (22), the one that no clause limits.
#![tactic(auto)]

mod append_bodies;
mod bodies;
mod events;
mod map_bodies;
mod modifies;
mod packets;
mod read_bodies;
mod requests;
mod seal_bodies;
mod stream_bodies;
mod stream_lists;
mod table_bodies;

pub use bodies::body;
pub use events::event;
pub use packets::packet;
pub use requests::{is_append, is_read, is_request, is_seal, request};
