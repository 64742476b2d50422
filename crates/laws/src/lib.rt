//! The laws, each the contract of a function with no body.
//!
//! This crate has no code that runs, and touches nothing. It says in one place what is proved of the tables of the actors; the
//! lemmas that prove it stand in the crates `laws_streams`, `laws_tables`, `laws_servers`, `laws_clusters` and `laws_records`, and the
//! crates that run the actors cite those:
//! - `extents`: what is shown of extents never disagrees, fences never fall, each answer tells what was so, lists only grow.
//! - `tables`: the loads of a stream keep their order, and over such a log what is loaded replays, and what Gets are shown is served.
//! - `clusters`: a server asks only what servers may ask, each event of a run is moves of the stream layer, and what a run
//!   without merges shows replays.
//! - `records`: each record that a restart takes is one that its actor writes.
#![tactic(auto)]

pub mod clusters;
pub mod extents;
pub mod records;
pub mod tables;
