//! How large a run is: its nodes, its servers, the target of its extents, and how many transactions a group of the log may hold.
//!
//! This crate touches nothing. A `Setup` is within its limits (specs/Limits.antt), always: `new` makes one of all numbers that are,
//! and no other value of the type can be made.
#![tactic(auto)]

mod setup;

pub use setup::Setup;
