//! The table of the partition map: the ranges in the order of their keys, and what a record makes of them.
//!
//! This crate touches memory alone. It offers the table, whose ranges have each key once and whose numbers are their own at any
//! time, the change that each record makes of it, which takes no memory once there is room, the records as bytes, and the table
//! that the records of a file make. It also offers the tests of one range that the rules of the map are made of.
#![tactic(auto)]

mod entries;
mod entry;
mod key_tests;
mod pending_tests;
mod record_bytes;
mod replay;
mod table;

pub use entry::next_generation;
pub use key_tests::{is_beside, is_split_key};
pub use pending_tests::{halves_at, is_same_holder, is_split, union_with};
pub use record_bytes::encode;
pub use replay::replayed;
pub use table::RangeTable;
