//! What a load of a range makes of the groups that it reads: what its metadata says, and what its log changes.
//!
//! This crate touches memory alone, and keeps nothing: its calls leave what they are given, and answer new values. What the
//! layers above may build on, each a clause here:
//! - `folded` folds the records of an extent's groups, each number once, in order.
//! - `replayed` replays the groups of an extent: each region takes, from its own next number on, what stands from its start to
//!   its end, within its keys and the range's.
//! - Both take all of an extent, or for damage (21) or running out of memory (22) none.
//!
//! Running out of memory is the one error that no clause limits.
#![tactic(auto)]

mod groups;
mod reading;
mod regions;

pub use groups::replayed;
pub use reading::folded;
pub use regions::open_region;
