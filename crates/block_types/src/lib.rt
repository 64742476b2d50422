//! Blocks, groups of blocks, and the records that an actor keeps, as values.
//!
//! A block is the smallest piece that is written, a group is the blocks of one append (after Calder et al., SOSP 2011,
//! section 4), and a record is one entry of a record file (docs/FORMATS.md). This is the lowest crate: it touches memory
//! alone, no disk, no clock and no runtime, and a call takes the allocator that it may use.
//!
//! What the layers above may build on, each a clause here:
//! - `Group::new` makes the group of any texts that are one, and else says the first reason why they are none.
//! - A block has 1 to 65,536 bytes and a group 1 to 64 blocks, always: no other value of these types can be made.
//! - A copy of a block, a group or groups is the same again, and shares the bytes.
//!
//! Running out of memory is the one error that no clause limits.
#![tactic(auto)]

mod digests;
mod fault;
mod group;
mod limits;
mod record;

pub use fault::{BlockFault, GroupFault, Memory};
pub use group::{Block, Group, Groups};
pub use limits::{MAX_BLOCK, MAX_BLOCKS, MAX_GROUP, MAX_NODE, MAX_TARGET, MIN_TARGET};
pub use record::{Nodes, Record, Version};
