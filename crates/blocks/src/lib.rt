//! Values as bytes: numbers, byte strings, and the records that an actor keeps (docs/FORMATS.md).
//!
//! It stands on `block_types`, which has the records as values, and touches memory alone: no disk, no clock and no runtime. A
//! call takes the allocator that it may use.
//!
//! What the layers above may build on, each a clause here:
//! - `encode` appends the one spelling of a record, or changes nothing. `weave_as` makes it with long blocks shared.
//! - `decode` answers a record and its size exactly where the first bytes are the spelling of that record, and `Damaged`
//!   only where no front of the bytes is a spelling. So does `decode_shared`, whose record shares the bytes that were read.
//! - No spelling begins another (`one_spelling`), in version 1 and in version 2 alike.
//! - `fits_all` says of a record of one version that it fits each, and `all_fit` of records.
//! - `Woven` is bytes of which the long pieces are shared. It can be put into one buffer at any time, which takes no memory (`join`).
//! - `reader` and `writer` read and write the numbers and byte strings of every other format. Their laws stand in
//!   proofs/Formats.antt, for the formats of the crates above.
//!
//! Running out of memory is the one error that no clause limits.
#![tactic(auto)]

mod measures;
pub mod reader;
mod reading;
mod shared;
mod sizes;
mod woven;
pub mod writer;
mod writing;

pub use block_types::{
    Block, BlockFault, Group, GroupFault, Groups, MAX_BLOCK, MAX_BLOCKS, MAX_GROUP, MAX_NODE,
    MAX_TARGET, MIN_TARGET, Memory, Nodes, Record, Version,
};
pub use reading::{decode, decode_as, decode_shared, one_spelling};
pub use sizes::{all_fit, fits_all};
pub use woven::Woven;
pub use writing::{encode, encode_as, weave_as};
