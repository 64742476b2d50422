//! The metadata of a range: its records as values and as bytes, and what they say together.
//!
//! A range has a metadata stream, each record of which is one block (docs/FORMATS.md). This crate touches memory alone.
//! What the layers above may build on, each a clause here:
//! - `encode` answers the one spelling of a record; `decode` answers a record exactly where the bytes are its spelling, and
//!   `Damaged` only where they are none. No two records have one spelling (`one_spelling`).
//! - `Metadata::fold` takes each number once, in order, and does with it what its kind says: the keys, the indexes and the
//!   regions of the log that are still to be applied.
//!
//! Running out of memory is the one error that no clause limits.
#![tactic(auto)]

mod fold;
mod lists;
mod reading;
mod record;
mod writing;

pub use fold::{Metadata, copied_indexes, copied_keys, copied_regions};
pub use lists::{IndexRanges, Regions};
pub use reading::{decode, flag_of, one_spelling};
pub use record::{IndexRange, KeyRange, MetaItem, MetaRecord, Region};
pub use writing::encode;
