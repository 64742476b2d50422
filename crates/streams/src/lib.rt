//! Streams: named lists of extents, with fences (after Calder et al., SOSP 2011, section 4.1).
//!
//! This crate touches memory only. It offers a table of streams that is exactly a function from names to streams:
//! making a stream, opening the four streams of a range for a generation, adding an extent at an end, letting extents
//! leave the front of a log (`trim`), building streams from the lists of others (`multi_modify`), finding the extent of an index, and listing what has left a stream and stands in
//! none (`garbage`). Each change says what it makes of that function, and a refusal leaves it as it was. To find a
//! stream takes a search among the names, to find an extent in it takes no more, and to trim costs what leaves.
#![tactic(auto)]

mod building;
mod entries;
mod fault;
mod fences;
mod garbage;
mod listed;
mod table;
mod trimming;

pub use fault::StreamFault;
pub use listed::Listed;
pub use table::{Position, StreamTable};
