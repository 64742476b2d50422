//! The records of a record file as text, a line for each.
//!
//! The crate reads a record file, or bytes that may be one, and writes lines to a writer; it touches nothing else. The lines are
//! those of docs/FORMATS.md, "Dump". No record is replayed, so that records that no actor could have kept in this order are told
//! too. What is promised: what was written is the lines of the file's records, each exactly, in order, and nothing is written
//! before all of them have been read. Both versions of a file with the same records have the same lines.
#![tactic(auto)]

mod bytes_dump;
mod dumping;
mod record_line;
#[cfg(test)]
mod tests;

pub use bytes_dump::{BytesFault, dump_bytes};
pub use dumping::{DumpFault, dump};
