//! What a range that is loaded has read of its metadata and of its log.
//!
//! This crate has no code, and touches nothing. Its lemmas are about the rules of a partition server (`model_partition`) that load a
//! range: each keeps what is said of the extents that the history of the range has, and of the job that is out. Once all is read, it
//! is the copies that the machines of both streams have the load read, of the log those from the position on that the metadata
//! names, and each extent of the log that was read was observed.
#![tactic(auto)]
