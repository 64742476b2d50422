//! Histories: what the servers of ranges see and do on their streams, as definitions.
//!
//! This crate has no code, and touches nothing. Its definitions stand in specs/, over the rules of servers that `model_partition` has,
//! and the laws of `laws_tables`, `laws_server_runs` and `laws_clusters` are proved of them:
//! - Story and Log: what the users of one stream see of it, the order that it keeps, and what servers may do to the log of a
//!   range.
//! - StreamMachine and ServerTurns: one stream as its manager, the primaries of its extents and its servers make it.
//! - StreamActions and ServerRun: what a step of a server does with its streams, and servers after whatever comes to them, over any
//!   streams.
//! - Renaming, TableContents and IndexContents: groups with their transactions, and what tables and indexes have over texts of extents.
//! - ServedTables: what is premised of the streams of a range, and what its served tables then are.
#![tactic(auto)]
