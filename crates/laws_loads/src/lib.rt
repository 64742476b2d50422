//! What a load makes of the log that it reads: the line of its groups, and the table of that line.
//!
//! This crate has no code, and touches nothing. Its lemmas are about the definitions of `model_partition` alone, where each extent
//! has some bytes: the groups that a load reads of an extent leave its memory table saying what the transactions of their line
//! leave (`Replaying`), the rows that a Loaded shows are that table (`Rows`), and what is proved of the order of groups of blocks
//! holds of the transactions that they spell (`Renaming`).
#![tactic(auto)]
