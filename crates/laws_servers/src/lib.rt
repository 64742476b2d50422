//! The laws of the stream layer, below servers and the map.
//!
//! This crate has no code, and touches nothing. Its lemmas prove of the table of a server (`model_partition`) that a server asks
//! only what servers may ask, and else tells what no node takes; so each event of a run with servers is some moves of the
//! stream layer, and what holds of all moves (`laws_streams`) holds of that run. A step of a split uses at most the number of the
//! server's next request, and waits for answers under no other new one (`SplitNumbers`). The crate `laws` states the rest as the
//! contracts of two functions:
//! - `servers_take_steps`: what a step of a server sends, also one of the splits and the merges that it carries (`MergeSteps`), and the
//!   one table that it may show as loaded.
//! - `runs_are_moves`: runs with servers, and that all that they show of extents is honest.
#![tactic(auto)]
