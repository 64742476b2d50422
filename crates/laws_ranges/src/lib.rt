//! What a partition server does with a range, as turns on the streams of the range.
//!
//! This crate has no code, and touches nothing. Its lemmas lead from the rules of a server (`model_partition`) to the turns of one
//! incarnation of the range on the machines of its metadata and of its log: each rule that is treated here makes turns that are
//! allowed, asks what those turns ask, under numbers that were not used, and leaves the range standing where they lead. What
//! servers see of it, as actions on both streams, adds to their stories what those turns add to the stories of the machines.
//! While a range is split, the steps of its split are turns of the same incarnation, on its own streams and on the metadata of the
//! two ranges that the split makes.
#![tactic(auto)]
