//! The laws of the stream layer, over every schedule: what the network loses, repeats and reorders, what users and servers
//! ask, and where nodes and the manager stop and come back, never makes two observations of an extent disagree, and never
//! lets a lower generation add to an extent after the length that a higher one was answered; and no answer tells its asker
//! what was not so.
//!
//! This crate has no code, and touches nothing. Its lemmas prove of the tables of the actors, as the crate `model_streams` defines
//! them, what holds of the observations of every run. The crate `laws` states them as contracts, and the crates that run the
//! actors cite them.
#![tactic(auto)]
