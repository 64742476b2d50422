//! Laws of tables, and of the streams that they are loaded from.
//!
//! This crate has no code, and touches nothing. The crate `laws` states lemmas of it as the contracts of two functions:
//! - `streams_keep_order`: whatever is late, lost or repeated, and whoever seals, what the loads of one stream show keeps the
//!   order that the story of a stream promises (`KeepsOrder`), and they end in the order of their generations (`EndsRise`); and a
//!   stream that was built of another's keeps its order and its source's (`KeepsSource`).
//! - `tables_replay`: over such streams, whatever servers fold into indexes, trim or split off, each load of a range shows its
//!   table after every transaction that was acknowledged under an earlier generation, in order, each once (`ChainReplays`; of
//!   all that is observed of the first range, and of all ranges that splits made of it, `Replays`). What its servers do is a run
//!   (`specs/Runs.antt`), and ranges that splits made are a family (`specs/Families.antt`). Each Get that a family answers shows
//!   the table after every transaction that was acknowledged so far (`specs/Reads.antt`).
#![tactic(auto)]
