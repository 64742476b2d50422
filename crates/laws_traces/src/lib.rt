//! The laws of the trace that threads keep of a run.
//!
//! This crate has no code that runs, and touches nothing. Actors that step apart from each other, each on a thread of its own, are seen
//! by one trace: a list of entries, each an event with its reply. [`traces_lead`] says that a legal trace (specs/Traces.antt) is a run of
//! the model, so that what is proved of runs holds of it, and [`traces_grow`] how one more entry keeps it legal. The crate `stamp`, which
//! keeps such a trace, cites the lemmas that prove them (`Reaching`, `Observations` and `Growing`).
//!
//! The proof is by induction on the entries, from any cluster that has the actors before them (`EntrySteps`). Where one actor takes an
//! event, its step says what comes of it in every cluster that has the actor. A moment is shown to the map and all servers at once
//! (`Moments`). An event that no actor takes is for a user or for one who is not there, and changes nothing but for the packet of a
//! request (`Untaken`), since an absent node never runs (`Sizes`).
#![tactic(auto)]

mod traces;

pub use traces::{traces_grow, traces_lead};
