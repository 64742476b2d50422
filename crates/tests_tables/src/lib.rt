//! What no clause of the crates of one range, of its load and of a server says: that their calls succeed where there is memory, and their
//! refusals followed by hand. They stand here, so that no crate is proved a second time for its tests.
//!
//! A test goes through cases, each a list of steps in their order. A step is a call with what is wanted of it, or what is known
//! then. Cases are tables, so that a test costs the proof no more than the few functions that run them.
#![tactic(auto)]

#[cfg(test)]
mod asking;
#[cfg(test)]
mod cases;
#[cfg(test)]
mod checkpoints;
#[cfg(test)]
mod gets;
#[cfg(test)]
mod groups;
#[cfg(test)]
mod jobs;
#[cfg(test)]
mod loads;
#[cfg(test)]
mod merges;
#[cfg(test)]
mod ranges;
#[cfg(test)]
mod records;
#[cfg(test)]
mod replays;
#[cfg(test)]
mod splits;
#[cfg(test)]
mod strangers;
#[cfg(test)]
mod waiting_gets;
