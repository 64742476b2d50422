//! What no clause says of the crates on which threads stand: that calls succeed where there is memory, and that actors step on two
//! threads. The tests of `stamp_answers`, `world_copies`, `world_actors` and `stampctl_settings` stand here, so that none of these is
//! proved a second time for its tests.
#![tactic(auto)]

#[cfg(test)]
mod actors;
#[cfg(test)]
mod answers;
#[cfg(test)]
mod copies;
#[cfg(test)]
mod settings;
