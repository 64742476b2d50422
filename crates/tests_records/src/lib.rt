//! What no clause of the formats of tables and of a server's client says: that their calls succeed where there is memory, and
//! bytes written by hand. They stand here, so that no crate is proved a second time for its tests.
#![tactic(auto)]

#[cfg(test)]
mod checkpoints;
#[cfg(test)]
mod client_steps;
#[cfg(test)]
mod clients;
#[cfg(test)]
mod groups;
#[cfg(test)]
mod logs;
#[cfg(test)]
mod metadata_records;
#[cfg(test)]
mod pages;
#[cfg(test)]
mod range_loads;
#[cfg(test)]
mod tables;
#[cfg(test)]
mod values;
