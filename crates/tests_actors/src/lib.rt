//! What no clause says of a node, of the stream manager and of the partition map: that their calls succeed where there is memory,
//! and their tables followed by hand. The tests of `enode`, `manager` and `pmap` stand here, so that none is proved a second time
//! for its tests.
//!
//! A test goes through cases, each a list of events in their order. An event is a packet with the answer that is wanted, or what is seen
//! of the actor then. Cases are tables, so that a test costs the proof no more than the few functions that run them.
#![tactic(auto)]

#[cfg(test)]
mod answers;
#[cfg(test)]
mod cases;
#[cfg(test)]
mod damage;
#[cfg(test)]
mod full_disks;
#[cfg(test)]
mod managers;
#[cfg(test)]
mod map_splits;
#[cfg(test)]
mod maps;
#[cfg(test)]
mod nodes;
#[cfg(test)]
mod record_disks;
#[cfg(test)]
mod seen_bytes;
#[cfg(test)]
mod senders;
#[cfg(test)]
mod versions;
#[cfg(test)]
mod written_disks;
