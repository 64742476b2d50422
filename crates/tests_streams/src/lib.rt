//! What no clause says of the parts of the stream layer: that calls succeed where there is memory, and that spellings are those of
//! docs/FORMATS.md. The tests of `block_types`, `blocks`, `disk`, `wire`, `replica`, `streams` and `world_checker` stand here, so that none
//! of these is proved a second time for its tests.
//!
//! A case is a list of events in their order, each with what is wanted of it. Cases are tables, so that a test costs the proof no
//! more than the few functions that run them.
#![tactic(auto)]

#[cfg(test)]
mod built_streams;
#[cfg(test)]
mod cases;
#[cfg(test)]
mod ends;
#[cfg(test)]
mod groups;
#[cfg(test)]
mod honesty;
#[cfg(test)]
mod long_texts;
#[cfg(test)]
mod named_streams;
#[cfg(test)]
mod record_files;
#[cfg(test)]
mod refusals;
#[cfg(test)]
mod replicas;
#[cfg(test)]
mod shared_pieces;
#[cfg(test)]
mod spellings;
#[cfg(test)]
mod trimmed_logs;
#[cfg(test)]
mod versions;
