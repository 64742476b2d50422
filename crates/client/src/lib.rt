//! What a partition server does as a client of the stream layer: it opens the streams of a range for a load, checks and
//! reads their extents, has its generation confirmed, and appends, over every loss, repeat and delay of packets (after
//! Calder et al., SOSP 2011, section 4.3).
//!
//! This crate touches memory only. Each call is a step of a table: from what the server knows and the answer that came, to
//! what it knows then and the packet that it sends. It offers that table exactly. A load counts only once its generation is
//! confirmed, and an append that is tried again is the same group under a new number.
#![tactic(auto)]

mod appending;
mod client;
mod content;
mod fault;
mod job;
mod known;
mod load;
mod pending;
mod replies;
mod sending;

pub use appending::Appending;
pub use client::StreamClient;
pub use fault::ClientFault;
pub use job::{Job, News, Place, Reaction};
pub use load::{LoadPhase, RangeLoad};
