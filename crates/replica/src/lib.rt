//! One replica of an extent, as typed states.
//!
//! This crate touches memory only: no disk, no packet. A replica is seen from above as its content: its three places,
//! its target, its fence, its state and its groups in order. It offers one promise: what a replica holds is what the
//! records of its extent make of it, one after another; a step that is refused hands the old state back.
//!
//! An [`OpenReplica`] takes groups at its end and higher fences. A [`FrozenReplica`] takes only what brings it to its
//! last length, and a [`SealedReplica`] nothing. [`Replica`] is one of the three: it is what is read, and it steps in place
//! without a failure once there is room, so that a node can write the record first.
//!
//! The text of its groups lies in buffers of 65,536 bytes, the last shorter, beside where each group ends and how many bytes
//! each block has. A place among the groups is found by [`Ends::find`], which counts the ends that it reads.
#![tactic(auto)]

mod buffers;
mod ends;
mod fault;
mod frozen;
mod kept;
mod last_bytes;
mod open;
mod parts;
mod phase;
mod placed;
mod replica;
mod sealed;

pub use ends::Ends;
pub use fault::{FillFault, PastEnd, PutFault, Stale};
pub use frozen::FrozenReplica;
pub use open::OpenReplica;
pub use parts::{part_of_group, part_of_text};
pub use phase::Phase;
pub use replica::Replica;
pub use sealed::SealedReplica;
