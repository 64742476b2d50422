//! A merge of two ranges of one server that lie side by side (after Calder et al., SOSP 2011, section 5.5): the map tells the number of
//! the new range, first the left range makes a checkpoint and then the right one, both take no transaction any more, the last extents of
//! their logs and row data are sealed, the log, the row data and the blob data of the new range are built from theirs, its metadata is
//! made and has its keys, its indexes and its regions appended, and the map puts it in the place of the two.
//!
//! This crate touches memory alone. Each call takes two `RangeState`s and a `MergeJob`, and is a rule of their merge (`Merges` of
//! `model_partition`), exactly; `Server` there says what a server with merges does. What the layers above may build on, each a clause
//! here:
//! - `merge_fault` is the first reason why no merge begins, and `begin` begins one; `awaits` says which answers it waits for, and
//!   `reply` is what it does with one.
//! - `left_trim` tells the answer with which the checkpoint of the left range ends, and `left_trimmed` is the whole event, since the
//!   checkpoint of the right one begins in it.
//! - `follow` is what comes behind a step of either range, in the same event: once the checkpoint of the right one has ended, and once no
//!   transaction waits. It changes neither range: where it says that both are paused, the caller pauses them. It takes no memory:
//!   `MergeRoom::for_step` is made before the step.
//! - `give_up` sends again what is not answered, or has an extent sealed, behind the range's own, with the room of
//!   `MergeRoom::for_give_up`; where `other_checkpoint` says that the other range makes its checkpoint, `give_up_checkpoint` has that give
//!   up in its place. So a merge gives up once, whichever of its ranges was told to.
//! - `free` is what becomes of a range whose merge is no more.
//! - Indexes and regions of the new range count within the keys of the range that they are of, and the regions of the right one are moved
//!   behind the left log; the map is told only once both records stand.
//! - A step of a merge sends at most 1,400 packets. Both ranges go only once they are paused, so that nothing waits there but Gets.
//! - Where memory runs out (22) nothing has changed, and that is the one error that no clause limits.
#![tactic(auto)]

mod answers;
mod appends;
mod awaited;
mod beginning;
mod built_streams;
mod departures;
mod following;
mod giving_up;
mod joined;
mod key_ranges;
mod next_packet;
mod packets;
mod records;
mod room;
mod seals;
mod taken;
mod trimming;
mod write_answers;
mod writing;

pub use answers::reply;
pub use awaited::awaits;
pub use beginning::{begin, merge_fault};
pub use departures::free;
pub use following::{MergeFollowUp, StepBehind, follow};
pub use giving_up::{give_up, give_up_checkpoint, other_checkpoint};
pub use room::MergeRoom;
pub use taken::MergeTaken;
pub use trimming::{left_trim, left_trimmed};
