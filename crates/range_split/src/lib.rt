//! A split of a range at a key (after Calder et al., SOSP 2011, section 5.5): the map tells the numbers of the two ranges that it
//! makes, the range makes a checkpoint and takes no transaction any more, its metadata says that it is split, the last extents of its
//! streams are sealed and the streams of the two are built from them, each of the two has its keys appended, and the map puts the two
//! in its place.
//!
//! This crate touches memory alone. Each call takes a `RangeState` and a `SplitJob`, and is a rule of the split of a range
//! (model_partition/specs: Splits), exactly. What the layers above may build on, each a clause here:
//! - `split_fault` is the first reason why no split begins, and `begin` begins one; `awaits` says which answers it waits for, and
//!   `reply` is what it does with one.
//! - `follow` is what comes behind a step of the range itself, in the same event: once the checkpoint has ended, once no transaction
//!   waits, and once the record of the split stands. It takes no memory: `SplitRoom::for_step` is made before the step, of the split
//!   alone, so it serves whatever the step does to the range.
//! - `give_up` sends again what is not answered, or has an extent sealed, behind the range's own, with the room of
//!   `SplitRoom::for_give_up`.
//! - Where the server has no number left for a request these two do nothing; neither drops the range, nor ends the split.
//! - The children are named by the record of their keys only once their streams are built, and the map is told only once both stand.
//! - Where memory runs out (22) nothing has changed, and that is the one error that no clause limits.
#![tactic(auto)]

mod answers;
mod appends;
mod awaited;
mod beginning;
mod built_streams;
mod following;
mod giving_up;
mod key_answers;
mod next_packet;
mod packets;
mod records;
mod room;
mod seals;
mod side_metadata;
mod taken;

pub use answers::reply;
pub use awaited::awaits;
pub use beginning::{begin, split_fault};
pub use following::follow;
pub use giving_up::give_up;
pub use room::SplitRoom;
pub use taken::SplitTaken;
