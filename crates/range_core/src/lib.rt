//! One range at a server: the load of its streams, the transactions that it takes, the groups that they are appended in, and
//! the Gets that it answers (after Calder et al., SOSP 2011, section 5).
//!
//! This crate touches memory only. Each step is a rule of the table of a server (model_partition/specs: Loading, Serving, Getting
//! and Answering) on the range, exactly, what its cache holds included: `assign`, `renew`, `load`, `transact`, `form`, `log_done`,
//! `get`, `freeze`, `install` and `give_up`. `answer` goes to `load` (which the read of an index and the steps of a checkpoint
//! between `freeze` and `install`, and its Trim, are a part of), to `install` where the record of a checkpoint stands, to `log_done`
//! where a group does, or to the Gets, whichever waits. A checkpoint that combines the indexes of its range reads their pages one by
//! one, unless the range holds them already, and leaves what is held as it is. A step that is refused for want of memory (22) leaves
//! the range as it was, and that is the one error that no clause limits. The readers `phase`, `position`, `next_number`, `indexes`
//! and `regions` take no memory; the last two tell what the metadata says now. Nor do `pause` and `resume`, between which a range
//! takes no transaction, and in the end no Get either.
//! The group that `form` of a range appends is that of the function `form`, which encodes each transaction once. `push_some` and
//! `append_reserved` put what a step sends into room that was made before; splits and merges send by them too.
#![tactic(auto)]

mod acknowledging;
mod answering;
mod checkpoints;
mod control_giving_up;
mod forming;
mod getting;
mod giving_up;
mod pausing;
mod phase;
mod range_step;
mod state;
mod transacting;

pub use answering::Waiter;
pub use phase::Phase;
pub use range_commit::form;
pub use range_step::{RangeStep, append_reserved, push_some};
pub use state::RangeState;
