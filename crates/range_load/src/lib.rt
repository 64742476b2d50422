//! The load of a range at its server: its streams are opened, its metadata is read, then its log, then its indexes, and its
//! generation is confirmed.
//!
//! This crate touches memory alone. Each call takes one answer and a `RangeContent`, as the table
//! of model_partition (Loading and Answering) says. What the layers above may build on, each a clause here:
//! - `load_reply`, `metadata_reply`, `log_load_reply` and `index_reply` are the rules of those names, whatever else is known of
//!   the range: what is sent, what is known then, whether the range is dropped, and what is shown once it is served. An answer to
//!   another request than the load's own changes nothing by `load_reply`; `reads_under` says which number `index_reply` is for.
//! - `metadata_reply` and `log_load_reply` are of a range that is not served yet: the answers after that are those of the crates
//!   above.
//! - A range is served by the answer to what `RangeLoad::confirm` sent. Its streams are read only while the load has them opened,
//!   which the type keeps.
//! - `give_up` sends again what is not answered, or has an extent sealed that does not answer.
//! - Where memory runs out (22) nothing has changed.
//!
//! Running out of memory is the one error that no clause limits.
#![tactic(auto)]

mod answering;
mod asking;
mod confirming;
mod copying;
mod giving_up;
mod index_answers;
mod index_reading;
mod log_answers;
mod log_reading;
mod metadata_answers;
mod metadata_reading;
mod opening;
mod turning;

pub use answering::load_reply;
pub use giving_up::{GivenUp, give_up};
pub use index_answers::{index_reply, reads_under};
pub use log_answers::log_load_reply;
pub use metadata_answers::metadata_reply;
pub use opening::begin_load;
