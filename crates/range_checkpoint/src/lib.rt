//! A checkpoint of a range at its server (after Calder et al., SOSP 2011, section 5.3.2): the memory table is written as pages
//! and an index into row data, then a record of it into the metadata, each answered before the next, and then the log is
//! trimmed. One that combines reads the pages of the older indexes first, unless they are at hand, and writes what they and the
//! memory table say together. Transactions and Gets go on meanwhile.
//!
//! This crate touches memory alone. Each call takes one answer and a `RangeContent`, as the table of model_partition (Checkpoints
//! and Answering) says. What the layers above may build on, each a clause here:
//! - `begin` begins a checkpoint; `page_reply`, `rows_reply`, `record_reply` and `trim_reply` are the rules of an answer to the read
//!   of a page, to row data, to the metadata of a served range, and to a Trim, whatever else is known of the range. `trim_awaits`
//!   says which number the last is for, and `checkpoint_fault` why a checkpoint cannot begin.
//! - `install` is what comes once the record stands, which `is_recorded` tells; any other answer to the metadata's client is for
//!   `record_reply`.
//! - `appending_of` makes a group ready to be appended, and `appended` tells the answer that says that one stands.
//! - `give_up` sends again what is not answered, or has an extent sealed that does not answer.
//! - Where memory runs out (22) nothing has changed.
//!
//! Running out of memory is the one error that no clause limits.
#![tactic(auto)]

mod append_answers;
mod appends;
mod first_append;
mod giving_up;
mod merging;
mod page_answers;
mod record_answers;
mod row_answers;
mod starts;
mod trim;
mod writing;

pub use append_answers::appended;
pub use appends::appending_of;
pub use first_append::{begin, checkpoint_fault};
pub use giving_up::{GivenUp, give_up};
pub use page_answers::page_reply;
pub use record_answers::{install, is_recorded, record_reply};
pub use row_answers::rows_reply;
pub use starts::CheckpointStart;
pub use trim::{trim_awaits, trim_reply};
