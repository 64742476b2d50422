//! The commit log's records: a group of transactions as the blocks of one append, and its replay.
//!
//! A record is the transactions that one append commits, with the number of the first (docs/FORMATS.md). Its text holds
//! keys and small values; each large value is a block of its own, a shared buffer that no call copies. This crate touches
//! memory alone.
//!
//! What the layers above may build on, each a clause here:
//! - `encode` makes the one spelling of a record that fits.
//! - `decode` answers exactly the record that a group spells, and `Damaged` only where no record that fits has that
//!   spelling.
//! - `LogReader` takes the blocks one by one, and answers of those that it was fed what `decode` answers of a group.
//! - No two records that fit have one spelling (`one_spelling`).
//! - `cells` gives each change as a row keeps it, a large value by the place where its block stands in the extent, and
//!   `cells_from` those of the transactions after the first. `put_cells` does so for one transaction.
//! - `GroupText` takes the next transaction exactly as long as the group has at most 64 blocks, encodes it once, and hands
//!   out the group.
//! - `Replay` takes each number once, in order.
//!
//! Running out of memory is the one error that no clause limits.
#![tactic(auto)]

mod group_text;
mod log_reader;
mod log_record;
mod placing;
mod reading;
mod replay;
mod sizes;
mod text_cell;
mod values;
mod writing;

pub use group_text::GroupText;
pub use log_reader::LogReader;
pub use log_record::{LogRecord, Transactions};
pub use placing::{cells, cells_from, offset_after, put_cells};
pub use reading::{decode, one_spelling};
pub use replay::Replay;
pub use writing::{encode, pieces_of};
