//! The partition servers of a run, and the rows that a loaded table shows.
//!
//! This crate touches memory only. `Servers` is the list of the servers as model_partition/specs/Servers has it, and each call is
//! a row of it exactly:
//! - `start`: so many servers that run; `stop` and `restart`: what a server holds goes, and it comes back under another number.
//! - `give`, `give_up`, `checkpoint`, `split` and `merge`: what one server does; nothing where there is none of the number, or
//!   where it has stopped.
//! - `loading`: the table that an answer to a server is about to show.
//! - `moment`: the clock of leases, which all see.
//! - `rows_of`: the rows of a table, which is its memory table over the pages of its indexes, the oldest index first. Each page,
//!   and each value that stands elsewhere, is taken from the earliest observation that covers its place. Only observations of
//!   its extent are looked at: `SeenByExtent` has their places.
//!   Lists whose keys ascend are merged in one walk, and with no index the memory table is read as it is.
//!
//! An error is out of memory (22), and nothing has changed; that is the one error that no clause limits.
#![tactic(auto)]

mod ascending_run;
mod list;
mod place;
mod rows;
mod seen;
mod table_entries;

pub use list::Servers;
pub use rows::rows_of;
pub use seen::SeenByExtent;
