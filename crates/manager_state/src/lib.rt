//! The stream manager's table: which streams there are, which extents they have on which nodes, and what the places of an
//! extent have told; with the records that make it.
//!
//! This crate touches memory only. It offers a table that is exactly a function of its records: what each record makes of
//! it, whether a record fits it, the bytes of a record and the record of bytes, and the table that a list of records makes.
//! Room for a record is made before it, so that what it makes takes no memory; a refusal leaves the table as it was.
#![tactic(auto)]

mod entry;
mod lengthening;
mod modify_bytes;
mod record_bytes;
mod replay;
mod reports;
mod table;
mod telling;
mod trimming;

pub use record_bytes::encode;
pub use reports::{first_sealed, least_told, place_of, with_frozen, with_sealed};
pub use table::ManagerTable;
