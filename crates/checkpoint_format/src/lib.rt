//! The bytes of a checkpoint: the pages of a table, and the index that says where they stand.
//!
//! A checkpoint of a range writes its table as pages of one block each and one index (docs/FORMATS.md). This crate touches
//! memory alone. What the layers above may build on, each a clause here:
//! - `write_pages` makes the pages of a table: all entries in order, each page as full as it can be.
//! - `entries_of` answers the entries of a page exactly where the bytes are a page, `find_in` the cell at a key of it, and
//!   `is_page` whether they are one; `Damaged` comes only where they are none.
//! - `ReadPage` is a page that is kept to be searched: `find` answers what `find_in` does, by halves.
//! - `Index::encode` makes the group of an index that is in range; `decode` answers an index exactly where the bytes are its
//!   text.
//! - Pages are read again and are all of the table (`pages_are_read`), and no two pages or indexes have one spelling
//!   (`one_spelling_of_pages`, `one_spelling_of_indexes`).
//!
//! Running out of memory is the one error that no clause limits.
#![tactic(auto)]

mod entry;
mod index;
mod laws;
mod page;
mod page_text;
mod read_page;

pub use index::{Index, PageAt, PageList, decode};
pub use laws::{one_spelling_of_indexes, one_spelling_of_pages, pages_are_read};
pub use page::{Page, entries_of, find_in, is_page, write_pages};
pub use read_page::ReadPage;
