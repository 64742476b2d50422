//! Looking up keys in the pages of checkpoints, and combining checkpoints into one.
//!
//! A checkpoint of a range has written its memory table as pages and an index of them (docs/FORMATS.md). This crate touches
//! memory alone: it asks for the pages that it wants by their places. What the layers above may build on, each a clause here:
//! - `lookup` goes through the indexes that count within a key, the newest first, and answers the cell of the first that has the
//!   key, or that there is none, also of a key that was deleted, or the place of the page that it wants to see first (`looked_up`).
//! - `add_page` takes the entries of a page that count, and `combine` writes the pages of what indexes and a newer layer say
//!   together, without the keys that have no value. `PageMerge` merges the pages of all indexes, those of the oldest first, as
//!   they are read or found at hand.
//! - The laws `lookup_is_the_map`, `merged_is_the_map` and `combined_is_the_map` say that these are one and the same map.
//!
//! Running out of memory is the one error that no clause limits.
#![tactic(auto)]

mod checkpoint_pages;
mod combination;
mod installed_index;
mod installed_indexes;
mod laws;
mod page_lookup;
mod page_merge;
mod pages;
mod search;
mod unmerged_page;

pub use checkpoint_format::{Index, Page, PageAt, PageList, write_pages};
pub use checkpoint_pages::CheckpointPages;
pub use combination::{add_page, combine, has_place};
pub use installed_index::InstalledIndex;
pub use installed_indexes::InstalledIndexes;
pub use laws::{combined_is_the_map, lookup_is_the_map, merged_is_the_map};
pub use page_lookup::Lookup;
pub use page_merge::{PageChanges, PageMerge};
pub use pages::Pages;
pub use search::{lookup, page_for};
pub use unmerged_page::UnmergedPage;
