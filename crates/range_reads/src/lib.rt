//! The Gets of a range: keys are looked up in the memory table and then in the indexes, and pages and values that are not held are
//! read first.
//!
//! The pages and values that were read are held, `MAX_HELD` at most, and the one least recently used goes for a new one. This crate
//! touches memory alone, and answers what is to be sent; it sends nothing.
//! What the layers above may build on, each a clause here:
//! - `get` answers a Get at once, or keeps it and asks for the page or the value that it needs. What it found is then the most
//!   recently used, of the pages that may have the key and of values.
//! - Each answer is an observation of its key and its value, under the range's generation, also where the Get waited.
//! - `bytes` takes what was read, tries each Get again, and holds the bytes only where a read that waits asked for just these.
//!   Bytes that spell no page where one is wanted change nothing.
//! - `give_up` sends the last read of each Get to the next place.
//! - What is held is a source of pages (`checkpoint::Pages`), which looking at leaves as it is.
//! - What is held after each, and in which order, is a function of what was held and of what came (`ok` of `get` and `bytes`).
//!
//! Running out of memory is the one error that no clause limits.
#![tactic(auto)]

mod adding;
mod answered;
mod asking;
mod awaited;
mod cache_view;
mod giving_up;
mod kept;
mod key_lookup;
mod lookups;
mod trying;
mod usage;
mod value_cache;

pub use asking::Asking;
pub use lookups::{Lookups, MAX_GETS, Tried};
pub use value_cache::MAX_HELD;
