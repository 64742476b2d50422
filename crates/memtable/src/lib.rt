//! What a row keeps of a value: its bytes, the place where they stand, or that it is deleted; and the memory table, which is
//! what rows keep of the keys that changed since the last checkpoint, in two layers.
//!
//! Changes go into the live layer. A checkpoint fixes it, writes the fixed layer out while changes go into a new live
//! one, and drops it (after Calder et al., SOSP 2011, section 5). This crate touches memory alone. The limits of keys, values
//! and transactions stand here for all crates of the table layer, and specs/Limits.antt has them for clauses.
//!
//! What the layers above may build on, each a clause here:
//! - `apply` takes all of its changes, a later one of a key over an earlier, or where memory runs out none.
//! - `get` looks at the live layer first, and then at the fixed one.
//! - `freeze_layer` and `drop_layer` lose no entry but those of the layer that is dropped.
//! - `size` is the size of all entries in a page.
//!
//! Running out of memory is the one error that no clause limits.
#![tactic(auto)]

mod cell;
mod cell_map;
mod compared;
mod key;
mod layer;
mod limits;
mod mem_table;

pub use cell::{Cell, Place, entry_size};
pub use cell_map::{CellMap, Cells};
pub use key::Key;
pub use limits::{MAX_BATCH, MAX_CHANGES, MAX_INLINE, MAX_KEY, MAX_VALUE, is_large};
pub use mem_table::MemTable;
