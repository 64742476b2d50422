//! What a loaded table shows.

use bytes::Bytes;
use checkpoint::InstalledIndexes;
use memtable::{Cell, Cells};
use metadata::KeyRange;
use std::marker::Model;

/// Keys, each with what a row keeps of its value, in order of the keys.
pub struct Entries {
    pub items: Vec<(Bytes, Cell)>,
}

// Written out, so that a crate above that lets one go has no proof of what is in it.
impl Drop for Entries {
    fn drop(self) {
        let Entries { items: _ } = self;
    }
}

impl Model for Entries {
    ghost use Rattle.std.specs.Prelude.{ℕ, List};
    ghost use Rattle.memtable.specs.declared.cell.Cell.{Cell};

    ghost Value = { List (List ℕ × Cell) };

    ghost view = { λ list. list.items.items };
}

/// What a loaded table shows: the memory table's entries, the indexes below it (the newest first), and the keys of the range.
pub struct ShownTable {
    pub live: Entries,
    /// The newest first.
    pub indexes: InstalledIndexes,
    pub keys: KeyRange,
}

// Written out, so that a crate above that lets one go has no proof of what is in it.
impl Drop for ShownTable {
    fn drop(self) {
        let ShownTable {
            live: _,
            indexes: _,
            keys: _,
        } = self;
    }
}

/// The same as a range has it, before it is shown.
#[derive(Drop)]
pub struct TableView<'a> {
    pub live: &'a Cells,
    /// The newest first.
    pub indexes: &'a InstalledIndexes,
    pub keys: &'a KeyRange,
}
