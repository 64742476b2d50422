//! The rows of a table.

use bytes::Bytes;
use std::marker::Model;

/// A key and its value.
pub struct Row {
    pub key: Bytes,
    pub value: Bytes,
}

// Written out, so that a crate above that lets one go has no proof of what is in it.
impl Drop for Row {
    fn drop(self) {
        let Row { key: _, value: _ } = self;
    }
}

/// A table: its rows in order of their keys.
pub struct Rows {
    pub items: Vec<Row>,
}

// Written out, so that a crate above that lets one go has no proof of what is in it.
impl Drop for Rows {
    fn drop(self) {
        let Rows { items: _ } = self;
    }
}

impl Model for Rows {
    ghost use Rattle.std.specs.Prelude.{List};
    ghost use Rattle.wire.specs.declared.rows.Row.{Row};

    ghost Value = { List Row };

    ghost view = { λ list. list.items.items };
}
