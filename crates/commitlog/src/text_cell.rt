//! What the text of a record has of its changes.

use bytes::Bytes;
use std::marker::Model;

/// The value of a change as the text has it.
#[derive(Drop)]
pub(crate) enum TextCell {
    /// The key has no value.
    Deleted,
    /// A value of at most 4,096 bytes.
    Inline(Bytes),
    /// A larger value: the number of its block among the values of the group, and its length in bytes.
    Large(u8, u32),
}

/// The changes of one transaction as the text has them.
#[derive(Drop)]
pub(crate) struct TextChanges {
    pub(crate) items: Vec<(Bytes, TextCell)>,
}

impl Model for TextChanges {
    ghost use Rattle.std.specs.Prelude.{ℕ, List};
    ghost use Rattle.commitlog.specs.declared.text_cell.TextCell.{TextCell};

    ghost Value = { List (List ℕ × TextCell) };

    ghost view = { λ list. list.items.items };
}
