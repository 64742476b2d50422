//! Records of the commit log, as values.

use std::marker::Model;
use wire::Changes;

/// Transactions in the order of their numbers. Its value is the list of their changes.
pub struct Transactions {
    pub items: Vec<Changes>,
}

// Written out, so that a crate above that lets one go has no proof of what is in it.
impl Drop for Transactions {
    fn drop(self) {
        let Transactions { items: _ } = self;
    }
}

impl Model for Transactions {
    ghost use Rattle.std.specs.Prelude.{List};
    ghost use Rattle.wire.specs.declared.transaction.Change.{Change};

    ghost Value = { List (List Change) };

    ghost view = { λ list. list.items.items };
}

/// What one append to the commit log commits: transactions with consecutive numbers.
///
/// A value may be out of range: `Fits` of specs/Record.antt is what has a spelling.
pub struct LogRecord {
    /// The number of the first transaction, from 1.
    pub first: u64,
    pub transactions: Transactions,
}

// Written out, so that a crate above that lets one go has no proof of what is in it.
impl Drop for LogRecord {
    fn drop(self) {
        let LogRecord {
            first: _,
            transactions: _,
        } = self;
    }
}
