//! What a server shows of its steps.

use crate::shown_table::ShownTable;
use bytes::Bytes;
use wire::{Changes, Fence, RangeId};

/// One observation of a server. Of a loaded table it has what the rows are made of, which a run makes.
#[derive(Drop)]
pub enum TableNote {
    /// This transaction got its number, under a generation.
    Began {
        range: RangeId,
        generation: Fence,
        number: u64,
        changes: Changes,
    },
    /// The transaction of this number was answered.
    Done {
        range: RangeId,
        generation: Fence,
        number: u64,
    },
    /// The range was loaded: its table, and the number of the next transaction.
    Loaded {
        range: RangeId,
        generation: Fence,
        table: ShownTable,
        next: u64,
    },
    /// A Get of this key was answered, under a generation: with this value, or that there is none.
    Got {
        range: RangeId,
        generation: Fence,
        key: Bytes,
        value: Option<Bytes>,
    },
}
