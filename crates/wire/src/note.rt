//! Observations: what a run shows of itself.
ghost use Rattle.std.specs.Prelude.{◌≡◌, [], ◌∷◌, ◌++◌, OnOk, OnErr};

use crate::extent_id::ExtentId;
use crate::fence::Fence;
use crate::range_id::RangeId;
use crate::rows::Rows;
use crate::transaction::Changes;
use block_types::{Group, Groups};
use bytes::Bytes;
use std::alloc::{AllocError, Global};
use std::marker::Model;

/// One observation. Offsets and lengths count payload bytes.
#[derive(Drop)]
pub enum Note {
    /// The primary acknowledged this group at this offset.
    Acked {
        extent: ExtentId,
        offset: u32,
        group: Group,
    },
    /// The manager sealed the extent at this length.
    SealedAt {
        extent: ExtentId,
        length: u32,
    },
    /// A node showed all groups of its sealed replica.
    Content {
        extent: ExtentId,
        node: u8,
        groups: Groups,
    },
    /// A node showed these bytes of its replica from this offset on.
    Seen {
        extent: ExtentId,
        node: u8,
        offset: u32,
        bytes: Bytes,
    },
    /// A server gave this transaction its number, under a generation.
    Began {
        range: RangeId,
        generation: Fence,
        number: u64,
        changes: Changes,
    },
    /// A server answered that the transaction of this number is done.
    Done {
        range: RangeId,
        generation: Fence,
        number: u64,
    },
    /// A server loaded the range: its table, and the number of the next transaction.
    Loaded {
        range: RangeId,
        generation: Fence,
        rows: Rows,
        next: u64,
    },
    /// A server answered a Get of this key, under a generation: with this value, or that there is none.
    Got {
        range: RangeId,
        generation: Fence,
        key: Bytes,
        value: Option<Bytes>,
    },
    /// The map split a range at a key.
    Split {
        range: RangeId,
        low: RangeId,
        high: RangeId,
        key: Bytes,
    },
    /// The map joined two ranges.
    Merged {
        left: RangeId,
        right: RangeId,
        range: RangeId,
    },
}

/// Observations in order.
pub struct Notes {
    pub items: Vec<Note>,
}

// Written out, so that a crate above that lets one go has no proof of what is in it.
impl Drop for Notes {
    fn drop(self) {
        let Notes { items: _ } = self;
    }
}

impl Model for Notes {
    ghost use Rattle.std.specs.Prelude.{List};
    ghost use Rattle.wire.specs.declared.note.Note.{Note};

    ghost Value = { List Note };

    ghost view = { λ list. list.items.items };
}

impl Notes {
    /// None yet; takes no memory.
    pub fn new(alloc: Global) -> Notes
        ensures { result ≡ [] }
    {
        Notes {
            items: Vec::new(alloc),
        }
    }

    /// Adds one at the end. Without memory nothing has changed.
    pub fn push(&mut self, added: Note) -> Result<(), AllocError>
        ensures ok { OnOk result (self.new ≡ self.old ++ added ∷ []) }
        ensures err { OnErr result (self.new ≡ self.old) }
    {
        self.items.push(added)?;
        Ok(())
    }

    /// Adds these at the end. Without memory nothing has changed.
    pub fn append(&mut self, more: Notes) -> Result<(), AllocError>
        ensures ok { OnOk result (self.new ≡ self.old ++ more) }
        ensures err { OnErr result (self.new ≡ self.old) }
    {
        let Notes { mut items } = more;
        self.items.append(&mut items)
    }

    /// The vector of them.
    pub fn into_vec(self) -> Vec<Note>
        ensures { result.items ≡ self }
    {
        let Notes { items } = self;
        items
    }
}
