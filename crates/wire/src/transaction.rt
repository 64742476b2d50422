//! Transactions as a user sends them.
ghost use Rattle.std.specs.Prelude.{◌≡◌, IfOk};

use bytes::Bytes;
use std::alloc::AllocError;
use std::marker::Model;
use std::sync::ArcSlice;

/// One change: the key gets this value, or is deleted where there is none. Any lengths, as nobody has looked at them yet.
pub struct Change {
    pub key: Bytes,
    pub value: Option<Bytes>,
}

// Written out, so that a crate above that lets one go has no proof of what is in it.
impl Drop for Change {
    fn drop(self) {
        let Change { key: _, value: _ } = self;
    }
}

/// The changes of one transaction, applied from left to right. Copies share the list.
pub struct Changes {
    items: ArcSlice<Change>,
}

// Written out, so that a crate above that lets one go has no proof of what is in it.
impl Drop for Changes {
    fn drop(self) {
        let Changes { items: _ } = self;
    }
}

impl Model for Changes {
    ghost use Rattle.std.specs.Prelude.{List};
    ghost use Rattle.wire.specs.declared.transaction.Change.{Change};

    ghost Value = { List Change };

    ghost use Rattle.std.specs.Arc.{arc_slice_items};

    ghost view = { λ list. arc_slice_items list.items };
}

impl Changes {
    /// The changes of this list. An error is out of memory (22).
    pub fn of(items: Vec<Change>) -> Result<Changes, AllocError>
        ensures { IfOk result (λ changes. changes ≡ items.items) }
    {
        Ok(Changes {
            items: ArcSlice::from_vec(items)?,
        })
    }

    /// The changes in order.
    pub fn as_slice(&self) -> &[Change]
        ensures { result.now ≡ self.now }
    {
        self.items.as_slice()
    }

    /// The same changes again, which share the list: it costs the same for each transaction. An error is out of memory
    /// (22).
    pub fn copy(&self) -> Result<Changes, AllocError>
        ensures { IfOk result (λ copy. copy ≡ self.now) }
    {
        Ok(Changes {
            items: self.items.clone()?,
        })
    }
}
