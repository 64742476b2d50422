//! What a disk has held, for clauses alone. It takes no memory, and its methods do nothing when they run.
ghost use Rattle.std.specs.Prelude.{◌≡◌, List, [], ◌∷◌, ◌++◌};
ghost use Rattle.std.specs.Borrow.{ftrue};
ghost use Rattle.disk.specs.History.{Event, event_of};

use crate::image::Image;
use std::marker::{Model, PhantomData};

/// The calls of a disk, the newest first.
#[derive(Drop)]
pub struct History {
    marker: PhantomData<u8>,
    pub ghost events: { List Event },
}

impl Model for History {
    ghost also_owns = { λ _. ftrue };
}

impl History {
    pub(crate) fn new() -> History
        ensures { result.events ≡ [] }
    {
        History {
            marker: PhantomData,
        }
    }

    /// Notes a call: whether it failed, 1 or 0, and what the disk held before it.
    pub(crate) fn note(&mut self, _failed: &[u64], _bytes: &[u8])
        ensures { self.new.events ≡ event_of _failed.now _bytes.now ∷ self.old.events }
    {}

    /// As `note` of what a disk in memory reads.
    pub(crate) fn note_seen(&mut self, _failed: &[u64], _held: &Image)
        ensures { self.new.events ≡ event_of _failed.now _held.now.seen ∷ self.old.events }
    {}

    /// Notes a call that did not fail, and what the last sync of a disk in memory has made sure of.
    pub(crate) fn note_synced(&mut self, _held: &Image)
        ensures { self.new.events ≡ (0, _held.now.synced) ∷ self.old.events }
    {}

    /// Notes a call that did not fail, and what the disk held before it, in three parts.
    pub(crate) fn note_parts(&mut self, _front: &[u8], _middle: &[u8], _back: &[u8])
        ensures { self.new.events ≡ (0, _front.now ++ _middle.now ++ _back.now) ∷ self.old.events }
    {}
}

// A ghost list and a marker lie in no memory, so another thread may have them.
unsafe impl Send for History {}

unsafe impl Sync for History {}
