//! A page that is to be merged.

use memtable::Place;
use metadata::KeyRange;

/// A page that is to be merged: where it stands, and the keys within which its index counts.
pub struct UnmergedPage {
    pub keys: KeyRange,
    pub place: Place,
}

// Written out, so that a crate above that lets one go has no proof of what is in it.
impl Drop for UnmergedPage {
    fn drop(self) {
        let UnmergedPage { keys: _, place: _ } = self;
    }
}
