//! An index that was read.

use checkpoint_format::Index;
use memtable::Place;
use metadata::KeyRange;

/// An index that was read, where it stands, and the keys within which it counts.
pub struct InstalledIndex {
    pub place: Place,
    pub keys: KeyRange,
    pub index: Index,
}

// Written out, so that a crate above that lets one go has no proof of what is in it.
impl Drop for InstalledIndex {
    fn drop(self) {
        let InstalledIndex {
            place: _,
            keys: _,
            index: _,
        } = self;
    }
}
