//! Records of a range's metadata, as values.
ghost use Rattle.std.specs.Prelude.{◌≡◌};

use crate::lists::{IndexRanges, Regions};
use bytes::Bytes;
use memtable::Place;
use streams::Position;
use wire::RangeId;

/// The keys from `low` on and below `high`, or all from `low` on where there is no `high`, in byte order. A `low` of no
/// bytes stands below every key. Keys have at most 256 bytes.
pub struct KeyRange {
    pub low: Bytes,
    pub high: Option<Bytes>,
}

// Written out, so that a crate above that lets one go has no proof of what is in it.
impl Drop for KeyRange {
    fn drop(self) {
        let KeyRange { low: _, high: _ } = self;
    }
}

impl KeyRange {
    ghost use Rattle.metadata.specs.Keys as specs;

    /// Whether the key is one of these.
    pub fn contains(&self, key: &[u8]) -> bool
        ensures { result ≡ specs.within self.now key.now }
    {
        if key.cmp(self.low.as_slice()).is_lt() {
            return false;
        }
        match &self.high {
            None => true,
            Some(high) => key.cmp(high.as_slice()).is_lt(),
        }
    }
}

/// The index of some pages, which counts within these keys alone.
pub struct IndexRange {
    pub place: Place,
    pub keys: KeyRange,
}

// Written out, so that a crate above that lets one go has no proof of what is in it.
impl Drop for IndexRange {
    fn drop(self) {
        let IndexRange { place: _, keys: _ } = self;
    }
}

/// A part of the log that is still to be applied, within these keys: from a place on, below the extent of the index `end` or
/// without end, its transactions numbered from `next` on.
pub struct Region {
    pub start: Position,
    pub end: Option<u64>,
    pub next: u64,
    pub keys: KeyRange,
}

// Written out, so that a crate above that lets one go has no proof of what is in it.
impl Drop for Region {
    fn drop(self) {
        let Region {
            start: _,
            end: _,
            next: _,
            keys: _,
        } = self;
    }
}

/// What a record of the metadata says (docs/FORMATS.md).
#[derive(Drop)]
pub enum MetaItem {
    /// The range has these keys.
    Ranges {
        keys: KeyRange,
    },
    /// An index stands at this place, beside those before it or in place of them, and the log is to be applied from this
    /// position and number on.
    Checkpoint {
        combine: bool,
        index: Place,
        position: Position,
        next: u64,
    },
    /// The range has these indexes, of which the oldest stands first, and these regions of the log.
    Regions {
        indexes: IndexRanges,
        regions: Regions,
    },
    /// The range is being split at this key, into these two ranges.
    SplitStatus {
        low: RangeId,
        high: RangeId,
        key: Bytes,
    },
}

/// A record of a range's metadata. Records are numbered from 1.
#[derive(Drop)]
pub struct MetaRecord {
    pub number: u64,
    pub item: MetaItem,
}
