//! Lists of indexes and of regions.

use crate::record::{IndexRange, Region};
use std::marker::Model;

/// Indexes, of which metadata has the newest first, and a record of it the oldest.
pub struct IndexRanges {
    pub items: Vec<IndexRange>,
}

// Written out, so that a crate above that lets one go has no proof of what is in it.
impl Drop for IndexRanges {
    fn drop(self) {
        let IndexRanges { items: _ } = self;
    }
}

impl Model for IndexRanges {
    ghost use Rattle.std.specs.Prelude.{List};
    ghost use Rattle.metadata.specs.declared.record.IndexRange.{IndexRange};

    ghost Value = { List IndexRange };

    ghost view = { λ list. list.items.items };
}

/// Regions, in the order of the log.
pub struct Regions {
    pub items: Vec<Region>,
}

// Written out, so that a crate above that lets one go has no proof of what is in it.
impl Drop for Regions {
    fn drop(self) {
        let Regions { items: _ } = self;
    }
}

impl Model for Regions {
    ghost use Rattle.std.specs.Prelude.{List};
    ghost use Rattle.metadata.specs.declared.record.Region.{Region};

    ghost Value = { List Region };

    ghost view = { λ list. list.items.items };
}
