//! The cache as a source of pages.
use crate::value_cache::{Fresh, ValueCache};
use bytes::Bytes;
use checkpoint::{Lookup, Pages};
use memtable::Place;
use std::alloc::AllocError;

/// What is held, with what has just come, if something has.
#[derive(Drop)]
pub(crate) struct CacheView<'a> {
    pub(crate) held: &'a ValueCache,
    pub(crate) fresh: &'a Option<Fresh>,
}

impl Pages for CacheView<'_> {
    ghost use Rattle.model_partition.specs.Getting.{held_at};
    ghost use Rattle.range_reads.specs.ValueCache.{with_fresh};

    ghost source = { λ s. held_at (with_fresh s.held.now s.fresh.now) };

    fn page(&self, place: &Place) -> Option<&Bytes> {
        match self.held.value_with(self.fresh, place) {
            None => None,
            Some(kept) => Some(kept.bytes()),
        }
    }

    fn find_at(&self, place: &Place, key: &[u8]) -> Result<Option<Lookup>, AllocError> {
        match self.held.value_with(self.fresh, place) {
            None => Ok(Some(Lookup::Need(*place))),
            Some(kept) => kept.find_at(place, key),
        }
    }
}
