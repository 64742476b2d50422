//! The pages and values that were read for Gets, as many as there is room for.
ghost use Rattle.std.specs.Prelude.{◌≡◌, ◌≤◌, [], Some, length, option_copied, IfOk, OnOk, OnErr};
ghost use Rattle.std.specs.List.{IsDistinct};
ghost use Rattle.std.specs.Map.{keys_of};
ghost use Rattle.range_reads.specs.ValueCache.{goes_for, with_fresh};
ghost use Rattle.lru.specs.LruCache.{promoted};
ghost use Rattle.model_partition.specs.Getting.{held_at, most_held};
ghost use Rattle.model_partition.specs.PlaceReads.{is_place};

use crate::kept::Kept;
use lru::LruCache;
use memtable::Place;
use std::alloc::{AllocError, Global};
use std::marker::Model;
use std::num::NonZeroUsize;

/// How many pages and values are held at most.
pub const MAX_HELD: usize = 1024;

/// The place of a page or of a value that is held.
#[derive(Clone, Copy, PartialEq, Eq, Hash)]
pub(crate) struct HeldPlace {
    extent: u64,
    offset: u32,
    length: u32,
}

impl Model for HeldPlace {
    ghost use Rattle.memtable.specs.declared.cell.Place.{Place};

    ghost Value = { Place };

    ghost view = { λ p. record { extent = p.extent; offset = p.offset; length = p.length } };

    ghost inverse = { λ p. record { extent = p.extent; offset = p.offset; length = p.length } };
}

fn key_of(place: &Place) -> HeldPlace
    ensures { result ≡ place.now }
{
    HeldPlace {
        extent: place.extent.0,
        offset: place.offset,
        length: place.length,
    }
}

/// A page or a value that has just come, and its place.
#[derive(Drop)]
pub(crate) struct Fresh {
    pub(crate) place: Place,
    pub(crate) bytes: Kept,
}

/// Pages and values by their places, the most recently used first.
#[derive(Drop)]
pub(crate) struct ValueCache {
    cache: LruCache<HeldPlace, Kept>,
}

impl Model for ValueCache {
    ghost use Rattle.std.specs.Prelude.{◌≡◌};
    ghost use Rattle.range_reads.specs.ValueCache.{Values};
    ghost use Rattle.model_partition.specs.Getting.{most_held};

    ghost Value = { Values };

    ghost view = { λ h. h.cache.entries };

    ghost invariant = { λ h. h.cache.cap ≡ most_held };
}

impl ValueCache {
    /// None is held. An error is out of memory.
    pub(crate) fn new(alloc: Global) -> Result<ValueCache, AllocError>
        ensures { IfOk result (λ held. held ≡ []) }
    {
        let cache = LruCache::sparse(alloc, NonZeroUsize::new(MAX_HELD).unwrap())?;
        Ok(ValueCache { cache })
    }

    /// What stands at a place, if it is held.
    pub(crate) fn value(&self, place: &Place) -> Option<&Kept>
        ensures { option_copied result ≡ held_at self.now place.now }
    {
        self.cache.peek(&key_of(place))
    }

    /// Whether what stands at a place goes once what stands at another is held.
    fn goes_for(&self, fresh: &Place, place: &Place) -> bool
        ensures value { result ≡ goes_for self.now fresh.now place.now }
        ensures distinct { IsDistinct is_place (keys_of self.now) }
        ensures bound { length self.now ≤ most_held }
    {
        if self.cache.len() != MAX_HELD || self.value(fresh).is_some() {
            return false;
        }
        match self.cache.peek_lru() {
            None => false,
            Some((last, _bytes)) => *last == key_of(place),
        }
    }

    /// The same, once this has come too.
    fn value_beside<'a>(&'a self, fresh: &'a Fresh, place: &Place) -> Option<&'a Kept>
        ensures { option_copied result ≡ held_at (with_fresh self.now (Some fresh.now)) place.now }
    {
        if *place == fresh.place {
            return Some(&fresh.bytes);
        }
        if self.goes_for(&fresh.place, place) {
            return None;
        }
        self.value(place)
    }

    /// What stands at a place, if it is held once what has come is.
    pub(crate) fn value_with<'a>(
        &'a self,
        fresh: &'a Option<Fresh>,
        place: &Place,
    ) -> Option<&'a Kept>
        ensures { option_copied result ≡ held_at (with_fresh self.now fresh.now) place.now }
    {
        match fresh {
            None => self.value(place),
            Some(came) => self.value_beside(came, place),
        }
    }

    /// What stands at a place becomes the most recently used, if it is held.
    pub(crate) fn promote(&mut self, place: &Place)
        ensures { self.new ≡ promoted (is_place place.now) self.old }
    {
        // Whether it is held is of no use here.
        let _held = self.cache.promote(&key_of(place));
    }

    /// Holds one more.
    pub(crate) fn put(&mut self, fresh: Fresh) -> Result<(), AllocError>
        ensures ok { OnOk result (self.new ≡ with_fresh self.old (Some fresh)) }
        ensures err { OnErr result (self.new ≡ self.old) }
    {
        self.cache.put(key_of(&fresh.place), fresh.bytes)?;
        Ok(())
    }
}
