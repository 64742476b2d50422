//! The ranges in the order of their keys.
ghost use Rattle.std.specs.Prelude.{◌≡◌, ◌≤◌, true, Some, IfOk, OnOk, option_map};
ghost use Rattle.model_partition.specs.declared.map_record.MapRecord.TheVariants as records;
ghost use Rattle.model_partition.specs.Map.{assign, begin_merge, begin_split, complete_merge, complete_split, first_map, range_at, range_of_key, renewed, union_at, with_range};
ghost use Rattle.model_partition.specs.MapRules.{has_numbers};
ghost use Rattle.model_partition.specs.Partition.{IsSound};
ghost use Rattle.model_partition.specs.Replay.{after_record, fits_map, may_assign, may_begin_merge, may_begin_split, may_renew};
ghost use Rattle.pmap_table.specs.MapTable.{copied_key, needed_room};

use crate::entries;
use crate::entry::{begins_by, next_generation};
use crate::key_tests::{is_beside, is_split_key};
use crate::pending_tests::{halves_at, is_same_holder, is_split, union_with};
use bytes::Bytes;
use metadata::KeyRange;
use model_partition::{MapRecord, Pending, RangeEntry};
use std::alloc::{AllocError, Global};
use std::marker::Model;
use wire::{Fence, RangeId, ServerNo};

/// The ranges, and the number of the next one. They lie side by side in the order of their keys, so that each key is in one of
/// them. Their numbers, and those of ranges that a split or a merge is to leave, differ and are below the next one. A split that
/// is pending has a key of its range.
#[derive(Drop)]
pub struct RangeTable {
    entries: Vec<RangeEntry>,
    next: RangeId,
}

impl Model for RangeTable {
    ghost use Rattle.std.specs.Prelude.{◌-◌, vec_len, vec_capacity};
    ghost use Rattle.model_partition.specs.Partition.{IsSound};
    ghost use Rattle.pmap_table.specs.MapTable.{MapTable};

    ghost Value = { MapTable };

    ghost view = { λ t. record { map = record { ranges = t.entries.items; next = t.next }; room = vec_capacity t.entries - vec_len t.entries } };

    ghost invariant = { λ t. IsSound (record { ranges = t.entries.items; next = t.next }) };
}

impl RangeTable {
    /// Range 1 with all keys, which nobody holds. An error is out of memory.
    pub fn first(alloc: Global) -> Result<RangeTable, AllocError>
        ensures { IfOk result (λ table. table.map ≡ first_map) }
    {
        let keys = KeyRange {
            low: Bytes::new(),
            high: None,
        };
        let mut entries = Vec::new(alloc);
        entries.push(RangeEntry {
            range: RangeId(1),
            keys,
            generation: Fence(0),
            holder: None,
            until: 0,
            pending: None,
        })?;
        Ok(RangeTable {
            entries,
            next: RangeId(2),
        })
    }

    /// The ranges in the order of their keys.
    pub fn entries(&self) -> &[RangeEntry]
        ensures value { result.now ≡ self.now.map.ranges }
        ensures sound { IsSound self.now.map }
    {
        &self.entries
    }

    /// The number of the next range.
    pub fn next(&self) -> RangeId
        ensures { result ≡ self.now.map.next }
    {
        self.next
    }

    /// The range of a number, if there is one.
    pub fn entry(&self, range: RangeId) -> Option<&RangeEntry>
        ensures { option_map (λ r. r.now) result ≡ range_at self.now.map.ranges range }
    {
        match entries::place_of(&self.entries, range) {
            None => None,
            Some(place) => Some(&self.entries[place]),
        }
    }

    /// The range that has a key: the last of those that begin there or below.
    pub fn covering(&self, key: &[u8]) -> &RangeEntry
        ensures { range_of_key self.now.map.ranges key.now ≡ Some result.now }
    {
        let behind = self.entries.partition_point(|entry| begins_by(entry, key));
        &self.entries[behind - 1]
    }

    /// The number of what two ranges become, where they stand side by side and their merge is pending.
    pub fn union_at(&self, left: RangeId, right: RangeId) -> Option<RangeId>
        ensures { result ≡ union_at self.now.map.ranges left right }
    {
        match entries::union_place(&self.entries, left, right) {
            None => None,
            Some((_place, into)) => Some(into),
        }
    }

    /// Whether so many numbers are left.
    pub fn has_numbers(&self, count: u64) -> bool
        ensures { result ≡ has_numbers self.now.map count }
    {
        self.next.0.checked_add(count).is_some()
    }

    fn may_begin_split(&self, range: RangeId, key: &[u8]) -> bool
        ensures { result ≡ may_begin_split key.now (range_at self.now.map.ranges range) }
    {
        match self.entry(range) {
            None => false,
            Some(entry) => {
                is_split_key(&entry.keys, key) && halves_at(&entry.pending, key).is_none()
            }
        }
    }

    fn may_begin_merge(&self, left: RangeId, right: RangeId) -> bool
        ensures { result ≡ may_begin_merge right (range_at self.now.map.ranges left) (range_at self.now.map.ranges right) }
    {
        match (self.entry(left), self.entry(right)) {
            (Some(below), Some(above)) => {
                is_beside(&below.keys, &above.keys)
                    && is_same_holder(below.holder, above.holder)
                    && union_with(&below.pending, right).is_none()
            }
            _ => false,
        }
    }

    /// Whether a record may be written where the table is this.
    pub fn fits(&self, new_record: &MapRecord) -> bool
        ensures { result ≡ fits_map self.now.map new_record.now }
    {
        match new_record {
            MapRecord::Assign { range, .. } => match self.entry(*range) {
                None => false,
                Some(entry) => next_generation(entry).is_some(),
            },
            MapRecord::Renew { range, .. } => match self.entry(*range) {
                None => false,
                Some(entry) => entry.holder.is_some(),
            },
            MapRecord::BeginSplit { range, key } => {
                self.may_begin_split(*range, key.as_slice()) && self.has_numbers(2)
            }
            MapRecord::CompleteSplit { range } => match self.entry(*range) {
                None => false,
                Some(entry) => is_split(&entry.pending),
            },
            MapRecord::BeginMerge { left, right } => {
                self.may_begin_merge(*left, *right) && self.has_numbers(1)
            }
            MapRecord::CompleteMerge { left, right } => self.union_at(*left, *right).is_some(),
        }
    }

    /// Makes room for what a record adds, and copies the key that both halves of a split have. An error is out of memory, and
    /// nothing but room has changed.
    pub fn reserve(&mut self, new_record: &MapRecord) -> Result<Option<Bytes>, AllocError>
        ensures map { self.new.map ≡ self.old.map }
        ensures room { OnOk result (needed_room new_record.now ≤ self.new.room) }
        ensures copy { IfOk result (λ copy. copy ≡ copied_key self.old.map new_record.now) }
    {
        let MapRecord::CompleteSplit { range } = new_record else {
            return Ok(None);
        };
        self.entries.reserve(1)?;
        match self.entry(*range) {
            Some(
                RangeEntry {
                    pending: Some(Pending::Split { key, .. }),
                    ..
                },
            ) => Ok(Some(key.clone()?)),
            _ => Ok(None),
        }
    }

    /// Gives the range of a number to a server, under a generation one higher, and drops what is pending there.
    fn assign(&mut self, range: RangeId, server: ServerNo, until: u64)
        requires { may_assign (range_at self.old.map.ranges range) ≡ true }
        ensures { self.new.map ≡ assign self.old.map range server until }
    {
        entries::drop_pending(&mut self.entries, range);
        entries::assign(&mut self.entries, range, server, until);
    }

    /// Moves the end of the lease of the range of a number.
    fn renew(&mut self, range: RangeId, until: u64)
        requires { may_renew (range_at self.old.map.ranges range) ≡ true }
        ensures { self.new.map ≡ with_range self.old.map range (renewed until) }
    {
        entries::renew(&mut self.entries, range, until);
    }

    /// Begins a split with the next two numbers.
    fn begin_split(&mut self, range: RangeId, key: Bytes)
        requires { fits_map self.old.map (records.BeginSplit range key) ≡ true }
        ensures { self.new.map ≡ begin_split self.old.map range key }
    {
        let next = self.next;
        let pending = Pending::Split {
            key,
            low: next,
            high: RangeId(next.0 + 1),
        };
        entries::drop_pending(&mut self.entries, range);
        entries::begin(&mut self.entries, range, pending);
        self.next = RangeId(next.0 + 2);
    }

    /// Puts the halves of a range in its place.
    fn complete_split(&mut self, range: RangeId, copy: Option<Bytes>)
        requires fits { fits_map self.old.map (records.CompleteSplit range) ≡ true }
        requires room { 1 ≤ self.old.room }
        requires copy { copy ≡ copied_key self.old.map (records.CompleteSplit range) }
        ensures { self.new.map ≡ complete_split self.old.map range }
    {
        if let Some(key) = copy {
            entries::split(&mut self.entries, range, key);
        }
    }

    /// Begins a merge with the next number.
    fn begin_merge(&mut self, left: RangeId, right: RangeId)
        requires { fits_map self.old.map (records.BeginMerge left right) ≡ true }
        ensures { self.new.map ≡ begin_merge self.old.map left right }
    {
        let next = self.next;
        let pending = Pending::Merge { right, into: next };
        entries::drop_pending(&mut self.entries, right);
        entries::drop_pending(&mut self.entries, left);
        entries::begin(&mut self.entries, left, pending);
        self.next = RangeId(next.0 + 1);
    }

    /// Makes one of two ranges.
    fn complete_merge(&mut self, left: RangeId, right: RangeId)
        requires { fits_map self.old.map (records.CompleteMerge left right) ≡ true }
        ensures { self.new.map ≡ complete_merge self.old.map left right }
    {
        entries::merge(&mut self.entries, left, right);
    }

    /// Does what a record that stands makes of it, in room that was made, with the copy that was made.
    pub fn apply(&mut self, new_record: MapRecord, copy: Option<Bytes>)
        requires fits { fits_map self.old.map new_record ≡ true }
        requires room { needed_room new_record ≤ self.old.room }
        requires copy { copy ≡ copied_key self.old.map new_record }
        ensures { self.new.map ≡ after_record self.old.map new_record }
    {
        match new_record {
            MapRecord::Assign {
                range,
                server,
                until,
            } => self.assign(range, server, until),
            MapRecord::Renew { range, until } => self.renew(range, until),
            MapRecord::BeginSplit { range, key } => self.begin_split(range, key),
            MapRecord::CompleteSplit { range } => self.complete_split(range, copy),
            MapRecord::BeginMerge { left, right } => self.begin_merge(left, right),
            MapRecord::CompleteMerge { left, right } => self.complete_merge(left, right),
        }
    }
}
