//! What the records of a range's metadata say together.
ghost use Rattle.std.specs.Prelude.{◌≡◌, ◌+◌, ◌<◌, ◌^◌, Some, None, Err, true, IfOk, IfErr, OnOk, OnErr};
ghost use Rattle.metadata.specs.declared.record.MetaItem.TheVariants.{Checkpoint};
ghost use Rattle.block_types.specs.declared.fault.BlockFault.TheVariants as faults;
ghost use Rattle.metadata.specs.Fold as specs;

use crate::lists::{IndexRanges, Regions};
use crate::record::{IndexRange, KeyRange, MetaItem, MetaRecord, Region};
use block_types::BlockFault;
use bytes::Bytes;
use memtable::Place;
use std::alloc::{AllocError, Global};
use std::marker::Model;
use streams::Position;

/// What a range's metadata says: its keys, its indexes with the newest first, the regions of the log that are still to be
/// applied, and the number of the next record (after Calder et al., SOSP 2011, section 5.2). An index or a region counts
/// only within the range's keys.
pub struct Metadata {
    pub keys: KeyRange,
    /// The newest first.
    pub indexes: IndexRanges,
    /// In the order of the log.
    pub regions: Regions,
    /// The number of the next record, from 1.
    pub next: u64,
}

// Written out, so that a crate above that lets one go has no proof of what is in it.
impl Drop for Metadata {
    fn drop(self) {
        let Metadata {
            keys: _,
            indexes: _,
            regions: _,
            next: _,
        } = self;
    }
}

impl Model for Metadata {
    ghost use Rattle.metadata.specs.Fold.{MetadataState};

    ghost Value = { MetadataState };

    ghost view = { λ m. record { keys = m.keys; indexes = m.indexes; regions = m.regions; next = m.next } };
}

fn all_keys() -> KeyRange
    ensures { result ≡ specs.all_keys }
{
    KeyRange {
        low: Bytes::new(),
        high: None,
    }
}

/// The same keys again, which share their bytes. An error is out of memory (22).
pub fn copied_keys(keys: &KeyRange) -> Result<KeyRange, AllocError>
    ensures { IfOk result (λ copy. copy ≡ keys.now) }
{
    let low = keys.low.clone()?;
    match &keys.high {
        None => Ok(KeyRange { low, high: None }),
        Some(key) => Ok(KeyRange {
            low,
            high: Some(key.clone()?),
        }),
    }
}

/// The same indexes again, which share their keys. An error is out of memory (22).
pub fn copied_indexes(alloc: Global, all: &[IndexRange]) -> Result<Vec<IndexRange>, AllocError>
    ensures { IfOk result (λ copies. copies.items ≡ all.now) }
{
    let mut copies = Vec::with_capacity(alloc, all.len())?;
    for one in all {
        copies.push(IndexRange {
            place: one.place,
            keys: copied_keys(&one.keys)?,
        })?;
    }
    Ok(copies)
}

/// The same regions again, which share their keys. An error is out of memory (22).
pub fn copied_regions(alloc: Global, all: &[Region]) -> Result<Vec<Region>, AllocError>
    ensures { IfOk result (λ copies. copies.items ≡ all.now) }
{
    let mut copies = Vec::with_capacity(alloc, all.len())?;
    for one in all {
        copies.push(Region {
            start: one.start,
            end: one.end,
            next: one.next,
            keys: copied_keys(&one.keys)?,
        })?;
    }
    Ok(copies)
}

impl Metadata {
    /// Before the first record: all keys, no index, and all of the log from the number 1 on. An error is out of memory (22).
    pub fn first(alloc: Global) -> Result<Metadata, AllocError>
        ensures { IfOk result (λ m. m ≡ specs.first_metadata) }
    {
        let mut regions = Vec::new(alloc);
        regions.push(Region {
            start: Position {
                index: 0,
                offset: 0,
            },
            end: None,
            next: 1,
            keys: all_keys(),
        })?;
        Ok(Metadata {
            keys: all_keys(),
            indexes: IndexRanges {
                items: Vec::new(alloc),
            },
            regions: Regions { items: regions },
            next: 1,
        })
    }

    /// The same again, which shares the keys. An error is out of memory (22).
    pub fn copy(&self, alloc: Global) -> Result<Metadata, AllocError>
        ensures { IfOk result (λ copy. copy ≡ self.now) }
    {
        Ok(Metadata {
            keys: copied_keys(&self.keys)?,
            indexes: IndexRanges {
                items: copied_indexes(alloc, &self.indexes.items)?,
            },
            regions: Regions {
                items: copied_regions(alloc, &self.regions.items)?,
            },
            next: self.next,
        })
    }

    /// A new index, beside the others or in place of them, and the log from a position and number on.
    fn checkpoint(
        &mut self,
        alloc: Global,
        combine: bool,
        index: Place,
        position: Position,
        next: u64,
    ) -> Result<(), AllocError>
        ensures ok { OnOk result (self.new ≡ specs.with_item self.old (Checkpoint combine index position next)) }
        ensures err { OnErr result (self.new ≡ self.old) }
    {
        let mut regions = Vec::with_capacity(alloc, 1)?;
        regions.push(Region {
            start: position,
            end: None,
            next,
            keys: copied_keys(&self.keys)?,
        })?;
        let mut indexes = Vec::with_capacity(alloc, 1)?;
        indexes.push(IndexRange {
            place: index,
            keys: copied_keys(&self.keys)?,
        })?;
        if !combine {
            indexes.append(&mut self.indexes.items)?;
        }
        self.indexes = IndexRanges { items: indexes };
        self.regions = Regions { items: regions };
        Ok(())
    }

    fn apply(&mut self, alloc: Global, item: MetaItem) -> Result<(), AllocError>
        ensures ok { OnOk result (self.new ≡ specs.with_item self.old item) }
        ensures err { OnErr result (self.new ≡ self.old) }
    {
        match item {
            MetaItem::Ranges { keys } => {
                self.keys = keys;
                Ok(())
            }
            MetaItem::Checkpoint {
                combine,
                index,
                position,
                next,
            } => self.checkpoint(alloc, combine, index, position, next),
            MetaItem::Regions {
                mut indexes,
                regions,
            } => {
                indexes.items.reverse();
                self.indexes = indexes;
                self.regions = regions;
                Ok(())
            }
            MetaItem::SplitStatus { .. } => Ok(()),
        }
    }

    /// Takes what the record of the next number says.
    fn take(&mut self, alloc: Global, item: MetaItem) -> Result<bool, BlockFault>
        requires { self.old.next + 1 < 2 ^ 64 }
        ensures ok { IfOk result (λ took. (took ≡ true) × (self.new ≡ specs.taken self.old item)) }
        ensures memory { IfErr result (λ e. e ≡ faults.Memory) }
        ensures err { OnErr result (self.new ≡ self.old) }
    {
        match self.apply(alloc, item) {
            Ok(()) => {
                self.next += 1;
                Ok(true)
            }
            Err(_full) => Err(BlockFault::Memory),
        }
    }

    /// Takes the record of the next number, and passes over one of a number below; whether it was taken. A record of a number
    /// above is refused `Damaged` (21), as is one after which no number is left; nothing has changed then, nor after
    /// `Memory` (22).
    pub fn fold(&mut self, alloc: Global, added: MetaRecord) -> Result<bool, BlockFault>
        ensures ok { IfOk result (λ took. specs.folded self.old added ≡ Some (took, self.new)) }
        ensures damaged { result ≡ Err faults.Damaged → specs.folded self.old added ≡ None }
        ensures err { OnErr result (self.new ≡ self.old) }
    {
        let MetaRecord { number, item } = added;
        if number == self.next && number < u64::MAX {
            return self.take(alloc, item);
        }
        drop(item);
        if number < self.next {
            Ok(false)
        } else {
            Err(BlockFault::Damaged)
        }
    }
}
