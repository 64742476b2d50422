//! Keys and their cells, with how large they are.
ghost use Rattle.std.specs.Prelude.{◌≡◌, ◌+◌, ◌<◌, ◌^◌, ℕ, List, [], IfOk, OnOk, OnErr};
ghost use Rattle.std.specs.Option.{option_copied};
ghost use Rattle.std.specs.List.{AllByRecursion};
ghost use Rattle.memtable.specs.Entries as specs;

use crate::cell::Cell;
use crate::key::Key;
use crate::layer::put_all;
use bytes::Bytes;
use std::alloc::{AllocError, Global};
use std::collections::BTreeMap;
use std::marker::Model;

/// Keys and their cells, in the order of the keys.
pub type Cells = BTreeMap<Key, Cell>;

/// A map from keys to cells. Its value is its entries in the order of the keys.
pub struct CellMap {
    entries: Cells,
    size: u64,
}

// Written out, so that a crate above that lets one go has no proof of what is in it.
impl Drop for CellMap {
    fn drop(self) {
        let CellMap {
            entries: _,
            size: _,
        } = self;
    }
}

impl Model for CellMap {
    ghost use Rattle.std.specs.Prelude.{◌≡◌};
    ghost use Rattle.std.specs.List.{AllByRecursion};
    ghost use Rattle.memtable.specs.Entries as specs;

    ghost Value = { specs.Entries };

    ghost view = { λ m. m.entries.entries };

    // Its size is known, each entry is one that a row may have, and the numbers of extents have 64 bits.
    ghost invariant = { λ m. (m.size ≡ specs.entries_size m.entries.entries) × (AllByRecursion specs.IsFit m.entries.entries × specs.AreNumbered m.entries.entries) };
}

impl CellMap {
    /// A map with no entry.
    pub fn new(alloc: Global) -> CellMap
        ensures { result ≡ [] }
    {
        CellMap {
            entries: BTreeMap::new(alloc),
            size: 0,
        }
    }

    /// Takes all changes, from left to right, so that a later one of a key replaces an earlier. Where memory runs out (22)
    /// nothing has changed.
    pub fn put_all(&mut self, alloc: Global, changes: Vec<(Bytes, Cell)>) -> Result<(), AllocError>
        requires { AllByRecursion specs.IsFit changes.items }
        ensures entries { OnOk result (self.new ≡ specs.put_all self.old changes.items) }

        // So of each key it has the last change.
        ensures found { OnOk result ((key : List ℕ) → specs.found self.new key ≡ specs.latest key changes.items (specs.found self.old key)) }
        ensures err { OnErr result (self.new ≡ self.old) }
    {
        self.size = put_all(alloc, &mut self.entries, self.size, changes)?;
        Ok(())
    }

    /// The same, of a map that is counted together with so many other bytes: together they stay below 2^64.
    pub(crate) fn put_beside(
        &mut self,
        alloc: Global,
        beside: u64,
        changes: Vec<(Bytes, Cell)>,
    ) -> Result<(), AllocError>
        requires fits { AllByRecursion specs.IsFit changes.items }
        requires together { specs.entries_size self.old + beside < 2 ^ 64 }
        ensures entries { OnOk result (self.new ≡ specs.put_all self.old changes.items) }
        ensures found { OnOk result ((key : List ℕ) → specs.found self.new key ≡ specs.latest key changes.items (specs.found self.old key)) }
        ensures together { OnOk result (specs.entries_size self.new + beside < 2 ^ 64) }
        ensures err { OnErr result (self.new ≡ self.old) }
    {
        let all = put_all(alloc, &mut self.entries, self.size + beside, changes)?;
        self.size = all - beside;
        Ok(())
    }

    /// The cell at a key.
    pub fn get(&self, key: &Key) -> Option<&Cell>
        ensures { option_copied result ≡ specs.found self.now key.now }
    {
        self.entries.get(key)
    }

    /// Its entries, for a walk through them in the order of their keys.
    pub fn entries(&self) -> &Cells
        ensures value { result.now.entries ≡ self.now }
        ensures each { AllByRecursion specs.IsFit result.now.entries }
        ensures numbered { specs.AreNumbered result.now.entries }
    {
        &self.entries
    }

    /// How many bytes its entries have in a page.
    pub fn size(&self) -> u64
        ensures { result ≡ specs.entries_size self.now }
    {
        self.size
    }
}
