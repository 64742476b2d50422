//! The memory table.
ghost use Rattle.std.specs.Prelude.{◌≡◌, ℕ, List, [], Some, None, true, false, is_some, not, option_map, OnOk, OnErr};
ghost use Rattle.std.specs.Option.{option_copied};
ghost use Rattle.std.specs.List.{AllByRecursion};
ghost use Rattle.memtable.specs.Entries.{IsFit, AllFit, AreNumbered, found, latest, put_all};

use crate::cell::Cell;
use crate::cell_map::{CellMap, Cells};
use crate::key::Key;
use bytes::Bytes;
use std::alloc::{AllocError, Global};
use std::marker::Model;
use std::mem;

/// What rows keep of the keys that changed: a live layer, which changes go into, and perhaps a fixed one below it. Its
/// value is their entries in the order of the keys.
pub struct MemTable {
    live: CellMap,
    fixed: Option<CellMap>,
}

// Written out, so that a crate above that lets one go has no proof of what is in it.
impl Drop for MemTable {
    fn drop(self) {
        let MemTable { live: _, fixed: _ } = self;
    }
}

impl Model for MemTable {
    ghost use Rattle.std.specs.Prelude.{◌<◌, ◌^◌};
    ghost use Rattle.memtable.specs.Layers as specs;

    ghost Value = { specs.Layers };

    ghost view = { λ t. record { live = t.live; fixed = t.fixed } };

    // So many bytes can be counted.
    ghost invariant = { λ t. specs.layers_size (record { live = t.live; fixed = t.fixed }) < 2 ^ 64 };
}

impl MemTable {
    ghost use Rattle.memtable.specs.Layers as specs;

    /// A table with no entry and no fixed layer.
    pub fn new(alloc: Global) -> MemTable
        ensures { result ≡ record { live = []; fixed = None } }
    {
        MemTable {
            live: CellMap::new(alloc),
            fixed: None,
        }
    }

    /// Takes all changes into the live layer, from left to right, so that a later one of a key replaces an earlier.
    /// Where memory runs out (22) nothing has changed.
    pub fn apply(&mut self, alloc: Global, changes: Vec<(Bytes, Cell)>) -> Result<(), AllocError>
        requires { AllByRecursion IsFit changes.items }
        ensures entries { OnOk result (self.new.live ≡ put_all self.old.live changes.items) }

        // So of each key it has the last change.
        ensures live { OnOk result ((key : List ℕ) → found self.new.live key
            ≡ latest key changes.items (found self.old.live key)) }
        ensures fixed { self.new.fixed ≡ self.old.fixed }
        ensures err { OnErr result (self.new ≡ self.old) }
    {
        let beside = self.fixed_size();
        self.live.put_beside(alloc, beside, changes)
    }

    /// Fixes the live layer, below a new one with no entry, unless there is a fixed one already; then it answers `false`,
    /// and nothing has changed.
    pub fn freeze_layer(&mut self, alloc: Global) -> bool
        ensures answer { result ≡ not (is_some self.old.fixed) }
        ensures fixed { result ≡ true → self.new ≡ record { live = []; fixed = Some self.old.live } }
        ensures left { result ≡ false → self.new ≡ self.old }
    {
        if self.fixed.is_some() {
            return false;
        }
        let live = mem::replace(&mut self.live, CellMap::new(alloc));
        self.fixed = Some(live);
        true
    }

    /// Drops the fixed layer, if there is one.
    pub fn drop_layer(&mut self)
        ensures { self.new ≡ record { live = self.old.live; fixed = None } }
    {
        self.fixed = None;
    }

    /// The cell at a key: of the live layer, or else of the fixed one.
    pub fn get(&self, key: &Key) -> Option<&Cell>
        ensures { option_copied result ≡ specs.cell_at self.now key.now }
    {
        match self.live.get(key) {
            Some(cell) => Some(cell),
            None => match &self.fixed {
                None => None,
                Some(layer) => layer.get(key),
            },
        }
    }

    /// The live layer, for a walk through its entries in the order of their keys.
    pub fn live(&self) -> &Cells
        ensures value { result.now.entries ≡ self.now.live }
        ensures each { AllByRecursion IsFit result.now.entries }
        ensures numbered { AreNumbered result.now.entries }
    {
        self.live.entries()
    }

    /// The fixed layer, if there is one, for a walk through its entries in the order of their keys.
    pub fn fixed(&self) -> Option<&Cells>
        ensures value { option_map (λ layer. layer.now.entries) result ≡ self.now.fixed }
        ensures each { AllFit (option_map (λ layer. layer.now.entries) result) }
    {
        match &self.fixed {
            None => None,
            Some(layer) => Some(layer.entries()),
        }
    }

    /// How many bytes the entries of both layers have in a page.
    pub fn size(&self) -> u64
        ensures { result ≡ specs.layers_size self.now }
    {
        self.live.size() + self.fixed_size()
    }

    fn fixed_size(&self) -> u64
        ensures { result ≡ specs.size_of self.now.fixed }
    {
        match &self.fixed {
            None => 0,
            Some(layer) => layer.size(),
        }
    }
}
