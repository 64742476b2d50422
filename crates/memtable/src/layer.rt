//! One layer, as a map.
ghost use Rattle.std.specs.Prelude.{◌≡◌, ◌+◌, ◌<◌, ◌≤◌, ◌^◌, ℕ, List, IfOk, OnOk, OnErr, if◌then◌else◌};
ghost use Rattle.std.specs.List.{AllByRecursion};
ghost use Rattle.std.specs.BTreeMap.{is_at, insert_entry};
ghost use Rattle.memtable.specs.Cell.{IsEntry, IsNumbered};
ghost use Rattle.memtable.specs.Entries as specs;

use crate::cell::{Cell, entry_size};
use crate::cell_map::Cells;
use crate::key::Key;
use bytes::Bytes;
use std::alloc::{AllocError, Global};

/// A key and its cell before a change of it.
type Undo = (Key, Option<Cell>);

/// Puts the cell at the key, and adds how the key was. It answers the size with the entry, of a size with the layer.
fn put(
    layer: &mut Cells,
    undos: &mut Vec<Undo>,
    size: u64,
    key: Key,
    cell: Cell,
) -> Result<u64, AllocError>
    requires fits { IsEntry key cell }
    requires size { specs.entries_size layer.old.entries ≤ size }
    ensures entries { OnOk result (layer.new.entries ≡ insert_entry specs.key_cmp layer.old.entries key cell) }
    ensures found { OnOk result ((q : List ℕ) → specs.found layer.new.entries q
        ≡ (if is_at (specs.key_cmp key) q then Some cell else specs.found layer.old.entries q)) }
    ensures size { IfOk result (λ n. n + specs.entries_size layer.old.entries ≡ size + specs.entries_size layer.new.entries) }
    ensures undos { OnOk result (specs.all_taken_back undos.new.items layer.new.entries
        ≡ specs.all_taken_back undos.old.items layer.old.entries) }
    ensures numbered { OnOk result (IsNumbered cell) }
    ensures err_layer { OnErr result (layer.new.entries ≡ layer.old.entries) }
    ensures err_undos { OnErr result (undos.new.items ≡ undos.old.items) }
{
    let added = entry_size(&key, &cell);
    let Some(grown) = size.checked_add(added) else {
        return Err(AllocError);
    };
    undos.reserve(1)?;
    let back = key.clone()?;
    match layer.insert(key, cell) {
        Ok(old) => {
            let less = old_size(&back, &old);
            undos.push_reserved((back, old));
            Ok(grown - less)
        }
        Err(_) => Err(AllocError),
    }
}

/// The size of the entry that was at the key.
fn old_size(key: &Key, old: &Option<Cell>) -> u64
    requires { specs.old_size key.now old.now < 2 ^ 64 }
    ensures { result ≡ specs.old_size key.now old.now }
{
    match old {
        None => 0,
        Some(cell) => entry_size(key, cell),
    }
}

/// Takes one change back.
fn take_back(layer: &mut Cells, key: Key, old: Option<Cell>)
    ensures { layer.new.entries ≡ specs.taken_back (key, old) layer.old.entries }
{
    match old {
        None => drop(layer.remove(&key)),
        Some(cell) => {
            if layer.contains_key(&key) {
                // The key is there, so that this takes no memory.
                let _ = layer.insert(key, cell);
            }
        }
    }
}

/// Takes changes back, the last one first.
fn take_all_back(layer: &mut Cells, mut undos: Vec<Undo>)
    ensures { layer.new.entries ≡ specs.all_taken_back undos.items layer.old.entries }
{
    while let Some((key, old)) = undos.pop() {
        take_back(layer, key, old);
    }
}

/// Puts all changes, from left to right; where memory runs out none. It answers the size with them, of a size with the layer.
pub(crate) fn put_all(
    alloc: Global,
    layer: &mut Cells,
    size: u64,
    changes: Vec<(Bytes, Cell)>,
) -> Result<u64, AllocError>
    requires fits { AllByRecursion specs.IsFit changes.items }
    requires size { specs.entries_size layer.old.entries ≤ size }
    ensures entries { OnOk result (layer.new.entries ≡ specs.put_all layer.old.entries changes.items) }
    ensures found { OnOk result ((q : List ℕ) → specs.found layer.new.entries q
        ≡ specs.latest q changes.items (specs.found layer.old.entries q)) }
    ensures size { IfOk result (λ n. n + specs.entries_size layer.old.entries ≡ size + specs.entries_size layer.new.entries) }
    ensures numbered { OnOk result (specs.AreNumbered layer.old.entries → specs.AreNumbered layer.new.entries) }
    ensures err { OnErr result (layer.new.entries ≡ layer.old.entries) }
{
    let mut undos = Vec::new(alloc);
    let mut grown = size;
    for (key, cell) in changes {
        match put(layer, &mut undos, grown, Key::of(key), cell) {
            Ok(next) => grown = next,
            Err(_) => {
                take_all_back(layer, undos);
                return Err(AllocError);
            }
        }
    }
    Ok(grown)
}
