//! What is shown of a range, made of copies that share their bytes.
ghost use Rattle.std.specs.Prelude.{◌≡◌, [], IfOk};

use bytes::Bytes;
use checkpoint::{InstalledIndex, InstalledIndexes};
use checkpoint_format::Index;
use memtable::{Cell, MemTable};
use metadata::copied_keys;
use model_partition::Entries;
use std::alloc::{AllocError, Global};
use wire::{StreamExtents, StreamList};

/// The same stream again.
pub(crate) fn copied_list(alloc: Global, list: &StreamList) -> Result<StreamList, AllocError>
    ensures { IfOk result (λ copy. copy ≡ list.now) }
{
    let mut extents = Vec::new(alloc);
    extents.extend_from_slice(&list.extents.items)?;
    Ok(StreamList {
        base: list.base,
        extents: StreamExtents { items: extents },
    })
}

/// A stream of no extent.
pub(crate) fn no_list(alloc: Global) -> StreamList
    ensures { result ≡ record { base = 0; extents = [] } }
{
    StreamList {
        base: 0,
        extents: StreamExtents {
            items: Vec::new(alloc),
        },
    }
}

/// The entries of the live layer, which share their bytes.
pub(crate) fn live_entries(alloc: Global, table: &MemTable) -> Result<Entries, AllocError>
    ensures { IfOk result (λ entries. entries ≡ table.now.live) }
{
    let live = table.live();
    let mut copies: Vec<(Bytes, Cell)> = Vec::with_capacity(alloc, live.len())?;
    for (key, cell) in live {
        copies.push((key.bytes().clone()?, cell.copy()?))?;
    }
    Ok(Entries { items: copies })
}

/// The same index again, which shares its keys.
fn copied_index(alloc: Global, one: &InstalledIndex) -> Result<InstalledIndex, AllocError>
    ensures { IfOk result (λ copy. copy ≡ one.now) }
{
    let keys = copied_keys(&one.keys)?;
    let pages = one.index.pages.copy(alloc)?;
    Ok(InstalledIndex {
        place: one.place,
        keys,
        index: Index {
            pages,
            has_place: one.index.has_place,
        },
    })
}

/// The same indexes again, which share their keys.
pub(crate) fn copied_installed(
    alloc: Global,
    indexes: &InstalledIndexes,
) -> Result<InstalledIndexes, AllocError>
    ensures { IfOk result (λ copies. copies ≡ indexes.now) }
{
    let all = indexes.as_slice();
    let mut copies: Vec<InstalledIndex> = Vec::with_capacity(alloc, all.len())?;
    for one in all {
        copies.push(copied_index(alloc, one)?)?;
    }
    Ok(InstalledIndexes::of(copies))
}
