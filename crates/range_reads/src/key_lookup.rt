//! The look-up of a key, and what it asks for.
ghost use Rattle.std.specs.Prelude.{◌≡◌, option_copied, IfOk};
ghost use Rattle.range_reads.specs.Looking as specs;
ghost use Rattle.model_partition.specs.Getting.{held_at, indexed_value, value_in as value_of};

use crate::asking::Asking;
use crate::cache_view::CacheView;
use bytes::Bytes;
use checkpoint::{Lookup, Pages, lookup};
use memtable::{Cell, Place};
use std::alloc::AllocError;

/// What a look-up gives.
#[derive(Drop)]
pub(crate) enum Found {
    /// A value, or that there is none.
    Is(Option<Bytes>),
    /// The place of a page or of a value that is to be read.
    Needs { page: bool, place: Place },
}

/// What a key has: the cell of the memory table, or else what the indexes say. An error is out of memory.
pub(crate) fn newest_cell(
    asking: &Asking<'_>,
    view: &CacheView<'_>,
    key: &[u8],
    cell: Option<&Cell>,
) -> Result<Lookup, AllocError>
    ensures { IfOk result (λ found. found
        ≡ specs.newest_cell (held_at (specs.view_content view.now)) asking.now.indexes.now key.now (option_copied cell.entry)) }
{
    if let Some(newest) = cell {
        return Ok(Lookup::of(newest.copy()?));
    }
    lookup(asking.indexes.as_slice(), view, key)
}

/// The value of a cell, which shares its bytes.
fn value_in(view: &CacheView<'_>, cell: &Cell) -> Result<Found, AllocError>
    ensures { IfOk result (λ found. specs.lookup_of found ≡ value_of (specs.view_content view.now) cell.now) }
{
    match cell {
        Cell::Deleted => Ok(Found::Is(None)),
        Cell::Inline(value) => Ok(Found::Is(Some(value.clone()?))),
        Cell::Placed(place) => match view.page(place) {
            None => Ok(Found::Needs {
                page: false,
                place: *place,
            }),
            Some(value) => Ok(Found::Is(Some(value.clone()?))),
        },
    }
}

/// The value of what a key has, which shares its bytes, or the place that is to be read first. An error is out of memory.
pub(crate) fn value_or_place(view: &CacheView<'_>, found: &Lookup) -> Result<Found, AllocError>
    ensures { IfOk result (λ value. specs.lookup_of value ≡ indexed_value (specs.view_content view.now) found.now) }
{
    match found {
        Lookup::Absent => Ok(Found::Is(None)),
        Lookup::Found(cell) => value_in(view, cell),
        Lookup::Need(place) => Ok(Found::Needs {
            page: true,
            place: *place,
        }),
    }
}
