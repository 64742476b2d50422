//! What a Get uses of what is held.
ghost use Rattle.std.specs.Prelude.{◌≡◌, option_copied, IfOk};
ghost use Rattle.std.specs.List.{AllByRecursion};
ghost use Rattle.checkpoint.specs.Lookup.{HasIndex};
ghost use Rattle.range_reads.specs.Caching as specs;
ghost use Rattle.model_partition.specs.Getting.{found_cell, pages_of_key as pages_with, used_all};

use crate::adding::push_some;
use crate::value_cache::ValueCache;
use checkpoint::{InstalledIndex, InstalledIndexes, Lookup, page_for};
use memtable::{Cell, Place};
use std::alloc::{AllocError, Global};

/// The pages that may have a key, one of each index within whose keys it is, the newest first.
fn pages_of_key(
    alloc: Global,
    indexes: &[InstalledIndex],
    key: &[u8],
) -> Result<Vec<Place>, AllocError>
    requires { AllByRecursion HasIndex indexes.now }
    ensures { IfOk result (λ places. places.items ≡ pages_with indexes.now key.now) }
{
    let mut places = Vec::new(alloc);
    for one in indexes {
        if one.keys.contains(key) {
            push_some(&mut places, page_for(one.index.pages.as_slice(), key))?;
        }
    }
    Ok(places)
}

/// The pages that a look-up uses: none where the memory table has the key.
pub(crate) fn pages_used(
    alloc: Global,
    indexes: &InstalledIndexes,
    key: &[u8],
    cell: Option<&Cell>,
) -> Result<Vec<Place>, AllocError>
    ensures { IfOk result (λ places. places.items ≡ specs.pages_used indexes.now key.now (option_copied cell.entry)) }
{
    match cell {
        Some(_) => Ok(Vec::new(alloc)),
        None => pages_of_key(alloc, indexes.as_slice(), key),
    }
}

/// The place of the value that was found, if it stands elsewhere.
pub(crate) fn value_used(found: &Lookup) -> Option<Place>
    ensures { result ≡ specs.placed (found_cell found.now) }
{
    match found {
        Lookup::Found(cell) => match cell {
            Cell::Placed(place) => Some(*place),
            _ => None,
        },
        _ => None,
    }
}

/// What stands at these places becomes the most recently used, in this order.
pub(crate) fn promote_each(held: &mut ValueCache, places: &[Place])
    ensures { held.new ≡ used_all held.old places.now }
{
    for place in places {
        held.promote(place);
    }
}

/// What stands at a place becomes the most recently used, if there is one.
pub(crate) fn promote_some(held: &mut ValueCache, place: &Option<Place>)
    ensures { held.new ≡ specs.used_at held.old place.now }
{
    if let Some(place) = place {
        held.promote(place);
    }
}
