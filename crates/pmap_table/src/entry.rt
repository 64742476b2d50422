//! One range of the table: where its keys begin, and what a record makes of it.
ghost use Rattle.std.specs.Prelude.{◌≡◌, ◌<◌, ◌^◌, suc, [], ◌∷◌, not, Some, IfSome, IsSome};
ghost use Rattle.std.specs.Cmp.Lexicographic.{slice_cmp};
ghost use Rattle.std.specs.Ordering.{nat_cmp, is_lt};
ghost use Rattle.model_partition.specs.Map.{assigned, dropped_if, halves, renewed, union};
ghost use Rattle.pmap_table.specs.MapTable.{next_generation, split_key};

use crate::pending_tests::is_merge_with;
use bytes::Bytes;
use metadata::KeyRange;
use model_partition::{Pending, RangeEntry};
use wire::{Fence, RangeId, ServerNo};

/// Whether its keys begin at this one or below.
pub(crate) fn begins_by(entry: &RangeEntry, key: &[u8]) -> bool
    ensures { result ≡ not (is_lt (slice_cmp nat_cmp key.now entry.now.keys.low)) }
{
    key.cmp(entry.keys.low.as_slice()).is_ge()
}

/// The generation of its next assignment, where one of 64 bits is left.
pub fn next_generation(entry: &RangeEntry) -> Option<Fence>
    ensures { result ≡ next_generation entry.now.generation }
{
    match entry.generation.0.checked_add(1) {
        None => None,
        Some(next) => Some(Fence(next)),
    }
}

/// Gives it to a server, under a generation one higher. The end of its lease never goes back.
pub(crate) fn assign_entry(entry: &mut RangeEntry, server: ServerNo, until: u64)
    requires { suc entry.old.generation < 2 ^ 64 }
    ensures { entry.new ≡ assigned server until entry.old }
{
    entry.generation = Fence(entry.generation.0 + 1);
    entry.holder = Some(server);
    renew_entry(entry, until);
}

/// Moves the end of its lease to this moment, where that is later.
pub(crate) fn renew_entry(entry: &mut RangeEntry, until: u64)
    ensures { entry.new ≡ renewed until entry.old }
{
    entry.until = entry.until.max(until);
}

/// Nothing is pending at it any more, where it is this range or its merge is with this one.
pub(crate) fn drop_if(entry: &mut RangeEntry, range: RangeId)
    ensures { entry.new ≡ dropped_if range entry.old }
{
    if entry.range == range || is_merge_with(&entry.pending, range) {
        entry.pending = None;
    }
}

/// Makes it the lower half of itself, where a split is pending, and answers the upper one. The key is a copy of the split's.
pub(crate) fn split_entry(entry: &mut RangeEntry, copy: Bytes) -> Option<RangeEntry>
    requires { split_key entry.old.pending ≡ Some copy }
    ensures halves { IfSome result (λ upper. halves entry.old entry.old.pending ≡ entry.new ∷ upper ∷ []) }
    ensures some { IsSome result }
{
    let Some(Pending::Split { key, low, high }) = entry.pending.take() else {
        return None;
    };
    let upper = RangeEntry {
        range: high,
        keys: KeyRange {
            low: key,
            high: entry.keys.high.take(),
        },
        generation: entry.generation,
        holder: None,
        until: 0,
        pending: None,
    };
    entry.range = low;
    entry.keys.high = Some(copy);
    entry.holder = None;
    entry.until = 0;
    Some(upper)
}

/// Makes it all keys of itself and of the range behind it, under a number of their own.
pub(crate) fn unite(entry: &mut RangeEntry, mut right: RangeEntry, into: RangeId)
    ensures { entry.new ≡ union entry.old right into }
{
    entry.range = into;
    entry.keys.high = right.keys.high.take();
    entry.generation = Fence(entry.generation.0.max(right.generation.0));
    entry.holder = None;
    entry.until = 0;
    entry.pending = None;
}
