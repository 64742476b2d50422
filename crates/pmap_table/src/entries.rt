//! What a record makes of the ranges.
ghost use Rattle.std.specs.Prelude.{◌≡◌, ◌≤◌, ◌<◌, suc, true, length, map, vec_len, vec_capacity, None, Some, IfNone, IfSome, option_and_then, option_map};
ghost use Rattle.model_partition.specs.Map.{assigned, changed_if, dropped_if, merge_in, range_at, renewed, split_in, union_at, with_pending};
ghost use Rattle.model_partition.specs.Partition.{uses};
ghost use Rattle.model_partition.specs.Replay.{may_assign};
ghost use Rattle.pmap_table.specs.MapTable.{IsPlaceOf, split_key};

use crate::entry::{assign_entry, drop_if, renew_entry, split_entry, unite};
use crate::pending_tests::union_with;
use bytes::Bytes;
use model_partition::{Pending, RangeEntry};
use wire::{RangeId, ServerNo};

/// Where the range of a number stands.
pub(crate) fn place_of(entries: &[RangeEntry], range: RangeId) -> Option<usize>
    ensures place { IfSome result (IsPlaceOf entries.now range) }
    ensures within { IfSome result (λ place. place < length entries.now) }
    ensures none { IfNone result (range_at entries.now range ≡ None) }
{
    entries.iter().position(|entry| entry.range == range)
}

/// Where a merge of two ranges is pending, and the right one stands behind the left one: where that stands, and the number of
/// what they become.
pub(crate) fn union_place(
    entries: &[RangeEntry],
    left: RangeId,
    right: RangeId,
) -> Option<(usize, RangeId)>
    ensures place { IfSome result (λ x. IsPlaceOf entries.now left x.0) }
    ensures within { IfSome result (λ x. suc x.0 < length entries.now) }
    ensures into { option_map (λ x. x.1) result ≡ union_at entries.now left right }
{
    let Some(place) = place_of(entries, left) else {
        return None;
    };
    if place + 1 == entries.len() {
        return None;
    }
    if entries[place + 1].range != right {
        return None;
    }
    match union_with(&entries[place].pending, right) {
        None => None,
        Some(into) => Some((place, into)),
    }
}

/// Nothing is pending at the range of a number any more, and no merge with it.
pub(crate) fn drop_pending(entries: &mut Vec<RangeEntry>, range: RangeId)
    ensures { entries.new.items ≡ map (dropped_if range) entries.old.items }
{
    drop_in_each(entries, range);
}

fn drop_in_each(entries: &mut [RangeEntry], range: RangeId)
    ensures { entries.new ≡ map (dropped_if range) entries.old }
{
    for entry in entries.iter_mut() {
        drop_if(entry, range);
    }
}

/// Gives the range of a number to a server, under a generation one higher.
pub(crate) fn assign(entries: &mut Vec<RangeEntry>, range: RangeId, server: ServerNo, until: u64)
    requires may { may_assign (range_at entries.old.items range) ≡ true }
    requires once { uses range entries.old.items ≤ 1 }
    ensures { entries.new.items ≡ map (changed_if range (assigned server until)) entries.old.items }
{
    if let Some(place) = place_of(entries, range) {
        assign_entry(&mut entries[place], server, until);
    }
}

/// Moves the end of the lease of the range of a number.
pub(crate) fn renew(entries: &mut Vec<RangeEntry>, range: RangeId, until: u64)
    requires once { uses range entries.old.items ≤ 1 }
    ensures { entries.new.items ≡ map (changed_if range (renewed until)) entries.old.items }
{
    if let Some(place) = place_of(entries, range) {
        renew_entry(&mut entries[place], until);
    }
}

/// Begins something at the range of a number.
pub(crate) fn begin(entries: &mut Vec<RangeEntry>, range: RangeId, pending: Pending)
    requires once { uses range entries.old.items ≤ 1 }
    ensures { entries.new.items ≡ map (changed_if range (with_pending pending)) entries.old.items }
{
    if let Some(place) = place_of(entries, range) {
        entries[place].pending = Some(pending);
    }
}

/// Puts the halves of the range of a number in its place, into room that was made. The key is a copy of that of its split.
pub(crate) fn split(entries: &mut Vec<RangeEntry>, range: RangeId, copy: Bytes)
    requires pending { option_and_then (λ r. split_key r.pending) (range_at entries.old.items range) ≡ Some copy }
    requires room { vec_len entries.old < vec_capacity entries.old }
    ensures { entries.new.items ≡ split_in entries.old.items range }
{
    if let Some(place) = place_of(entries, range) {
        if let Some(upper) = split_entry(&mut entries[place], copy) {
            // It does not fail: there is room.
            let _room_was_made = entries.insert(place + 1, upper);
        }
    }
}

/// Makes one of two ranges, where their merge is pending and they stand side by side.
pub(crate) fn merge(entries: &mut Vec<RangeEntry>, left: RangeId, right: RangeId)
    ensures { entries.new.items ≡ merge_in entries.old.items left right }
{
    if let Some(found) = union_place(entries, left, right) {
        let removed = entries.remove(found.0 + 1);
        unite(&mut entries[found.0], removed, found.1);
    }
}
