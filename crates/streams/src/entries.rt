//! Streams in the order of their names.
ghost use Rattle.std.specs.Prelude.{◌≡◌, ◌<◌, ◌-◌, suc, [], OnOk, IfOk, IfErr, option_map, vec_len, vec_capacity, true, ◌≤◌, length, slice_index_or};
ghost use Rattle.streams.specs.Streams.{kind_number, with_stream, extended, opened, leaving, trimmed};
ghost use Rattle.streams.specs.Table.{IsStrictlySorted, IsAt, IsGapFor, key_of, found, streams_in, fenced, Entry, HasRoomIn, HasRoomToTrimIn, IsKept, streams_over};

use crate::listed::{Listed, key_of};
use std::alloc::AllocError;
use wire::{ExtentId, Fence, RangeId, StreamKind, StreamName};

/// Where the stream of a name is, or where it would go.
fn search(entries: &Vec<Listed>, name: &StreamName) -> Result<usize, usize>
    requires sorted { IsStrictlySorted entries.now.items }
    ensures found { IfOk result (IsAt entries.now.items (key_of name.now)) }
    ensures absent { IfErr result (IsGapFor entries.now.items (key_of name.now)) }
{
    let key = key_of(*name);
    entries.binary_search_by_key(&key, |listed| listed.key())
}

/// The stream of a name, if there is one.
pub(crate) fn find<'a>(entries: &'a Vec<Listed>, name: &StreamName) -> Option<&'a Listed>
    requires sorted { IsStrictlySorted entries.now.items }
    ensures { option_map (λ x. x.now) result ≡ found entries.now.items name.now.range (kind_number name.now.kind) }
{
    match search(entries, name) {
        Ok(at) => Some(&entries[at]),
        Err(_) => None,
    }
}

/// Puts a stream under its name, into room that was made. It takes the place of the one that there was.
pub(crate) fn put(entries: &mut Vec<Listed>, listed: Listed)
    requires sorted { IsStrictlySorted entries.old.items }
    requires room { vec_len entries.old < vec_capacity entries.old }
    ensures sorted { IsStrictlySorted entries.new.items }
    ensures streams { streams_in entries.new.items ≡ with_stream (streams_in entries.old.items) listed.name listed.stream }
    ensures room { vec_capacity entries.old - vec_len entries.old ≤ suc (vec_capacity entries.new - vec_len entries.new) }
{
    match search(entries, listed.name()) {
        Ok(at) => entries[at] = listed,
        Err(at) => {
            // It does not fail: there is room.
            let _room_was_made = entries.insert(at, listed);
        }
    }
}

/// Puts all of these streams under their names, into room that was made, the first over those behind it.
pub(crate) fn put_all(entries: &mut Vec<Listed>, others: &mut Vec<Listed>)
    requires sorted { IsStrictlySorted entries.old.items }
    requires room { vec_len others.old ≤ vec_capacity entries.old - vec_len entries.old }
    ensures sorted { IsStrictlySorted entries.new.items }
    ensures streams { streams_in entries.new.items ≡ streams_over (streams_in others.old.items) (streams_in entries.old.items) }
    ensures empty { others.new.items ≡ [] }
{
    while let Some(listed) = others.pop() {
        put(entries, listed);
    }
}

/// Gives a stream another fence, where there is the stream.
pub(crate) fn set_fence(entries: &mut Vec<Listed>, name: &StreamName, fence: Fence)
    requires sorted { IsStrictlySorted entries.old.items }
    ensures sorted { IsStrictlySorted entries.new.items }
    ensures streams { streams_in entries.new.items ≡ fenced (streams_in entries.old.items) name.now fence }
{
    match search(entries, name) {
        Ok(at) => entries[at].set_fence(fence),
        Err(_) => {}
    }
}

/// Gives those of the four streams of a range that there are another fence.
pub(crate) fn raise(entries: &mut Vec<Listed>, range: RangeId, generation: Fence)
    requires sorted { IsStrictlySorted entries.old.items }
    ensures sorted { IsStrictlySorted entries.new.items }
    ensures streams { streams_in entries.new.items ≡ opened (streams_in entries.old.items) range generation }
{
    let kind = StreamKind::Metadata;
    set_fence(entries, &StreamName { range, kind }, generation);
    let kind = StreamKind::Log;
    set_fence(entries, &StreamName { range, kind }, generation);
    let kind = StreamKind::RowData;
    set_fence(entries, &StreamName { range, kind }, generation);
    let kind = StreamKind::BlobData;
    set_fence(entries, &StreamName { range, kind }, generation);
}

/// Makes room for one more extent at the end of a stream, where there is the stream. Without memory nothing has changed
/// but room.
pub(crate) fn reserve_extent(entries: &mut Vec<Listed>, name: &StreamName) -> Result<(), AllocError>
    requires sorted { IsStrictlySorted entries.old.items }
    ensures sorted { IsStrictlySorted entries.new.items }
    ensures streams { streams_in entries.new.items ≡ streams_in entries.old.items }
    ensures room { OnOk result (HasRoomIn entries.new.items name.now) }
{
    match search(entries, name) {
        Ok(at) => entries[at].reserve(1),
        Err(_) => Ok(()),
    }
}

/// Adds an extent at the end of a stream, where there is the stream, into room that was made.
pub(crate) fn push_extent(entries: &mut Vec<Listed>, name: &StreamName, extent: ExtentId)
    requires sorted { IsStrictlySorted entries.old.items }
    requires room { HasRoomIn entries.old.items name.now }
    ensures sorted { IsStrictlySorted entries.new.items }
    ensures streams { streams_in entries.new.items ≡ extended (streams_in entries.old.items) name.now extent }
{
    match search(entries, name) {
        Ok(at) => entries[at].push(extent),
        Err(_) => {}
    }
}

/// Makes room for the extents of a range's log below an index at the end of its blob stream, where there are both. Without
/// memory nothing has changed but room.
pub(crate) fn reserve_trim(
    entries: &mut Vec<Listed>,
    range: RangeId,
    before: u64,
) -> Result<(), AllocError>
    requires sorted { IsStrictlySorted entries.old.items }
    ensures sorted { IsStrictlySorted entries.new.items }
    ensures streams { streams_in entries.new.items ≡ streams_in entries.old.items }
    ensures room { OnOk result (HasRoomToTrimIn entries.new.items range before) }
{
    let kind = StreamKind::Log;
    let count = match find(entries, &StreamName { range, kind }) {
        None => 0,
        Some(log) => log.leaving(before).len(),
    };
    let kind = StreamKind::BlobData;
    match search(entries, &StreamName { range, kind }) {
        Ok(at) => entries[at].reserve(count),
        Err(_) => Ok(()),
    }
}

/// Adds the extents of a stream below an index at the end of a later one, into room that was made.
fn keep(entries: &mut Vec<Listed>, from: usize, to: usize, before: u64)
    requires order { from < to }
    requires in_range { to < vec_len entries.old }
    requires room { (d : Entry) → let log = slice_index_or entries.old.items from d in
        let x = slice_index_or entries.old.items to d in length (leaving before log.stream) ≤ x.room }
    ensures { IsKept entries.old.items entries.new.items from to before }
{
    let (front, back) = entries.split_at_mut(to);
    back[0].extend(front[from].leaving(before));
}

/// Lets the extents of a range's log below an index leave it, where there are the log and the blob stream. If they are to be
/// kept they then stand at the end of the blob stream, in room that was made.
pub(crate) fn cut(entries: &mut Vec<Listed>, range: RangeId, before: u64, to_blob: bool)
    requires sorted { IsStrictlySorted entries.old.items }
    requires room { to_blob ≡ true → HasRoomToTrimIn entries.old.items range before }
    ensures sorted { IsStrictlySorted entries.new.items }
    ensures streams { streams_in entries.new.items ≡ trimmed (streams_in entries.old.items) range before to_blob }
{
    let kind = StreamKind::Log;
    let Ok(log) = search(entries, &StreamName { range, kind }) else {
        return;
    };
    let kind = StreamKind::BlobData;
    let Ok(blob_data) = search(entries, &StreamName { range, kind }) else {
        return;
    };
    if to_blob {
        keep(entries, log, blob_data, before);
    }
    entries[log].cut(before);
}
