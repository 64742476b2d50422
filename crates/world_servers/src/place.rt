//! What observations show of a place.
ghost use Rattle.std.specs.Prelude.{◌≡◌, ◌&&◌, ◌+◌, ◌<◌, ◌^◌, ◌∷◌, ℕ, List, nat_le, IfOk};
ghost use Rattle.replica.specs.Groups.{joined, text, text_length};
ghost use Rattle.model_partition.specs.Servers.{part, shown_in, first_shown};
ghost use Rattle.world_servers.specs.Seen.{shown_at, IsIndex};

use crate::seen::SeenByExtent;
use block_types::Group;
use bytes::Bytes;
use memtable::Place;
use replica::{part_of_group, part_of_text};
use std::alloc::{AllocError, Global};
use wire::Note;

/// Whether so many bytes from an offset on cover the place.
fn covers(offset: u64, count: u64, place: &Place) -> bool
    requires { offset + count < 2 ^ 64 }
    ensures { result ≡ (nat_le offset place.now.offset && nat_le (place.now.offset + place.now.length) (offset + count)) }
{
    let start = u64::from(place.offset);
    offset <= start && start + u64::from(place.length) <= offset + count
}

/// What shows of the place shares the buffer of the bytes.
fn in_bytes(offset: u32, bytes: &Bytes, place: &Place) -> Result<Option<Bytes>, AllocError>
    ensures { IfOk result (λ shown. shown ≡ part offset bytes.now place.now) }
{
    if !covers(u64::from(offset), bytes.len() as u64, place) {
        return Ok(None);
    }
    let from = (place.offset - offset) as usize;
    Ok(Some(bytes.slice(from..from + place.length as usize)?))
}

#[tactic(auto, using(crate::proofs::GroupReach::counted_is))]
fn in_group(
    alloc: Global,
    offset: u32,
    group: &Group,
    place: &Place,
) -> Result<Option<Bytes>, AllocError>
    ensures { IfOk result (λ shown. shown ≡ part offset (joined group.now) place.now) }
{
    if !covers(u64::from(offset), u64::from(group.size()), place) {
        return Ok(None);
    }
    let from = (place.offset - offset) as usize;
    Ok(Some(part_of_group(alloc, group, from, place.length as usize)?))
}

/// How many bytes are to be there after a group.
#[tactic(auto, using(crate::proofs::GroupReach::less))]
fn behind(end: u64, group: &Group) -> u64
    ensures { (groups : List (List (List ℕ))) → nat_le end (text_length (group.now ∷ groups)) ≡ nat_le result (text_length groups) }
{
    end.saturating_sub(u64::from(group.size()))
}

/// Whether groups have so many bytes.
fn reach(groups: &[Group], end: u64) -> bool
    ensures { result ≡ nat_le end (text_length groups.now) }
{
    let mut left = end;
    for group in groups {
        left = behind(left, group);
    }
    left == 0
}

fn in_groups(alloc: Global, groups: &[Group], place: &Place) -> Result<Option<Bytes>, AllocError>
    ensures { IfOk result (λ shown. shown ≡ part 0 (text groups.now) place.now) }
{
    if !reach(groups, u64::from(place.offset) + u64::from(place.length)) {
        return Ok(None);
    }
    Ok(Some(part_of_text(alloc, groups, place.offset as usize, place.length as usize)?))
}

/// What an observation shows of a place, if it covers it.
fn shown_in(alloc: Global, note: &Note, place: &Place) -> Result<Option<Bytes>, AllocError>
    ensures { IfOk result (λ shown. shown ≡ shown_in note.now place.now) }
{
    match note {
        Note::Acked {
            extent,
            offset,
            group,
        } => {
            if *extent == place.extent {
                in_group(alloc, *offset, group, place)
            } else {
                Ok(None)
            }
        }
        Note::Content { extent, groups, .. } => {
            if *extent == place.extent {
                in_groups(alloc, &groups.items, place)
            } else {
                Ok(None)
            }
        }
        Note::Seen {
            extent,
            offset,
            bytes,
            ..
        } => {
            if *extent == place.extent {
                in_bytes(*offset, bytes, place)
            } else {
                Ok(None)
            }
        }
        Note::SealedAt { .. } => Ok(None),
        Note::Began { .. } => Ok(None),
        Note::Done { .. } => Ok(None),
        Note::Loaded { .. } => Ok(None),
        Note::Got { .. } => Ok(None),
        Note::Split { .. } => Ok(None),
        Note::Merged { .. } => Ok(None),
    }
}

/// What the observation of this number shows of a place, if there is one that covers it.
fn shown_at(
    alloc: Global,
    notes: &[Note],
    at: usize,
    place: &Place,
) -> Result<Option<Bytes>, AllocError>
    ensures { IfOk result (λ shown. shown ≡ shown_at notes.now at place.now) }
{
    match notes.get(at) {
        None => Ok(None),
        Some(note) => shown_in(alloc, note, place),
    }
}

/// What the earliest observation that covers the place shows of it. Only those of its extent are looked at, which the index
/// has. An error is out of memory (22).
pub(crate) fn first_shown(
    alloc: Global,
    notes: &[Note],
    seen: &SeenByExtent,
    place: &Place,
) -> Result<Option<Bytes>, AllocError>
    requires { IsIndex notes.now seen.now }
    ensures { IfOk result (λ shown. shown ≡ first_shown notes.now place.now) }
{
    for at in seen.places(place.extent) {
        match shown_at(alloc, notes, *at, place)? {
            Some(value) => return Ok(Some(value)),
            None => {}
        }
    }
    Ok(None)
}
