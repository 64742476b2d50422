//! The search for the first observation that breaks what the earlier ones say.
ghost use Rattle.std.specs.Prelude.{◌≡◌, ◌<◌, ◌≤◌, ◌↔◌, suc, take, length, slice_index, Some, None, IfNone, IfSome, IfOk};
ghost use Rattle.std.specs.Bool.{Decides};
ghost use Rattle.world_checker.specs.Checking.{extent_of, IsHonest, AllMeet, MeetsFrom};
ghost use Rattle.world_checker.specs.Links.{LeadOverMet, IsIndex};
ghost use Rattle.world_checker.specs.Starts.{AreAllStarts};

use crate::index::{Sought, extent_of, links_of};
use crate::starts::{are_compatible, starts_at, starts_of};
use crate::telling::agreed;
use crate::told::is_told;
use std::alloc::{AllocError, Global};
use wire::Note;

/// Whether an observation is of this extent.
fn is_of(note: &Note, extent: u64) -> bool
    ensures { Decides result (extent_of note.now ≡ Some extent) }
{
    extent_of(note) == Some(extent)
}

/// How many observations stand up to the last one before this place that may be sought of its extent: its link says it, and
/// without a link it is all of them.
fn link(links: &[usize], place: usize) -> usize
    ensures linked { place < length links.now → result ≡ slice_index links.now place }
    ensures unlinked { length links.now ≤ place → result ≡ place }
{
    match links.get(place) {
        Some(link) => *link,
        None => place,
    }
}

/// Whether the observation at this place is compatible with all before it, where the links lead over such alone as it is
/// compatible with.
fn meets_earlier(notes: &[Note], links: &[usize], starts: &[Vec<u32>], place: usize) -> bool
    requires within { place < length notes.now }
    requires starts { AreAllStarts notes.now starts.now }
    requires linked { LeadOverMet notes.now links.now place }
    ensures { Decides result (MeetsFrom notes.now place 0) }
{
    let note = &notes[place];
    let Some(extent) = extent_of(note) else {
        return true;
    };
    let note_starts = starts_at(starts, place);
    let mut below = link(links, place);
    while below > 0 {
        let before = below - 1;
        let earlier = &notes[before];
        if !is_of(earlier, extent) {
            below = before;
            continue;
        }
        let earlier_starts = starts_at(starts, before);
        if !are_compatible(earlier, earlier_starts, note, note_starts) {
            return false;
        }
        below = link(links, before);
    }
    true
}

/// Where the search looks: what leads it from one observation to those it has to be compared with.
#[derive(Clone, Copy)]
struct Index<'a> {
    /// Links to all observations of an extent.
    all: &'a [usize],
    /// Links to those that show bytes of it.
    shown: &'a [usize],
    /// So many of the first observations agree in what they tell of extents.
    agreed: usize,
    /// Where the groups begin that each of the first observations shows.
    starts: &'a [Vec<u32>],
}

/// The links to the observations that the one at this place has to be compared with.
fn links_for<'a>(index: Index<'a>, notes: &[Note], place: usize) -> &'a [usize]
    requires within { place < length notes.now }
    requires index { IsIndex notes.now index.all.now index.shown.now index.agreed }
    ensures { LeadOverMet notes.now result.now place }
{
    if place < index.agreed && is_told(&notes[place]) {
        index.shown
    } else {
        index.all
    }
}

/// The place of the first observation that is not compatible with all before it.
fn first_break(notes: &[Note], index: Index) -> Option<usize>
    requires index { IsIndex notes.now index.all.now index.shown.now index.agreed }
    requires starts { AreAllStarts notes.now index.starts.now }
    ensures none { IfNone result (AllMeet notes.now (length notes.now)) }
    ensures least { IfSome result (λ k. (k < length notes.now) × AllMeet notes.now k × (MeetsFrom notes.now k 0 → ⊥)) }
{
    for place in 0..notes.len() {
        let links = links_for(index, notes, place);
        if !meets_earlier(notes, links, index.starts, place) {
            return Some(place);
        }
    }
    None
}

/// The same by links to all observations and to those that show bytes, and by how many of the first agree in what they tell. An
/// error is out of memory.
fn first_break_indexed(alloc: Global, notes: &[Note]) -> Result<Option<usize>, AllocError>
    ensures none { IfOk result (λ found. IfNone found (AllMeet notes.now (length notes.now))) }
    ensures least { IfOk result (λ found. IfSome found (λ k. (k < length notes.now) × AllMeet notes.now k × (MeetsFrom notes.now k 0 → ⊥))) }
{
    let all = links_of(alloc, notes, Sought::All)?;
    let shown = links_of(alloc, notes, Sought::Shown)?;
    let starts = starts_of(alloc, notes)?;
    let index = Index {
        all: &all,
        shown: &shown,
        agreed: agreed(alloc, notes)?,
        starts: &starts,
    };
    Ok(first_break(notes, index))
}

/// The place, from 0, of the first observation that disagrees with an earlier one of its extent, or with which something
/// acknowledged is lost; `None` where all agree and everything acknowledged is kept.
///
/// It compares what was acknowledged, sealed, shown as a whole and seen of each extent, byte by byte and in place, and
/// passes over all other observations. It takes no memory and always answers: each observation is compared with all
/// earlier ones of its extent, for which it looks through all earlier ones.
pub fn check(notes: &[Note]) -> Option<usize>
    ensures none { (result ≡ None) ↔ IsHonest notes.now }
    ensures least { IfSome result (λ k. (k < length notes.now) × IsHonest (take k notes.now)
        × (IsHonest (take (suc k) notes.now) → ⊥)) }
{
    let index = Index {
        all: &[],
        shown: &[],
        agreed: 0,
        starts: &[],
    };
    first_break(notes, index)
}

/// The same place as `check` answers, for long lists. What was acknowledged and sealed of an extent is tested by where it
/// stands among the others, and is compared with those alone that show bytes of the extent; what shows bytes, and what does
/// not agree, is compared with all of its extent. The index takes memory in proportion to the observations and to the groups
/// that they show; where that memory is refused, this is `check`.
pub fn check_indexed(alloc: Global, notes: &[Note]) -> Option<usize>
    ensures none { (result ≡ None) ↔ IsHonest notes.now }
    ensures least { IfSome result (λ k. (k < length notes.now) × IsHonest (take k notes.now)
        × (IsHonest (take (suc k) notes.now) → ⊥)) }
{
    match first_break_indexed(alloc, notes) {
        Ok(found) => found,
        Err(_) => check(notes),
    }
}
