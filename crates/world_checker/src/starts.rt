//! Where the groups that an observation shows begin, so that an acknowledged one is found among them by its offset.
ghost use Rattle.std.specs.Prelude.{◌≡◌, ℕ, ◌<◌, ◌≤◌, [], Vec, length, slice_index_or, true, Some, IfOk};
ghost use Rattle.std.specs.Bool.{Decides};
ghost use Rattle.std.specs.declared.alloc.Global.{Global};
ghost use Rattle.model_streams.specs.Honest.{Stands};
ghost use Rattle.model_streams.specs.Pairs.{Compatible};
ghost use Rattle.world_checker.specs.Checking.{extent_of};
ghost use Rattle.world_checker.specs.Starts.{AreStarts, AreStartsOf, AreAllStarts};

use crate::compare::is_compatible;
use crate::texts::is_same_group;
use block_types::Group;
use std::alloc::{AllocError, Global};
use wire::Note;

/// Where each of the groups begins, as far as 32 bits tell it. An error is out of memory (22).
fn starts_of_groups(alloc: Global, groups: &[Group]) -> Result<Vec<u32>, AllocError>
    ensures { IfOk result (λ starts. AreStarts groups.now starts.items) }
{
    let mut starts = Vec::with_capacity(alloc, groups.len())?;
    let mut at: u32 = 0;
    for group in groups {
        starts.push(at)?;
        at = match at.checked_add(group.size()) {
            Some(end) => end,
            None => return Ok(starts),
        };
    }
    Ok(starts)
}

/// The same for the groups that an observation shows, if it shows some.
fn starts_of_note(alloc: Global, note: &Note) -> Result<Vec<u32>, AllocError>
    ensures { IfOk result (λ starts. AreStartsOf note.now starts.items) }
{
    match note {
        Note::Content { groups, .. } => starts_of_groups(alloc, &groups.items),
        _ => Ok(Vec::new(alloc)),
    }
}

/// The same for each observation.
pub fn starts_of(alloc: Global, notes: &[Note]) -> Result<Vec<Vec<u32>>, AllocError>
    ensures { IfOk result (λ starts. AreAllStarts notes.now starts.items) }
{
    let mut starts = Vec::with_capacity(alloc, notes.len())?;
    for note in notes {
        starts.push(starts_of_note(alloc, note)?)?;
    }
    Ok(starts)
}

/// Where the groups of the observation at this place begin; none where that is not known.
pub fn starts_at(starts: &[Vec<u32>], place: usize) -> &[u32]
    ensures known { (d : Vec ℕ Global) → place < length starts.now → result.now ≡ (slice_index_or starts.now place d).items }
    ensures unknown { length starts.now ≤ place → result.now ≡ [] }
{
    match starts.get(place) {
        Some(known) => known,
        None => &[],
    }
}

/// Whether the group stands among the groups where one of them is known to begin.
fn stands_where(group: &Group, offset: u32, groups: &[Group], starts: &[u32]) -> bool
    requires { AreStarts groups.now starts.now }
    ensures { result ≡ true → Stands group.now offset groups.now }
{
    let Ok(place) = starts.binary_search(&offset) else {
        return false;
    };
    place < groups.len() && is_same_group(groups[place].blocks(), group.blocks())
}

/// Whether one of two observations was acknowledged and the other shows it where it was.
fn is_shown(first: &Note, first_starts: &[u32], second: &Note, second_starts: &[u32]) -> bool
    requires first { AreStartsOf first.now first_starts.now }
    requires second { AreStartsOf second.now second_starts.now }
    ensures { result ≡ true → Compatible first.now second.now }
{
    match (first, second) {
        (Note::Acked { offset, group, .. }, Note::Content { groups, .. }) => {
            stands_where(group, *offset, &groups.items, second_starts)
        }
        (Note::Content { groups, .. }, Note::Acked { offset, group, .. }) => {
            stands_where(group, *offset, &groups.items, first_starts)
        }
        _ => false,
    }
}

/// Whether two observations of one extent are compatible, where it is known where their groups begin.
pub fn are_compatible(
    first: &Note,
    first_starts: &[u32],
    second: &Note,
    second_starts: &[u32],
) -> bool
    requires first { AreStartsOf first.now first_starts.now }
    requires second { AreStartsOf second.now second_starts.now }
    ensures { (extent : ℕ) → extent_of first.now ≡ Some extent → extent_of second.now ≡ Some extent
        → Decides result (Compatible first.now second.now) }
{
    is_shown(first, first_starts, second, second_starts) || is_compatible(first, second)
}
