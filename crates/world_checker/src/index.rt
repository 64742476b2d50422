//! Links from each observation back to the one before it of the same extent.
ghost use Rattle.std.specs.Prelude.{◌≡◌, ◌+◌, ◌<◌, ◌^◌, IfOk, length};
ghost use Rattle.std.specs.Bool.{Decides};
ghost use Rattle.std.specs.BTreeMap.{get};
ghost use Rattle.std.specs.Option.{unwrap_or};
ghost use Rattle.std.specs.Ordering.{nat_cmp};
ghost use Rattle.world_checker.specs.Checking.{extent_of};
ghost use Rattle.world_checker.specs.Links.{IsPassed, AreLinks, AllLead, IsStep};

use crate::told::is_told;
use std::alloc::{AllocError, Global};
use std::collections::BTreeMap;
use wire::Note;

/// Which observations of an extent links lead to.
#[derive(Clone, Copy)]
pub enum Sought {
    All,
    /// Those that show bytes of it.
    Shown,
}

/// The number of the extent that an observation is of, if it is of one.
pub fn extent_of(note: &Note) -> Option<u64>
    ensures { result ≡ extent_of note.now }
{
    match note {
        Note::Acked { extent, .. } => Some(extent.0),
        Note::SealedAt { extent, .. } => Some(extent.0),
        Note::Content { extent, .. } => Some(extent.0),
        Note::Seen { extent, .. } => Some(extent.0),
        _ => None,
    }
}

/// Whether links lead over this observation.
fn is_passed(sought: Sought, note: &Note) -> bool
    ensures { Decides result (IsPassed sought note.now) }
{
    match sought {
        Sought::All => false,
        Sought::Shown => is_told(note),
    }
}

/// How many observations stand up to the last one that is sought of an extent, or 0.
fn up_to(last: &BTreeMap<u64, usize>, extent: u64) -> usize
    ensures { result ≡ unwrap_or (get nat_cmp last.now extent) 0 }
{
    match last.get(&extent) {
        Some(place) => *place,
        None => 0,
    }
}

/// Notes this observation as the last one of its extent if it is sought, and says how many stand up to the last one before
/// it.
fn step(
    last: &mut BTreeMap<u64, usize>,
    sought: Sought,
    note: &Note,
    place: usize,
) -> Result<usize, AllocError>
    requires { place + 1 < 2 ^ 64 }
    ensures { IfOk result (λ link. IsStep sought note.now place (get nat_cmp last.old) (get nat_cmp last.new) link) }
{
    let Some(extent) = extent_of(note) else {
        return Ok(0);
    };
    let before = up_to(last, extent);
    if !is_passed(sought, note) {
        last.insert(extent, place + 1)?;
    }
    Ok(before)
}

/// For each observation how many stand up to the last one before it that is sought of the same extent, or 0 for none. An
/// error is out of memory.
pub fn links_of(alloc: Global, notes: &[Note], sought: Sought) -> Result<Vec<usize>, AllocError>
    ensures links { IfOk result (λ links. AreLinks sought notes.now links.items) }
    ensures all { IfOk result (λ links. (length links.items ≡ length notes.now) × AllLead sought notes.now links.items) }
{
    let mut last = BTreeMap::new(alloc);
    let mut links = Vec::with_capacity(alloc, notes.len())?;
    for (place, note) in notes.iter().enumerate() {
        links.push(step(&mut last, sought, note, place)?)?;
    }
    Ok(links)
}
