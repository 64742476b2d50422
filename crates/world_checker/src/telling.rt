//! Which observations surely agree in what they tell of extents.
ghost use Rattle.std.specs.Prelude.{◌≡◌, ◌+◌, true, None, Some, IfOk};
ghost use Rattle.std.specs.BTreeMap.{get};
ghost use Rattle.std.specs.Ordering.{nat_cmp};
ghost use Rattle.replica.specs.Groups.{size};
ghost use Rattle.world_checker.specs.Checking.{extent_of, ToldMeet};
ghost use Rattle.world_checker.specs.Telling.{IsNothing, IsFree, IsWithin, IsOpen, Acknowledges, Seals, Takes, Tells};

use crate::index::extent_of;
use crate::told::Told;
use std::alloc::{AllocError, Global};
use std::collections::BTreeMap;
use wire::Note;

impl Told {
    /// Nothing was told.
    fn new(alloc: Global) -> Told
        ensures { IsNothing result }
    {
        Told {
            starts: BTreeMap::new(alloc),
            sealed: None,
        }
    }

    /// Whether no acknowledged group has a byte from the offset on and before the end.
    fn is_free(&self, offset: u32, end: u64) -> bool
        ensures { result ≡ true → IsFree self.now offset end }
    {
        match self.starts.range(u64::from(offset) + 1..).next() {
            Some((_, start)) => end <= u64::from(*start),
            None => true,
        }
    }

    /// Whether no acknowledged group ends above the length.
    fn is_within(&self, length: u32) -> bool
        ensures { result ≡ true → IsWithin self.now length }
    {
        match self.starts.last_key_value() {
            Some((end, _)) => *end <= u64::from(length),
            None => true,
        }
    }

    /// Whether the extent was not sealed below the end.
    fn is_open(&self, end: u64) -> bool
        ensures { result ≡ true → IsOpen self.now end }
    {
        match self.sealed {
            Some(length) => end <= u64::from(length),
            None => true,
        }
    }

    /// Notes an acknowledged group that has the bytes from the offset on and before the end, if it surely agrees with what
    /// was told, and says whether it does. An error is out of memory (22).
    fn acknowledge(&mut self, offset: u32, end: u64) -> Result<bool, AllocError>
        ensures { IfOk result (λ sure. sure ≡ true → Acknowledges offset end self.old self.new) }
    {
        if u64::from(offset) >= end || !self.is_free(offset, end) || !self.is_open(end) {
            return Ok(false);
        }
        self.starts.insert(end, offset)?;
        Ok(true)
    }

    /// Notes the length at which the extent was sealed, if it surely agrees with what was told, and says whether it does.
    fn seal(&mut self, length: u32) -> bool
        ensures { result ≡ true → Seals length self.old self.new }
    {
        if self.sealed.is_some_and(|other| other != length) || !self.is_within(length) {
            return false;
        }
        self.sealed = Some(length);
        true
    }

    /// Notes an observation of the extent, if it surely agrees with what was told, and says whether it does. An error is out
    /// of memory (22).
    fn take(&mut self, note: &Note) -> Result<bool, AllocError>
        ensures { IfOk result (λ sure. sure ≡ true → Takes note.now self.old self.new) }
    {
        match note {
            Note::Acked { offset, group, .. } => {
                let end = u64::from(*offset) + u64::from(group.size());
                self.acknowledge(*offset, end)
            }
            Note::SealedAt { length, .. } => Ok(self.seal(*length)),
            _ => Ok(true),
        }
    }
}

/// Notes an observation under its extent, if it surely agrees with what was told of it, and says whether it does. An error
/// is out of memory (22).
fn tell(extents: &mut BTreeMap<u64, Told>, alloc: Global, note: &Note) -> Result<bool, AllocError>
    ensures { IfOk result (λ sure. sure ≡ true → Tells note.now (get nat_cmp extents.old) (get nat_cmp extents.new)) }
{
    let Some(extent) = extent_of(note) else {
        return Ok(true);
    };
    if !extents.contains_key(&extent) {
        extents.insert(extent, Told::new(alloc))?;
    }
    match extents.get_mut(&extent) {
        Some(told) => told.take(note),
        None => Ok(false),
    }
}

/// How many of the first observations surely agree in what they tell of their extents. An error is out of memory (22).
pub fn agreed(alloc: Global, notes: &[Note]) -> Result<usize, AllocError>
    ensures { IfOk result (λ count. ToldMeet notes.now count) }
{
    let mut extents = BTreeMap::new(alloc);
    for (place, note) in notes.iter().enumerate() {
        if !tell(&mut extents, alloc, note)? {
            return Ok(place);
        }
    }
    Ok(notes.len())
}
