//! The check of what a long run shows.
use crate::error::Failure;
use block_types::Group;
use std::alloc::Global;
use std::rt::Clock;
use std::time::Instant;
use wire::{ExtentId, Note, Notes};
use world_checker::{acknowledged, check_indexed};

/// The bytes of one append.
const SIZE: usize = 1024;

/// So many appends of 1 KiB fill the longest extent that a target allows.
const APPENDS_PER_EXTENT: u64 = 16_384;

/// A group of one block of 1 KiB.
pub fn group_of(alloc: Global) -> Result<Group, Failure> {
    let mut texts = Vec::new(alloc);
    texts.push([b'a'; SIZE].to_vec(alloc)?)?;
    match Group::new(alloc, texts) {
        Ok(group) => Ok(group),
        Err(_) => Err(Failure::Step),
    }
}

/// The observations of so many acknowledged appends of a group to one extent, one behind another.
fn in_one_extent(alloc: Global, group: &Group, count: u64) -> Result<Notes, Failure> {
    let mut notes = Notes::new(alloc);
    for number in 0..count {
        let group = group.copy()?;
        notes.push(Note::Acked {
            extent: ExtentId(1),
            offset: (number % APPENDS_PER_EXTENT) as u32 * SIZE as u32,
            group,
        })?;
    }
    Ok(notes)
}

/// Prints how long the check of observations took, and what it found.
fn tell<R: AllocGlobal + Clock + Print>(
    rt: &R,
    name: &str,
    count: u64,
    notes: &Notes,
) -> Result<(), Failure> {
    let start = Instant::now(rt)?;
    let found = check_indexed(rt.alloc(), &notes.items);
    let micros = start.elapsed(rt)?.as_micros();
    match found {
        None => rt.println(format_args!("{name} {count} found none micros {micros}"))?,
        Some(place) => rt.println(format_args!("{name} {count} found {place} micros {micros}"))?,
    }
    Ok(())
}

/// Checks so many acknowledged appends, 64 to an extent.
pub fn measure<R: AllocGlobal + Clock + Print>(rt: &R, count: u64) -> Result<(), Failure> {
    let group = group_of(rt.alloc())?;
    let notes = acknowledged(rt.alloc(), &group, count)?;
    tell(rt, "check", count, &notes)
}

/// Checks so many acknowledged appends, all to one extent.
pub fn measure_extent<R: AllocGlobal + Clock + Print>(rt: &R, count: u64) -> Result<(), Failure> {
    if count > APPENDS_PER_EXTENT {
        return Err(Failure::Words);
    }
    let group = group_of(rt.alloc())?;
    let notes = in_one_extent(rt.alloc(), &group, count)?;
    tell(rt, "extent", count, &notes)
}
