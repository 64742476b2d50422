//! Where the observations of each extent stand among all observations.
ghost use Rattle.std.specs.Prelude.{◌≡◌, ◌==◌, ◌++◌, ◌∷◌, ◌+◌, ◌<◌, ◌^◌, ℕ, List, [], OnOk, OnErr};
ghost use Rattle.wire.specs.declared.note.Note.{Note as ValueNote};
ghost use Rattle.world_servers.specs.Seen.{is_of, is_number, place_if, places_in, IsIndex, IsIndexOfFirst};

use std::alloc::{AllocError, Global};
use std::collections::BTreeMap;
use std::marker::Model;
use wire::{ExtentId, Note};

/// Places of observations, in order.
#[derive(Drop)]
struct Places {
    items: Vec<usize>,
}

impl Model for Places {
    ghost use Rattle.std.specs.Prelude.{ℕ, List};

    ghost Value = { List ℕ };

    ghost view = { λ p. p.items.items };
}

impl Places {
    fn new(alloc: Global) -> Places
        ensures { result ≡ [] }
    {
        Places {
            items: Vec::new(alloc),
        }
    }

    /// One more at the end. Without memory nothing has changed.
    fn push(&mut self, at: usize) -> Result<(), AllocError>
        ensures ok { OnOk result (self.new ≡ self.old ++ at ∷ []) }
        ensures err { OnErr result (self.new ≡ self.old) }
    {
        self.items.push(at)?;
        Ok(())
    }

    fn as_slice(&self) -> &[usize]
        ensures { result.now ≡ self.now }
    {
        self.items.as_slice()
    }
}

/// The places of the observations of each extent, among observations that stand one after the other. It is brought up to
/// date where it is used, so that a run that reads no value by its place has none.
#[derive(Drop)]
pub struct SeenByExtent {
    count: usize,
    places: BTreeMap<u64, Places>,
}

impl Model for SeenByExtent {
    ghost use Rattle.world_servers.specs.Seen.{Index};

    ghost Value = { Index };

    ghost view = { λ seen. record { count = seen.count; places = seen.places.entries } };
}

/// The extent of which an observation shows bytes.
fn extent_of(note: &Note) -> Option<u64>
    ensures { (e : ℕ) → is_of e note.now ≡ is_number e result }
{
    match note {
        Note::Acked { extent, .. } => Some(extent.0),
        Note::Content { extent, .. } => Some(extent.0),
        Note::Seen { extent, .. } => Some(extent.0),
        Note::SealedAt { .. } => None,
        Note::Began { .. } => None,
        Note::Done { .. } => None,
        Note::Loaded { .. } => None,
        Note::Got { .. } => None,
        Note::Split { .. } => None,
        Note::Merged { .. } => None,
    }
}

/// One place of an extent more. Without memory each extent has the places that it had.
fn put(
    places: &mut BTreeMap<u64, Places>,
    alloc: Global,
    extent: u64,
    at: usize,
) -> Result<(), AllocError>
    ensures ok { OnOk result ((e : ℕ) → places_in places.new.entries e ≡ places_in places.old.entries e ++ place_if (extent == e) at) }
    ensures err { OnErr result ((e : ℕ) → places_in places.new.entries e ≡ places_in places.old.entries e) }
{
    match places.get_mut(&extent) {
        Some(here) => here.push(at),
        None => {
            let mut first = Places::new(alloc);
            first.push(at)?;
            places.insert(extent, first)?;
            Ok(())
        }
    }
}

/// The same, where there is an extent.
#[tactic(auto, using(crate::proofs::SeenIndex::none_more))]
fn put_some(
    places: &mut BTreeMap<u64, Places>,
    alloc: Global,
    extent: Option<u64>,
    at: usize,
) -> Result<(), AllocError>
    ensures ok { OnOk result ((e : ℕ) → places_in places.new.entries e ≡ places_in places.old.entries e ++ place_if (is_number e extent) at) }
    ensures err { OnErr result ((e : ℕ) → places_in places.new.entries e ≡ places_in places.old.entries e) }
{
    match extent {
        None => Ok(()),
        Some(extent) => put(places, alloc, extent, at),
    }
}

impl SeenByExtent {
    /// Of no observation; takes no memory.
    pub fn new(alloc: Global) -> SeenByExtent
        ensures { (notes : List ValueNote) → IsIndexOfFirst notes result }
    {
        SeenByExtent {
            count: 0,
            places: BTreeMap::new(alloc),
        }
    }

    /// One observation more. Without memory it is an index of the same as before.
    fn add(&mut self, alloc: Global, note: &Note) -> Result<(), AllocError>
        requires { self.old.count < 2 ^ 63 }
        ensures ok { OnOk result ((notes : List ValueNote) → IsIndex notes self.old → IsIndex (notes ++ note.now ∷ []) self.new) }
        ensures err { OnErr result ((notes : List ValueNote) → IsIndex notes self.old → IsIndex notes self.new) }
    {
        put_some(&mut self.places, alloc, extent_of(note), self.count)?;
        self.count += 1;
        Ok(())
    }

    /// Becomes the index of all of these observations, where it is one of the first of them. Without memory it stays such a one.
    pub fn follow(&mut self, alloc: Global, notes: &[Note]) -> Result<(), AllocError>
        requires { IsIndexOfFirst notes.now self.old }
        ensures ok { OnOk result (IsIndex notes.now self.new) }
        ensures first { IsIndexOfFirst notes.now self.new }
    {
        for at in self.count..notes.len() {
            self.add(alloc, &notes[at])?;
        }
        Ok(())
    }

    /// The places of the observations of an extent, in order.
    pub(crate) fn places(&self, extent: ExtentId) -> &[usize]
        ensures { result.now ≡ places_in self.now.places extent }
    {
        match self.places.get(&extent.0) {
            None => &[],
            Some(places) => places.as_slice(),
        }
    }
}
