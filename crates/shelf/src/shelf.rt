//! The shelf.
ghost use Rattle.std.specs.Prelude.{◌≡◌, ◌+◌, ◌≤◌, length, slice_range, IfOk};
ghost use Rattle.shelf.specs.Place.{IsOn};

use crate::fault::ShelfFault;
use crate::place::Place;
use boxcar::Vec as Shared;
use std::alloc::{AllocError, Global};
use std::marker::Model;
use std::sync::Wait;

/// Texts of which none ever changes or goes. Threads share it by a `&`.
#[derive(Drop)]
pub struct Shelf {
    texts: Shared<Vec<u8>>,
}

impl Model for Shelf {
    ghost use Rattle.boxcar.specs.Table.{Shelves, shelves_coded};

    ghost Value = { Shelves };

    ghost coded = { shelves_coded };

    ghost view = { λ s. s.texts };
}

impl Shelf {
    /// A shelf with no text on it. 22 where there was no memory for it.
    pub fn new(alloc: Global) -> Result<Shelf, AllocError> {
        Ok(Shelf {
            texts: Shared::new(alloc)?,
        })
    }

    /// Publishes a text, and answers its place. 22 where there was no memory for one more; then nothing was published, and the
    /// text is let go.
    pub fn publish<W: Wait>(&self, rt: &W, text: Vec<u8>) -> Result<Place, ShelfFault>
        ensures { IfOk result (λ p. IsOn p self.now × (p.text ≡ text.items)) }
    {
        let len = text.len();
        match self.texts.push_shown(rt, text) {
            Ok(token) => Ok(Place { token, len }),
            Err(_) => Err(ShelfFault::Memory),
        }
    }

    /// Reads as many bytes of a text as `out` has, from the offset on. The place is to be of this shelf, and the bytes are to
    /// end within its text. Takes no lock and no memory.
    pub fn read_into(&self, place: &Place, offset: usize, out: &mut [u8])
        requires here { IsOn place.now self.now }
        requires fits { offset + length out.old ≤ length place.now.text }
        ensures { out.new ≡ slice_range place.now.text offset (offset + length out.old) }
    {
        let text = self.texts.value(&place.token);
        let end = offset + out.len();
        out.copy_from_slice(&text[offset..end]);
    }
}
