//! What a look-up answers.
ghost use Rattle.std.specs.Prelude.{◌≡◌, Some, IfOk, option_copied};
ghost use Rattle.memtable.specs.declared.cell.Place.{Place};
ghost use Rattle.checkpoint.specs.Lookup as specs;

use block_types::BlockFault;
use bytes::Bytes;
use checkpoint_format::{ReadPage, find_in};
use memtable::{Cell, Place};
use std::alloc::AllocError;

/// What a look-up in the pages of checkpoints answers.
pub enum Lookup {
    /// The key has this cell, a value or the place of one.
    Found(Cell),
    /// The key has no value: no index has the key, or the newest that has it says that it was deleted.
    Absent,
    /// The page at this place is wanted, and is not at hand.
    Need(Place),
}

// Written out, so that a crate above that lets one go has no proof of what is in it.
impl Drop for Lookup {
    fn drop(self) {
        match self {
            Lookup::Found(_) => {}
            Lookup::Absent => {}
            Lookup::Need(_) => {}
        }
    }
}

impl Lookup {
    /// The answer of a key whose newest cell this is.
    pub fn of(cell: Cell) -> Lookup
        ensures { result ≡ specs.lookup_of cell }
    {
        match &cell {
            Cell::Deleted => Lookup::Absent,
            _ => Lookup::Found(cell),
        }
    }

    /// What a page says of a key, if it has the key. It is found by halves.
    ///
    /// An error is out of memory (22), and says nothing of the key.
    pub fn in_page(page: &ReadPage, key: &[u8]) -> Result<Option<Lookup>, AllocError>
        ensures { (place : Place) → IfOk result (λ found. found ≡ specs.in_bytes place key.now (Some page.now)) }
    {
        match page.find(key)? {
            Some(cell) => Ok(Some(Lookup::of(cell))),
            None => Ok(None),
        }
    }

    /// What the bytes at a place say of a key, if they have the key, are no page's or are not at hand. It walks through all of
    /// them.
    ///
    /// An error is out of memory (22), and says nothing of the key.
    pub fn in_bytes(
        place: &Place,
        bytes: Option<&Bytes>,
        key: &[u8],
    ) -> Result<Option<Lookup>, AllocError>
        ensures { IfOk result (λ found. found ≡ specs.in_bytes place.now key.now (option_copied bytes.entry)) }
    {
        let Some(page) = bytes else {
            return Ok(Some(Lookup::Need(*place)));
        };
        match find_in(page, key) {
            Ok(Some(cell)) => Ok(Some(Lookup::of(cell))),
            Ok(None) => Ok(None),
            Err(BlockFault::Damaged) => Ok(Some(Lookup::Need(*place))),
            Err(BlockFault::Memory) => Err(AllocError),
        }
    }
}
