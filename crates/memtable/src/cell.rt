//! Cells and places.
ghost use Rattle.std.specs.Prelude.{◌≡◌, ◌<◌, ◌^◌, IfOk};
ghost use Rattle.memtable.specs.Cell as specs;

use bytes::Bytes;
use std::alloc::AllocError;
use wire::ExtentId;

/// Where a large value stands: `length` bytes of an extent, from `offset` on. Offset and length count bytes.
#[derive(Clone, Copy, PartialEq, Eq)]
pub struct Place {
    pub extent: ExtentId,
    pub offset: u32,
    pub length: u32,
}

/// What a row keeps of a value.
///
/// A value may be out of range: `IsCell` of specs/Cell.antt is what a cell may hold.
pub enum Cell {
    /// The key has no value.
    Deleted,
    /// The bytes of a value of at most 4,096 bytes.
    Inline(Bytes),
    /// Where a value of 4,097 to 65,536 bytes stands.
    Placed(Place),
}

// Written out, so that a crate above that lets one go has no proof of what is in it.
impl Drop for Cell {
    fn drop(self) {
        match self {
            Cell::Deleted => {}
            Cell::Inline(_) => {}
            Cell::Placed(_) => {}
        }
    }
}

impl Cell {
    /// How many bytes its spelling in a page has.
    pub fn size(&self) -> u64
        ensures size { result ≡ specs.cell_size self.now }
        ensures numbered { specs.IsNumbered self.now }
    {
        match self {
            Cell::Deleted => 1,
            Cell::Inline(value) => 5 + value.len() as u64,
            Cell::Placed(place) => {
                // For the clause: the number of an extent has 64 bits.
                let _number = place.extent.0;
                17
            }
        }
    }

    /// The same cell again, which shares its bytes. An error is out of memory (22).
    pub fn copy(&self) -> Result<Cell, AllocError>
        ensures { IfOk result (λ copy. copy ≡ self.now) }
    {
        match self {
            Cell::Deleted => Ok(Cell::Deleted),
            Cell::Inline(value) => Ok(Cell::Inline(value.clone()?)),
            Cell::Placed(place) => Ok(Cell::Placed(*place)),
        }
    }
}

/// How many bytes a key and its cell have in a page. That the sum fits 64 bits is the caller's condition.
pub fn entry_size(key: &[u8], cell: &Cell) -> u64
    requires { specs.entry_size key.now cell.now < 2 ^ 64 }
    ensures size { result ≡ specs.entry_size key.now cell.now }
    ensures numbered { specs.IsNumbered cell.now }
{
    2 + key.len() as u64 + cell.size()
}
