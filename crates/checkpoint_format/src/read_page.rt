//! Pages that are kept to be searched.
ghost use Rattle.std.specs.Prelude.{◌≡◌, ◌<◌, ℕ, None, Some, slice_index, is_some, IfOk, IfSome, MatchOption};
ghost use Rattle.checkpoint_format.specs.Page.{entries_at, found_at};
ghost use Rattle.checkpoint_format.specs.Starts as specs;

use crate::entry::{count_of, entry_above, entry_from, key_from};
use crate::page::found_or;
use bytes::Bytes;
use memtable::Cell;
use std::alloc::{AllocError, Global};
use std::marker::Model;

/// A page, and where each of its entries begins. Its value is its bytes.
pub struct ReadPage {
    bytes: Bytes,
    starts: Vec<u16>,
}

// Written out, so that a crate above that lets one go has no proof of what is in it.
impl Drop for ReadPage {
    fn drop(self) {
        let ReadPage {
            bytes: _,
            starts: _,
        } = self;
    }
}

impl Model for ReadPage {
    ghost use Rattle.std.specs.Prelude.{ℕ, List};
    ghost use Rattle.checkpoint_format.specs.Starts.{AreStarts};

    ghost Value = { List ℕ };

    ghost view = { λ p. p.bytes };

    ghost invariant = { λ p. AreStarts p.bytes p.starts.items };
}

/// Where the entries of a page begin, if the bytes are a page.
fn starts_of(alloc: Global, page: &[u8]) -> Result<Option<Vec<u16>>, AllocError>
    ensures { IfOk result (λ found. MatchOption found (entries_at page.now ≡ None) (λ starts. specs.AreStarts page.now starts.items)) }
{
    let Ok((count, mut rest)) = count_of(page) else {
        return Ok(None);
    };
    let mut starts = Vec::with_capacity(alloc, count as usize)?;
    let mut last: &[u8] = &[];
    for _ in 0..count {
        let start = page.len() - rest.len();
        let Ok(entry) = entry_above(last, rest) else {
            return Ok(None);
        };
        starts.push(start as u16)?;
        last = entry.key;
        rest = entry.after;
    }
    if rest.is_empty() {
        Ok(Some(starts))
    } else {
        Ok(None)
    }
}

/// Whether the key that begins at a place of a page is below another.
fn is_below(page: &[u8], start: u16, key: &[u8]) -> bool
    ensures { result ≡ specs.is_below page.now key.now start }
{
    match key_from(page, start) {
        Ok(other) => other.cmp(key).is_lt(),
        Err(_) => false,
    }
}

/// Where the first entry begins whose key is not below another. It is found by halves.
fn first_from(page: &[u8], starts: &[u16], key: &[u8]) -> Option<u16>
    requires { specs.AreStarts page.now starts.now }
    ensures first { result ≡ specs.first_from page.now key.now starts.now }
    ensures bytes { (i : ℕ) → slice_index page.now i < 256 }
{
    let below = starts.partition_point(|start| is_below(page, *start, key));
    if below == starts.len() {
        None
    } else {
        Some(starts[below])
    }
}

/// The cell of the entry that begins at a place of a page, if its key is this.
fn cell_from(page: &Bytes, start: u16, key: &[u8]) -> Result<Option<Cell>, AllocError>
    ensures { IfOk result (λ cell. cell ≡ specs.cell_from page.now key.now start) }
{
    match entry_from(page.as_slice(), start) {
        Ok(entry) => found_or(page, None, &entry, key),
        Err(_) => Ok(None),
    }
}

impl ReadPage {
    /// The page that the bytes are, if they are one. An error is out of memory (22), and says nothing of the bytes.
    pub fn of(alloc: Global, bytes: Bytes) -> Result<Option<ReadPage>, AllocError>
        ensures bytes { IfOk result (λ page. IfSome page (λ page. page ≡ bytes)) }
        ensures found { IfOk result (λ page. is_some page ≡ is_some (entries_at bytes)) }
    {
        match starts_of(alloc, bytes.as_slice())? {
            None => Ok(None),
            Some(starts) => Ok(Some(ReadPage { bytes, starts })),
        }
    }

    /// Its bytes.
    pub fn bytes(&self) -> &Bytes
        ensures { result.now ≡ self.now }
    {
        &self.bytes
    }

    /// The cell at a key, which shares the page's buffer. It looks at few of the entries, by halves, and copies no byte.
    ///
    /// An error is out of memory (22), and says nothing of the key.
    pub fn find(&self, key: &[u8]) -> Result<Option<Cell>, AllocError>
        ensures { IfOk result (λ cell. found_at self.now key.now ≡ Some cell) }
    {
        match first_from(self.bytes.as_slice(), &self.starts, key) {
            None => Ok(None),
            Some(start) => cell_from(&self.bytes, start, key),
        }
    }
}
