//! The bytes of a page as it grows.
ghost use Rattle.std.specs.Prelude.{◌≡◌, ◌+◌, ◌<◌, ◌≤◌, ◌++◌, ◌∷◌, [], ◌==◌, nat_le, length, IfOk, OnOk};
ghost use Rattle.memtable.specs.Cell.{IsEntry, entry_size as size_of};
ghost use Rattle.memtable.specs.Entries.{Entries};
ghost use Rattle.checkpoint_format.specs.Page.{page_of};
ghost use Rattle.checkpoint_format.specs.Writing.{IsTextOf};

use crate::entry::put_entry;
use crate::page::Page;
use block_types::MAX_BLOCK;
use blocks::writer::put_u16;
use bytes::Bytes;
use memtable::{Cell, entry_size};
use std::alloc::{AllocError, Global};

/// A page that has begun.
#[derive(Drop)]
pub(crate) struct PageText {
    /// Its first key, or no byte where it has no entry.
    first: Bytes,
    /// Two bytes for the count, and those of its entries.
    bytes: Vec<u8>,
    count: u16,
}

impl PageText {
    /// With no entry, and room for a page.
    pub(crate) fn new(alloc: Global) -> Result<PageText, AllocError>
        ensures { IfOk result (IsTextOf []) }
    {
        let mut bytes = Vec::with_capacity(alloc, MAX_BLOCK as usize)?;
        put_u16(&mut bytes, 0)?;
        Ok(PageText {
            first: Bytes::new(),
            bytes,
            count: 0,
        })
    }

    pub(crate) fn is_empty(&self) -> bool
        ensures { result ≡ (self.now.count == 0) }
    {
        self.count == 0
    }

    /// Whether it has room for an entry.
    pub(crate) fn has_room(&self, key: &[u8], cell: &Cell) -> bool
        requires { IsEntry key.now cell.now }
        ensures { result ≡ nat_le (length self.now.bytes.items + size_of key.now cell.now) 65536 }
    {
        self.bytes.len() as u64 + entry_size(key, cell) <= u64::from(MAX_BLOCK)
    }

    /// Adds an entry, of which it copies the key and a value beside it.
    pub(crate) fn add(&mut self, key: &Bytes, cell: &Cell) -> Result<(), AllocError>
        requires fits { IsEntry key.now cell.now }
        requires count { self.old.count < 65535 }
        ensures { (entries : Entries) → IsTextOf entries self.old
            → OnOk result (IsTextOf (entries ++ (key.now, cell.now) ∷ []) self.new) }
    {
        if self.count == 0 {
            self.first = key.clone()?;
        }
        put_entry(&mut self.bytes, key, cell)?;
        self.count += 1;
        Ok(())
    }

    /// The page of the entries that were added.
    pub(crate) fn page(self) -> Result<Page, AllocError>
        requires count { self.count < 65535 }
        requires room { 2 ≤ length self.bytes.items }
        ensures { (entries : Entries) → IsTextOf entries self
            → IfOk result (λ page. page ≡ page_of entries) }
    {
        let PageText {
            first,
            mut bytes,
            count,
        } = self;
        bytes[0] = (count / 256) as u8;
        bytes[1] = (count % 256) as u8;
        Ok(Page {
            first,
            bytes: Bytes::from_vec(bytes)?,
        })
    }
}
