//! What a disk in memory needs to go back to its last sync: bytes as they were before they were written over.
ghost use Rattle.std.specs.Prelude.{◌≡◌, ◌+◌, ◌≤◌, [], length, OnOk, IsOk, vec_capacity};
ghost use Rattle.disk.specs.Disk.{Holds};
ghost use Rattle.disk.specs.Image.{put_at, Covers};

use crate::buffer::{make_room, put_before, put_over};
use std::alloc::{AllocError, Global};

/// One stretch of bytes: where it begins, and what stood there. With no bytes it is nowhere.
pub struct Undo {
    pub(crate) at: usize,
    pub(crate) bytes: Vec<u8>,
}

// Written out, so that a crate above that lets one go has no proof of what is in it.
impl Drop for Undo {
    fn drop(self) {
        let Undo { at: _, bytes: _ } = self;
    }
}

impl Undo {
    pub(crate) fn new(alloc: Global) -> Undo
        ensures { (result.at ≡ 0) × (result.bytes.items ≡ []) }
    {
        Undo {
            at: 0,
            bytes: Vec::new(alloc),
        }
    }

    // Begins the stretch at `from` or before.
    fn widen_front(&mut self, held: &[u8], from: usize) -> Result<(), AllocError>
        requires inside { self.old.at + length self.old.bytes.items ≤ length held.now }
        requires place { from ≤ length held.now }
        ensures same { put_at self.new.at self.new.bytes.items held.now ≡ put_at self.old.at self.old.bytes.items held.now }
        ensures inside { self.new.at + length self.new.bytes.items ≤ length held.now }
        ensures begins { OnOk result (self.new.at ≤ from) }
        ensures succeeds { length held.now ≤ vec_capacity self.old.bytes → IsOk result }
        ensures room { vec_capacity self.old.bytes ≤ vec_capacity self.new.bytes }
    {
        if self.bytes.is_empty() {
            self.at = from;
            return Ok(());
        }
        if self.at <= from {
            return Ok(());
        }
        put_before(&mut self.bytes, &held[from..self.at])?;
        self.at = from;
        Ok(())
    }

    // Ends the stretch at `upto` or after.
    fn widen_back(&mut self, held: &[u8], upto: usize) -> Result<(), AllocError>
        requires inside { self.old.at + length self.old.bytes.items ≤ length held.now }
        requires place { upto ≤ length held.now }
        ensures same { put_at self.new.at self.new.bytes.items held.now ≡ put_at self.old.at self.old.bytes.items held.now }
        ensures inside { self.new.at + length self.new.bytes.items ≤ length held.now }
        ensures begins { self.new.at ≡ self.old.at }
        ensures ends { OnOk result (upto ≤ self.new.at + length self.new.bytes.items) }
        ensures succeeds { length held.now ≤ vec_capacity self.old.bytes → IsOk result }
        ensures room { vec_capacity self.old.bytes ≤ vec_capacity self.new.bytes }
    {
        let end = self.at + self.bytes.len();
        if upto <= end {
            return Ok(());
        }
        self.bytes.extend_from_slice(&held[end..upto])?;
        Ok(())
    }

    // Takes in the bytes from `from` up to `upto`, and those between them and the stretch.
    fn widen(&mut self, held: &[u8], from: usize, upto: usize) -> Result<(), AllocError>
        requires inside { self.old.at + length self.old.bytes.items ≤ length held.now }
        requires place { from ≤ upto }
        requires end { upto ≤ length held.now }
        ensures same { put_at self.new.at self.new.bytes.items held.now ≡ put_at self.old.at self.old.bytes.items held.now }
        ensures inside { self.new.at + length self.new.bytes.items ≤ length held.now }
        ensures begins { OnOk result (self.new.at ≤ from) }
        ensures ends { OnOk result (upto ≤ self.new.at + length self.new.bytes.items) }
        ensures succeeds { length held.now ≤ vec_capacity self.old.bytes → IsOk result }
        ensures room { vec_capacity self.old.bytes ≤ vec_capacity self.new.bytes }
    {
        self.widen_front(held, from)?;
        self.widen_back(held, upto)
    }

    /// Takes in those of the bytes in `held` that a write of so many at a place will write over.
    pub(crate) fn cover(&mut self, held: &[u8], from: usize, count: usize) -> Result<(), AllocError>
        requires inside { self.old.at + length self.old.bytes.items ≤ length held.now }
        ensures same { put_at self.new.at self.new.bytes.items held.now ≡ put_at self.old.at self.old.bytes.items held.now }
        ensures inside { self.new.at + length self.new.bytes.items ≤ length held.now }
        ensures covers { OnOk result (Covers self.new.at (length self.new.bytes.items) (length held.now) from count) }
        ensures succeeds { length held.now ≤ vec_capacity self.old.bytes → IsOk result }
        ensures room { vec_capacity self.old.bytes ≤ vec_capacity self.new.bytes }
    {
        if held.len() <= from {
            return Ok(());
        }
        let upto = from + count.min(held.len() - from);
        self.widen(held, from, upto)
    }

    /// Puts its bytes back where they stood.
    pub(crate) fn put_back(&self, held: &mut Vec<u8>)
        requires { self.now.at + length self.now.bytes.items ≤ length held.old.items }
        ensures bytes { Holds held.old.items self.now.at self.now.bytes.items held.new.items }
        ensures room { vec_capacity held.new ≡ vec_capacity held.old }
    {
        put_over(held, self.at, &self.bytes);
    }

    pub(crate) fn clear(&mut self)
        ensures at { self.new.at ≡ self.old.at }
        ensures none { self.new.bytes.items ≡ [] }
        ensures room { vec_capacity self.new.bytes ≡ vec_capacity self.old.bytes }
    {
        self.bytes.clear();
    }

    /// Makes room for so many bytes.
    pub(crate) fn reserve(&mut self, room: usize) -> Result<(), AllocError>
        ensures at { self.new.at ≡ self.old.at }
        ensures bytes { self.new.bytes.items ≡ self.old.bytes.items }
        ensures ok { OnOk result (room ≤ vec_capacity self.new.bytes) }
        ensures succeeds { room ≤ vec_capacity self.old.bytes → IsOk result }
        ensures room { vec_capacity self.old.bytes ≤ vec_capacity self.new.bytes }
    {
        make_room(&mut self.bytes, room)
    }
}
