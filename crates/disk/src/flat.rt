//! The bytes of a disk in one buffer, and what was written over of those that the last sync has made sure of. A write costs its bytes,
//! those that it sets aside, which are the ones that it writes over, and those between them and what was set aside before; a sync costs
//! nothing.
ghost use Rattle.std.specs.Prelude.{◌≡◌, ◌+◌, ◌≤◌, ◌<◌, ◌++◌, ◌^◌, [], length, OnOk, OnErr, IsOk, IfOk, IsTrue, ◌∷◌, true, if◌then◌else◌};
ghost use Rattle.disk.specs.Disk.{Holds};
ghost use Rattle.disk.specs.Image.{KeepsRoom};

use crate::buffer::{empty, make_room, overwrite, put_before};
use crate::undo::Undo;
use std::alloc::{AllocError, Global};
use std::marker::Model;

pub struct FlatImage {
    bytes: Vec<u8>,
    // so many leading bytes the last sync has made sure of
    clean: usize,
    // of those, what the writes since then have written over
    undo: Undo,
}

// Written out, so that a crate above that lets one go has no proof of what is in it.
impl Drop for FlatImage {
    fn drop(self) {
        let FlatImage {
            bytes: _,
            clean: _,
            undo: _,
        } = self;
    }
}

impl Model for FlatImage {
    ghost use Rattle.std.specs.Prelude.{◌+◌, ◌≤◌, length, vec_capacity};
    ghost use Rattle.disk.specs.Image.{ImageBytes, synced_of};

    ghost Value = { ImageBytes };

    ghost view = { λ i. record { seen = i.bytes.items; synced = synced_of i.clean i.undo.at i.undo.bytes.items i.bytes.items; seen_room = vec_capacity i.bytes; synced_room = vec_capacity i.undo.bytes } };

    // the bytes never get fewer
    ghost invariant = { λ i. (i.undo.at + length i.undo.bytes.items ≤ i.clean) × (i.clean ≤ length i.bytes.items) };
}

impl FlatImage {
    /// Nothing, and nothing that is made sure of.
    pub(crate) fn new(alloc: Global) -> FlatImage
        ensures { (result.seen ≡ []) × (result.synced ≡ []) }
    {
        FlatImage {
            bytes: Vec::new(alloc),
            clean: 0,
            undo: Undo::new(alloc),
        }
    }

    /// These bytes, of which nothing is made sure of.
    pub(crate) fn of(alloc: Global, bytes: Vec<u8>) -> FlatImage
        ensures { (result.seen ≡ bytes.items) × (result.synced ≡ []) }
    {
        FlatImage {
            bytes,
            clean: 0,
            undo: Undo::new(alloc),
        }
    }

    pub(crate) fn len(&self) -> usize
        ensures value { result ≡ length self.now.seen }
        ensures bound { result < 2 ^ 63 }
    {
        self.bytes.len()
    }

    pub(crate) fn bytes(&self) -> &[u8]
        ensures { result.now ≡ self.now.seen }
    {
        &self.bytes
    }

    /// What the last sync has made sure of, in three parts: what is there up to the bytes that were set aside, these, and what is there
    /// after them.
    pub(crate) fn synced(&self) -> (&[u8], &[u8], &[u8])
        ensures { result.0.now ++ result.1.now ++ result.2.now ≡ self.now.synced }
    {
        let end = self.undo.at + self.undo.bytes.len();
        (
            &self.bytes[..self.undo.at],
            &self.undo.bytes,
            &self.bytes[end..self.clean],
        )
    }

    pub(crate) fn read(&self, alloc: Global) -> Result<Vec<u8>, AllocError>
        ensures { IfOk result (λ bytes. bytes.items ≡ self.now.seen) }
    {
        Ok(self.bytes.to_vec(alloc)?)
    }

    /// Makes room for `end` bytes, and for those that are there.
    pub(crate) fn reserve(&mut self, end: usize) -> Result<(), AllocError>
        ensures same { (self.new.seen ≡ self.old.seen) × (self.new.synced ≡ self.old.synced) }
        ensures keeps { KeepsRoom self.old self.new }
        ensures ok { OnOk result ((end ≤ self.new.seen_room) × (end ≤ self.new.synced_room) × (length self.old.seen ≤ self.new.synced_room)) }
        ensures succeeds { end ≤ self.old.seen_room → end ≤ self.old.synced_room → length self.old.seen ≤ self.old.synced_room → IsOk result }
    {
        let end = end.max(self.bytes.len());
        make_room(&mut self.bytes, end)?;
        if end <= self.undo.bytes.capacity() {
            return Ok(());
        }
        self.undo.reserve(self.bytes.capacity())
    }

    /// Puts bytes in the place of those from `at` on, and past the end.
    pub(crate) fn overwrite(&mut self, at: usize, new: &[u8]) -> Result<(), AllocError>
        requires { at ≤ length self.old.seen }
        ensures ok { OnOk result (Holds self.old.seen at new.now self.new.seen) }
        ensures err { OnErr result (self.new.seen ≡ self.old.seen) }
        ensures synced { self.new.synced ≡ self.old.synced }
        ensures keeps { KeepsRoom self.old self.new }
        ensures succeeds { at + length new.now ≤ self.old.seen_room → length self.old.seen ≤ self.old.synced_room → IsOk result }
    {
        self.undo.cover(&self.bytes[..self.clean], at, new.len())?;
        overwrite(&mut self.bytes, at, new)
    }

    /// Makes sure of all bytes.
    pub(crate) fn sync(&mut self)
        ensures seen { self.new.seen ≡ self.old.seen }
        ensures synced { self.new.synced ≡ self.old.seen }
        ensures keeps { KeepsRoom self.old self.new }
    {
        self.undo.clear();
        self.clean = self.bytes.len();
    }

    /// Goes back to what the last sync has made sure of.
    pub(crate) fn forget(&mut self)
        ensures seen { self.new.seen ≡ self.old.synced }
        ensures synced { self.new.synced ≡ self.old.synced }
        ensures no_longer { length self.new.seen ≤ length self.old.seen }
        ensures keeps { KeepsRoom self.old self.new }
    {
        self.undo.put_back(&mut self.bytes);
        self.bytes.truncate(self.clean);
        self.sync();
    }

    /// For how many bytes there is room, below 2^63.
    pub(crate) fn room(&self) -> usize
        ensures value { result ≡ self.now.seen_room }
        ensures bound { result < 2 ^ 63 }
        ensures fits { length self.now.seen ≤ result }
    {
        self.bytes.capacity()
    }

    /// Whether all bytes are made sure of.
    pub(crate) fn is_clean(&self) -> bool
        ensures { IsTrue result → self.now.synced ≡ self.now.seen }
    {
        self.undo.bytes.is_empty() && self.clean == self.bytes.len()
    }

    /// Puts bytes before those that are there, and makes sure of them. There is room for them.
    pub(crate) fn put_front(&mut self, front: &[u8])
        requires { length front.now + length self.old.seen ≤ self.old.seen_room }
        ensures seen { self.new.seen ≡ front.now ++ self.old.seen }
        ensures synced { self.new.synced ≡ front.now ++ self.old.synced }
        ensures keeps { KeepsRoom self.old self.new }
    {
        if front.is_empty() {
            return;
        }
        match put_before(&mut self.bytes, front) {
            Ok(()) => {}
            Err(_) => unreachable!(),
        }
        self.clean += front.len();
        self.undo.at += front.len();
    }

    /// Puts bytes behind those that are there, and makes sure of them where it is told to. There is room for them.
    pub(crate) fn put_back(&mut self, tail: &[u8], sure: bool)
        requires room { length self.old.seen + length tail.now ≤ self.old.seen_room }
        requires whole { sure ≡ true → length self.old.seen ≤ length self.old.synced }
        ensures seen { self.new.seen ≡ self.old.seen ++ tail.now }
        ensures synced { self.new.synced ≡ self.old.synced ++ (if sure then tail.now else []) }
        ensures keeps { KeepsRoom self.old self.new }
    {
        match self.bytes.extend_from_slice(tail) {
            Ok(()) => {}
            Err(_) => unreachable!(),
        }
        if sure {
            self.clean = self.bytes.len();
        }
    }

    /// Lets all bytes go.
    pub(crate) fn clear(&mut self)
        ensures bytes { (self.new.seen ≡ []) × (self.new.synced ≡ []) }
        ensures keeps { KeepsRoom self.old self.new }
    {
        empty(&mut self.bytes);
        self.undo.clear();
        self.undo.at = 0;
        self.clean = 0;
    }

    /// Takes one byte in the place of those that are there, and makes sure of it. There is room for it.
    pub(crate) fn restart(&mut self, first: u8)
        requires { 0 < self.old.seen_room }
        ensures bytes { (self.new.seen ≡ first ∷ []) × (self.new.synced ≡ first ∷ []) }
        ensures keeps { KeepsRoom self.old self.new }
    {
        self.clear();
        self.bytes.push_reserved(first);
        self.sync();
    }
}
