//! The bytes of a disk in memory, whose long pieces are shared with the records that were written. Those in front are made sure of; those
//! in the middle lie in one buffer and can be written over, as the last gate of a record file is; and those behind are of the last
//! write. A write anywhere else first puts all bytes into the buffer in the middle, which has room for them.
ghost use Rattle.std.specs.Prelude.{◌≡◌, ◌⊎◌, ◌+◌, ◌≤◌, ◌<◌, ◌++◌, ◌^◌, [], length, true, false, if◌then◌else◌, IsTrue, OnOk, OnErr, IsOk, IfOk};
ghost use Rattle.disk.specs.Disk.{Holds};
ghost use Rattle.disk.specs.Image.{KeepsRoom};

use crate::flat::FlatImage;
use blocks::Woven;
use std::alloc::{AllocError, Global};
use std::marker::Model;
use std::mem;

pub struct Image {
    front: Woven,
    flat: FlatImage,
    tail: Woven,
    // whether the last sync has made sure of the tail
    sure: bool,
}

// Written out, so that a crate above that lets one go has no proof of what is in it.
impl Drop for Image {
    fn drop(self) {
        let Image {
            front: _,
            flat: _,
            tail: _,
            sure: _,
        } = self;
    }
}

impl Model for Image {
    ghost use Rattle.disk.specs.Image.{ImageBytes, in_parts, IsInParts};

    ghost Value = { ImageBytes };

    ghost view = { λ i. in_parts i.front.bytes i.flat i.tail.bytes i.sure };

    ghost invariant = { λ i. IsInParts i.front.bytes i.flat i.tail.bytes i.sure };
}

// Puts all bytes into the buffer in the middle.
fn flatten(front: &mut Woven, flat: &mut FlatImage, tail: &mut Woven, sure: bool)
    requires whole { sure ≡ true → length flat.old.seen ≤ length flat.old.synced }
    requires room { length front.old.bytes + length flat.old.seen + length tail.old.bytes ≤ flat.old.seen_room }
    ensures ends { (front.new.bytes ≡ []) × (tail.new.bytes ≡ []) }
    ensures seen { flat.new.seen ≡ front.old.bytes ++ flat.old.seen ++ tail.old.bytes }
    ensures synced { flat.new.synced ≡ front.old.bytes ++ flat.old.synced ++ (if sure then tail.old.bytes else []) }
    ensures keeps { KeepsRoom flat.old flat.new }
{
    front.join();
    flat.put_front(front.joined());
    front.release();
    tail.join();
    flat.put_back(tail.joined(), sure);
    tail.release();
}

// Puts the bytes of the middle and of the tail behind those in front, but for the last one. Where memory runs out a part stays.
fn fold(front: &mut Woven, flat: &mut FlatImage, tail: &mut Woven)
    requires { flat.old.synced ≡ flat.old.seen }
    ensures seen { front.new.bytes ++ flat.new.seen ++ tail.new.bytes ≡ front.old.bytes ++ flat.old.seen ++ tail.old.bytes }
    ensures synced { flat.new.synced ≡ flat.new.seen }
    ensures keeps { KeepsRoom flat.old flat.new }
{
    if front.put(flat.bytes()).is_err() {
        return;
    }
    flat.clear();
    if front.append(tail).is_err() {
        return;
    }
    if flat.room() == 0 {
        return;
    }
    if let Some(last) = front.pop_own() {
        flat.restart(last);
    }
}

// Whether a write of so many bytes changes those in the middle alone.
fn is_inside(
    front: &Woven,
    flat: &FlatImage,
    tail: &Woven,
    sure: bool,
    at: usize,
    count: usize,
) -> bool
    ensures begins { IsTrue result → length front.now.bytes ≤ at }
    ensures within { IsTrue result → at + count ≤ length front.now.bytes + length flat.now.seen ⊎ ((tail.now.bytes ≡ []) × (sure ≡ false)) }
{
    if at < front.len() {
        return false;
    }
    at - front.len() <= flat.len() && count <= flat.len() - (at - front.len())
        || tail.is_empty() && !sure
}

impl Image {
    /// Nothing, and nothing that is made sure of.
    pub(crate) fn new(alloc: Global) -> Image
        ensures { (result.seen ≡ []) × (result.synced ≡ []) }
    {
        Image::of(alloc, Vec::new(alloc))
    }

    /// These bytes, of which nothing is made sure of.
    pub(crate) fn of(alloc: Global, bytes: Vec<u8>) -> Image
        ensures { (result.seen ≡ bytes.items) × (result.synced ≡ []) }
    {
        let flat = FlatImage::of(alloc, bytes);
        // Read for its clause: there is room for these bytes.
        let _room = flat.room();
        Image {
            front: Woven::new(alloc),
            flat,
            tail: Woven::new(alloc),
            sure: false,
        }
    }

    pub(crate) fn len(&self) -> usize
        ensures value { result ≡ length self.now.seen }
        ensures bound { result < 2 ^ 63 }
        ensures room { result ≤ self.now.seen_room }
    {
        // Read for its bound: there are so few bytes that the sum fits.
        let _room = self.flat.room();
        self.front.len() + self.flat.len() + self.tail.len()
    }

    pub(crate) fn read(&self, alloc: Global) -> Result<Vec<u8>, AllocError>
        ensures { IfOk result (λ bytes. bytes.items ≡ self.now.seen) }
    {
        let mut bytes = Vec::with_capacity(alloc, self.len())?;
        self.front.append_to(&mut bytes)?;
        bytes.extend_from_slice(self.flat.bytes())?;
        self.tail.append_to(&mut bytes)?;
        Ok(bytes)
    }

    /// Makes room for `end` bytes, and for those that are there.
    pub(crate) fn reserve(&mut self, end: usize) -> Result<(), AllocError>
        ensures same { (self.new.seen ≡ self.old.seen) × (self.new.synced ≡ self.old.synced) }
        ensures keeps { KeepsRoom self.old self.new }
        ensures ok { OnOk result ((end ≤ self.new.seen_room) × (end ≤ self.new.synced_room) × (length self.old.seen ≤ self.new.synced_room)) }
        ensures succeeds { end ≤ self.old.seen_room → end ≤ self.old.synced_room → length self.old.seen ≤ self.old.synced_room → IsOk result }
    {
        let end = end.max(self.len());
        self.flat.reserve(end)
    }

    // Puts bytes for which there is room in the place of those from `at` on, and past the end.
    fn put_over(&mut self, at: usize, new: &[u8]) -> Result<(), AllocError>
        requires place { at ≤ length self.old.seen }
        requires room { at + length new.now ≤ self.old.seen_room }
        ensures ok { OnOk result (Holds self.old.seen at new.now self.new.seen) }
        ensures err { OnErr result (self.new.seen ≡ self.old.seen) }
        ensures synced { self.new.synced ≡ self.old.synced }
        ensures keeps { KeepsRoom self.old self.new }
        ensures succeeds { length self.old.seen ≤ self.old.synced_room → IsOk result }
    {
        if is_inside(
            &self.front,
            &self.flat,
            &self.tail,
            self.sure,
            at,
            new.len(),
        ) {
            return self.flat.overwrite(at - self.front.len(), new);
        }
        flatten(&mut self.front, &mut self.flat, &mut self.tail, self.sure);
        self.sure = false;
        self.flat.overwrite(at, new)
    }

    /// Puts bytes in the place of those from `at` on, and past the end.
    pub(crate) fn overwrite(&mut self, at: usize, new: &[u8]) -> Result<(), AllocError>
        requires { at ≤ length self.old.seen }
        ensures ok { OnOk result (Holds self.old.seen at new.now self.new.seen) }
        ensures err { OnErr result (self.new.seen ≡ self.old.seen) }
        ensures synced { self.new.synced ≡ self.old.synced }
        ensures keeps { KeepsRoom self.old self.new }
        ensures succeeds { at + length new.now ≤ self.old.seen_room → at + length new.now ≤ self.old.synced_room → length self.old.seen ≤ self.old.synced_room → IsOk result }
    {
        // Read for its bound: so few bytes are there that the end of these fits.
        let _size = self.len();
        self.reserve(at + new.len())?;
        self.put_over(at, new)
    }

    // Takes the bytes over that are put behind all others, where a long piece is among them.
    fn take_over(&mut self, bytes: &mut Woven) -> bool
        ensures taken { IsTrue result → self.new.seen ≡ self.old.seen ++ bytes.old.bytes }
        ensures none { result ≡ false → (self.new.seen ≡ self.old.seen) × (bytes.new.bytes ≡ bytes.old.bytes) }
        ensures synced { self.new.synced ≡ self.old.synced }
        ensures keeps { KeepsRoom self.old self.new }
    {
        if bytes.is_joined()
            || !self.tail.is_empty()
            || self.flat.room() - self.len() < bytes.len()
        {
            return false;
        }
        mem::swap(&mut self.tail, bytes);
        self.sure = false;
        true
    }

    // Makes the tail ready to be taken in the next write, where all bytes are made sure of.
    fn settle(&mut self)
        ensures same { (self.new.seen ≡ self.old.seen) × (self.new.synced ≡ self.old.synced) }
        ensures keeps { KeepsRoom self.old self.new }
    {
        if !self.sure || !self.flat.is_clean() {
            return;
        }
        fold(&mut self.front, &mut self.flat, &mut self.tail);
        self.sure = !self.tail.is_empty();
    }

    /// As `overwrite` of the same bytes, which it may take over.
    pub(crate) fn put_woven(&mut self, at: usize, bytes: &mut Woven) -> Result<(), AllocError>
        requires { at ≤ length self.old.seen }
        ensures ok { OnOk result (Holds self.old.seen at bytes.old.bytes self.new.seen) }
        ensures err { OnErr result (self.new.seen ≡ self.old.seen) }
        ensures synced { self.new.synced ≡ self.old.synced }
        ensures keeps { KeepsRoom self.old self.new }
        ensures succeeds { at + length bytes.old.bytes ≤ self.old.seen_room → at + length bytes.old.bytes ≤ self.old.synced_room → length self.old.seen ≤ self.old.synced_room → IsOk result }
    {
        if at == self.len() {
            self.settle();
            if self.take_over(bytes) {
                return Ok(());
            }
        }
        bytes.join();
        self.overwrite(at, bytes.joined())
    }

    /// Makes sure of all bytes.
    pub(crate) fn sync(&mut self)
        ensures seen { self.new.seen ≡ self.old.seen }
        ensures synced { self.new.synced ≡ self.old.seen }
        ensures keeps { KeepsRoom self.old self.new }
    {
        self.flat.sync();
        self.sure = !self.tail.is_empty();
    }

    /// Goes back to what the last sync has made sure of.
    pub(crate) fn forget(&mut self)
        ensures seen { self.new.seen ≡ self.old.synced }
        ensures synced { self.new.synced ≡ self.old.synced }
    {
        if !self.sure {
            self.tail.clear();
        }
        self.flat.forget();
    }
}
