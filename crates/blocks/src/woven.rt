//! Bytes of which the long pieces are shared.
ghost use Rattle.std.specs.Prelude.{◌≡◌, ◌+◌, ◌≤◌, ◌<◌, ◌^◌, ◌++◌, ◌∷◌, [], IsTrue, ◌↔◌, length, vec_capacity, vec_len, OnOk, OnErr, IfOk, IfSome, IfNone};
ghost use Rattle.blocks.specs.Woven.{woven, moved, ArePlaced};

use bytes::Bytes;
use std::alloc::{AllocError, Global};
use std::marker::Model;
use std::mem;

// Fewer bytes are copied, since a piece takes room and an owner of its own.
const LEAST_SHARED: usize = 512;

// As many bytes as a buffer can have.
const MAX_LEN: usize = isize::MAX as usize;

/// Bytes that are shared, and after how many of the own bytes they stand.
pub struct Piece {
    behind: usize,
    bytes: Bytes,
}

// Written out, so that a crate above that lets one go has no proof of what is in it.
impl Drop for Piece {
    fn drop(self) {
        let Piece {
            behind: _,
            bytes: _,
        } = self;
    }
}

/// Bytes that were put one after the other. The short ones lie together in a buffer of its own, and each long piece shares the buffer
/// that it came from. In a clause its value shows the bytes in order, and whether they lie in one buffer. Where they do not, there is
/// room for all of them, which is not touched before they are joined, so that `join` takes no memory.
pub struct Woven {
    own: Vec<u8>,
    pieces: Vec<Piece>,
    // the last piece stands after so many own bytes or fewer
    settled: usize,
    // so many bytes there are together
    len: usize,
    // room to join them
    spare: Vec<u8>,
}

// Written out, so that a crate above that lets one go has no proof of what is in it.
impl Drop for Woven {
    fn drop(self) {
        let Woven {
            own: _,
            pieces: _,
            settled: _,
            len: _,
            spare: _,
        } = self;
    }
}

impl Model for Woven {
    ghost use Rattle.std.specs.Prelude.{vec_capacity};
    ghost use Rattle.blocks.specs.Woven.{Weave, weave, IsWoven};

    ghost Value = { Weave };

    ghost view = { λ w. weave w.own.items w.pieces.items };

    ghost invariant = { λ w. IsWoven w.own.items w.pieces.items w.settled w.len (vec_capacity w.spare) };
}

// The length with so many bytes more, if a buffer can have it.
fn longer(len: usize, more: usize) -> Result<usize, AllocError>
    ensures sum { IfOk result (λ n. n ≡ len + more) }
    ensures bound { IfOk result (λ n. n < 2 ^ 63) }
{
    match len.checked_add(more) {
        Some(sum) if sum <= MAX_LEN => Ok(sum),
        _ => Err(AllocError),
    }
}

// Makes room for so many bytes, twice as many as before at least. What the buffer holds goes, since to grow it would touch its room.
fn make_room(spare: &mut Vec<u8>, room: usize) -> Result<(), AllocError>
    ensures ok { OnOk result (room ≤ vec_capacity spare.new) }
    ensures keeps { vec_capacity spare.old ≤ vec_capacity spare.new }
{
    if room <= spare.capacity() {
        return Ok(());
    }
    let doubled = room.max(spare.capacity().saturating_mul(2));
    *spare = Vec::with_capacity(*spare.allocator(), doubled)?;
    Ok(())
}

// Makes room to join so many bytes where there are pieces.
fn make_room_for(pieces: usize, spare: &mut Vec<u8>, room: usize) -> Result<(), AllocError>
    ensures ok { OnOk result (0 < pieces → room ≤ vec_capacity spare.new) }
    ensures keeps { vec_capacity spare.old ≤ vec_capacity spare.new }
{
    if pieces == 0 {
        return Ok(());
    }
    make_room(spare, room)
}

// Appends bytes for which there is room.
fn put_reserved(out: &mut Vec<u8>, bytes: &[u8])
    requires { vec_len out.old + length bytes.now ≤ vec_capacity out.old }
    ensures items { out.new.items ≡ out.old.items ++ bytes.now }
    ensures capacity { vec_capacity out.old ≤ vec_capacity out.new }
{
    match out.extend_from_slice(bytes) {
        Ok(()) => {}
        Err(_) => unreachable!(),
    }
}

// Appends the own bytes and the pieces in order, for which there is room.
fn join_into(own: &[u8], pieces: &[Piece], out: &mut Vec<u8>)
    requires placed { ArePlaced 0 (length own.now) pieces.now }
    requires room { vec_len out.old + length (woven 0 own.now pieces.now) ≤ vec_capacity out.old }
    ensures { out.new.items ≡ out.old.items ++ woven 0 own.now pieces.now }
{
    let mut from = 0;
    for piece in pieces {
        put_reserved(out, &own[from..piece.behind]);
        put_reserved(out, piece.bytes.as_slice());
        from = piece.behind;
    }
    put_reserved(out, &own[from..]);
}

// Puts each piece behind so many own bytes more.
fn move_behind(pieces: &mut [Piece], base: usize, end: usize)
    requires placed { ArePlaced 0 end pieces.old }
    requires bound { base + end < 2 ^ 64 }
    ensures { pieces.new ≡ moved base pieces.old }
{
    for index in 0..pieces.len() {
        let piece = &mut pieces[index];
        piece.behind += base;
    }
}

// As `move_behind` of all pieces of a list.
fn move_all(pieces: &mut Vec<Piece>, base: usize, end: usize)
    requires placed { ArePlaced 0 end pieces.old.items }
    requires bound { base + end < 2 ^ 64 }
    ensures items { pieces.new.items ≡ moved base pieces.old.items }
    ensures len { vec_len pieces.new ≡ vec_len pieces.old }
{
    move_behind(pieces, base, end);
}

// Appends the pieces of another list, for which there is room, and takes them out of it.
fn append_pieces(pieces: &mut Vec<Piece>, others: &mut Vec<Piece>)
    requires { vec_len pieces.old + vec_len others.old ≤ vec_capacity pieces.old }
    ensures { (pieces.new.items ≡ pieces.old.items ++ others.old.items) × (others.new.items ≡ []) }
{
    match pieces.append(others) {
        Ok(()) => {}
        Err(_) => unreachable!(),
    }
}

impl Woven {
    /// No bytes.
    pub fn new(alloc: Global) -> Woven
        ensures bytes { result.bytes ≡ [] }
        ensures joined { IsTrue result.joined }
    {
        Woven {
            own: Vec::new(alloc),
            pieces: Vec::new(alloc),
            settled: 0,
            len: 0,
            spare: Vec::new(alloc),
        }
    }

    /// How many bytes there are, below 2^63.
    pub fn len(&self) -> usize
        ensures value { result ≡ length self.now.bytes }
        ensures bound { result < 2 ^ 63 }
    {
        self.len
    }

    /// For how many bytes its own buffer has room. No clause speaks of it.
    pub fn own_room(&self) -> usize {
        self.own.capacity()
    }

    /// Whether there are none.
    pub fn is_empty(&self) -> bool
        ensures { IsTrue result ↔ (self.now.bytes ≡ []) }
    {
        self.len == 0
    }

    /// Whether they lie in one buffer, as they do where none is shared.
    pub fn is_joined(&self) -> bool
        ensures { result ≡ self.now.joined }
    {
        self.pieces.is_empty()
    }

    /// All the bytes, where they lie in one buffer.
    pub fn joined(&self) -> &[u8]
        requires { IsTrue self.now.joined }
        ensures { result.now ≡ self.now.bytes }
    {
        &self.own
    }

    /// Appends a copy of the bytes. An error is out of memory (22), and changes nothing.
    pub fn put(&mut self, bytes: &[u8]) -> Result<(), AllocError>
        ensures ok { OnOk result (self.new.bytes ≡ self.old.bytes ++ bytes.now) }
        ensures err { OnErr result (self.new.bytes ≡ self.old.bytes) }
        ensures joined { self.new.joined ≡ self.old.joined }
    {
        let len = longer(self.len, bytes.len())?;
        make_room_for(self.pieces.len(), &mut self.spare, len)?;
        self.own.extend_from_slice(bytes)?;
        self.len = len;
        Ok(())
    }

    /// Appends the bytes, which it shares where there are 512 or more. An error is out of memory (22), and changes nothing.
    pub fn share(&mut self, bytes: &Bytes) -> Result<(), AllocError>
        ensures ok { OnOk result (self.new.bytes ≡ self.old.bytes ++ bytes.now) }
        ensures err { OnErr result (self.new.bytes ≡ self.old.bytes) }
    {
        if bytes.len() < LEAST_SHARED {
            return self.put(bytes.as_slice());
        }
        let len = longer(self.len, bytes.len())?;
        make_room(&mut self.spare, len)?;
        let piece = Piece {
            behind: self.own.len(),
            bytes: bytes.clone()?,
        };
        self.pieces.push(piece)?;
        self.settled = self.own.len();
        self.len = len;
        Ok(())
    }

    /// Takes over the bytes of another, none of which it copies but the short ones. An error is out of memory (22), and changes nothing.
    pub fn append(&mut self, other: &mut Woven) -> Result<(), AllocError>
        ensures ok { OnOk result ((self.new.bytes ≡ self.old.bytes ++ other.old.bytes) × (other.new.bytes ≡ [])) }
        ensures err { OnErr result ((self.new.bytes ≡ self.old.bytes) × (other.new.bytes ≡ other.old.bytes)) }
    {
        let len = longer(self.len, other.len)?;
        make_room(&mut self.spare, len)?;
        self.own.reserve(other.own.len())?;
        self.pieces.reserve(other.pieces.len())?;
        move_all(&mut other.pieces, self.own.len(), other.own.len());
        append_pieces(&mut self.pieces, &mut other.pieces);
        self.settled = self.own.len() + other.settled;
        put_reserved(&mut self.own, &other.own);
        self.len = len;
        other.own.clear();
        other.settled = 0;
        other.len = 0;
        Ok(())
    }

    /// Takes off the last byte, unless it is a shared one.
    pub fn pop_own(&mut self) -> Option<u8>
        ensures some { IfSome result (λ b. self.old.bytes ≡ self.new.bytes ++ b ∷ []) }
        ensures none { IfNone result (self.new.bytes ≡ self.old.bytes) }
    {
        if self.own.len() <= self.settled {
            return None;
        }
        let last = self.own.take_last();
        self.len -= 1;
        Some(last)
    }

    /// Puts all bytes into one buffer. It takes no memory.
    pub fn join(&mut self)
        ensures bytes { self.new.bytes ≡ self.old.bytes }
        ensures joined { IsTrue self.new.joined }
    {
        if self.pieces.is_empty() {
            return;
        }
        self.spare.clear();
        join_into(&self.own, &self.pieces, &mut self.spare);
        mem::swap(&mut self.own, &mut self.spare);
        self.pieces.clear();
        self.settled = 0;
    }

    /// Appends all bytes to a buffer. An error is out of memory (22), and changes nothing there.
    pub fn append_to(&self, out: &mut Vec<u8>) -> Result<(), AllocError>
        ensures ok { OnOk result (out.new.items ≡ out.old.items ++ self.now.bytes) }
        ensures err { OnErr result (out.new.items ≡ out.old.items) }
    {
        out.reserve(self.len)?;
        join_into(&self.own, &self.pieces, out);
        Ok(())
    }

    /// Lets all the bytes go, and keeps its room.
    pub fn clear(&mut self)
        ensures bytes { self.new.bytes ≡ [] }
        ensures joined { IsTrue self.new.joined }
    {
        self.own.clear();
        self.pieces.clear();
        self.settled = 0;
        self.len = 0;
    }

    /// Lets all the bytes go, and its room.
    pub fn release(&mut self)
        ensures bytes { self.new.bytes ≡ [] }
        ensures joined { IsTrue self.new.joined }
    {
        *self = Woven::new(*self.own.allocator());
    }
}
