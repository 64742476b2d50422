//! The last bytes of a text in buffers, which grow at their end until they are frozen.
ghost use Rattle.std.specs.Prelude.{◌≡◌, ◌+◌, ◌*◌, ◌/◌, ◌<◌, ◌≤◌, ◌++◌, [], take, length, vec_len, vec_capacity, IfOk, OnOk, OnErr};
ghost use Rattle.replica.specs.Buffers.{AllFull};
ghost use Rattle.replica.specs.Groups.{joined};

use bytes::Bytes;
use std::alloc::{AllocError, AllocFailed, Global};
use std::marker::Model;
use std::mem;

/// How many bytes a full buffer has.
pub(crate) const BUFFER: usize = 65_536;

/// Bytes that grow at their end, with no byte written before it is added. Its value is the bytes, and for how many more there
/// is memory.
#[derive(Drop)]
pub(crate) struct LastBytes {
    held: Vec<u8>,
    /// For how many more bytes `held` has memory.
    room: usize,
}

impl Model for LastBytes {
    ghost use Rattle.std.specs.Prelude.{◌+◌, ◌≤◌, vec_len, vec_capacity};
    ghost use Rattle.replica.specs.Buffers.{Text};

    ghost Value = { Text };

    ghost view = { λ t. record { bytes = t.held.items; spare = t.room } };

    ghost invariant = { λ t. vec_len t.held + t.room ≤ vec_capacity t.held };
}

/// The whole buffers that bytes begin with, each shared with them. An error is out of memory.
fn shared_buffers(alloc: Global, bytes: &Bytes) -> Result<Vec<Bytes>, AllocError>
    ensures front { IfOk result (λ buffers. joined buffers.items ≡ take (length bytes.now / 65536 * 65536) bytes.now) }
    ensures all { IfOk result (λ buffers. AllFull 65536 buffers.items) }
{
    let count = bytes.len() / BUFFER;
    let mut buffers = Vec::with_capacity(alloc, count)?;
    for index in 0..count {
        let start = index * BUFFER;
        buffers.push_reserved(bytes.slice(start..start + BUFFER)?);
    }
    Ok(buffers)
}

/// Adds the whole buffers that bytes begin with to the full ones, shared, and says where the last of them ends. Without memory
/// the full ones are as they were.
fn share_full(full: &mut Vec<Bytes>, bytes: &Bytes) -> Result<usize, AllocError>
    ensures front { IfOk result (λ end. joined full.new.items ≡ joined full.old.items ++ take end bytes.now) }
    ensures within { IfOk result (λ end. end ≤ length bytes.now) }
    ensures rest { IfOk result (λ end. length bytes.now < end + 65536) }
    ensures err { OnErr result (full.new.items ≡ full.old.items) }
    ensures all { AllFull 65536 full.old.items → AllFull 65536 full.new.items }
{
    let mut whole = shared_buffers(*full.allocator(), bytes)?;
    full.append(&mut whole)?;
    Ok(bytes.len() / BUFFER * BUFFER)
}

/// Moves the whole buffers that held bytes begin with to the full ones, and the bytes behind them to last ones that are none
/// yet. Without memory all of them go there.
fn freeze_held(full: &mut Vec<Bytes>, last: &mut LastBytes, held: Vec<u8>) -> Result<(), AllocError>
    requires none { last.old.bytes ≡ [] }
    requires room { length held.items ≤ last.old.spare }
    ensures same { joined full.new.items ++ last.new.bytes ≡ joined full.old.items ++ held.items }
    ensures all { AllFull 65536 full.old.items → AllFull 65536 full.new.items }
    ensures spare { last.new.spare + length last.new.bytes ≡ last.old.spare }
    ensures fewer { length last.new.bytes ≤ length held.items }
    ensures rest { OnOk result (length last.new.bytes < 65536) }
{
    match Bytes::from_vec(held) {
        Ok(bytes) => match share_full(full, &bytes) {
            Ok(end) => {
                last.push(&bytes.as_slice()[end..]);
                Ok(())
            }
            Err(error) => {
                last.push(bytes.as_slice());
                Err(error)
            }
        },
        Err(AllocFailed { value }) => {
            last.push(value.as_slice());
            Err(AllocError)
        }
    }
}

impl LastBytes {
    /// No bytes; takes no memory.
    pub(crate) fn new(alloc: Global) -> LastBytes
        ensures bytes { result.bytes ≡ [] }
        ensures spare { result.spare ≡ 0 }
    {
        LastBytes {
            held: Vec::new(alloc),
            room: 0,
        }
    }

    /// How many bytes there are.
    pub(crate) fn len(&self) -> usize
        ensures { result ≡ length self.now.bytes }
    {
        self.held.len()
    }

    /// For how many more bytes there is room.
    pub(crate) fn spare(&self) -> usize
        ensures { result ≡ self.now.spare }
    {
        self.room
    }

    /// The bytes.
    pub(crate) fn as_slice(&self) -> &[u8]
        ensures { result.now ≡ self.now.bytes }
    {
        self.held.as_slice()
    }

    /// Adds bytes at the end, into room that was made.
    pub(crate) fn push(&mut self, bytes: &[u8])
        requires { length bytes.now ≤ self.old.spare }
        ensures bytes { self.new.bytes ≡ self.old.bytes ++ bytes.now }
        ensures spare { self.new.spare + length bytes.now ≡ self.old.spare }
    {
        // It succeeds, since there is room.
        let _added = self.held.extend_from_slice(bytes);
        self.room -= bytes.len();
    }

    /// Keeps the first bytes, so many; takes no memory.
    pub(crate) fn truncate(&mut self, count: usize)
        ensures { self.new.bytes ≡ take count self.old.bytes }
    {
        self.held.truncate(count);
    }

    /// Makes room for so many more bytes behind these. Few bytes get twice the room that they had, and many that of a buffer and
    /// of what is added, so that the end of a buffer is passed by no more than that. Without memory nothing has changed.
    pub(crate) fn grow(&mut self, count: usize) -> Result<(), AllocError>
        ensures same { self.new.bytes ≡ self.old.bytes }
        ensures room { OnOk result (count ≤ self.new.spare) }
        ensures more { self.old.spare ≤ self.new.spare }
    {
        let len = self.held.len();
        if len < BUFFER && BUFFER / 2 <= self.held.capacity() {
            self.held
                .reserve_exact((BUFFER - len).saturating_add(count))?;
        } else {
            self.held.reserve(count)?;
        }
        self.room = self.held.capacity() - len;
        Ok(())
    }

    /// Moves what is full of the bytes to the full buffers, with no copy of it, and makes room for so many more behind the
    /// others. Without memory nothing has changed but room.
    pub(crate) fn freeze(&mut self, full: &mut Vec<Bytes>, count: usize) -> Result<(), AllocError>
        ensures same { joined full.new.items ++ self.new.bytes ≡ joined full.old.items ++ self.old.bytes }
        ensures all { AllFull 65536 full.old.items → AllFull 65536 full.new.items }
        ensures room { OnOk result (count ≤ self.new.spare) }
        ensures more { self.old.spare ≤ self.new.spare }
    {
        let Some(wanted) = BUFFER.checked_add(count) else {
            return Err(AllocError);
        };
        // What has been held fits too, so that without memory it can be put back.
        let room = wanted.max(self.held.len() + self.room);
        let next = LastBytes {
            held: Vec::with_capacity(*self.held.allocator(), room)?,
            room,
        };
        let LastBytes { held, room: _ } = mem::replace(self, next);
        freeze_held(full, self, held)
    }
}
