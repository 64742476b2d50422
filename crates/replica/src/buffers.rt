//! A text in buffers of 65,536 bytes, so that a piece of it is mostly shared and not copied.
ghost use Rattle.std.specs.Prelude.{◌≡◌, ◌+◌, ◌-◌, ◌<◌, ◌≤◌, ◌/◌, ◌++◌, [], take, drop, length, IfOk, IsOk, OnOk};
ghost use Rattle.replica.specs.Buffers.{AllFull};
ghost use Rattle.replica.specs.Groups.{joined};

use crate::last_bytes::{BUFFER, LastBytes};
use crate::parts::{copy_part, write_part};
use bytes::Bytes;
use std::alloc::{AllocError, Global};
use std::marker::Model;

/// Bytes in full buffers, and the last ones in a buffer that grows. Its value is the bytes, and for how many more there is
/// memory.
#[derive(Drop)]
pub(crate) struct Buffers {
    full: Vec<Bytes>,
    /// What a cut has left of a buffer that was full; else there is nothing in it.
    part: Bytes,
    /// What came after them; what is full of it is moved to the full ones once it has to grow.
    last: LastBytes,
}

impl Model for Buffers {
    ghost use Rattle.std.specs.Prelude.{◌++◌};
    ghost use Rattle.replica.specs.Buffers.{Text, AllFull};
    ghost use Rattle.replica.specs.Groups.{joined};

    ghost Value = { Text };

    ghost view = { λ b. record { bytes = joined b.full.items ++ (b.part ++ b.last.bytes); spare = b.last.spare } };

    ghost invariant = { λ b. AllFull 65536 b.full.items };
}

/// Copies bytes of two slices, one after the other, from one on, at most so many.
fn copy_two(
    out: &mut Vec<u8>,
    first: &[u8],
    second: &[u8],
    from: usize,
    most: usize,
) -> Result<(), AllocError>
    ensures { OnOk result (out.new.items ≡ out.old.items ++ take most (drop from (first.now ++ second.now))) }
{
    let before = out.len();
    copy_part(out, first, from, most)?;
    let most = most - (out.len() - before);
    copy_part(out, second, from.saturating_sub(first.len()), most)
}

/// Copies bytes of buffers and of two slices after them, from one on, at most so many.
fn copy_buffers(
    out: &mut Vec<u8>,
    buffers: &[Bytes],
    first: &[u8],
    second: &[u8],
    from: usize,
    most: usize,
) -> Result<(), AllocError>
    ensures { OnOk result (out.new.items ≡ out.old.items ++ take most (drop from (joined buffers.now ++ (first.now ++ second.now)))) }
{
    let mut from = from;
    let mut most = most;
    for buffer in buffers {
        if most == 0 {
            return Ok(());
        }
        let before = out.len();
        copy_part(out, buffer.as_slice(), from, most)?;
        from = from.saturating_sub(buffer.len());
        most -= out.len() - before;
    }
    copy_two(out, first, second, from, most)
}

/// Writes the bytes of buffers and of two slices after them, from one on, into places, as far as there are any, and says
/// where they end.
fn write_buffers(
    out: &mut [u8],
    buffers: &[Bytes],
    first: &[u8],
    second: &[u8],
    from: usize,
) -> usize
    ensures written { take result out.new ≡ take (length out.old) (drop from (joined buffers.now ++ (first.now ++ second.now))) }
    ensures within { result ≤ length out.old }
    ensures len { length out.new ≡ length out.old }
{
    let mut from = from;
    let mut at = 0;
    for buffer in buffers {
        if at == out.len() {
            return at;
        }
        at = write_part(out, at, buffer.as_slice(), from);
        from = from.saturating_sub(buffer.len());
    }
    let at = write_part(out, at, first, from);
    write_part(out, at, second, from.saturating_sub(first.len()))
}

/// Keeps what is full of the first bytes, so many, which the full buffers have, and hands out the others of them.
fn cut_full(full: &mut Vec<Bytes>, count: usize) -> Bytes
    requires within { count / 65536 < length full.old.items }
    requires all { AllFull 65536 full.old.items }
    ensures cut { joined full.new.items ++ result ≡ take count (joined full.old.items) }
    ensures all { AllFull 65536 full.new.items }
{
    full.truncate(count / BUFFER + 1);
    match full.pop() {
        Some(buffer) => {
            let mut part = buffer;
            part.truncate(count % BUFFER);
            part
        }
        // There is one more than are kept.
        None => Bytes::new(),
    }
}

impl Buffers {
    /// No bytes; takes no memory.
    pub(crate) fn new(alloc: Global) -> Buffers
        ensures { result.bytes ≡ [] }
    {
        Buffers {
            full: Vec::new(alloc),
            part: Bytes::new(),
            last: LastBytes::new(alloc),
        }
    }

    /// For how many more bytes there is room.
    pub(crate) fn spare(&self) -> usize
        ensures { result ≡ self.now.spare }
    {
        self.last.spare()
    }

    /// Makes room for so many more bytes. Without memory nothing has changed but room.
    pub(crate) fn reserve(&mut self, count: usize) -> Result<(), AllocError>
        ensures same { self.new.bytes ≡ self.old.bytes }
        ensures room { OnOk result (count ≤ self.new.spare) }
        ensures more { self.old.spare ≤ self.new.spare }
        ensures ready { count ≤ self.old.spare → IsOk result }
    {
        if count <= self.spare() {
            return Ok(());
        }
        if self.part.is_empty() && self.last.len() >= BUFFER {
            self.last.freeze(&mut self.full, count)
        } else {
            self.last.grow(count)
        }
    }

    /// Adds bytes at the end, into room that was made.
    pub(crate) fn push(&mut self, bytes: &[u8])
        requires { length bytes.now ≤ self.old.spare }
        ensures bytes { self.new.bytes ≡ self.old.bytes ++ bytes.now }
        ensures room { self.new.spare + length bytes.now ≡ self.old.spare }
    {
        self.last.push(bytes);
    }

    /// Copies bytes from one on, at most so many.
    fn copy_to(&self, out: &mut Vec<u8>, from: usize, most: usize) -> Result<(), AllocError>
        ensures { OnOk result (out.new.items ≡ out.old.items ++ take most (drop from self.now.bytes)) }
    {
        let skipped = (from / BUFFER).min(self.full.len());
        copy_buffers(
            out,
            &self.full[skipped..],
            self.part.as_slice(),
            self.last.as_slice(),
            from - skipped * BUFFER,
            most,
        )
    }

    /// Writes the bytes from one on into places, as far as there are any, and says where they end.
    pub(crate) fn write_to(&self, out: &mut [u8], from: usize) -> usize
        ensures written { take result out.new ≡ take (length out.old) (drop from self.now.bytes) }
        ensures len { length out.new ≡ length out.old }
    {
        let skipped = (from / BUFFER).min(self.full.len());
        write_buffers(
            out,
            &self.full[skipped..],
            self.part.as_slice(),
            self.last.as_slice(),
            from - skipped * BUFFER,
        )
    }

    /// A copy of at most so many bytes from one on. An error is out of memory.
    pub(crate) fn copied(
        &self,
        alloc: Global,
        from: usize,
        most: usize,
    ) -> Result<Bytes, AllocError>
        ensures { IfOk result (λ bytes. bytes ≡ take most (drop from self.now.bytes)) }
    {
        let mut out = Vec::new(alloc);
        self.copy_to(&mut out, from, most)?;
        Ok(Bytes::from_vec(out)?)
    }

    /// At most so many bytes from one on: shared where one full buffer has them all, else a copy. An error is out of
    /// memory.
    pub(crate) fn piece(&self, alloc: Global, from: usize, most: usize) -> Result<Bytes, AllocError>
        ensures { IfOk result (λ bytes. bytes ≡ take most (drop from self.now.bytes)) }
    {
        let index = from / BUFFER;
        let start = from % BUFFER;
        if index >= self.full.len() || most > BUFFER - start {
            return self.copied(alloc, from, most);
        }
        let buffer = &self.full[index];
        Ok(buffer.slice(start..start + most)?)
    }

    /// Keeps the first bytes, so many; takes no memory.
    pub(crate) fn truncate(&mut self, count: usize)
        ensures { self.new.bytes ≡ take count self.old.bytes }
    {
        if count / BUFFER < self.full.len() {
            self.part = cut_full(&mut self.full, count);
            self.last.truncate(0);
        } else {
            let rest = count - self.full.len() * BUFFER;
            let behind = rest.saturating_sub(self.part.len());
            self.part.truncate(rest);
            self.last.truncate(behind);
        }
    }
}
