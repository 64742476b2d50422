//! A writer that keeps what it is given, and hands on whole lines.
ghost use Rattle.std.specs.Prelude.{◌≡◌, ◌≤◌, ◌<◌, ◌+◌, ◌-◌, [], false, true, Some, IfErr, IfOk, IsErr, OnErr, OnOk, drop, length, take, vec_len};
ghost use Rattle.std.specs.IoError.{error_kind};
ghost use Rattle.std.specs.Io.{WritesAtMost};
ghost use Rattle.std.specs.Io.KnownBytes.{Appends, Keeps, WriteAppends};
ghost use Rattle.spool.specs.Lines.{HasNoLineEnd, IsWholeLines};

#[cfg(test)]
mod tests;

use crate::handed::Handed;
use memchr::memrchr;
use std::alloc::{AllocError, Global};
use std::io::{self, ErrorKind, Write};

/// How many bytes a spool has room for at first.
const ROOM: usize = 65_536;

/// A writer over another one. It keeps what it is given up to 64 KiB, and then hands on whole lines, so that the other one never has
/// the beginning of a line alone, unless it fails there. Where one line fills the room there is made room for twice as much. Once the
/// other one has failed it is given nothing more, and each write and flush is refused.
#[derive(Drop)]
pub struct LineSpool<W: Write + Drop> {
    writer: W,
    buffer: Vec<u8>,
    room: usize,
    failed: bool,
    handed: Handed,
    ghost some: { 0 < room },
    ghost within: { length buffer.items ≤ room },
    ghost whole: { failed ≡ false → IsWholeLines handed.bytes },
}

/// How many bytes the whole lines have that these begin with.
fn lines_end(bytes: &[u8]) -> usize
    ensures bound { result ≤ length bytes.now }
    ensures whole { IsWholeLines (take result bytes.now) }
    ensures rest { HasNoLineEnd (drop result bytes.now) }
{
    match memrchr(b'\n', bytes) {
        Some(last) => last + 1,
        None => 0,
    }
}

/// Writes until all is written or the writer fails, and answers how many bytes it took.
fn write_out<W: Write>(writer: &mut W, bytes: &[u8]) -> (usize, io::Result<()>)
    ensures bound { result.0 ≤ length bytes.now }
    ensures all { OnOk result.1 (result.0 ≡ length bytes.now) }
    ensures taken { Appends (W.contents writer.old) (W.contents writer.new) (take result.0 bytes.now) }
{
    let mut written = 0;
    for _ in 0..u64::MAX {
        if written >= bytes.len() {
            return (written, Ok(()));
        }
        match writer.write(&bytes[written..]) {
            Ok(0) => return (written, Err(io::Error::from(ErrorKind::WriteZero))),
            Ok(count) => written += count,
            Err(error) => {
                if error.kind() != ErrorKind::Interrupted {
                    return (written, Err(error));
                }
            }
        }
    }
    (written, Err(io::Error::from(ErrorKind::TimedOut)))
}

/// Removes the first bytes.
fn remove_front(buffer: &mut Vec<u8>, count: usize)
    requires { count ≤ vec_len buffer.old }
    ensures { buffer.new.items ≡ drop count buffer.old.items }
{
    let length = buffer.len();
    buffer.as_mut_slice().copy_within(count..length, 0);
    buffer.truncate(length - count);
}

impl<W: Write + Drop> LineSpool<W> {
    ghost use Rattle.spool.specs.Spool.{GrowsForOneLine, HandsOn, HasHandedOnLines, below, given, handed, has_failed, kept, room};

    /// A spool that was given nothing. An error is out of memory (22).
    pub fn new(alloc: Global, writer: W) -> Result<LineSpool<W>, AllocError>
        ensures given { IfOk result (λ spool. given spool ≡ []) }
        ensures below { IfOk result (λ spool. below spool ≡ writer) }
        ensures room { IfOk result (λ spool. room spool ≡ 65536) }
        ensures running { IfOk result (λ spool. has_failed spool ≡ false) }
    {
        let buffer = Vec::with_capacity(alloc, ROOM)?;
        Ok(LineSpool {
            writer,
            buffer,
            room: ROOM,
            failed: false,
            handed: Handed::new(),
        })
    }

    /// Hands on the whole lines that are kept. An error is that the writer below failed, now or before.
    fn hand_on(&mut self) -> io::Result<()>
        ensures kept { given self.new ≡ given self.old }
        ensures handed { HandsOn self.old self.new }
        ensures room { room self.new ≡ room self.old }
        ensures lines { OnOk result (HasHandedOnLines self.new) }
        ensures running { OnOk result (has_failed self.new ≡ false) }
        ensures failed { OnErr result (has_failed self.new ≡ true) }
        ensures silent { has_failed self.old ≡ true → self.new ≡ self.old }
        ensures refused { has_failed self.old ≡ true → IsErr result }
    {
        if self.failed {
            return Err(io::Error::from(ErrorKind::BrokenPipe));
        }
        let end = lines_end(self.buffer.as_slice());
        let (count, result) = write_out(&mut self.writer, &self.buffer.as_slice()[..end]);
        self.failed = result.is_err();
        self.handed.note(&self.buffer.as_slice()[..count]);
        remove_front(&mut self.buffer, count);
        result
    }

    /// How many more bytes there is room for.
    fn room_left(&self) -> usize
        ensures { result ≡ room self.now - length (kept self.now) }
    {
        self.room - self.buffer.len()
    }

    /// Makes room for twice as many bytes. An error is out of memory.
    fn grow(&mut self) -> io::Result<()>
        ensures handed { handed self.new ≡ handed self.old }
        ensures kept { kept self.new ≡ kept self.old }
        ensures below { below self.new ≡ below self.old }
        ensures failed { has_failed self.new ≡ has_failed self.old }
        ensures room { room self.old ≤ room self.new }
        ensures grown { OnOk result (room self.old < room self.new) }
        ensures memory { IfErr result (λ e. error_kind e ≡ ErrorKind.OutOfMemory) }
    {
        let room = self.room.checked_mul(2).ok_or(AllocError)?;
        self.buffer.reserve(room - self.buffer.len())?;
        self.room = room;
        Ok(())
    }

    /// How many of so many bytes there is room for, one at least. Where they would fill it, the whole lines are handed on before.
    fn make_room(&mut self, wanted: usize) -> io::Result<usize>
        ensures bound { IfOk result (λ count. count ≤ wanted) }
        ensures some { IfOk result (λ count. count ≡ 0 → wanted ≡ 0) }
        ensures fits { IfOk result (λ count. length (kept self.new) + count ≤ room self.new) }
        ensures kept { given self.new ≡ given self.old }
        ensures handed { HandsOn self.old self.new }
        ensures memory { IfErr result (λ e. has_failed self.new ≡ false → error_kind e ≡ ErrorKind.OutOfMemory) }
        ensures grows { GrowsForOneLine self.old self.new }
    {
        if wanted < self.room_left() {
            return Ok(wanted);
        }
        self.hand_on()?;
        if self.room_left() == 0 {
            self.grow()?;
        }
        Ok(wanted.min(self.room_left()))
    }
}

impl<W: Write + Drop> Write for LineSpool<W> {
    ghost use Rattle.spool.specs.Spool.{GrowsForOneLine, HandsOn, HasHandedOnLines, given, has_failed, kept, room};

    ghost contents = { λ spool. Some (given spool) };

    fn write(&mut self, bytes: &[u8]) -> io::Result<usize>
        ensures bound { WritesAtMost result bytes.now }
        ensures bytes { WriteAppends (Some (given self.old)) (Some (given self.new)) result bytes.now }
        ensures some { IfOk result (λ count. count ≡ 0 → length bytes.now ≡ 0) }
        // What was handed on meanwhile is what the writer below took, also where it failed.
        ensures handed { HandsOn self.old self.new }
        // An error is out of memory, or that the writer below failed.
        ensures memory { IfErr result (λ e. has_failed self.new ≡ false → error_kind e ≡ ErrorKind.OutOfMemory) }
        // It never keeps more than it has room for, and it makes more room only for a line that fills it.
        ensures within { length (kept self.new) ≤ room self.new }
        ensures grows { GrowsForOneLine self.old self.new }
        // Once the writer below has failed, it is given nothing more.
        ensures silent { has_failed self.old ≡ true → self.new ≡ self.old }
        ensures refused { has_failed self.old ≡ true → IsErr result }
    {
        if self.failed {
            return Err(io::Error::from(ErrorKind::BrokenPipe));
        }
        let count = self.make_room(bytes.len())?;
        self.buffer.extend_from_slice(&bytes[..count])?;
        Ok(count)
    }

    /// Hands on the whole lines that are kept. An error is that the writer below failed, now or before.
    fn flush(&mut self) -> io::Result<()>
        ensures bytes { Keeps (Some (given self.old)) (Some (given self.new)) }
        // What was handed on meanwhile is what the writer below took, also where it failed.
        ensures handed { HandsOn self.old self.new }
        ensures room { room self.new ≡ room self.old }
        // All whole lines were handed on, and what is left is the beginning of a line.
        ensures lines { OnOk result (HasHandedOnLines self.new) }
        ensures running { OnOk result (has_failed self.new ≡ false) }
        ensures failed { OnErr result (has_failed self.new ≡ true) }
        // Once the writer below has failed, it is given nothing more.
        ensures silent { has_failed self.old ≡ true → self.new ≡ self.old }
        ensures refused { has_failed self.old ≡ true → IsErr result }
    {
        self.hand_on()?;
        let flushed = self.writer.flush();
        self.failed = flushed.is_err();
        flushed
    }
}
