//! Buffers of bytes that are written over.
ghost use Rattle.std.specs.Prelude.{◌≡◌, ◌+◌, ◌≤◌, ◌++◌, [], length, OnOk, OnErr, IsOk, vec_capacity};
ghost use Rattle.disk.specs.Disk.{Holds};

use std::alloc::AllocError;

// Fewer bytes are copied when their buffer grows.
const FEW: usize = 4_096;

/// Puts bytes in the place of those from `at` on.
pub(crate) fn put_over(bytes: &mut Vec<u8>, at: usize, new: &[u8])
    requires { at + length new.now ≤ length bytes.old.items }
    ensures items { Holds bytes.old.items at new.now bytes.new.items }
    ensures capacity { vec_capacity bytes.new ≡ vec_capacity bytes.old }
{
    bytes[at..at + new.len()].copy_from_slice(new);
}

/// Puts bytes in the place of those from `at` on, and past the end.
pub(crate) fn overwrite(bytes: &mut Vec<u8>, at: usize, new: &[u8]) -> Result<(), AllocError>
    requires { at ≤ length bytes.old.items }
    ensures ok { OnOk result (Holds bytes.old.items at new.now bytes.new.items) }
    ensures err { OnErr result (bytes.new.items ≡ bytes.old.items) }
    ensures succeeds { at + length new.now ≤ vec_capacity bytes.old → IsOk result }
    ensures capacity { vec_capacity bytes.old ≤ vec_capacity bytes.new }
{
    let inside = bytes.len() - at;
    if new.len() <= inside {
        put_over(bytes, at, new);
    } else {
        bytes.reserve(new.len() - inside)?;
        bytes.truncate(at);
        bytes.extend_from_slice(new)?;
    }
    Ok(())
}

/// Puts bytes before those that are there.
pub(crate) fn put_before(bytes: &mut Vec<u8>, front: &[u8]) -> Result<(), AllocError>
    ensures ok { OnOk result (bytes.new.items ≡ front.now ++ bytes.old.items) }
    ensures err { OnErr result (bytes.new.items ≡ bytes.old.items) }
    ensures succeeds { length front.now + length bytes.old.items ≤ vec_capacity bytes.old → IsOk result }
    ensures capacity { vec_capacity bytes.old ≤ vec_capacity bytes.new }
{
    let count = bytes.len();
    bytes.extend_from_slice(front)?;
    if count > 0 {
        bytes.copy_within(0..count, front.len());
        put_over(bytes, 0, front);
    }
    Ok(())
}

// Makes room for so many bytes in a new buffer, twice as many as before at least, since to grow this one would copy room that was
// never written.
fn replace(bytes: &mut Vec<u8>, room: usize) -> Result<(), AllocError>
    ensures same { bytes.new.items ≡ bytes.old.items }
    ensures ok { OnOk result (room ≤ vec_capacity bytes.new) }
    ensures capacity { vec_capacity bytes.old ≤ vec_capacity bytes.new }
{
    let room = room.max(bytes.capacity().saturating_mul(2));
    let mut larger = Vec::with_capacity(*bytes.allocator(), room)?;
    larger.extend_from_slice(bytes)?;
    *bytes = larger;
    Ok(())
}

/// Makes room for so many bytes. A buffer with few bytes is replaced.
pub(crate) fn make_room(bytes: &mut Vec<u8>, room: usize) -> Result<(), AllocError>
    ensures same { bytes.new.items ≡ bytes.old.items }
    ensures ok { OnOk result (room ≤ vec_capacity bytes.new) }
    ensures succeeds { room ≤ vec_capacity bytes.old → IsOk result }
    ensures capacity { vec_capacity bytes.old ≤ vec_capacity bytes.new }
{
    if room <= bytes.capacity() {
        return Ok(());
    }
    if bytes.len() < FEW {
        return replace(bytes, room);
    }
    bytes.reserve(room - bytes.len())
}

/// Lets all bytes go, and no room. A buffer with many is replaced, so that what was written is given back.
pub(crate) fn empty(bytes: &mut Vec<u8>)
    ensures items { bytes.new.items ≡ [] }
    ensures capacity { vec_capacity bytes.old ≤ vec_capacity bytes.new }
{
    if bytes.len() < FEW {
        bytes.clear();
        return;
    }
    match Vec::with_capacity(*bytes.allocator(), bytes.capacity()) {
        Ok(fresh) => *bytes = fresh,
        Err(_) => bytes.clear(),
    }
}
