//! Reading big-endian numbers and byte strings from the front of some bytes (docs/FORMATS.md).
//!
//! A reader answers what it read and the bytes after it, or `Damaged` (21) where there are too few bytes. It takes no
//! memory. specs/Format.antt has the functions on lists that the clauses cite.
ghost use Rattle.std.specs.Prelude.{◌≡◌, IfErr, Some};
ghost use Rattle.blocks.specs.Format.{Gives, number_at, bytes_at, whole};

use block_types::BlockFault;
use byteorder::{BigEndian, ByteOrder};

/// Reads a number of one byte.
pub fn u8_at(bytes: &[u8]) -> Result<(u8, &[u8]), BlockFault>
    ensures read { Gives (λ x. (x.0, x.1.now)) result (number_at 1 bytes.now) }
    ensures fault { IfErr result (λ e. e ≡ BlockFault.Damaged) }
{
    match bytes {
        [] => Err(BlockFault::Damaged),
        [first, rest @ ..] => Ok((*first, rest)),
    }
}

/// Reads a number of two bytes, the higher first.
pub fn u16_at(bytes: &[u8]) -> Result<(u16, &[u8]), BlockFault>
    ensures read { Gives (λ x. (x.0, x.1.now)) result (number_at 2 bytes.now) }
    ensures fault { IfErr result (λ e. e ≡ BlockFault.Damaged) }
{
    if bytes.len() < 2 {
        return Err(BlockFault::Damaged);
    }
    Ok((BigEndian::read_u16(bytes), &bytes[2..]))
}

/// Reads a number of four bytes, the highest first.
pub fn u32_at(bytes: &[u8]) -> Result<(u32, &[u8]), BlockFault>
    ensures read { Gives (λ x. (x.0, x.1.now)) result (number_at 4 bytes.now) }
    ensures fault { IfErr result (λ e. e ≡ BlockFault.Damaged) }
{
    if bytes.len() < 4 {
        return Err(BlockFault::Damaged);
    }
    Ok((BigEndian::read_u32(bytes), &bytes[4..]))
}

/// Reads a number of eight bytes, the highest first.
pub fn u64_at(bytes: &[u8]) -> Result<(u64, &[u8]), BlockFault>
    ensures read { Gives (λ x. (x.0, x.1.now)) result (number_at 8 bytes.now) }
    ensures fault { IfErr result (λ e. e ≡ BlockFault.Damaged) }
{
    if bytes.len() < 8 {
        return Err(BlockFault::Damaged);
    }
    Ok((BigEndian::read_u64(bytes), &bytes[8..]))
}

/// Reads as many bytes as `len` says, and copies none of them.
pub fn bytes_of(len: usize, bytes: &[u8]) -> Result<(&[u8], &[u8]), BlockFault>
    ensures read { Gives (λ x. (x.0.now, x.1.now)) result (bytes_at len bytes.now) }
    ensures fault { IfErr result (λ e. e ≡ BlockFault.Damaged) }
{
    if bytes.len() < len {
        return Err(BlockFault::Damaged);
    }
    Ok(bytes.split_at(len))
}

/// The value that was read, if no byte is left over; else `Damaged`.
pub fn ended<T: Drop>(read: T, rest: &[u8]) -> Result<T, BlockFault>
    ensures read { Gives (λ r. r) result (whole (Some (read, rest.now))) }
    ensures fault { IfErr result (λ e. e ≡ BlockFault.Damaged) }
{
    if rest.is_empty() {
        Ok(read)
    } else {
        Err(BlockFault::Damaged)
    }
}
