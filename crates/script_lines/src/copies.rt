//! Copies of texts, and the bytes that they come to.
ghost use Rattle.std.specs.Prelude.{◌≡◌, ◌++◌, length, map, replicate, IfOk, OnOk};
ghost use Rattle.std.specs.List.{flat_map, repeat};
ghost use Rattle.script_lines.specs.Copies.{bytes_of};

use bytes::Bytes;
use std::alloc::{AllocError, Global};

/// So many copies of a text.
#[derive(Clone, Copy)]
pub struct Copies<'a> {
    pub count: usize,
    pub text: &'a str,
}

/// Adds a byte so many times.
fn add_byte(buffer: &mut Vec<u8>, count: usize, byte: u8) -> Result<(), AllocError>
    ensures { OnOk result (buffer.new.items ≡ buffer.old.items ++ replicate count byte) }
{
    match buffer.len().checked_add(count) {
        Some(length) => buffer.resize(length, byte),
        None => Err(AllocError),
    }
}

/// Adds a text so many times.
fn add_text(buffer: &mut Vec<u8>, count: usize, text: &[u8]) -> Result<(), AllocError>
    ensures { OnOk result (buffer.new.items ≡ buffer.old.items ++ repeat count text.now) }
{
    for _copy in 0..count {
        buffer.extend_from_slice(text)?;
    }
    Ok(())
}

impl Copies<'_> {
    /// How many bytes they are. An error is that no memory has room for them (22).
    pub fn length(&self) -> Result<usize, AllocError>
        ensures { IfOk result (λ n. n ≡ length (bytes_of self.now)) }
    {
        match self.count.checked_mul(self.text.len()) {
            Some(length) => Ok(length),
            None => Err(AllocError),
        }
    }

    /// Adds their bytes. Most characters are one byte, and of that there is one fill. An error is out of memory (22).
    fn add_to(&self, buffer: &mut Vec<u8>) -> Result<(), AllocError>
        ensures { OnOk result (buffer.new.items ≡ buffer.old.items ++ bytes_of self.now) }
    {
        match self.text.as_bytes() {
            [byte] => add_byte(buffer, self.count, *byte),
            text => add_text(buffer, self.count, text),
        }
    }
}

/// How many bytes these are together. An error is that no memory has room for them (22).
fn total(parts: &[Copies]) -> Result<usize, AllocError>
    ensures { IfOk result (λ n. n ≡ length (flat_map bytes_of parts.now)) }
{
    let mut total: usize = 0;
    for part in parts {
        match total.checked_add(part.length()?) {
            Some(more) => total = more,
            None => return Err(AllocError),
        }
    }
    Ok(total)
}

/// The bytes of these, one after the other, in memory of just their length. An error is out of memory (22).
pub fn joined(alloc: Global, parts: &[Copies]) -> Result<Bytes, AllocError>
    ensures { IfOk result (λ bytes. bytes ≡ flat_map bytes_of parts.now) }
{
    let mut buffer = Vec::with_capacity(alloc, total(parts)?)?;
    for part in parts {
        part.add_to(&mut buffer)?;
    }
    Ok(Bytes::from_vec(buffer)?)
}

/// The bytes of each of these. All share one piece of memory. An error is out of memory (22).
pub fn spelled_out(alloc: Global, parts: &[Copies]) -> Result<Vec<Bytes>, AllocError>
    ensures { IfOk result (λ pieces. pieces.items ≡ map bytes_of parts.now) }
{
    let mut rest = joined(alloc, parts)?;
    let mut pieces = Vec::with_capacity(alloc, parts.len())?;
    for part in parts {
        pieces.push(rest.split_to(part.length()?)?)?;
    }
    Ok(pieces)
}
