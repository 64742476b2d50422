//! The lines of a text.
ghost use Rattle.std.specs.Prelude.{◌≡◌, IfOk, map};
ghost use Rattle.std.specs.Str.Lines.{lines, strip_carriage_return};

use memchr::memchr;
use std::alloc::{AllocError, Global};

/// The line without the one carriage return at its end, if it has one.
fn without_return(line: &[u8]) -> &[u8]
    ensures { result.now ≡ strip_carriage_return line.now }
{
    match line {
        [front @ .., b'\r'] => front,
        _ => line,
    }
}

/// The lines of a text, which may be no characters. As of a `str`, a newline ends each but the last, and a carriage return
/// before it is no part of the line. An error is out of memory (22).
pub fn lines_of(alloc: Global, text: &[u8]) -> Result<Vec<&[u8]>, AllocError>
    ensures { IfOk result (λ found. map (λ line. line.now) found.items ≡ lines text.now) }
{
    let mut found = Vec::new(alloc);
    let mut last = text;
    while let Some(end) = memchr(b'\n', last) {
        found.push(without_return(&last[..end]))?;
        last = &last[end + 1..];
    }
    if last.is_empty() {
        return Ok(found);
    }
    found.push(last)?;
    Ok(found)
}
