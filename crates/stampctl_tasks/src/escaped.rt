//! Bytes from outside, as a terminal may show them.
use std::fmt;

/// Bytes as text: a character that cannot be seen, a quote and a backslash are escaped, and so are bytes that are no character.
#[derive(Clone, Copy)]
pub struct Escaped<'a>(pub &'a [u8]);

impl fmt::Display for Escaped<'_> {
    fn fmt<W: fmt::Write>(&self, f: &mut fmt::Formatter<W>) -> fmt::Result {
        for chunk in self.0.utf8_chunks() {
            write!(
                f,
                "{}{}",
                chunk.valid().escape_debug(),
                chunk.invalid().escape_ascii()
            )?;
        }
        Ok(())
    }
}
