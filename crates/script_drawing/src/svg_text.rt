//! Text from outside, as an element of an SVG document may hold it.
use std::fmt;

/// Bytes as the text of an element. What means something in XML is written as an entity. A character that cannot be seen, a
/// backslash, and bytes that are no character are escaped.
#[derive(Clone, Copy)]
pub struct SvgText<'a>(pub &'a [u8]);

impl fmt::Display for SvgText<'_> {
    fn fmt<W: fmt::Write>(&self, f: &mut fmt::Formatter<W>) -> fmt::Result {
        for chunk in self.0.utf8_chunks() {
            write_text(f, chunk.valid())?;
            if !chunk.invalid().is_empty() {
                write!(f, "{}", chunk.invalid().escape_ascii())?;
            }
        }
        Ok(())
    }
}

/// Whether a byte is shown as one column, as the character that it is.
fn is_seen(byte: u8) -> bool {
    byte >= b' ' && byte <= b'~' && byte != b'\\'
}

/// Whether a byte is written as it is.
fn is_plain(byte: u8) -> bool {
    is_seen(byte) && byte != b'&' && byte != b'<' && byte != b'>' && byte != b'"'
}

/// Writes a text. Most have nothing to escape, and are written at once.
fn write_text<W: fmt::Write>(f: &mut fmt::Formatter<W>, text: &str) -> fmt::Result {
    if text.as_bytes().iter().all(|byte| is_plain(*byte)) {
        return f.write_str(text);
    }
    for character in text.chars() {
        write_character(f, character)?;
    }
    Ok(())
}

fn write_character<W: fmt::Write>(f: &mut fmt::Formatter<W>, character: char) -> fmt::Result {
    match character {
        '&' => f.write_str("&amp;"),
        '<' => f.write_str("&lt;"),
        '>' => f.write_str("&gt;"),
        '"' => f.write_str("&quot;"),
        '\'' => f.write_str("'"),
        _ => write!(f, "{}", character.escape_debug()),
    }
}

/// The same, cut off with an ellipsis where it takes more columns than these.
#[derive(Clone, Copy)]
pub(crate) struct ClippedText<'a> {
    pub text: &'a [u8],
    pub columns: usize,
}

impl ClippedText<'_> {
    /// How many bytes of the text are shown.
    fn shown_length(&self) -> usize {
        if self.text.len() <= self.columns && self.text.iter().all(|byte| is_seen(*byte)) {
            return self.text.len();
        }
        let mut room = Room::new(self.columns);
        for chunk in self.text.utf8_chunks() {
            for character in chunk.valid().chars() {
                if !room.take(character.len_utf8(), columns_of(character)) {
                    return room.clipped;
                }
            }
            for byte in chunk.invalid() {
                if !room.take(1, byte.escape_ascii().count()) {
                    return room.clipped;
                }
            }
        }
        self.text.len()
    }

    /// Whether something is cut off.
    pub fn is_clipped(&self) -> bool {
        self.shown_length() < self.text.len()
    }
}

impl fmt::Display for ClippedText<'_> {
    fn fmt<W: fmt::Write>(&self, f: &mut fmt::Formatter<W>) -> fmt::Result {
        match self.text.get(..self.shown_length()) {
            Some(shown) if shown.len() < self.text.len() => write!(f, "{}…", SvgText(shown)),
            _ => write!(f, "{}", SvgText(self.text)),
        }
    }
}

/// How many columns a character takes as `SvgText` shows it. One that is no ASCII is taken to be wide.
fn columns_of(character: char) -> usize {
    match character {
        '"' | '\'' => 1,
        _ => match character.escape_debug().count() {
            1 if !character.is_ascii() => 2,
            shown => shown,
        },
    }
}

/// The room of a text that is read from its beginning on.
#[derive(Drop)]
struct Room {
    columns: usize,
    used: usize,
    read: usize,
    /// How many bytes leave a column for an ellipsis.
    clipped: usize,
}

impl Room {
    fn new(columns: usize) -> Room {
        Room {
            columns,
            used: 0,
            read: 0,
            clipped: 0,
        }
    }

    /// Takes the next bytes, which are shown in so many columns, and answers whether there is room for them.
    fn take(&mut self, bytes: usize, columns: usize) -> bool {
        self.used = self.used.saturating_add(columns);
        self.read = self.read.saturating_add(bytes);
        if self.used < self.columns {
            self.clipped = self.read;
        }
        self.used <= self.columns
    }
}
