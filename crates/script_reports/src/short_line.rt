//! A line that is printed often, put together in one piece of memory.
//!
//! A `write!` hands each of its pieces on alone, which costs more than the piece. So a line of few numbers is written here from its
//! end to its beginning, and goes out as one. One piece of memory serves all lines, one after the other.
ghost use Rattle.std.specs.Prelude.{◌≡◌, ◌++◌, ◌∷◌, ◌+◌, ◌≤◌, [], decimal, length, true};
ghost use Rattle.script_reports.specs.Reports.{report_text};
ghost use Rattle.script_reports.specs.Line.{got_line, three_line, told_line, told_text_line, value_length};
ghost use Rattle.script_reports.specs.declared.report.Report.TheVariants as reports;

use crate::hex_text::HexText;
use crate::report::{Answer, Report};
use itoa::write_digits;
use std::marker::Model;

/// How many bytes there is room for.
const ROOM: usize = 512;

/// The longest text of bytes that is put into a line here: with words and numbers there is room for it.
const LONGEST_TEXT: usize = 400;

/// A line with the newline behind it, or the end of one. Its value is that text.
pub struct ShortLine {
    bytes: [u8; ROOM],
    start: usize,
}

// Written out, so that a crate above that lets one go has no proof of what is in it.
impl Drop for ShortLine {
    fn drop(self) {
        let ShortLine { bytes: _, start: _ } = self;
    }
}

impl Model for ShortLine {
    ghost use Rattle.std.specs.Prelude.{◌≤◌, ℕ, List, drop};

    ghost Value = { List ℕ };

    ghost view = { λ line. drop line.start line.bytes };

    ghost invariant = { λ line. line.start ≤ 512 };
}

impl ShortLine {
    /// Nothing but the newline.
    pub fn newline() -> ShortLine
        ensures { result ≡ 10 ∷ [] }
    {
        ShortLine {
            bytes: [b'\n'; ROOM],
            start: ROOM - 1,
        }
    }

    /// Goes back to nothing but the newline.
    fn clear(&mut self)
        ensures { self.new ≡ 10 ∷ [] }
    {
        self.bytes[ROOM - 1] = b'\n';
        self.start = ROOM - 1;
    }

    /// Puts a blank and a number before the text.
    fn number(&mut self, number: u64)
        requires { length self.old + 21 ≤ 512 }
        ensures text { self.new ≡ 32 ∷ decimal number ++ self.old }
        ensures short { length self.new ≤ length self.old + 21 }
    {
        let start = write_digits(number, &mut self.bytes, self.start) - 1;
        self.bytes[start] = b' ';
        self.start = start;
    }

    /// Puts a word before the text.
    fn word(&mut self, word: &str)
        requires { length word.now + length self.old ≤ 512 }
        ensures { self.new ≡ word.now ++ self.old }
    {
        let start = self.start - word.len();
        self.bytes[start..self.start].copy_from_slice(word.as_bytes());
        self.start = start;
    }

    /// Becomes a word and three numbers.
    fn three(&mut self, word: &str, first: u64, second: u64, third: u64)
        requires { length word.now ≤ 32 }
        ensures { self.new ≡ three_line word.now first second third }
    {
        self.clear();
        self.number(third);
        self.number(second);
        self.number(first);
        self.word(word);
    }

    /// Becomes what an answer with one number tells a user.
    fn told(&mut self, user: u64, ticket: u64, word: &str, number: u64)
        requires { length word.now ≤ 32 }
        ensures { self.new ≡ told_line user ticket word.now number }
    {
        self.clear();
        self.number(number);
        self.word(word);
        self.number(ticket);
        self.number(user);
        self.word("user");
    }

    /// Becomes what an answer with a text tells a user.
    fn told_text(&mut self, user: u64, ticket: u64, word: &str, text: &str)
        requires word { length word.now ≤ 32 }
        requires text { length text.now ≤ 400 }
        ensures { self.new ≡ told_text_line user ticket word.now text.now }
    {
        self.clear();
        self.word(text);
        self.word(word);
        self.number(ticket);
        self.number(user);
        self.word("user");
    }

    /// Becomes the line of an answered Get.
    fn got(&mut self, range: u64, generation: u64, key: &str, size: Option<u64>)
        requires { length key.now ≤ 400 }
        ensures { self.new ≡ got_line range generation key.now (value_length size) }
    {
        self.clear();
        match size {
            Some(size) => self.number(size),
            None => self.word(" none"),
        }
        self.word(key);
        self.word(" ");
        self.number(generation);
        self.number(range);
        self.word("got");
    }

    /// As `fill`, of an answered Get.
    fn fill_got(&mut self, range: u64, generation: u64, key: &HexText, size: Option<u64>) -> bool
        ensures { result ≡ true → self.new ≡ report_text (reports.Got range generation key.now size) ++ 10 ∷ [] }
    {
        let key = key.as_str();
        if key.len() > LONGEST_TEXT {
            return false;
        }
        self.got(range, generation, key, size);
        true
    }

    /// As `fill`, of an answer to a user.
    fn fill_told(&mut self, user: u64, ticket: u64, answer: &Answer) -> bool
        ensures { result ≡ true → self.new ≡ report_text (reports.Told user ticket answer.now) ++ 10 ∷ [] }
    {
        match answer {
            Answer::Appended(offset) => {
                self.told(user, ticket, " appended", u64::from(*offset));
                true
            }
            Answer::Committed(number) => {
                self.told(user, ticket, " committed", *number);
                true
            }
            Answer::Value(text) => {
                let text = text.as_str();
                if text.len() > LONGEST_TEXT {
                    return false;
                }
                self.told_text(user, ticket, " value ", text);
                true
            }
            Answer::NoValue => {
                self.told_text(user, ticket, " value ", "none");
                true
            }
            _ => false,
        }
    }

    /// Becomes the line of a report with its newline, where the report is of a kind that is printed often and is no longer than there
    /// is room for, and answers whether it is. Of any other there is the report's `Display`.
    pub fn fill(&mut self, report: &Report) -> bool
        ensures { result ≡ true → self.new ≡ report_text report.now ++ 10 ∷ [] }
    {
        match report {
            Report::Acked {
                extent,
                offset,
                size,
            } => {
                self.three("acked", *extent, u64::from(*offset), u64::from(*size));
                true
            }
            Report::Began {
                range,
                generation,
                number,
            } => {
                self.three("began", *range, *generation, *number);
                true
            }
            Report::Done {
                range,
                generation,
                number,
            } => {
                self.three("done", *range, *generation, *number);
                true
            }
            Report::Got {
                range,
                generation,
                key,
                length,
            } => self.fill_got(*range, *generation, key, *length),
            Report::Told {
                user,
                ticket,
                answer,
            } => self.fill_told(*user, *ticket, answer),
            _ => false,
        }
    }

    /// The text.
    pub fn as_bytes(&self) -> &[u8]
        ensures { result.now ≡ self.now }
    {
        &self.bytes[self.start..]
    }
}
