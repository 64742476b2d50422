//! The lines of output: what an answer to a user and what an observation print, as values and as text.
//!
//! This crate touches memory only, and prints nothing. It offers the program above it the text of each line exactly, and of
//! each packet to a user and each observation the line that tells it, if one does. Of a line that is printed often it gives the text
//! with its newline in one piece.
#![tactic(auto)]

mod hex_text;
mod line;
mod report;
mod short_line;
mod table_telling;
mod telling;

pub use hex_text::HexText;
pub use report::{Answer, Report, Standing};
pub use short_line::ShortLine;
pub use telling::{report_answer, report_note};
