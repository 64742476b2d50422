//! The lines of a script: the words of a line, the value that they spell, and the events that it stands for.
//!
//! This crate touches memory only. It offers the program above it the lines of a text, which may be no characters, the numbers and
//! the words of a line exactly, a line that its words spell wherever there is one, and of each request of a user the event that
//! it submits: who is asked what, under which number. specs/Grammar.antt states which words spell which line. What `parse` reads
//! is spelled so, and where it answers `None` no line is spelled so; it may also run out of memory. That no words spell two lines
//! is not stated.
#![tactic(auto)]

mod asking;
mod boxed_event;
mod copies;
mod line;
mod reading;
mod requesting;
mod spelling;
mod text;
mod verb;
mod word;

pub use asking::{call_of, event_of};
pub use boxed_event::BoxedEvent;
pub use line::{Line, Request};
pub use reading::parse;
pub use spelling::{number, words, words_into};
pub use text::lines_of;
