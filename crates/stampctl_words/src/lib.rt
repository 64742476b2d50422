//! The words of `stampctl`'s command line.
//!
//! The crate reads a list of words and touches nothing else. Its one call, `command`, names the task that the words spell,
//! exactly, or tells how they are wrong. That a file such as `-x`, with one hyphen in front, is refused but after `--` is tested
//! and not proved.
#![tactic(auto)]

mod named;

pub use named::{CommandError, Task, command};
