//! The settings of a storm, read from a TOML document.
//!
//! This crate touches memory only. [`config`] answers the eight whole numbers of a text exactly where the text is a TOML document
//! that has them, each within its limits (specs/Documents.antt, specs/Counts.antt): no other text gives a [`Config`], and none
//! that has them is refused. Running out of memory is the one error that no clause limits.
#![tactic(auto)]

mod document;
mod settings;

pub use document::{ConfigError, config};
pub use settings::{Config, MAX_COUNT};
