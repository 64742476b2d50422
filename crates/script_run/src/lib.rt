//! Scripts: a text of lines is read, run on one stamp, and what is observed and answered is printed.
//!
//! The crate reads one reader and writes one writer, and touches nothing else. `script` reads the reader to its end, and a caller
//! that has the text calls `run_text`. Both read and test the whole text before its first event runs, let it go, and print each
//! line as the text of one report. The lines are those of docs/FORMATS.md. Where they end well, they have written what the script
//! of the text prints (specs/Script.antt: `Writes`): each line was run, in order, over one run of `world`. Where they fail, no
//! clause says how far they came, but that nothing was printed of a text that is no script, and that the line told of such a text
//! is the first that no script has there (`IsFirstBad`). Empty lines count. Of a text with nothing but empty lines it is the one
//! after the last, where the setup is missing.
#![tactic(auto)]

mod deliveries;
mod error;
mod happening;
mod plan;
mod printing;
mod running;
mod session;
mod tickets;

pub use error::Failure;
pub use plan::{Plan, read_plan};
pub use running::{run_text, script};
pub use session::{MOST_DELIVERIES, Session};
