//! The steps of a script: what each of its events had sent, and what is printed of it.
//!
//! The crate reads a text and touches nothing else. `steps_of` runs the script of the text, as `script_run` does, and keeps what
//! happened as a list of steps. A settle is many of them, one for each packet that it delivered. The clauses of `steps_of` say that
//! the steps are those of the script's lines, in order and by their places, over one run of `world`; that their lines of output,
//! joined, are what the script prints; and that their packets, joined, are all that were sent, each once and in order of its number
//! (specs/Steps.antt: `Shows`). `event_lines` has the lines at these places. `trace` writes the steps as text. How a packet is
//! spelled there is tested, and not proved.
#![tactic(auto)]

mod act;
mod recording;
mod step;
mod trace_lines;

pub use act::Act;
pub use recording::steps_of;
pub use step::{Step, Steps};
pub use trace_lines::{event_lines, trace};
