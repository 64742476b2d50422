//! A drawing of a script's run: who sent which packet to whom, when it was delivered, and what was seen of it.
//!
//! This crate touches memory and one writer. It offers the program above it the steps of a script as one SVG document: a life line
//! for each actor that takes part, downward one row a step, and an arrow for each delivery of a packet, from the step that sent it
//! to the step that delivered it. The document has no script, font, image or reference to anything outside it, and is well-formed
//! whatever a script holds. That a drawing comes of any steps is proved; what it shows is tested.
#![tactic(auto)]

mod acts;
mod arrows;
mod canvas;
mod columns;
mod drawing;
mod flights;
mod grid;
mod journey;
mod layout;
mod life_lines;
mod margins;
mod svg_text;

pub use drawing::{Part, draw};
pub use svg_text::SvgText;
