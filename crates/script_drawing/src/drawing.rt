//! A whole drawing.
use crate::acts::{write_acts, write_dots};
use crate::arrows::write_arrows;
use crate::canvas::Canvas;
use crate::layout::Layout;
use crate::life_lines::{write_life_lines, write_moments, write_names};
use crate::margins::{
    width_of, write_caption, write_events, write_notes, write_numbers, write_rules,
};
use script_run::Failure;
use script_steps::{event_lines, steps_of};
use std::alloc::{AllocError, Global};
use std::io::Write;

/// Which events are drawn, by their numbers from 1: `from` and `to`, and those between them. Those that there are not are passed
/// over. A settle is an event, and so is each of its deliveries.
#[derive(Clone, Copy)]
pub struct Part {
    pub from: usize,
    pub to: usize,
}

/// How much room there is below the last row, in pixels.
const FOOT: u64 = 10;

/// The text of a drawing of some of so many events. What is written first lies under what comes after it.
fn text_of(
    alloc: Global,
    layout: &Layout<'_>,
    lines: &[&[u8]],
    all: usize,
) -> Result<String, AllocError> {
    let width = width_of(&layout.columns, layout.steps);
    let height = layout.grid.bottom.saturating_add(FOOT);
    let mut canvas = Canvas::new(alloc, width, height)?;
    write_rules(&mut canvas, &layout.grid, width)?;
    write_life_lines(alloc, &mut canvas, layout)?;
    write_moments(&mut canvas, layout)?;
    write_arrows(alloc, &mut canvas, layout)?;
    write_dots(&mut canvas, layout)?;
    write_acts(&mut canvas, layout, lines)?;
    write_names(alloc, &mut canvas, layout)?;
    write_caption(&mut canvas, &layout.grid, all)?;
    write_numbers(&mut canvas, &layout.grid)?;
    write_events(&mut canvas, layout, lines)?;
    write_notes(&mut canvas, layout)?;
    canvas.finish()
}

/// Runs the script of this text, and writes a drawing of a part of its events, as one SVG document. Where there is no event in the
/// part, the drawing has the actors of all events and nothing more. An error is a text that is no script (60), or running out of
/// memory (22), and then nothing has been written, or that the writer failed.
pub fn draw<W: Write>(
    alloc: Global,
    text: &[u8],
    part: Part,
    writer: &mut W,
) -> Result<(), Failure> {
    let steps = steps_of(alloc, text)?;
    let lines = event_lines(alloc, text)?;
    let layout = Layout::new(alloc, &steps, part.from.saturating_sub(1), part.to)?;
    let drawing = text_of(alloc, &layout, lines.as_slice(), steps.steps().len())?;
    writer
        .write_all(drawing.as_bytes())
        .map_err(Failure::Output)
}
