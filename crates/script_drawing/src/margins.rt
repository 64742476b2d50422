//! What stands beside the life lines: the events on the left, and what is printed of them on the right.
use crate::canvas::{Canvas, Point};
use crate::columns::Columns;
use crate::grid::{Grid, LINE_HEIGHT};
use crate::layout::Layout;
use script_steps::{Act, Step};
use std::alloc::AllocError;

/// Where the numbers of events end and their words begin, in pixels from the left.
const NUMBERS_RIGHT: u64 = 44;

const WORDS_LEFT: u64 = 54;

/// How far the deliveries that a line made are indented, in pixels.
const INDENT: u64 = 14;

/// How many columns of an event are shown.
const WORD_COLUMNS: usize = 28;

/// How far from the last life line the lines of output begin, in pixels.
const NOTES_GAP: u64 = 90;

/// How many columns of a line of output are shown, and how wide a column is taken to be, in pixels.
const NOTE_COLUMNS: usize = 64;

const CHARACTER: u64 = 7;

/// How far the base line of the caption is from the top, in pixels.
const CAPTION_BASE: u64 = 19;

/// How far the base line of a text is below the middle of its line, in pixels.
const BASE_LINE: u64 = 4;

/// Writes the numbers of the events, from 1.
pub(crate) fn write_numbers(canvas: &mut Canvas, grid: &Grid) -> Result<(), AllocError> {
    canvas.begin("text-anchor=\"end\" fill=\"#666\"")?;
    for (index, row) in grid.rows.iter().enumerate() {
        let number = grid.first.saturating_add(index).saturating_add(1);
        let at = Point {
            x: NUMBERS_RIGHT,
            y: row.y.saturating_add(BASE_LINE),
        };
        canvas.begin_text(at, false)?;
        write!(canvas.text, "{number}")?;
        canvas.end_text()?;
    }
    canvas.end()
}

/// Writes the words of an event: the line of the script, or which packet is delivered.
fn write_event(canvas: &mut Canvas, at: Point, step: &Step, line: &[u8]) -> Result<(), AllocError> {
    match step.act {
        Act::Deliver { number } => {
            canvas.begin_text(at, false)?;
            write!(canvas.text, "deliver {number}")?;
            canvas.end_text()
        }
        _ => canvas.clipped_text(at, line, WORD_COLUMNS),
    }
}

/// Writes the words of the events. The deliveries that a line made are indented below it.
pub(crate) fn write_events(
    canvas: &mut Canvas,
    layout: &Layout<'_>,
    lines: &[&[u8]],
) -> Result<(), AllocError> {
    canvas.begin("fill=\"black\"")?;
    for (row, step) in layout.grid.rows.iter().zip(layout.steps) {
        let indent = if row.is_made { INDENT } else { 0 };
        let at = Point {
            x: WORDS_LEFT.saturating_add(indent),
            y: row.y.saturating_add(BASE_LINE),
        };
        let line = lines.get(step.line).copied().unwrap_or(&[]);
        write_event(canvas, at, step, line)?;
    }
    canvas.end()
}

/// Writes what is printed of a step, line below line.
fn write_printed(
    canvas: &mut Canvas,
    left: u64,
    top: u64,
    printed: &[u8],
) -> Result<(), AllocError> {
    let mut at = Point {
        x: left,
        y: top.saturating_add(BASE_LINE),
    };
    for line in printed.split(|byte| *byte == b'\n') {
        if !line.is_empty() {
            canvas.clipped_text(at, line, NOTE_COLUMNS)?;
        }
        at.y = at.y.saturating_add(LINE_HEIGHT);
    }
    Ok(())
}

/// Writes what is printed of the events.
pub(crate) fn write_notes(canvas: &mut Canvas, layout: &Layout<'_>) -> Result<(), AllocError> {
    let left = notes_left(&layout.columns);
    canvas.begin("fill=\"black\"")?;
    for (row, step) in layout.grid.rows.iter().zip(layout.steps) {
        write_printed(canvas, left, row.y, step.printed.as_slice())?;
    }
    canvas.end()
}

/// Where the lines of output begin, in pixels from the left.
fn notes_left(columns: &Columns) -> u64 {
    columns.right().saturating_add(NOTES_GAP)
}

/// How long the longest line is that is printed of a step.
fn longest_line(step: &Step) -> usize {
    let lines = step.printed.split(|byte| *byte == b'\n');
    lines.map(|line| line.len()).max().unwrap_or(0)
}

/// How wide a drawing of these steps is, in pixels.
pub(crate) fn width_of(columns: &Columns, steps: &[Step]) -> u64 {
    let longest = steps.iter().map(longest_line).max().unwrap_or(0);
    let shown = longest.min(NOTE_COLUMNS).saturating_add(1) as u64;
    notes_left(columns).saturating_add(shown.saturating_mul(CHARACTER))
}

/// Writes a thin line above each row, which leads the eye from an event to what is printed of it.
pub(crate) fn write_rules(canvas: &mut Canvas, grid: &Grid, width: u64) -> Result<(), AllocError> {
    canvas.begin_lines("stroke=\"#eee\"")?;
    for row in grid.rows.iter() {
        let y = row.top;
        canvas.line(Point { x: 0, y }, Point { x: width, y })?;
    }
    canvas.end_lines()
}

/// Writes which events are drawn.
pub(crate) fn write_caption(
    canvas: &mut Canvas,
    grid: &Grid,
    all: usize,
) -> Result<(), AllocError> {
    let base = Point {
        x: WORDS_LEFT,
        y: CAPTION_BASE,
    };
    canvas.begin_text(base, false)?;
    let (first, end) = (grid.first.saturating_add(1), grid.end);
    if first <= end {
        write!(canvas.text, "events {first} to {end} of {all}")?;
    } else {
        write!(canvas.text, "no events of {all}")?;
    }
    canvas.end_text()
}
