//! The rows of a drawing, from top to bottom.
use crate::journey::Journey;
use script_steps::Step;
use std::alloc::{AllocError, Global};

/// How high the names of the actors are, in pixels. They stand above the first row, and again after so many rows.
pub(crate) const HEADER_HEIGHT: u64 = 30;

const HEADER_ROWS: usize = 40;

/// How high a row of one line is, and each further line of it, in pixels.
const ROW_HEIGHT: u64 = 22;

pub(crate) const LINE_HEIGHT: u64 = 13;

/// The row of a step, in pixels from the top.
#[derive(Clone, Copy)]
pub(crate) struct Row {
    pub top: u64,
    /// The middle of its first line, at which its step stands.
    pub y: u64,
    /// Whether the step above is of the same line of the script, so that this one is a delivery that the line made.
    pub is_made: bool,
}

/// The rows of some steps.
#[derive(Drop)]
pub(crate) struct Grid {
    pub rows: Vec<Row>,
    /// The place of the step of the first row among all steps.
    pub first: usize,
    /// The place of the step after that of the last row.
    pub end: usize,
    /// Where the names of the actors begin, in pixels from the top.
    pub headers: Vec<u64>,
    /// Where the last row ends, in pixels from the top.
    pub bottom: u64,
}

impl Grid {
    /// The rows of steps, in this order, with the steps before them. The journeys are those of all packets.
    pub fn new(
        alloc: Global,
        before: &[Step],
        steps: &[Step],
        journeys: &[Journey],
    ) -> Result<Grid, AllocError> {
        let mut grid = Grid {
            rows: Vec::new(alloc),
            first: before.len(),
            end: before.len().saturating_add(steps.len()),
            headers: Vec::new(alloc),
            bottom: 0,
        };
        grid.add_header()?;
        let mut above = before.last().map(|step| step.line);
        for (index, step) in steps.iter().enumerate() {
            if index > 0 && index % HEADER_ROWS == 0 {
                grid.add_header()?;
            }
            let lines = lines_of(step, journeys, grid.end);
            grid.add_row(lines, above == Some(step.line))?;
            above = Some(step.line);
        }
        Ok(grid)
    }

    fn add_header(&mut self) -> Result<(), AllocError> {
        self.headers.push(self.bottom)?;
        self.bottom = self.bottom.saturating_add(HEADER_HEIGHT);
        Ok(())
    }

    fn add_row(&mut self, lines: usize, is_made: bool) -> Result<(), AllocError> {
        let top = self.bottom;
        let more = (lines.saturating_sub(1) as u64).saturating_mul(LINE_HEIGHT);
        self.rows.push(Row {
            top,
            y: top.saturating_add(ROW_HEIGHT / 2),
            is_made,
        })?;
        self.bottom = top.saturating_add(ROW_HEIGHT).saturating_add(more);
        Ok(())
    }

    /// The row of the step at this place, if it has one.
    pub fn row_of(&self, place: usize) -> Option<Row> {
        let index = place.checked_sub(self.first)?;
        self.rows.get(index).copied()
    }
}

/// How many lines a step takes: those that are printed of it, and one for each packet that it sent and that comes to nobody before
/// the step at `end`, below the line of the step itself.
fn lines_of(step: &Step, journeys: &[Journey], end: usize) -> usize {
    let printed = step.printed.iter().filter(|byte| **byte == b'\n').count();
    let sent = journeys.get(step.first..step.end).unwrap_or(&[]);
    let open = sent
        .iter()
        .filter(|journey| journey.is_open_at(end))
        .count();
    printed.max(open.saturating_add(1))
}
