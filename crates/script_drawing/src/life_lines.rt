//! The life lines of actors, their names, and the moments that all of them see.
use crate::canvas::{Canvas, Point};
use crate::columns::{Columns, FIRST_COLUMN, x_of};
use crate::grid::HEADER_HEIGHT;
use crate::layout::Layout;
use script_packets::ActorName;
use script_steps::{Act, Step};
use std::alloc::{AllocError, Global};

/// How many columns of a name are shown, and how wide one is taken to be, in pixels.
const NAME_COLUMNS: usize = 13;

const CHARACTER: u64 = 7;

/// How far the line of a moment goes beyond the life lines, in pixels.
const MOMENT_END: u64 = 72;

/// A part of a life line, from top to bottom.
#[derive(Clone, Copy)]
struct Stretch {
    x: u64,
    top: u64,
    bottom: u64,
}

fn write_stretches(
    canvas: &mut Canvas,
    stretches: &[Stretch],
    attributes: &str,
) -> Result<(), AllocError> {
    canvas.begin_lines(attributes)?;
    for stretch in stretches {
        let Stretch { x, top, bottom } = *stretch;
        canvas.line(Point { x, y: top }, Point { x, y: bottom })?;
    }
    canvas.end_lines()
}

/// The stretches over which actors are stopped.
#[derive(Drop)]
struct Stops {
    ended: Vec<Stretch>,
    /// Where those begin that have not ended, by the places of their life lines.
    begun: Vec<Option<u64>>,
}

impl Stops {
    /// An actor stops so far from the top. One that is stopped stays so.
    fn begin(&mut self, place: usize, y: u64) {
        if let Some(begun) = self.begun.get_mut(place) {
            *begun = begun.or(Some(y));
        }
    }

    /// An actor comes back so far from the top.
    fn end(&mut self, place: usize, y: u64) -> Result<(), AllocError> {
        let Some(begun) = self.begun.get_mut(place) else {
            return Ok(());
        };
        if let Some(top) = begun.take() {
            self.ended.push(Stretch {
                x: x_of(place),
                top,
                bottom: y,
            })?;
        }
        Ok(())
    }

    /// Notes a step, which stands so far from the top.
    fn add(&mut self, columns: &Columns, step: &Step, y: u64) -> Result<(), AllocError> {
        match step.act {
            Act::Stop { actor } => {
                if let Some(column) = columns.get(actor) {
                    self.begin(column.place, y);
                }
                Ok(())
            }
            Act::Restart { actor } => match columns.get(actor) {
                Some(column) => self.end(column.place, y),
                None => Ok(()),
            },
            _ => Ok(()),
        }
    }
}

/// The stretches over which actors are stopped. A stop before the first row begins above it.
fn stops_of(alloc: Global, layout: &Layout<'_>) -> Result<Vec<Stretch>, AllocError> {
    let places = layout.columns.ranks().len();
    let mut stops = Stops {
        ended: Vec::new(alloc),
        begun: vec![in alloc; None; places]?,
    };
    for step in layout.before {
        stops.add(&layout.columns, step, HEADER_HEIGHT)?;
    }
    for (row, step) in layout.grid.rows.iter().zip(layout.steps) {
        stops.add(&layout.columns, step, row.y)?;
    }
    for place in 0..places {
        stops.end(place, layout.grid.bottom)?;
    }
    let Stops { ended, begun: _ } = stops;
    Ok(ended)
}

/// Writes the life lines, dashed where their actors are stopped.
pub(crate) fn write_life_lines(
    alloc: Global,
    canvas: &mut Canvas,
    layout: &Layout<'_>,
) -> Result<(), AllocError> {
    let mut lines = Vec::new(alloc);
    for place in 0..layout.columns.ranks().len() {
        lines.push(Stretch {
            x: x_of(place),
            top: HEADER_HEIGHT,
            bottom: layout.grid.bottom,
        })?;
    }
    write_stretches(canvas, lines.as_slice(), "stroke=\"#888\"")?;
    let stops = stops_of(alloc, layout)?;
    write_stretches(
        canvas,
        stops.as_slice(),
        "stroke=\"white\" stroke-width=\"3\"",
    )?;
    write_stretches(
        canvas,
        stops.as_slice(),
        "stroke=\"#888\" stroke-dasharray=\"2 5\"",
    )
}

/// Writes the lines of moments, through all life lines.
pub(crate) fn write_moments(canvas: &mut Canvas, layout: &Layout<'_>) -> Result<(), AllocError> {
    let left = FIRST_COLUMN.saturating_sub(MOMENT_END);
    let right = layout.columns.right().saturating_add(MOMENT_END);
    for (row, step) in layout.grid.rows.iter().zip(layout.steps) {
        if let Act::Moment { now } = step.act {
            let y = row.y;
            canvas.begin_lines("stroke=\"black\" stroke-width=\"0.7\"")?;
            canvas.line(Point { x: left, y }, Point { x: right, y })?;
            canvas.end_lines()?;
            let above = y.saturating_sub(4);
            canvas.begin_text(Point { x: left, y: above }, false)?;
            write!(canvas.text, "moment {now}")?;
            canvas.end_text()?;
        }
    }
    Ok(())
}

/// Writes the name of an actor above the first row, and again where it is repeated.
fn write_name(canvas: &mut Canvas, headers: &[u64], x: u64, name: &str) -> Result<(), AllocError> {
    let columns = name.len().min(NAME_COLUMNS) as u64;
    let width = columns.saturating_mul(CHARACTER).saturating_add(14);
    for top in headers {
        writeln!(
            canvas.text,
            "<rect x=\"{}\" y=\"{}\" width=\"{width}\" height=\"20\" fill=\"white\" stroke=\"black\"/>",
            x.saturating_sub(width / 2),
            top.saturating_add(5)
        )?;
        let base = Point {
            x,
            y: top.saturating_add(19),
        };
        canvas.clipped_text(base, name.as_bytes(), NAME_COLUMNS)?;
    }
    Ok(())
}

/// Writes the names of the actors.
pub(crate) fn write_names(
    alloc: Global,
    canvas: &mut Canvas,
    layout: &Layout<'_>,
) -> Result<(), AllocError> {
    canvas.begin("text-anchor=\"middle\" font-weight=\"bold\"")?;
    for (place, rank) in layout.columns.ranks().iter().enumerate() {
        let name = format!(in alloc; "{}", ActorName(rank.actor()))?;
        let headers = layout.grid.headers.as_slice();
        write_name(canvas, headers, x_of(place), name.as_str())?;
    }
    canvas.end()
}
