//! What happens on the life line of an actor.
use crate::canvas::{Canvas, Point, Symbol};
use crate::layout::Layout;
use crate::svg_text::SvgText;
use script_steps::{Act, Step};
use std::alloc::AllocError;
use wire::{ActorId, Packet};

/// How far from its life line the word of an act stands, in pixels.
const WORD_GAP: u64 = 10;

/// How far from its life line the numbers of sent packets stand, in pixels.
const SENT_GAP: u64 = 6;

/// An actor stops.
const CROSS: Symbol = Symbol {
    outline: "M-5-5L5 5M-5 5L5-5",
    fill: "none",
    stroke: "black",
};

/// It comes back.
const DISC: Symbol = Symbol {
    outline: "M-5 0a5 5 0 1 0 10 0a5 5 0 1 0-10 0z",
    fill: "black",
    stroke: "black",
};

/// It is cut off: the line has a gap, between two edges.
const GAP: Symbol = Symbol {
    outline: "M-8 1L8-7V-1L-8 7z",
    fill: "white",
    stroke: "white",
};

const EDGES: Symbol = Symbol {
    outline: "M-8 1L8-7M-8 7L8-1",
    fill: "none",
    stroke: "black",
};

/// It is cut off no more.
const RING: Symbol = Symbol {
    outline: "M-5 0a5 5 0 1 0 10 0a5 5 0 1 0-10 0z",
    fill: "white",
    stroke: "black",
};

/// The operator has it do something.
const SQUARE: Symbol = Symbol {
    outline: "M-4-4H4V4H-4z",
    fill: "black",
    stroke: "black",
};

/// It is shown.
const FRAME: Symbol = Symbol {
    outline: "M-4-4H4V4H-4z",
    fill: "white",
    stroke: "black",
};

/// The actor on whose life line a step stands, if it stands on one.
fn actor_of(step: &Step, sent: &[Packet]) -> Option<ActorId> {
    match step.act {
        Act::Stop { actor }
        | Act::Restart { actor }
        | Act::Cut { actor }
        | Act::Heal { actor }
        | Act::Order { actor } => Some(actor),
        Act::Show { node } => Some(ActorId::Node(node)),
        Act::Submit { user } => Some(ActorId::User(user)),
        Act::Deliver { number } => sent.get(number).map(|packet| packet.to),
        Act::Deliveries | Act::Moment { now: _ } => None,
    }
}

/// The place of a step on the life line of its actor, if it stands on one.
fn place_of(layout: &Layout<'_>, step: &Step, y: u64) -> Option<Point> {
    let column = layout.columns.get(actor_of(step, layout.sent)?)?;
    Some(Point { x: column.x, y })
}

/// Draws an act at its place on the life line.
fn write_act(canvas: &mut Canvas, at: Point, act: Act) -> Result<(), AllocError> {
    match act {
        Act::Stop { actor: _ } => canvas.symbol(at, CROSS),
        Act::Restart { actor: _ } => canvas.symbol(at, DISC),
        Act::Cut { actor: _ } => {
            canvas.symbol(at, GAP)?;
            canvas.symbol(at, EDGES)
        }
        Act::Heal { actor: _ } => canvas.symbol(at, RING),
        Act::Order { actor: _ } => canvas.symbol(at, SQUARE),
        Act::Show { node: _ } => canvas.symbol(at, FRAME),
        _ => Ok(()),
    }
}

/// The first word of a line of a script.
fn first_word(line: &[u8]) -> &[u8] {
    line.split(|byte| *byte == b' ').next().unwrap_or(&[])
}

/// Writes the word of an act beside its place. A packet has its own label.
fn write_word(canvas: &mut Canvas, at: Point, act: Act, line: &[u8]) -> Result<(), AllocError> {
    if matches!(act, Act::Submit { .. } | Act::Deliver { .. }) {
        return Ok(());
    }
    let place = Point {
        x: at.x.saturating_add(WORD_GAP),
        y: at.y.saturating_add(4),
    };
    canvas.begin_text(place, false)?;
    canvas.title(line)?;
    write!(canvas.text, "{}", SvgText(first_word(line)))?;
    canvas.end_text()
}

/// Writes the numbers of the packets that a step sends beside its place.
fn write_sent(
    canvas: &mut Canvas,
    at: Point,
    step: &Step,
    is_left: bool,
) -> Result<(), AllocError> {
    if step.first >= step.end {
        return Ok(());
    }
    let x = if is_left {
        at.x.saturating_sub(SENT_GAP)
    } else {
        at.x.saturating_add(SENT_GAP)
    };
    let place = Point {
        x,
        y: at.y.saturating_sub(2),
    };
    canvas.begin_text(place, is_left)?;
    let (first, last) = (step.first, step.end.saturating_sub(1));
    write!(canvas.text, "{first}")?;
    if first < last {
        write!(canvas.text, "-{last}")?;
    }
    canvas.end_text()
}

/// Whether the right side of the place of a step is taken, by its word or by the arrow of the packet that it delivers.
fn is_right_taken(layout: &Layout<'_>, step: &Step, x: u64) -> bool {
    match step.act {
        Act::Submit { user: _ } => false,
        Act::Deliver { number } => match layout.ends_of(number) {
            Some(ends) => x <= ends.from.x,
            None => false,
        },
        _ => true,
    }
}

/// Draws a dot where a packet is delivered or a user asks for something, if packets are sent there.
pub(crate) fn write_dots(canvas: &mut Canvas, layout: &Layout<'_>) -> Result<(), AllocError> {
    canvas.begin_lines("stroke=\"black\" stroke-width=\"5\" stroke-linecap=\"round\"")?;
    for (row, step) in layout.grid.rows.iter().zip(layout.steps) {
        if step.first < step.end && matches!(step.act, Act::Submit { .. } | Act::Deliver { .. }) {
            if let Some(at) = place_of(layout, step, row.y) {
                canvas.line(at, at)?;
            }
        }
    }
    canvas.end_lines()
}

/// Draws what else happens on the life lines.
pub(crate) fn write_acts(
    canvas: &mut Canvas,
    layout: &Layout<'_>,
    lines: &[&[u8]],
) -> Result<(), AllocError> {
    canvas.begin("font-size=\"10\" stroke-width=\"1.5\"")?;
    for (row, step) in layout.grid.rows.iter().zip(layout.steps) {
        if let Some(at) = place_of(layout, step, row.y) {
            let line = lines.get(step.line).copied().unwrap_or(&[]);
            write_act(canvas, at, step.act)?;
            write_word(canvas, at, step.act, line)?;
            write_sent(canvas, at, step, is_right_taken(layout, step, at.x))?;
        }
    }
    canvas.end()
}
