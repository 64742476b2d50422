//! The arrows of packets and their labels.
use crate::canvas::Canvas;
use crate::flights::{Course, Flight, arrival, departure};
use crate::grid::Row;
use crate::journey::delivered_by;
use crate::layout::{Ends, Layout};
use script_packets::{ActorName, PacketFields, kind_of};
use script_steps::Step;
use std::alloc::{AllocError, Global};

/// Writes all fields of a packet, and in which events it was sent and delivered. The fields are words, numbers and hexadecimal digits,
/// none of which means anything in XML.
fn write_words(text: &mut String, ends: Ends<'_>, course: Course) -> Result<(), AllocError> {
    let Ends { number, packet, .. } = ends;
    write!(
        text,
        "<title>{number} {} -&gt; {} {} {}",
        ActorName(packet.from),
        ActorName(packet.to),
        kind_of(&packet.body),
        PacketFields(&packet.body)
    )?;
    if let Some(sent) = ends.journey.sent {
        write!(text, "; sent in event {}", sent.saturating_add(1))?;
    }
    match course.delivered() {
        Some(place) => {
            let event = place.saturating_add(1);
            writeln!(text, "; delivered in event {event}</title>")
        }
        None => text.push_str("; never delivered</title>\n"),
    }
}

/// Writes number and kind of a packet, and what its arrow does not show.
fn write_label(text: &mut String, ends: Ends<'_>, course: Course) -> Result<(), AllocError> {
    let packet = ends.packet;
    write!(text, "{} {}", ends.number, kind_of(&packet.body))?;
    match course {
        Course::First { .. } => Ok(()),
        Course::Again { .. } => text.push_str(" again"),
        Course::SentBefore { .. } => write!(text, " from {}", ActorName(packet.from)),
        Course::DeliveredAfter { .. } | Course::Lost => {
            write!(text, " to {}", ActorName(packet.to))
        }
    }
}

/// Writes an arrow and its label, with what is shown where one of them is pointed at. The label is spelled in `label`, whatever that
/// holds.
fn write_flight(
    canvas: &mut Canvas,
    label: &mut String,
    ends: Ends<'_>,
    flight: Flight,
) -> Result<(), AllocError> {
    canvas.text.push_str("<g>")?;
    write_words(&mut canvas.text, ends, flight.course)?;
    canvas.arrow(flight.arrow)?;
    label.clear();
    write_label(label, ends, flight.course)?;
    canvas.label(flight.label, flight.is_leftward, label.as_str())?;
    canvas.end()
}

/// Writes the arrow that ends in the row of the step at a place, and those that begin in it and have their ends outside the drawing.
fn write_row(
    canvas: &mut Canvas,
    label: &mut String,
    layout: &Layout<'_>,
    place: usize,
    row: Row,
    step: &Step,
) -> Result<(), AllocError> {
    if let Some(ends) = delivered_by(step).and_then(|number| layout.ends_of(number)) {
        let sent = layout.row_of_sent(ends.journey);
        write_flight(canvas, label, ends, arrival(ends, sent, place, row))?;
    }
    let mut line = 0u64;
    for number in step.first..step.end.min(layout.sent.len()) {
        if let Some(ends) = layout.ends_of(number) {
            if ends.journey.is_open_at(layout.grid.end) {
                line = line.saturating_add(1);
                write_flight(canvas, label, ends, departure(ends, row, line))?;
            }
        }
    }
    Ok(())
}

/// Writes the arrows and their labels, from the last row up, so that no arrow passes over the label of one that is delivered before it.
pub(crate) fn write_arrows(
    alloc: Global,
    canvas: &mut Canvas,
    layout: &Layout<'_>,
) -> Result<(), AllocError> {
    canvas.begin("font-size=\"10\"")?;
    let mut label = String::new(alloc);
    for index in (0..layout.steps.len()).rev() {
        if let (Some(row), Some(step)) = (layout.grid.rows.get(index), layout.steps.get(index)) {
            let place = layout.grid.first.saturating_add(index);
            write_row(canvas, &mut label, layout, place, *row, step)?;
        }
    }
    canvas.end()
}
