//! The arrows of packets.
use crate::canvas::{Arrow, Point};
use crate::columns::Column;
use crate::grid::{LINE_HEIGHT, Row};
use crate::journey::Journey;
use crate::layout::Ends;

/// How far to the side an arrow goes that has an end outside the drawing, in pixels.
const SHORT: u64 = 40;

/// How far a label stands from a life line, from the head of a short arrow, and below the middle of a row, in pixels.
const LABEL_GAP: u64 = 9;

const SHORT_LABEL_GAP: u64 = 4;

const LABEL_DROP: u64 = 10;

/// How much further down the first short arrow of a row ends, below the label of what the row delivers, in pixels.
const DEPARTURE_GAP: u64 = 6;

/// How far an arrow is bent up for each column that it goes, in pixels.
const BEND: u64 = 8;

/// Which way a packet goes, with the place of the step that delivers it.
#[derive(Clone, Copy)]
pub(crate) enum Course {
    /// It is delivered for the first time.
    First { delivered: usize },
    /// It is delivered again.
    Again { delivered: usize },
    /// It was sent before the steps that are drawn.
    SentBefore { delivered: usize },
    /// It is delivered after the steps that are drawn, here for the last time.
    DeliveredAfter { delivered: usize },
    /// It is never delivered.
    Lost,
}

impl Course {
    /// The place of the step that delivers the packet, if there is one.
    pub fn delivered(self) -> Option<usize> {
        match self {
            Course::First { delivered }
            | Course::Again { delivered }
            | Course::SentBefore { delivered }
            | Course::DeliveredAfter { delivered } => Some(delivered),
            Course::Lost => None,
        }
    }
}

/// An arrow and its label.
#[derive(Clone, Copy)]
pub(crate) struct Flight {
    pub course: Course,
    pub arrow: Arrow,
    /// Where the label begins, or ends where it goes to the left; on its base line.
    pub label: Point,
    pub is_leftward: bool,
}

/// So many pixels to the side of a life line, toward another.
fn aside(from: Column, to: Column, distance: u64) -> u64 {
    if to.x < from.x {
        from.x.saturating_sub(distance)
    } else {
        from.x.saturating_add(distance)
    }
}

/// How far an arrow from one height to another is bent up, so that it passes above the heads of those that the same step sent to
/// actors on its way. It never goes up.
fn bend_of(ends: Ends<'_>, top: u64, bottom: u64) -> u64 {
    let columns = ends.from.place.abs_diff(ends.to.place) as u64;
    let most = bottom.saturating_sub(top) / 2;
    if columns > 1 {
        columns.saturating_mul(BEND).min(most)
    } else {
        0
    }
}

/// Whether the step at a place delivers a packet for the first time, or again.
fn course_at(journey: Journey, delivered: usize) -> Course {
    if journey.first_delivery == Some(delivered) {
        Course::First { delivered }
    } else {
        Course::Again { delivered }
    }
}

/// The arrow of a packet that the step at a place delivers in a row, with the row of the step that sent it, if that is drawn.
pub(crate) fn arrival(ends: Ends<'_>, sent: Option<Row>, delivered: usize, row: Row) -> Flight {
    let Ends {
        journey,
        from,
        to,
        ..
    } = ends;
    let (course, tail, bend) = match sent {
        Some(sent) => (
            course_at(journey, delivered),
            Point {
                x: from.x,
                y: sent.y,
            },
            bend_of(ends, sent.y, row.y),
        ),
        None => (
            Course::SentBefore { delivered },
            Point {
                x: aside(to, from, SHORT),
                y: row.top,
            },
            0,
        ),
    };
    Flight {
        course,
        arrow: Arrow {
            tail,
            head: Point { x: to.x, y: row.y },
            bend,
            sender: from.place,
            is_dashed: false,
        },
        label: Point {
            x: aside(to, from, LABEL_GAP),
            y: row.y.saturating_add(LABEL_DROP),
        },
        is_leftward: from.x < to.x,
    }
}

/// The arrow of a packet that is sent in a row and delivered outside the drawing or never: the one of this place among them, from 1.
pub(crate) fn departure(ends: Ends<'_>, row: Row, line: u64) -> Flight {
    let Ends {
        journey,
        from,
        to,
        ..
    } = ends;
    let drop = line
        .saturating_mul(LINE_HEIGHT)
        .saturating_add(DEPARTURE_GAP);
    let (course, is_dashed) = match journey.last_delivery {
        Some(delivered) => (Course::DeliveredAfter { delivered }, false),
        None => (Course::Lost, true),
    };
    let y = row.y.saturating_add(drop);
    Flight {
        course,
        arrow: Arrow {
            tail: Point {
                x: from.x,
                y: row.y,
            },
            head: Point {
                x: aside(from, to, SHORT),
                y,
            },
            bend: 0,
            sender: from.place,
            is_dashed,
        },
        label: Point {
            x: aside(from, to, SHORT.saturating_add(SHORT_LABEL_GAP)),
            y: y.saturating_add(SHORT_LABEL_GAP),
        },
        is_leftward: to.x < from.x,
    }
}
