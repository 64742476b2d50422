//! Where everything of a drawing stands.
use crate::columns::{Column, Columns};
use crate::grid::{Grid, Row};
use crate::journey::{Journey, journeys_of};
use script_steps::{Step, Steps};
use std::alloc::{AllocError, Global};
use wire::Packet;

/// A packet, and where it comes from and goes to.
#[derive(Clone, Copy)]
pub(crate) struct Ends<'a> {
    pub number: usize,
    pub packet: &'a Packet,
    pub journey: Journey,
    /// The life line of its sender.
    pub from: Column,
    /// The life line of its addressee.
    pub to: Column,
}

/// A drawing before it is written.
#[derive(Drop)]
pub(crate) struct Layout<'a> {
    /// The steps before those that are drawn.
    pub before: &'a [Step],
    /// The steps that are drawn.
    pub steps: &'a [Step],
    /// All packets that were sent.
    pub sent: &'a [Packet],
    pub journeys: Vec<Journey>,
    pub columns: Columns,
    pub grid: Grid,
}

impl<'a> Layout<'a> {
    /// The steps from the one at `first` on, as far as the one before `end`. Where there are none, the actors are those of all steps.
    pub fn new(
        alloc: Global,
        steps: &'a Steps,
        first: usize,
        end: usize,
    ) -> Result<Layout<'a>, AllocError> {
        let (all, sent) = (steps.steps(), steps.sent());
        let before = all.get(..first).unwrap_or(all);
        let drawn = all.get(first..end.min(all.len())).unwrap_or(&[]);
        let shown = if drawn.is_empty() { all } else { drawn };
        let journeys = journeys_of(alloc, all, sent.len())?;
        let columns = Columns::new(alloc, shown, sent)?;
        let grid = Grid::new(alloc, before, drawn, journeys.as_slice())?;
        Ok(Layout {
            before,
            steps: drawn,
            sent,
            journeys,
            columns,
            grid,
        })
    }

    /// Where a packet comes from and goes to, if there is one of this number.
    pub fn ends_of(&self, number: usize) -> Option<Ends<'a>> {
        let packet = self.sent.get(number)?;
        Some(Ends {
            number,
            packet,
            journey: *self.journeys.get(number)?,
            from: self.columns.get(packet.from)?,
            to: self.columns.get(packet.to)?,
        })
    }

    /// The row of the step that sent a packet, if it is drawn.
    pub fn row_of_sent(&self, journey: Journey) -> Option<Row> {
        self.grid.row_of(journey.sent?)
    }
}
