//! An entry of the log.
use crate::logged_event::LoggedEvent;
use model_partition::TableNote;
use std::marker::Model;
use wire::{Notes, Refusal};

/// What the log has of an entry of the trace: the pass that put it there, its event, what was observed of extents and of tables, and why
/// it was refused, if it was.
pub struct LogEntry {
    pub pass: usize,
    pub event: LoggedEvent,
    pub notes: Notes,
    pub tables: Vec<TableNote>,
    pub refusal: Option<Refusal>,
}

// Written out, so that a crate above that lets one go has no proof of what is in it.
impl Drop for LogEntry {
    fn drop(self) {
        let LogEntry {
            pass: _,
            event: _,
            notes: _,
            tables: _,
            refusal: _,
        } = self;
    }
}

impl Model for LogEntry {
    ghost use Rattle.stamp_run.specs.Logs.{Logged};

    ghost Value = { Logged };

    ghost view = { λ e. record { pass = e.pass; event = e.event; notes = e.notes; tables = e.tables.items; refusal = e.refusal } };
}
