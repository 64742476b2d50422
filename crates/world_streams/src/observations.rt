//! All observations, and where those of each extent stand among them.
ghost use Rattle.std.specs.Prelude.{◌≡◌, ◌++◌, ◌+◌, ◌≤◌, [], ◌∷◌, IfOk, OnOk, vec_len, vec_capacity};
ghost use Rattle.model_partition.specs.Servers.{rows_of, table_of_view};

use crate::post::{MOST, make_room, move_in, move_over};
use model_partition::TableView;
use std::alloc::{AllocError, Global};
use std::marker::Model;
use wire::{Note, Rows};
use world_servers::{SeenByExtent, rows_of};

/// All that was observed, in order. Its value is the vector of it. Where the observations of each extent stand is found out
/// when rows are made, of those that have come since: it takes 8 bytes for each, and nothing where no rows are made.
pub(crate) struct Observations {
    notes: Vec<Note>,
    seen: SeenByExtent,
}

// Written out, so that a type above that lets one go has no proof of what is in it.
impl Drop for Observations {
    fn drop(self) {
        let Observations { notes: _, seen: _ } = self;
    }
}

impl Model for Observations {
    ghost use Rattle.std.specs.Prelude.{Vec};
    ghost use Rattle.std.specs.declared.alloc.Global.{Global};
    ghost use Rattle.wire.specs.declared.note.Note.{Note};
    ghost use Rattle.world_servers.specs.Seen.{IsIndexOfFirst};

    ghost Value = { Vec Note Global };

    ghost view = { λ observed. observed.notes };

    ghost invariant = { λ observed. IsIndexOfFirst observed.notes.items observed.seen };
}

impl Observations {
    /// None yet; takes no memory.
    pub(crate) fn new(alloc: Global) -> Observations
        ensures { result.items ≡ [] }
    {
        Observations {
            notes: Vec::new(alloc),
            seen: SeenByExtent::new(alloc),
        }
    }

    /// Makes room for what a step may show. Nothing else changes.
    pub(crate) fn make_room(&mut self) -> Result<(), AllocError>
        ensures same { self.new.items ≡ self.old.items }
        ensures room { OnOk result (vec_len self.new + MOST ≤ vec_capacity self.new) }
    {
        make_room(&mut self.notes)
    }

    /// Puts one more at the end, into room that is there.
    pub(crate) fn push_reserved(&mut self, note: Note)
        requires { vec_len self.old + 1 ≤ vec_capacity self.old }
        ensures items { self.new.items ≡ self.old.items ++ note ∷ [] }
        ensures room { vec_capacity self.new ≡ vec_capacity self.old }
    {
        self.notes.push_reserved(note);
    }

    /// Puts these at the end, into room that is there.
    pub(crate) fn move_in(&mut self, more: Vec<Note>)
        requires { vec_len self.old + vec_len more ≤ vec_capacity self.old }
        ensures { self.new.items ≡ self.old.items ++ more.items }
    {
        move_in(&mut self.notes, more);
    }

    /// Puts all that is in a list at the end, into room that is there. The list is empty then, and keeps its room.
    pub(crate) fn move_over(&mut self, more: &mut Vec<Note>)
        requires { vec_len self.old + vec_len more.old ≤ vec_capacity self.old }
        ensures moved { self.new.items ≡ self.old.items ++ more.old.items }
        ensures emptied { more.new.items ≡ [] }
    {
        move_over(&mut self.notes, more);
    }

    pub(crate) fn as_slice(&self) -> &[Note]
        ensures { result.now ≡ self.now.items }
    {
        self.notes.as_slice()
    }

    /// The rows of this table, after all observations. Nothing changes.
    pub(crate) fn rows_of(
        &mut self,
        alloc: Global,
        table: &TableView<'_>,
    ) -> Result<Rows, AllocError>
        ensures rows { IfOk result (λ rows. rows ≡ rows_of self.old.items (table_of_view table.now)) }
        ensures same { self.new ≡ self.old }
    {
        match self.seen.follow(alloc, self.notes.as_slice()) {
            Ok(()) => rows_of(alloc, self.notes.as_slice(), &self.seen, table),
            Err(full) => Err(full),
        }
    }
}
