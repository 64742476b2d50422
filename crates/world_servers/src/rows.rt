//! The rows of a table.
ghost use Rattle.std.specs.Prelude.{◌≡◌, ◌++◌, [], IfOk, OnOk};
ghost use Rattle.memtable.specs.Entries.{put_all};
ghost use Rattle.model_partition.specs.Servers.{row_of, rows_in, rows_of, table_of_view};
ghost use Rattle.world_servers.specs.Seen.{IsIndex};

use crate::place::first_shown;
use crate::seen::SeenByExtent;
use crate::table_entries::entries_shown;
use bytes::Bytes;
use memtable::{Cell, Cells};
use model_partition::TableView;
use std::alloc::{AllocError, Global};
use wire::{Note, Row, Rows};

fn push_row(
    alloc: Global,
    rows: &mut Vec<Row>,
    notes: &[Note],
    seen: &SeenByExtent,
    key: &Bytes,
    cell: &Cell,
) -> Result<(), AllocError>
    requires { IsIndex notes.now seen.now }
    ensures { OnOk result (rows.new.items ≡ rows.old.items ++ row_of notes.now key.now cell.now) }
{
    let found = match cell {
        Cell::Deleted => None,
        Cell::Inline(value) => Some(value.clone()?),
        Cell::Placed(place) => first_shown(alloc, notes, seen, place)?,
    };
    match found {
        None => Ok(()),
        Some(value) => {
            let key = key.clone()?;
            rows.push(Row { key, value })?;
            Ok(())
        }
    }
}

#[tactic(auto, using(crate::proofs::RowEntries::one_more))]
fn rows_in(
    alloc: Global,
    notes: &[Note],
    seen: &SeenByExtent,
    entries: &[(Bytes, Cell)],
) -> Result<Rows, AllocError>
    requires { IsIndex notes.now seen.now }
    ensures { IfOk result (λ rows. rows ≡ rows_in notes.now entries.now) }
{
    let mut rows = Vec::with_capacity(alloc, entries.len())?;
    for entry in entries {
        push_row(alloc, &mut rows, notes, seen, &entry.0, &entry.1)?;
    }
    Ok(Rows { items: rows })
}

/// The rows of a memory table over no index.
#[tactic(auto, using(crate::proofs::RowEntries::one_more))]
fn live_rows(
    alloc: Global,
    notes: &[Note],
    seen: &SeenByExtent,
    live: &Cells,
) -> Result<Rows, AllocError>
    requires { IsIndex notes.now seen.now }
    ensures { IfOk result (λ rows. rows ≡ rows_in notes.now (put_all [] live.now.entries)) }
{
    let mut rows = Vec::with_capacity(alloc, live.len())?;
    for (key, cell) in live {
        push_row(alloc, &mut rows, notes, seen, key.bytes(), cell)?;
    }
    Ok(Rows { items: rows })
}

/// The rows of this table, after these observations: those of its memory table over those of its indexes' pages, of which
/// one that no observation covers has none. A key that was deleted has no row, and neither has one whose value no observation
/// covers. The index is one of these observations. An error is out of memory (22).
pub fn rows_of(
    alloc: Global,
    notes: &[Note],
    seen: &SeenByExtent,
    table: &TableView<'_>,
) -> Result<Rows, AllocError>
    requires { IsIndex notes.now seen.now }
    ensures { IfOk result (λ rows. rows ≡ rows_of notes.now (table_of_view table.now)) }
{
    if table.indexes.as_slice().is_empty() {
        return live_rows(alloc, notes, seen, table.live);
    }
    let entries = entries_shown(alloc, notes, seen, table)?;
    rows_in(alloc, notes, seen, entries.as_slice())
}
