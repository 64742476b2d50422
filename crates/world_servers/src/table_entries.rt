//! The entries of a table: those of the memory table over those of the pages of its indexes.
ghost use Rattle.std.specs.Prelude.{◌≡◌, ◌++◌, IfOk, OnOk, map};
ghost use Rattle.checkpoint.specs.Pages.{kept_within, merged};
ghost use Rattle.model_partition.specs.Servers.{entries_shown, entries_shown_in, index_shown, table_of_view};
ghost use Rattle.world_servers.specs.Seen.{IsIndex};

use crate::ascending_run::AscendingRun;
use crate::place::first_shown;
use crate::seen::SeenByExtent;
use bytes::Bytes;
use checkpoint::{InstalledIndex, InstalledIndexes, add_page};
use memtable::Cell;
use metadata::KeyRange;
use model_partition::TableView;
use std::alloc::{AllocError, Global};
use wire::Note;

/// Adds the entries of a page that are within both ranges of keys: none, where nothing shows the page, or where its bytes spell
/// none. They share the page's buffer.
fn add_shown(
    alloc: Global,
    entries: &mut Vec<(Bytes, Cell)>,
    page: Option<Bytes>,
    within: &KeyRange,
    keys: &KeyRange,
) -> Result<(), AllocError>
    ensures { OnOk result (entries.new.items ≡ entries.old.items ++ kept_within within.now keys.now (entries_shown_in page)) }
{
    match page {
        None => Ok(()),
        Some(page) => {
            add_page(alloc, entries, &page, within, keys)?;
            Ok(())
        }
    }
}

/// The entries of an index, page by page, within its keys and these.
fn entries_of_index(
    alloc: Global,
    notes: &[Note],
    seen: &SeenByExtent,
    index: &InstalledIndex,
    keys: &KeyRange,
) -> Result<Vec<(Bytes, Cell)>, AllocError>
    requires { IsIndex notes.now seen.now }
    ensures { IfOk result (λ entries. entries.items ≡ kept_within index.now.keys keys.now (index_shown notes.now index.now).entries) }
{
    let mut entries = Vec::new(alloc);
    for page in &index.index.pages.items {
        let bytes = first_shown(alloc, notes, seen, &page.place)?;
        add_shown(alloc, &mut entries, bytes, &index.keys, keys)?;
    }
    Ok(entries)
}

/// The entries of all indexes within these keys: the oldest come first, so that those of a newer one replace them.
fn index_entries(
    alloc: Global,
    notes: &[Note],
    seen: &SeenByExtent,
    indexes: &InstalledIndexes,
    keys: &KeyRange,
) -> Result<AscendingRun, AllocError>
    requires { IsIndex notes.now seen.now }
    ensures { IfOk result (λ entries. entries ≡ merged keys.now (map (index_shown notes.now) indexes.now)) }
{
    let mut entries = AscendingRun::new(alloc);
    let list = indexes.as_slice();
    for at in (0..list.len()).rev() {
        let newer = entries_of_index(alloc, notes, seen, &list[at], keys)?;
        entries = entries.with_changes(alloc, newer)?;
    }
    Ok(entries)
}

/// The entries of this table, after these observations: each page of its indexes is taken from the earliest observation that
/// covers it, the oldest index first, and the memory table's entries come over them. Keys and values are shared. The index is one
/// of these observations. An error is out of memory (22).
pub(crate) fn entries_shown(
    alloc: Global,
    notes: &[Note],
    seen: &SeenByExtent,
    table: &TableView<'_>,
) -> Result<AscendingRun, AllocError>
    requires { IsIndex notes.now seen.now }
    ensures { IfOk result (λ entries. entries ≡ entries_shown notes.now (table_of_view table.now)) }
{
    let entries = index_entries(alloc, notes, seen, table.indexes, table.keys)?;
    let live = AscendingRun::copied(alloc, table.live)?;
    entries.with_newer(alloc, live)
}
