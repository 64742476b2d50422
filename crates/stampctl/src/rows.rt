//! What no clause says: that a call succeeds where there is memory, and rows that were worked out by hand.
use block_types::{Group, Groups};
use bytes::Bytes;
use checkpoint::InstalledIndexes;
use memtable::{Cell, Key, Place};
use metadata::KeyRange;
use model_partition::TableView;
use std::alloc::Global;
use std::collections::BTreeMap;
use std::test::Fail;
use wire::{ExtentId, Note, Row, Rows};
use world_servers::{SeenByExtent, rows_of};

/// What the one cell of a table is.
enum Kept {
    Deleted,
    Inline(&'static [u8]),
    /// A value of three bytes at offset 2 of the extent 7.
    Placed,
}

/// What was observed of the extent 7, or of another.
enum Observed {
    /// The group `abc`, `defg` stands at this offset.
    Acked(u32),
    /// These bytes stand at this offset.
    Seen(u32, &'static [u8]),
    /// These bytes stand at this offset of the extent 8.
    Elsewhere(u32, &'static [u8]),
    /// It has the group `abc`, `defg` alone.
    Content,
}

/// What a case shows, the cell, what was observed, and the value of the one row, if there is one.
const CASES: &[(&str, Kept, &[Observed], Option<&[u8]>)] = &[
    ("a deleted key has no row", Kept::Deleted, &[], None),
    (
        "a small value is its own row",
        Kept::Inline(b"v"),
        &[],
        Some(b"v"),
    ),
    (
        "an acknowledged group shows a value",
        Kept::Placed,
        &[Observed::Acked(1)],
        Some(b"bcd"),
    ),
    (
        "bytes that were seen show a value",
        Kept::Placed,
        &[Observed::Seen(2, b"xyz")],
        Some(b"xyz"),
    ),
    (
        "the content of an extent shows a value",
        Kept::Placed,
        &[Observed::Content],
        Some(b"cde"),
    ),
    (
        "the earliest that covers is taken",
        Kept::Placed,
        &[
            Observed::Seen(3, b"opqr"),
            Observed::Seen(1, b"wxyz"),
            Observed::Seen(2, b"stu"),
        ],
        Some(b"xyz"),
    ),
    (
        "what was seen of another extent is passed over",
        Kept::Placed,
        &[
            Observed::Elsewhere(2, b"xyz"),
            Observed::Seen(2, b"stu"),
            Observed::Elsewhere(1, b"wxyz"),
        ],
        Some(b"stu"),
    ),
    (
        "a value that none covers has no row",
        Kept::Placed,
        &[Observed::Seen(3, b"opqr"), Observed::Seen(2, b"st")],
        None,
    ),
];

// These calls pass no contract on, so that a test is proved from what it reads alone.
fn cell_of(kept: &Kept) -> Cell {
    match kept {
        Kept::Deleted => Cell::Deleted,
        Kept::Inline(value) => Cell::Inline(Bytes::from_static(value)),
        Kept::Placed => Cell::Placed(Place {
            extent: ExtentId(7),
            offset: 2,
            length: 3,
        }),
    }
}

fn group(alloc: Global) -> Result<Group, Fail> {
    let mut texts = Vec::new(alloc);
    texts.push(b"abc".to_vec(alloc)?)?;
    texts.push(b"defg".to_vec(alloc)?)?;
    Ok(Group::new(alloc, texts)?)
}

fn groups(alloc: Global) -> Result<Groups, Fail> {
    let mut groups = Vec::new(alloc);
    groups.push(group(alloc)?)?;
    Ok(Groups { items: groups })
}

fn note_of(alloc: Global, observed: &Observed) -> Result<Note, Fail> {
    let extent = ExtentId(7);
    match observed {
        Observed::Acked(offset) => Ok(Note::Acked {
            extent,
            offset: *offset,
            group: group(alloc)?,
        }),
        Observed::Seen(offset, bytes) => Ok(Note::Seen {
            extent,
            node: 1,
            offset: *offset,
            bytes: Bytes::from_static(bytes),
        }),
        Observed::Elsewhere(offset, bytes) => Ok(Note::Seen {
            extent: ExtentId(8),
            node: 1,
            offset: *offset,
            bytes: Bytes::from_static(bytes),
        }),
        Observed::Content => Ok(Note::Content {
            extent,
            node: 1,
            groups: groups(alloc)?,
        }),
    }
}

fn notes_of(alloc: Global, observed: &[Observed]) -> Result<Vec<Note>, Fail> {
    let mut notes = Vec::new(alloc);
    for one in observed {
        notes.push(note_of(alloc, one)?)?;
    }
    Ok(notes)
}

/// The rows of a table with this cell alone.
fn rows(alloc: Global, kept: &Kept, notes: &[Note]) -> Result<Rows, Fail> {
    let mut entries = BTreeMap::new(alloc);
    entries.insert(Key::of(Bytes::from_static(b"k")), cell_of(kept))?;
    let mut seen = SeenByExtent::new(alloc);
    seen.follow(alloc, notes)?;
    let keys = KeyRange {
        low: Bytes::new(),
        high: None,
    };
    let indexes = InstalledIndexes::of(Vec::new(alloc));
    let table = TableView {
        live: &entries,
        indexes: &indexes,
        keys: &keys,
    };
    Ok(rows_of(alloc, notes, &seen, &table)?)
}

fn has_value(rows: &[Row], value: Option<&[u8]>) -> bool {
    match (rows, value) {
        ([], None) => true,
        ([row], Some(value)) => row.value.as_slice() == value,
        _ => false,
    }
}

fn shows(
    alloc: Global,
    kept: &Kept,
    observed: &[Observed],
    value: Option<&[u8]>,
) -> Result<bool, Fail> {
    let notes = notes_of(alloc, observed)?;
    let told = rows(alloc, kept, &notes);
    drop(notes);
    Ok(has_value(&told?.items, value))
}

#[test]
fn rows_show_what_their_cases_say(rt: HostRuntime) -> Result<(), Fail> {
    for (name, kept, observed, value) in CASES {
        assert!(rt; shows(rt.alloc(), kept, *observed, *value)?, "{name}");
    }
    Ok(())
}
