//! What no clause says: that rows over pages are made where there is memory, and what they are, worked out by hand. No server writes
//! an index whose pages do not ascend, and the rules say what it shows: the rows are in the order of their keys, and of a key of two
//! pages the later page's cell counts.
use bytes::Bytes;
use checkpoint::{InstalledIndex, InstalledIndexes};
use checkpoint_format::decode;
use memtable::{Cell, Cells, Key, Place};
use metadata::KeyRange;
use model_partition::TableView;
use std::alloc::{AllocError, Global};
use std::collections::BTreeMap;
use std::test::Fail;
use wire::{ExtentId, Note, Row, Rows};
use world_servers::{SeenByExtent, rows_of};

/// The page of the older index, at offset 0 of the extent 7: `a` is `x`, and `c` is `z`.
const OLDER: &[u8] = b"\x00\x02\x00\x01a\x01\x00\x00\x00\x01x\x00\x01c\x01\x00\x00\x00\x01z";

/// The page of the newer index, at offset 100 of the extent 7: `a` was deleted, and `d` is `w`.
const NEWER: &[u8] = b"\x00\x02\x00\x01a\x00\x00\x01d\x01\x00\x00\x00\x01w";

/// Bytes in place of those of the newer page.
const NO_PAGE: &[u8] = b"\x00\x03\x00\x01a\x00\x00\x01d\x01\x00\x00\x00\x01w";

// Pages of 20 bytes, as the index of two pages names them. Each is named for its keys.
pub(crate) const A_B: &[u8] =
    b"\x00\x02\x00\x01a\x01\x00\x00\x00\x01p\x00\x01b\x01\x00\x00\x00\x01q";

pub(crate) const C_D: &[u8] =
    b"\x00\x02\x00\x01c\x01\x00\x00\x00\x01r\x00\x01d\x01\x00\x00\x00\x01s";

pub(crate) const A_C: &[u8] =
    b"\x00\x02\x00\x01a\x01\x00\x00\x00\x01p\x00\x01c\x01\x00\x00\x00\x01t";

pub(crate) const A_D: &[u8] =
    b"\x00\x02\x00\x01a\x01\x00\x00\x00\x01p\x00\x01d\x01\x00\x00\x00\x01u";

const A_E: &[u8] = b"\x00\x02\x00\x01a\x01\x00\x00\x00\x01p\x00\x01e\x01\x00\x00\x00\x01v";

pub(crate) const B_C: &[u8] =
    b"\x00\x02\x00\x01b\x01\x00\x00\x00\x01q\x00\x01c\x01\x00\x00\x00\x01r";

/// The same where `c` was deleted: `d` is six letters.
const NO_C_D: &[u8] = b"\x00\x02\x00\x01c\x00\x00\x01d\x01\x00\x00\x00\x06ssssss";

/// The index of the older page, which begins with `a`.
const OLDER_INDEX: &[u8] = &[
    0, 0, 0, 28, 0, 0, 0, 1, 0, 0, 1, b'a', 0, 0, 0, 0, 0, 0, 0, 7, 0, 0, 0, 0, 0, 0, 0, 20,
];

/// The index of the newer page, which begins with `a`.
const NEWER_INDEX: &[u8] = &[
    0, 0, 0, 28, 0, 0, 0, 1, 0, 0, 1, b'a', 0, 0, 0, 0, 0, 0, 0, 7, 0, 0, 0, 100, 0, 0, 0, 15,
];

/// An index of two pages: one that it says begins with `a`, at 200, and one that it says begins with `c`, at 300.
const TWO_PAGES: &[u8] = &[
    0, 0, 0, 47, 0, 0, 0, 2, 0, 0, 1, b'a', 0, 0, 0, 0, 0, 0, 0, 7, 0, 0, 0, 200, 0, 0, 0, 20, 0,
    1, b'c', 0, 0, 0, 0, 0, 0, 0, 7, 0, 0, 1, 44, 0, 0, 0, 20,
];

/// A key and its value; none where it was deleted.
type Change = (&'static [u8], Option<&'static [u8]>);

/// A key and its value.
pub(crate) type Shown = (&'static [u8], &'static [u8]);

/// What a table is made of, and the rows that it shows.
struct Case {
    about: &'static str,
    /// The texts of the indexes, the oldest first.
    indexes: &'static [&'static [u8]],
    /// The bytes that were seen of the extent 7, at their offsets.
    seen: &'static [(u32, &'static [u8])],
    /// What the memory table has.
    changes: &'static [Change],
    rows: &'static [Shown],
}

const CASES: &[Case] = &[
    Case {
        about: "a deleted key of a newer index hides one of an older",
        indexes: &[OLDER_INDEX, NEWER_INDEX],
        seen: &[(0, OLDER), (100, NEWER)],
        changes: &[],
        rows: &[(b"c", b"z"), (b"d", b"w")],
    },
    Case {
        about: "the memory table stands over the pages",
        indexes: &[OLDER_INDEX, NEWER_INDEX],
        seen: &[(0, OLDER), (100, NEWER)],
        changes: &[(b"a", Some(b"v")), (b"b", Some(b"u")), (b"d", None)],
        rows: &[(b"a", b"v"), (b"b", b"u"), (b"c", b"z")],
    },
    Case {
        about: "a page that none covers adds no row",
        indexes: &[OLDER_INDEX, NEWER_INDEX],
        seen: &[(0, OLDER)],
        changes: &[(b"c", None)],
        rows: &[(b"a", b"x")],
    },
    Case {
        about: "bytes that spell no page add no row",
        indexes: &[OLDER_INDEX, NEWER_INDEX],
        seen: &[(0, OLDER), (100, NO_PAGE), (100, NEWER)],
        changes: &[],
        rows: &[(b"a", b"x"), (b"c", b"z")],
    },
    Case {
        about: "the earliest that covers is taken",
        indexes: &[OLDER_INDEX, NEWER_INDEX],
        seen: &[(101, NO_PAGE), (100, NEWER), (100, NO_PAGE)],
        changes: &[],
        rows: &[(b"d", b"w")],
    },
    Case {
        about: "with no page at hand the rows are the memory table's",
        indexes: &[OLDER_INDEX, NEWER_INDEX],
        seen: &[],
        changes: &[(b"b", Some(b"u")), (b"d", None)],
        rows: &[(b"b", b"u")],
    },
    Case {
        about: "pages stand in the order of their keys",
        indexes: &[TWO_PAGES],
        seen: &[(200, A_B), (300, C_D)],
        changes: &[],
        rows: &[(b"a", b"p"), (b"b", b"q"), (b"c", b"r"), (b"d", b"s")],
    },
    Case {
        about: "pages stand the other way round",
        indexes: &[TWO_PAGES],
        seen: &[(200, C_D), (300, A_B)],
        changes: &[],
        rows: &[(b"a", b"p"), (b"b", b"q"), (b"c", b"r"), (b"d", b"s")],
    },
    Case {
        about: "a page reaches over the next",
        indexes: &[TWO_PAGES],
        seen: &[(200, A_D), (300, B_C)],
        changes: &[],
        rows: &[(b"a", b"p"), (b"b", b"q"), (b"c", b"r"), (b"d", b"u")],
    },
    Case {
        about: "a page ends with the key with which the next begins",
        indexes: &[TWO_PAGES],
        seen: &[(200, A_C), (300, C_D)],
        changes: &[],
        rows: &[(b"a", b"p"), (b"c", b"r"), (b"d", b"s")],
    },
    Case {
        about: "the later page is the index's, and not the one that was seen later",
        indexes: &[TWO_PAGES],
        seen: &[(300, C_D), (200, A_C)],
        changes: &[],
        rows: &[(b"a", b"p"), (b"c", b"r"), (b"d", b"s")],
    },
    Case {
        about: "a deleted key of the later page hides one of the earlier",
        indexes: &[TWO_PAGES],
        seen: &[(200, A_C), (300, NO_C_D)],
        changes: &[],
        rows: &[(b"a", b"p"), (b"d", b"ssssss")],
    },
    Case {
        about: "a deleted key of the earlier page hides none of the later",
        indexes: &[TWO_PAGES],
        seen: &[(200, NO_C_D), (300, A_C)],
        changes: &[],
        rows: &[(b"a", b"p"), (b"c", b"t"), (b"d", b"ssssss")],
    },
    Case {
        about: "a page reaches over the next, which none covers",
        indexes: &[TWO_PAGES],
        seen: &[(200, A_D)],
        changes: &[],
        rows: &[(b"a", b"p"), (b"d", b"u")],
    },
    Case {
        about: "a page reaches over the next outside of the index's keys alone",
        indexes: &[TWO_PAGES],
        seen: &[(200, A_E), (300, B_C)],
        changes: &[],
        rows: &[(b"a", b"p"), (b"b", b"q"), (b"c", b"r")],
    },
    Case {
        about: "an index whose pages do not ascend is over an older and under a newer one",
        indexes: &[OLDER_INDEX, TWO_PAGES, NEWER_INDEX],
        seen: &[(0, OLDER), (100, NEWER), (200, C_D), (300, A_B)],
        changes: &[],
        rows: &[(b"b", b"q"), (b"c", b"r"), (b"d", b"w")],
    },
    Case {
        about: "the memory table stands over pages that do not ascend",
        indexes: &[TWO_PAGES],
        seen: &[(200, C_D), (300, A_B)],
        changes: &[(b"a", Some(b"v")), (b"c", None)],
        rows: &[(b"a", b"v"), (b"b", b"q"), (b"d", b"s")],
    },
];

/// Installs the index of this text, which counts for keys below `e`.
fn install(alloc: Global, indexes: &mut InstalledIndexes, text: &'static [u8]) -> Result<(), Fail> {
    let index = InstalledIndex {
        place: Place {
            extent: ExtentId(7),
            offset: 4_096,
            length: 30,
        },
        keys: KeyRange {
            low: Bytes::new(),
            high: Some(Bytes::from_static(b"e")),
        },
        index: decode(alloc, text)?,
    };
    indexes.install(index)?;
    Ok(())
}

// These calls pass no contract on, so that a test is proved from what it reads alone.
fn indexes_of(alloc: Global, texts: &[&'static [u8]]) -> Result<InstalledIndexes, Fail> {
    let mut indexes = InstalledIndexes::of(Vec::new(alloc));
    for text in texts {
        install(alloc, &mut indexes, *text)?;
    }
    Ok(indexes)
}

fn notes_of(alloc: Global, seen: &[(u32, &'static [u8])]) -> Result<Vec<Note>, Fail> {
    let mut notes = Vec::new(alloc);
    for (offset, bytes) in seen {
        notes.push(Note::Seen {
            extent: ExtentId(7),
            node: 1,
            offset: *offset,
            bytes: Bytes::from_static(bytes),
        })?;
    }
    Ok(notes)
}

fn entries_of(alloc: Global, changes: &[Change]) -> Result<Cells, Fail> {
    let mut entries = BTreeMap::new(alloc);
    for (key, value) in changes {
        let cell = match value {
            None => Cell::Deleted,
            Some(value) => Cell::Inline(Bytes::from_static(value)),
        };
        entries.insert(Key::of(Bytes::from_static(key)), cell)?;
    }
    Ok(entries)
}

/// The rows of a table after these observations.
pub(crate) fn rows_after(
    alloc: Global,
    notes: &[Note],
    table: &TableView<'_>,
) -> Result<Rows, AllocError> {
    let mut seen = SeenByExtent::new(alloc);
    seen.follow(alloc, notes)?;
    rows_of(alloc, notes, &seen, table)
}

/// The rows of the table of a case after these observations.
fn rows(alloc: Global, case: &Case, notes: &[Note]) -> Result<Rows, Fail> {
    let entries = entries_of(alloc, case.changes)?;
    let indexes = indexes_of(alloc, case.indexes)?;
    let keys = KeyRange {
        low: Bytes::new(),
        high: None,
    };
    let table = TableView {
        live: &entries,
        indexes: &indexes,
        keys: &keys,
    };
    Ok(rows_after(alloc, notes, &table)?)
}

pub(crate) fn are_rows(rows: &[Row], wanted: &[Shown]) -> bool {
    rows.len() == wanted.len()
        && rows.iter().zip(wanted).all(|(row, (key, value))| {
            row.key.as_slice() == *key && row.value.as_slice() == *value
        })
}

#[test]
fn rows_over_pages_are_what_their_cases_say(rt: HostRuntime) -> Result<(), Fail> {
    let alloc = rt.alloc();
    for case in CASES {
        let notes = notes_of(alloc, case.seen)?;
        let told = rows(alloc, case, &notes)?;
        assert!(rt; are_rows(&told.items, case.rows), "{}", case.about);
    }
    Ok(())
}
