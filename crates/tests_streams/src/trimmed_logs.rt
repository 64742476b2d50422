//! Logs of ranges that extents leave at the front.
use crate::cases::{Subject, holds};
use Event::{Creates, Extends, Garbage, IsStream, Trimming, Trims};
use StreamKind::{BlobData, Log, Metadata};
use std::alloc::Global;
use std::collections::BTreeMap;
use streams::{StreamFault, StreamTable};
use wire::{ExtentId, Fence, RangeId, StreamKind, StreamName};

/// Whether extents leave a log, or why not.
pub(crate) type Leaves = Result<bool, StreamFault>;

/// The base and the extents of a stream.
pub(crate) type Shown = (u64, &'static [u64]);

/// What happens to a table, or what is seen of it. Streams are those of range 5, with fence 3.
#[derive(Clone, Copy)]
pub(crate) enum Event {
    Creates(StreamKind),
    /// A stream is given one more extent.
    Extends(StreamKind, u64),
    /// A generation trims the log below an index, and has what leaves stand in the blob stream or not.
    Trims(u64, u64, bool, Leaves),
    /// Whether a generation might trim it.
    Trimming(u64, u64, Leaves),
    IsStream(StreamKind, Shown),
    /// The extents that once stood in a stream and stand in none now.
    Garbage(&'static [u64]),
}

const NO_SUCH_STREAM: Leaves = Err(StreamFault::NoSuchStream);

const STALE: Leaves = Err(StreamFault::Stale);

const LAST_OPEN: Leaves = Err(StreamFault::LastOpen);

/// A log of the extents 1 and 2, and a blob stream.
const FILLS: &[Event] = &[
    Creates(Log),
    Creates(BlobData),
    Extends(Log, 1),
    Extends(Log, 2),
];

const AS_FILLED: &[Event] = &[
    IsStream(Log, (0, &[1, 2])),
    IsStream(BlobData, (0, &[])),
    Garbage(&[]),
];

const ONE_LEAVES: &[Event] = &[
    Trimming(3, 1, Ok(true)),
    Trims(3, 1, false, Ok(true)),
    IsStream(Log, (1, &[2])),
    IsStream(BlobData, (0, &[])),
    Garbage(&[1]),
];

const ONE_IS_KEPT: &[Event] = &[
    Extends(BlobData, 9),
    Trims(3, 1, true, Ok(true)),
    IsStream(Log, (1, &[2])),
    IsStream(BlobData, (0, &[9, 1])),
    Garbage(&[]),
];

/// The extents 1 to 4 in another order, of which the first three leave, two of them for the blob stream.
const LEAVE_IN_TURN: &[Event] = &[
    Creates(Log),
    Creates(BlobData),
    Extends(Log, 3),
    Extends(Log, 2),
    Extends(Log, 1),
    Extends(Log, 4),
    Trims(3, 2, true, Ok(true)),
    Trims(3, 3, false, Ok(true)),
    IsStream(Log, (3, &[4])),
    IsStream(BlobData, (0, &[3, 2])),
    Garbage(&[1]),
];

/// All extents but the last leave, which the garbage names in ascending order.
const ALL_BUT_ONE_LEAVE: &[Event] = &[
    Creates(Log),
    Creates(BlobData),
    Extends(Log, 8),
    Extends(Log, 6),
    Extends(Log, 7),
    Trims(3, 2, false, Ok(true)),
    Garbage(&[6, 8]),
];

const NONE_LEAVES_AT_THE_BASE: &[Event] = &[
    Trims(3, 1, false, Ok(true)),
    Trimming(3, 1, Ok(false)),
    Trims(3, 1, false, Ok(false)),
    Trims(3, 0, true, Ok(false)),
    IsStream(Log, (1, &[2])),
    IsStream(BlobData, (0, &[])),
    Garbage(&[1]),
];

const REFUSES_ANOTHER_GENERATION: &[Event] = &[
    Trimming(2, 1, STALE),
    Trims(2, 1, true, STALE),
    Trims(4, 1, false, STALE),
    Trims(2, 0, false, STALE),
];

const REFUSES_THE_LAST: &[Event] = &[
    Trimming(3, 2, LAST_OPEN),
    Trims(3, 2, true, LAST_OPEN),
    Trims(3, 3, false, LAST_OPEN),
];

const LOG_ALONE: &[Event] = &[
    Creates(Log),
    Creates(Metadata),
    Extends(Log, 1),
    Extends(Log, 2),
    Trimming(3, 1, NO_SUCH_STREAM),
    Trims(3, 1, true, NO_SUCH_STREAM),
    IsStream(Log, (0, &[1, 2])),
    Garbage(&[]),
];

const BLOB_ALONE: &[Event] = &[
    Creates(BlobData),
    Extends(BlobData, 1),
    Trims(3, 1, false, NO_SUCH_STREAM),
    IsStream(BlobData, (0, &[1])),
    Garbage(&[]),
];

/// What a case shows, and its parts.
type Case = (&'static str, &'static [&'static [Event]]);

const CASES: &[Case] = &[
    ("an extent leaves a log", &[FILLS, AS_FILLED, ONE_LEAVES]),
    ("one that leaves is kept", &[FILLS, ONE_IS_KEPT]),
    ("a log is trimmed again", &[LEAVE_IN_TURN]),
    ("garbage is in order", &[ALL_BUT_ONE_LEAVE]),
    ("at the base none leaves", &[FILLS, NONE_LEAVES_AT_THE_BASE]),
    (
        "another generation trims nothing",
        &[FILLS, REFUSES_ANOTHER_GENERATION, AS_FILLED],
    ),
    (
        "the last extent stays",
        &[FILLS, REFUSES_THE_LAST, AS_FILLED],
    ),
    ("no blob stream", &[LOG_ALONE]),
    ("no log", &[BLOB_ALONE]),
];

/// A table of streams whose logs are trimmed.
pub(crate) struct Logs {
    table: StreamTable,
}

impl Drop for Logs {
    fn drop(self) {
        let Logs { table: _ } = self;
    }
}

// These calls pass no contract on, so that a test is proved from what it reads alone.
fn name(kind: StreamKind) -> StreamName {
    let range = RangeId(5);
    StreamName { range, kind }
}

fn are(extents: &[ExtentId], wanted: &[u64]) -> bool {
    extents.len() == wanted.len() && extents.iter().zip(wanted).all(|(e, n)| e.0 == *n)
}

fn is_stream(table: &StreamTable, kind: StreamKind, wanted: Shown) -> bool {
    let (base, extents) = wanted;
    match table.stream(&name(kind)) {
        None => false,
        Some(listed) => listed.base() == base && are(listed.extents(), extents),
    }
}

fn is_garbage(table: &StreamTable, wanted: &[u64]) -> bool {
    match table.garbage() {
        Err(_full) => false,
        Ok(extents) => are(&extents, wanted),
    }
}

/// Whether a stream takes one more extent, where its last one is sealed.
fn extends(alloc: Global, table: &mut StreamTable, kind: StreamKind, extent: u64) -> bool {
    let last = match table.stream(&name(kind)) {
        None => None,
        Some(listed) => listed.last(),
    };
    let mut sealed = BTreeMap::new(alloc);
    if let Some(last) = last {
        if sealed.insert(last, 7).is_err() {
            return false;
        }
    }
    table.extend(&name(kind), Fence(3), last, &sealed, ExtentId(extent)) == Ok(None)
}

impl Subject for Logs {
    type Event = Event;

    fn takes(&mut self, alloc: Global, event: Event) -> bool {
        let range = RangeId(5);
        match event {
            Creates(kind) => self.table.create(&name(kind), Fence(3)).is_ok(),
            Extends(kind, extent) => extends(alloc, &mut self.table, kind, extent),
            Trims(generation, before, to_blob, wanted) => {
                self.table.trim(range, Fence(generation), before, to_blob) == wanted
            }
            Trimming(generation, before, wanted) => {
                self.table.trimming(range, Fence(generation), before) == wanted
            }
            IsStream(kind, wanted) => is_stream(&self.table, kind, wanted),
            Garbage(wanted) => is_garbage(&self.table, wanted),
        }
    }
}

#[test]
fn each_event_goes_as_its_case_says(rt: HostRuntime) {
    for (shows, parts) in CASES {
        let logs = Logs {
            table: StreamTable::new(rt.alloc()),
        };
        assert!(rt; holds(rt.alloc(), logs, parts), "{shows}");
    }
}
