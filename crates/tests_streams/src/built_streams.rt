//! Streams that are built from the lists of others.
use crate::cases::{Subject, holds};
use Event::{Builds, Creates, Extends, Garbage, IsMissing, IsStream, Repeats, Trims};
use std::alloc::Global;
use std::collections::BTreeMap;
use streams::{StreamFault, StreamTable};
use wire::{ExtentId, Fence, Modify, RangeId, Source, Sources, StreamKind, StreamName};

/// Whether streams are built, or why not.
pub(crate) type Answer = Result<(), StreamFault>;

/// The range whose log is built, and the ranges whose logs it is built from, each with the generation that is named.
pub(crate) type Entry = (u64, &'static [(u64, u64)]);

/// What happens to a table, or what is seen of it. Streams are logs, each beside a blob stream. Extents are numbered from 10 to 19.
#[derive(Clone, Copy)]
pub(crate) enum Event {
    /// A range, and its fence.
    Creates(u64, u64),
    /// The log of a range is given one more extent, for a generation.
    Extends(u64, u64, u64),
    /// Streams are built while this extent is open and the others are sealed.
    Builds(&'static [Entry], u64, Answer),
    /// So many streams are built, from range 100 on, each from so many times the log of range 1.
    Repeats(u64, u64, Answer),
    /// Extents below an index leave the log of a range for good, for a generation.
    Trims(u64, u64, u64),
    /// The base, the fence and the extents of the log of a range.
    IsStream(u64, u64, u64, &'static [u64]),
    /// The log of a range is not there.
    IsMissing(u64),
    /// The extents that once stood in a stream and stand in none now.
    Garbage(&'static [u64]),
}

const NO_SUCH_STREAM: Answer = Err(StreamFault::NoSuchStream);

const NAME_TAKEN: Answer = Err(StreamFault::NameTaken);

const STALE: Answer = Err(StreamFault::Stale);

const LAST_OPEN: Answer = Err(StreamFault::LastOpen);

/// No extent is open.
const NONE: u64 = 0;

const FILLS: &[Event] = &[
    Creates(1, 3),
    Creates(2, 4),
    Extends(1, 3, 10),
    Extends(1, 3, 11),
    Extends(2, 4, 12),
];

const AS_FILLED: &[Event] = &[
    IsStream(1, 0, 3, &[10, 11]),
    IsStream(2, 0, 4, &[12]),
    IsMissing(5),
    IsMissing(6),
    Garbage(&[]),
];

const JOINS_TWO: &[Event] = &[
    Builds(&[(5, &[(1, 3), (2, 4)])], NONE, Ok(())),
    IsStream(5, 0, 4, &[10, 11, 12]),
];

/// What becomes of the sources leaves the new stream as it was built.
const SOURCES_GO_ON: &[Event] = &[
    Extends(1, 3, 13),
    Extends(5, 4, 14),
    IsStream(1, 0, 3, &[10, 11, 13]),
    IsStream(2, 0, 4, &[12]),
    IsStream(5, 0, 4, &[10, 11, 12, 14]),
];

/// An extent that has left a stream is no garbage while it stands in another.
const A_SOURCE_IS_TRIMMED: &[Event] = &[
    Trims(1, 3, 1),
    IsStream(1, 1, 3, &[11]),
    IsStream(5, 0, 4, &[10, 11, 12]),
    Garbage(&[]),
];

/// A stream begins where the first of its sources does.
const BEGINS_AS_THE_FIRST: &[Event] = &[
    Trims(1, 3, 1),
    Builds(
        &[(6, &[(1, 3), (2, 4)]), (7, &[(2, 4), (1, 3)])],
        NONE,
        Ok(()),
    ),
    IsStream(6, 1, 4, &[11, 12]),
    IsStream(7, 0, 4, &[12, 11]),
    Garbage(&[10]),
];

/// A stream of the list is a source of one behind it.
const EARLIER_ONES_COUNT: &[Event] = &[
    Builds(&[(6, &[(2, 4)]), (5, &[(6, 4), (1, 3)])], NONE, Ok(())),
    IsStream(6, 0, 4, &[12]),
    IsStream(5, 0, 4, &[12, 10, 11]),
];

const COUNTS: &[Event] = &[
    Builds(&[(5, &[])], NONE, NO_SUCH_STREAM),
    Builds(&[(1, &[(1, 3)]), (5, &[])], NONE, NO_SUCH_STREAM),
    Repeats(256, 1, NO_SUCH_STREAM),
    Repeats(1, 256, NO_SUCH_STREAM),
    Repeats(255, 1, Ok(())),
    Builds(&[], NONE, Ok(())),
];

const MANY_SOURCES: &[Event] = &[
    Creates(1, 3),
    Repeats(1, 255, Ok(())),
    IsStream(100, 0, 3, &[]),
];

const IN_THE_ORDER_OF_THE_TESTS: &[Event] = &[
    Builds(&[(1, &[(9, 3)])], NONE, NAME_TAKEN),
    Builds(&[(5, &[(1, 9), (9, 3)])], NONE, NO_SUCH_STREAM),
    Builds(&[(5, &[(1, 3), (2, 5)])], 11, STALE),
    Builds(&[(5, &[(1, 2)])], NONE, STALE),
    Builds(&[(5, &[(1, 3), (2, 4)])], 11, LAST_OPEN),
    Builds(&[(5, &[(1, 3), (2, 4)])], 12, LAST_OPEN),
];

const IN_THE_ORDER_OF_THE_LIST: &[Event] = &[
    Builds(&[(5, &[(1, 9)]), (1, &[(9, 3)])], NONE, STALE),
    Builds(&[(5, &[(1, 3)]), (1, &[(9, 3)])], NONE, NAME_TAKEN),
    Builds(&[(5, &[(1, 3)]), (5, &[(2, 4)])], NONE, NAME_TAKEN),
    Builds(&[(5, &[(6, 4)]), (6, &[(2, 4)])], NONE, NO_SUCH_STREAM),
    Builds(&[(6, &[(2, 4)]), (5, &[(6, 3)])], NONE, STALE),
    Builds(&[(6, &[(1, 3)]), (5, &[(2, 4), (6, 3)])], 12, LAST_OPEN),
];

/// What a case shows, and its parts.
type Case = (&'static str, &'static [&'static [Event]]);

const CASES: &[Case] = &[
    ("two are joined", &[FILLS, JOINS_TWO, SOURCES_GO_ON]),
    ("garbage", &[FILLS, JOINS_TWO, A_SOURCE_IS_TRIMMED]),
    ("the base", &[FILLS, BEGINS_AS_THE_FIRST]),
    ("one behind the other", &[FILLS, EARLIER_ONES_COUNT]),
    ("counts", &[FILLS, COUNTS, AS_FILLED]),
    ("many sources", &[MANY_SOURCES]),
    ("tests", &[FILLS, IN_THE_ORDER_OF_THE_TESTS, AS_FILLED]),
    ("list", &[FILLS, IN_THE_ORDER_OF_THE_LIST, AS_FILLED]),
];

/// A table whose streams are built.
pub(crate) struct Built {
    table: StreamTable,
}

impl Drop for Built {
    fn drop(self) {
        let Built { table: _ } = self;
    }
}

// These calls pass no contract on, so that a test is proved from what it reads alone.
fn log(range: u64) -> StreamName {
    StreamName {
        range: RangeId(range),
        kind: StreamKind::Log,
    }
}

fn blob_data(range: u64) -> StreamName {
    StreamName {
        range: RangeId(range),
        kind: StreamKind::BlobData,
    }
}

fn creates(table: &mut StreamTable, range: u64, fence: u64) -> bool {
    table.create(&log(range), Fence(fence)).is_ok()
        && table.create(&blob_data(range), Fence(fence)).is_ok()
}

/// The lengths of the extents, but of one that is open.
fn sealed_but(alloc: Global, open: u64) -> Option<BTreeMap<ExtentId, u32>> {
    let mut sealed = BTreeMap::new(alloc);
    for extent in 10..20 {
        if extent != open && sealed.insert(ExtentId(extent), 7).is_err() {
            return None;
        }
    }
    Some(sealed)
}

fn extends(alloc: Global, table: &mut StreamTable, range: u64, fence: u64, extent: u64) -> bool {
    let last = match table.stream(&log(range)) {
        None => None,
        Some(listed) => listed.last(),
    };
    match sealed_but(alloc, NONE) {
        None => false,
        Some(sealed) => {
            let extent = ExtentId(extent);
            table.extend(&log(range), Fence(fence), last, &sealed, extent) == Ok(None)
        }
    }
}

fn sources_of(alloc: Global, sources: &[(u64, u64)]) -> Option<Sources> {
    let mut items = Vec::new(alloc);
    for (range, generation) in sources {
        let source = Source {
            stream: log(*range),
            generation: Fence(*generation),
        };
        if items.push(source).is_err() {
            return None;
        }
    }
    Some(Sources { items })
}

pub(crate) fn list_of(alloc: Global, entries: &[Entry]) -> Option<Vec<Modify>> {
    let mut list = Vec::new(alloc);
    for (range, sources) in entries {
        let Some(sources) = sources_of(alloc, sources) else {
            return None;
        };
        let stream = log(*range);
        if list.push(Modify { stream, sources }).is_err() {
            return None;
        }
    }
    Some(list)
}

fn sources_again(alloc: Global, count: u64) -> Option<Sources> {
    let mut items = Vec::new(alloc);
    for _ in 0..count {
        let source = Source {
            stream: log(1),
            generation: Fence(3),
        };
        if items.push(source).is_err() {
            return None;
        }
    }
    Some(Sources { items })
}

/// So many streams from range 100 on, each from so many times the log of range 1.
fn list_again(alloc: Global, streams: u64, sources: u64) -> Option<Vec<Modify>> {
    let mut list = Vec::new(alloc);
    for number in 0..streams {
        let Some(sources) = sources_again(alloc, sources) else {
            return None;
        };
        let stream = log(number.wrapping_add(100));
        if list.push(Modify { stream, sources }).is_err() {
            return None;
        }
    }
    Some(list)
}

fn builds(
    alloc: Global,
    table: &mut StreamTable,
    list: Option<Vec<Modify>>,
    open: u64,
) -> Option<Answer> {
    let Some(list) = list else {
        return None;
    };
    match sealed_but(alloc, open) {
        None => None,
        Some(sealed) => Some(table.multi_modify(&list, &sealed)),
    }
}

fn are(extents: &[ExtentId], wanted: &[u64]) -> bool {
    extents.len() == wanted.len() && extents.iter().zip(wanted).all(|(e, n)| e.0 == *n)
}

fn is_stream(table: &StreamTable, range: u64, base: u64, fence: u64, extents: &[u64]) -> bool {
    match table.stream(&log(range)) {
        None => false,
        Some(listed) => {
            listed.base() == base && listed.fence.0 == fence && are(listed.extents(), extents)
        }
    }
}

fn is_garbage(table: &StreamTable, wanted: &[u64]) -> bool {
    match table.garbage() {
        Err(_full) => false,
        Ok(extents) => are(&extents, wanted),
    }
}

impl Subject for Built {
    type Event = Event;

    fn takes(&mut self, alloc: Global, event: Event) -> bool {
        let table = &mut self.table;
        match event {
            Creates(range, fence) => creates(table, range, fence),
            Extends(range, fence, extent) => extends(alloc, table, range, fence, extent),
            Builds(entries, open, wanted) => {
                builds(alloc, table, list_of(alloc, entries), open) == Some(wanted)
            }
            Repeats(streams, sources, wanted) => {
                builds(alloc, table, list_again(alloc, streams, sources), NONE) == Some(wanted)
            }
            Trims(range, fence, before) => {
                table.trim(RangeId(range), Fence(fence), before, false) == Ok(true)
            }
            IsStream(range, base, fence, extents) => is_stream(table, range, base, fence, extents),
            IsMissing(range) => table.stream(&log(range)).is_none(),
            Garbage(wanted) => is_garbage(table, wanted),
        }
    }
}

#[test]
fn builds_as_its_case_says(rt: HostRuntime) {
    for (shows, parts) in CASES {
        let built = Built {
            table: StreamTable::new(rt.alloc()),
        };
        assert!(rt; holds(rt.alloc(), built, parts), "{shows}");
    }
}
