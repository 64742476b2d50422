//! Tables of streams by name.
use crate::cases::{Subject, holds};
use Event::{Confirms, CreateFour, Creates, Extending, Extends, IsStream, Locates, Opening, Opens};
use StreamKind::{BlobData, Log, Metadata, RowData};
use std::alloc::Global;
use std::collections::BTreeMap;
use streams::{Position, StreamFault, StreamTable};
use wire::{ExtentId, Fence, RangeId, StreamKind, StreamName};

/// What a call answers that changes a table or not.
pub(crate) type Done = Result<(), StreamFault>;

/// The last extent that a call answers, if it is not the one that it was given.
pub(crate) type End = Result<Option<u64>, StreamFault>;

/// The base, the fence and the last extent of a stream, and how many extents it has.
pub(crate) type Shown = (u64, u64, Option<u64>, usize);

/// What happens to a table, or what is seen of it. A range is named first, then a kind, a generation and an extent.
#[derive(Clone, Copy)]
pub(crate) enum Event {
    Creates(u64, StreamKind, u64, Done),
    /// The four streams of a range are created, the first of the kinds last.
    CreateFour(u64, u64),
    Opens(u64, u64, Done),
    /// Whether it might be opened.
    Opening(u64, u64, Done),
    Confirms(u64, u64, Done),
    /// The log of range 5 is given one more extent for a generation that takes an extent for the last one, where the
    /// extents up to a third one are sealed.
    Extends(u64, Option<u64>, u64, u64, End),
    /// Whether it might be given one more, where no extent is sealed.
    Extending(u64, Option<u64>, End),
    /// Where the byte 9 of the extent of an index in the log of a range is.
    Locates(u64, u64, Option<(u64, u32)>),
    IsStream(u64, StreamKind, Option<Shown>),
}

const DONE: Done = Ok(());

const STALE: Done = Err(StreamFault::Stale);

const NO_SUCH_STREAM: Done = Err(StreamFault::NoSuchStream);

/// The four streams of the ranges 5, 9 and 2.
const FILLS: &[Event] = &[CreateFour(5, 3), CreateFour(9, 4), CreateFour(2, 0)];

const ONE_OF_EACH_NAME: &[Event] = &[
    IsStream(5, Metadata, Some((0, 3, None, 0))),
    IsStream(9, BlobData, Some((0, 4, None, 0))),
    IsStream(2, Log, Some((0, 0, None, 0))),
    IsStream(3, Log, None),
    Creates(9, RowData, 7, Err(StreamFault::NameTaken)),
    IsStream(9, RowData, Some((0, 4, None, 0))),
];

const OPENS_ABOVE_ITS_FENCE: &[Event] = &[
    Opens(5, 3, STALE),
    Opens(7, 3, NO_SUCH_STREAM),
    Opening(5, 4, DONE),
    Opens(5, 4, DONE),
    IsStream(5, Metadata, Some((0, 4, None, 0))),
    IsStream(5, BlobData, Some((0, 4, None, 0))),
    IsStream(2, Metadata, Some((0, 0, None, 0))),
];

const THREE_ALONE: &[Event] = &[
    Creates(5, Metadata, 0, DONE),
    Creates(5, Log, 0, DONE),
    Creates(5, BlobData, 0, DONE),
    Opens(5, 1, NO_SUCH_STREAM),
    Confirms(5, 0, NO_SUCH_STREAM),
];

const CONFIRMS_ITS_FENCE: &[Event] = &[
    Confirms(5, 3, DONE),
    Opens(5, 8, DONE),
    Confirms(5, 3, STALE),
    Confirms(5, 8, DONE),
];

const EXTENDS_BEHIND_A_SEALED_ONE: &[Event] = &[
    Extending(3, None, Ok(None)),
    Extends(3, None, 0, 1, Ok(None)),
    Extends(3, Some(1), 0, 2, Err(StreamFault::LastOpen)),
    Extends(3, None, 1, 2, Ok(Some(1))),
    Extending(3, None, Ok(Some(1))),
    Extends(3, Some(1), 1, 2, Ok(None)),
    Extends(2, Some(2), 2, 3, Err(StreamFault::Stale)),
    IsStream(5, Log, Some((0, 3, Some(2), 2))),
];

const EXTENDS_NO_UNKNOWN: &[Event] = &[Extends(3, None, 0, 1, Err(StreamFault::NoSuchStream))];

const LOCATES_ITS_EXTENTS: &[Event] = &[
    Extends(3, None, 0, 4, Ok(None)),
    Extends(3, Some(4), 4, 6, Ok(None)),
    Locates(5, 0, Some((4, 9))),
    Locates(5, 1, Some((6, 9))),
    Locates(5, 2, None),
    Locates(6, 0, None),
];

/// What a case shows, and its parts.
type Case = (&'static str, &'static [&'static [Event]]);

const CASES: &[Case] = &[
    ("a name is taken once", &[FILLS, ONE_OF_EACH_NAME]),
    ("a range is opened", &[FILLS, OPENS_ABOVE_ITS_FENCE]),
    ("the four streams are opened alone", &[THREE_ALONE]),
    ("a generation is confirmed", &[FILLS, CONFIRMS_ITS_FENCE]),
    ("a log is extended", &[FILLS, EXTENDS_BEHIND_A_SEALED_ONE]),
    ("an unknown log is not extended", &[EXTENDS_NO_UNKNOWN]),
    ("a position is located", &[FILLS, LOCATES_ITS_EXTENTS]),
];

// These calls pass no contract on, so that a test is proved from what it reads alone.
fn name(range: u64, kind: StreamKind) -> StreamName {
    StreamName {
        range: RangeId(range),
        kind,
    }
}

fn create(table: &mut StreamTable, range: u64, kind: StreamKind, fence: u64) -> Done {
    table.create(&name(range, kind), Fence(fence))
}

fn create_four(table: &mut StreamTable, range: u64, fence: u64) -> bool {
    for kind in [BlobData, Metadata, RowData, Log] {
        if create(table, range, kind, fence).is_err() {
            return false;
        }
    }
    true
}

fn extent_of(number: Option<u64>) -> Option<ExtentId> {
    match number {
        None => None,
        Some(number) => Some(ExtentId(number)),
    }
}

fn number_of(extent: Option<ExtentId>) -> Option<u64> {
    match extent {
        None => None,
        Some(extent) => Some(extent.0),
    }
}

/// The lengths where the extents up to the one of this number are sealed, at 7 bytes each.
fn sealed_up_to(alloc: Global, last: u64) -> Result<BTreeMap<ExtentId, u32>, StreamFault> {
    let mut sealed = BTreeMap::new(alloc);
    for number in 0..last {
        if sealed.insert(ExtentId(number + 1), 7).is_err() {
            return Err(StreamFault::Memory);
        }
    }
    Ok(sealed)
}

fn extend(
    table: &mut StreamTable,
    generation: u64,
    last: Option<u64>,
    sealed: &BTreeMap<ExtentId, u32>,
    extent: u64,
) -> End {
    let last = extent_of(last);
    let extent = ExtentId(extent);
    let end = table.extend(&name(5, Log), Fence(generation), last, sealed, extent)?;
    Ok(number_of(end))
}

fn extending(
    table: &StreamTable,
    generation: u64,
    last: Option<u64>,
    sealed: &BTreeMap<ExtentId, u32>,
) -> End {
    let last = extent_of(last);
    let end = table.extending(&name(5, Log), Fence(generation), last, sealed)?;
    Ok(number_of(end))
}

fn locate(table: &StreamTable, range: u64, index: u64) -> Option<(u64, u32)> {
    let offset = 9;
    match table.locate(&name(range, Log), Position { index, offset }) {
        None => None,
        Some((extent, offset)) => Some((extent.0, offset)),
    }
}

fn shown(table: &StreamTable, range: u64, kind: StreamKind) -> Option<Shown> {
    match table.stream(&name(range, kind)) {
        None => None,
        Some(listed) => Some((
            listed.base(),
            listed.fence.0,
            number_of(listed.last()),
            listed.extents().len(),
        )),
    }
}

impl Subject for StreamTable {
    type Event = Event;

    fn takes(&mut self, alloc: Global, event: Event) -> bool {
        match event {
            Creates(range, kind, fence, wanted) => create(self, range, kind, fence) == wanted,
            CreateFour(range, fence) => create_four(self, range, fence),
            Opens(range, generation, wanted) => {
                self.open(RangeId(range), Fence(generation)) == wanted
            }
            Opening(range, generation, wanted) => {
                self.opening(RangeId(range), Fence(generation)) == wanted
            }
            Confirms(range, generation, wanted) => {
                self.confirm(RangeId(range), Fence(generation)) == wanted
            }
            Extends(generation, last, sealed, extent, wanted) => {
                match sealed_up_to(alloc, sealed) {
                    Ok(sealed) => extend(self, generation, last, &sealed, extent) == wanted,
                    Err(_full) => false,
                }
            }
            Extending(generation, last, wanted) => {
                extending(self, generation, last, &BTreeMap::new(alloc)) == wanted
            }
            Locates(range, index, wanted) => locate(self, range, index) == wanted,
            IsStream(range, kind, wanted) => shown(self, range, kind) == wanted,
        }
    }
}

#[test]
fn each_event_goes_as_its_case_says(rt: HostRuntime) {
    for (shows, parts) in CASES {
        assert!(rt;
            holds(rt.alloc(), StreamTable::new(rt.alloc()), parts),
            "{shows}"
        );
    }
}
