//! Cases of splits and merges at the partition map.
use crate::cases::{Actor, holds};
use crate::record_disks::disk_of;
use bytes::Bytes;
use disk::MemDisk;
use model_partition::RangeEntry;
use pmap::{Caller, KnownRange, MapFault, PartitionMap};
use std::alloc::Global;
use wire::{
    ActorId, AppendBody, Body, Fence, MapBody, Note, Packet, RangeId, Refusal, ReqNo, ServerNo,
    Step,
};

type Held = PartitionMap<MemDisk>;

/// What who calls is told.
#[derive(Clone, Copy)]
pub enum Heard {
    /// The two numbers that a split is to leave.
    Begun(u64, u64),
    /// The split is done, and shown: the range, the two that it became, and the key.
    Split(u64, u64, u64, &'static [u8]),
    /// The number of what two ranges are to become.
    Union(u64),
    /// The merge is done, and shown: the two ranges, and the one that they became.
    Merged(u64, u64, u64),
    Refused(Refusal),
    /// Nothing, and nothing is shown.
    Nothing,
}

/// A range that is seen: its number, its first key and its end, its generation, its holder, and the end of the lease.
pub type Row = (
    u64,
    &'static [u8],
    Option<&'static [u8]>,
    u64,
    Option<u8>,
    u64,
);

/// What happens to a map, or what is seen of it.
#[derive(Clone, Copy)]
pub enum Event {
    /// The range is assigned to this server up to a moment.
    Assigns(u64, u8, u64),
    /// A packet begins a split of a range of this generation at a key.
    BeginsSplit(u64, u64, &'static [u8], Heard),
    CompletesSplit(u64, u64, Heard),
    /// A packet begins a merge of two ranges of these generations.
    BeginsMerge(u64, u64, u64, u64, Heard),
    CompletesMerge(u64, u64, u64, u64, Heard),
    /// The ranges are these.
    Has(&'static [Row]),
    /// Its disk is told to stop in the third call of the next record, and to keep that call's bytes or not.
    IsToldToStop(bool),
    /// A split of the first range is completed by a call, which fails at the disk, and the map has stopped.
    Fails,
    /// A map starts from its disk in its place.
    Restarts,
}

const REQUEST: ReqNo = ReqNo::User { user: 7, ticket: 3 };

// These calls pass no contract on, so that a test is proved from what it reads alone.
fn started(alloc: Global, disk: MemDisk) -> Option<Held> {
    match PartitionMap::restart(alloc, disk) {
        Ok(map) => Some(map),
        Err((_fault, _disk)) => None,
    }
}

fn map_of(alloc: Global, texts: &[&[u8]]) -> Option<Held> {
    match disk_of(alloc, texts) {
        None => None,
        Some(disk) => started(alloc, disk),
    }
}

/// Whether a packet of the map to the user has this body.
fn tells(step: &Step, heard: Heard) -> bool {
    let [only] = step.packets.items.as_slice() else {
        return false;
    };
    match (heard, &only.body) {
        (Heard::Begun(below, above), Body::Map(MapBody::SplitBegun { request, low, high })) => {
            *request == REQUEST && low.0 == below && high.0 == above
        }
        (Heard::Union(into), Body::Map(MapBody::MergeBegun { request, range })) => {
            *request == REQUEST && range.0 == into
        }
        (Heard::Split(..), Body::Map(MapBody::SplitDone { request })) => *request == REQUEST,
        (Heard::Merged(..), Body::Map(MapBody::MergeDone { request })) => *request == REQUEST,
        (Heard::Refused(wanted), Body::Append(AppendBody::Refused { request, refusal })) => {
            *request == REQUEST && *refusal == wanted
        }
        _ => false,
    }
}

/// Whether what is shown is what this has to show.
fn shows(step: &Step, heard: Heard) -> bool {
    match (heard, step.notes.items.as_slice()) {
        (
            Heard::Split(split, below, above, at),
            [
                Note::Split {
                    range,
                    low,
                    high,
                    key,
                },
            ],
        ) => range.0 == split && low.0 == below && high.0 == above && key.as_slice() == at,
        (Heard::Merged(below, above, into), [Note::Merged { left, right, range }]) => {
            left.0 == below && right.0 == above && range.0 == into
        }
        (Heard::Split(..) | Heard::Merged(..), _) => false,
        (_, notes) => notes.is_empty(),
    }
}

fn hears(alloc: Global, map: &mut Held, body: MapBody, heard: Heard) -> bool {
    let packet = Packet {
        from: ActorId::User(7),
        to: ActorId::Map,
        body: Body::Map(body),
    };
    let Ok(step) = map.handle(alloc, &packet) else {
        return false;
    };
    match heard {
        Heard::Nothing => step.packets.items.is_empty() && step.notes.items.is_empty(),
        _ => tells(&step, heard) && shows(&step, heard),
    }
}

fn is_row(entry: &RangeEntry, row: Row) -> bool {
    let (range, low, high, generation, holder, until) = row;
    let ends = match (&entry.keys.high, high) {
        (None, None) => true,
        (Some(end), Some(wanted)) => end.as_slice() == wanted,
        _ => false,
    };
    entry.range.0 == range
        && entry.keys.low.as_slice() == low
        && ends
        && entry.generation.0 == generation
        && entry.holder.map(|server| server.0) == holder
        && entry.until == until
}

fn has(map: &Held, rows: &[Row]) -> bool {
    let ranges = map.ranges();
    ranges.len() == rows.len()
        && ranges
            .iter()
            .zip(rows)
            .all(|(entry, row)| is_row(entry, *row))
}

fn is_told_to_stop(map: &mut Held, keep: bool) -> bool {
    map.stop_at(3, keep);
    map.file().told().is_some()
}

fn begins_merge(
    alloc: Global,
    map: &mut Held,
    left: (u64, u64),
    right: (u64, u64),
    heard: Heard,
) -> bool {
    let body = MapBody::BeginMerge {
        left: RangeId(left.0),
        left_generation: Fence(left.1),
        right: RangeId(right.0),
        right_generation: Fence(right.1),
        request: REQUEST,
    };
    hears(alloc, map, body, heard)
}

fn completes_merge(
    alloc: Global,
    map: &mut Held,
    left: (u64, u64),
    right: (u64, u64),
    heard: Heard,
) -> bool {
    let body = MapBody::CompleteMerge {
        left: RangeId(left.0),
        left_generation: Fence(left.1),
        right: RangeId(right.0),
        right_generation: Fence(right.1),
        request: REQUEST,
    };
    hears(alloc, map, body, heard)
}

fn assigns(alloc: Global, map: &mut Held, range: u64, server: u8, until: u64) -> bool {
    if map.is_stopped() {
        return false;
    }
    match map.assign(alloc, RangeId(range), ServerNo(server), 0, until) {
        Ok(step) => step.packets.items.len() == 1 && step.notes.items.is_empty(),
        Err(_fault) => false,
    }
}

fn begins_split(
    alloc: Global,
    map: &mut Held,
    known: (u64, u64),
    key: &'static [u8],
    heard: Heard,
) -> bool {
    let body = MapBody::BeginSplit {
        range: RangeId(known.0),
        generation: Fence(known.1),
        key: Bytes::from_static(key),
        request: REQUEST,
    };
    hears(alloc, map, body, heard)
}

fn completes_split(alloc: Global, map: &mut Held, known: (u64, u64), heard: Heard) -> bool {
    let body = MapBody::CompleteSplit {
        range: RangeId(known.0),
        generation: Fence(known.1),
        request: REQUEST,
    };
    hears(alloc, map, body, heard)
}

/// Whether a call fails at the disk, and the map has then stopped.
fn fails(alloc: Global, map: &mut Held) -> bool {
    if map.is_stopped() {
        return false;
    }
    let caller = Caller {
        from: ActorId::User(7),
        request: REQUEST,
    };
    let known = KnownRange {
        range: RangeId(1),
        generation: Fence(0),
    };
    let done = map.complete_split(alloc, &caller, &known).err();
    done == Some(MapFault::DiskFailed) && map.is_stopped()
}

fn fits(alloc: Global, map: &mut Held, event: Event) -> bool {
    match event {
        Event::Assigns(range, server, until) => assigns(alloc, map, range, server, until),
        Event::BeginsSplit(range, generation, key, heard) => {
            begins_split(alloc, map, (range, generation), key, heard)
        }
        Event::CompletesSplit(range, generation, heard) => {
            completes_split(alloc, map, (range, generation), heard)
        }
        Event::BeginsMerge(left, below, right, above, heard) => {
            begins_merge(alloc, map, (left, below), (right, above), heard)
        }
        Event::CompletesMerge(left, below, right, above, heard) => {
            completes_merge(alloc, map, (left, below), (right, above), heard)
        }
        Event::Has(rows) => has(map, rows),
        Event::IsToldToStop(keep) => is_told_to_stop(map, keep),
        Event::Fails => fails(alloc, map),
        Event::Restarts => false,
    }
}

/// A map that cases of splits and merges are about.
pub struct SplitMap {
    map: Held,
}

impl Drop for SplitMap {
    fn drop(self) {
        let SplitMap { map: _ } = self;
    }
}

impl Actor for SplitMap {
    type Event = Event;

    fn after(self, alloc: Global, event: Event) -> Option<Self> {
        let SplitMap { mut map } = self;
        match event {
            Event::Restarts => match started(alloc, map.into_disk()) {
                None => None,
                Some(map) => Some(SplitMap { map }),
            },
            _ => if fits(alloc, &mut map, event) {
                Some(SplitMap { map })
            } else {
                None
            },
        }
    }
}

fn split_map_of(alloc: Global, texts: &[&[u8]]) -> Option<SplitMap> {
    match map_of(alloc, texts) {
        None => None,
        Some(map) => Some(SplitMap { map }),
    }
}

const FIRST: &[Row] = &[(1, b"", None, 0, None, 0)];

const HALVES: &[Row] = &[
    (2, b"", Some(b"m"), 0, None, 0),
    (3, b"m", None, 0, None, 0),
];

const SPLIT_AT_M: &[Event] = &[
    Event::BeginsSplit(1, 0, b"m", Heard::Begun(2, 3)),
    Event::CompletesSplit(1, 0, Heard::Split(1, 2, 3, b"m")),
    Event::Has(HALVES),
];

const LONG: &[u8] = &[107; 257];

const CHANGED: Heard = Heard::Refused(Refusal::GenerationChanged);

const BAD_KEY: Heard = Heard::Refused(Refusal::BadSplitKey);

/// What a case shows, and its parts.
const CASES: &[(&str, &[&[Event]])] = &[
    (
        "a split leaves two ranges, which nobody holds, also after a restart",
        &[SPLIT_AT_M, &[Event::Restarts, Event::Has(HALVES)]],
    ),
    (
        "the same key has the same answer, and another one takes its place with numbers of its own",
        &[&[
            Event::BeginsSplit(1, 0, b"m", Heard::Begun(2, 3)),
            Event::BeginsSplit(1, 0, b"m", Heard::Begun(2, 3)),
            Event::BeginsSplit(1, 0, b"p", Heard::Begun(4, 5)),
            Event::Restarts,
            Event::BeginsSplit(1, 0, b"p", Heard::Begun(4, 5)),
            Event::CompletesSplit(1, 0, Heard::Split(1, 4, 5, b"p")),
            Event::Has(&[
                (4, b"", Some(b"p"), 0, None, 0),
                (5, b"p", None, 0, None, 0),
            ]),
        ]],
    ),
    (
        "a split is refused of no range, of another generation, and where none is begun",
        &[&[
            Event::BeginsSplit(2, 0, b"m", CHANGED),
            Event::BeginsSplit(1, 1, b"m", CHANGED),
            Event::CompletesSplit(1, 0, CHANGED),
            Event::CompletesSplit(2, 0, CHANGED),
            Event::Has(FIRST),
            Event::BeginsSplit(1, 0, b"m", Heard::Begun(2, 3)),
            Event::CompletesSplit(1, 1, CHANGED),
            Event::Has(FIRST),
        ]],
    ),
    (
        "a split is refused at a key of no byte or of 257, and at the ends of the range",
        &[
            SPLIT_AT_M,
            &[
                Event::BeginsSplit(2, 0, b"", BAD_KEY),
                Event::BeginsSplit(2, 0, LONG, BAD_KEY),
                Event::BeginsSplit(2, 0, b"m", BAD_KEY),
                Event::BeginsSplit(2, 0, b"n", BAD_KEY),
                Event::BeginsSplit(3, 0, b"m", BAD_KEY),
                Event::BeginsSplit(3, 0, b"a", BAD_KEY),
                Event::BeginsSplit(3, 1, b"a", CHANGED),
                Event::Has(HALVES),
                Event::BeginsSplit(3, 0, b"ma", Heard::Begun(4, 5)),
            ],
        ],
    ),
    (
        "an assignment drops what is begun",
        &[&[
            Event::BeginsSplit(1, 0, b"m", Heard::Begun(2, 3)),
            Event::Assigns(1, 1, 50),
            Event::CompletesSplit(1, 1, CHANGED),
            Event::Has(&[(1, b"", None, 1, Some(1), 50)]),
            Event::BeginsSplit(1, 1, b"m", Heard::Begun(4, 5)),
            Event::CompletesSplit(1, 1, Heard::Split(1, 4, 5, b"m")),
            Event::Has(&[
                (4, b"", Some(b"m"), 1, None, 0),
                (5, b"m", None, 1, None, 0),
            ]),
        ]],
    ),
    (
        "a merge leaves one range, with the greater generation, which nobody holds",
        &[
            SPLIT_AT_M,
            &[
                Event::Assigns(3, 1, 50),
                Event::Assigns(2, 1, 60),
                Event::Assigns(3, 1, 70),
                Event::BeginsMerge(2, 1, 3, 2, Heard::Union(4)),
                Event::BeginsMerge(2, 1, 3, 2, Heard::Union(4)),
                Event::Restarts,
                Event::CompletesMerge(2, 1, 3, 2, Heard::Merged(2, 3, 4)),
                Event::Has(&[(4, b"", None, 2, None, 0)]),
                Event::Restarts,
                Event::Has(&[(4, b"", None, 2, None, 0)]),
            ],
        ],
    ),
    (
        "a merge is refused of no range, of another generation, of ranges that are not side by side, and of two holders",
        &[
            SPLIT_AT_M,
            &[
                Event::BeginsMerge(2, 0, 4, 0, CHANGED),
                Event::BeginsMerge(4, 0, 3, 0, CHANGED),
                Event::BeginsMerge(2, 1, 3, 0, CHANGED),
                Event::BeginsMerge(2, 0, 3, 1, CHANGED),
                Event::BeginsMerge(3, 0, 2, 0, Heard::Refused(Refusal::NotAdjacent)),
                Event::BeginsMerge(2, 0, 2, 0, Heard::Refused(Refusal::NotAdjacent)),
                Event::CompletesMerge(2, 0, 3, 0, CHANGED),
                Event::Has(HALVES),
                Event::Assigns(2, 1, 50),
                Event::BeginsMerge(2, 1, 3, 0, Heard::Refused(Refusal::NotOwner)),
                Event::Assigns(3, 2, 50),
                Event::BeginsMerge(2, 1, 3, 1, Heard::Refused(Refusal::NotOwner)),
            ],
        ],
    ),
    (
        "a pair goes from both its sides once either drops it",
        &[
            SPLIT_AT_M,
            &[
                Event::BeginsMerge(2, 0, 3, 0, Heard::Union(4)),
                Event::BeginsSplit(3, 0, b"p", Heard::Begun(5, 6)),
                Event::CompletesMerge(2, 0, 3, 0, CHANGED),
                Event::BeginsMerge(2, 0, 3, 0, Heard::Union(7)),
                Event::CompletesSplit(3, 0, CHANGED),
                Event::BeginsSplit(2, 0, b"c", Heard::Begun(8, 9)),
                Event::CompletesMerge(2, 0, 3, 0, CHANGED),
                Event::BeginsMerge(2, 0, 3, 0, Heard::Union(10)),
                Event::Assigns(3, 1, 50),
                Event::CompletesMerge(2, 0, 3, 1, CHANGED),
            ],
        ],
    ),
    (
        "a split whose record is lost is not done",
        &[&[
            Event::BeginsSplit(1, 0, b"m", Heard::Begun(2, 3)),
            Event::IsToldToStop(false),
            Event::Fails,
            Event::CompletesSplit(1, 0, Heard::Nothing),
            Event::Restarts,
            Event::Has(FIRST),
            Event::CompletesSplit(1, 0, Heard::Split(1, 2, 3, b"m")),
        ]],
    ),
    (
        "a split whose record stands is done after a restart",
        &[&[
            Event::BeginsSplit(1, 0, b"m", Heard::Begun(2, 3)),
            Event::IsToldToStop(true),
            Event::Fails,
            Event::Has(FIRST),
            Event::Restarts,
            Event::Has(HALVES),
        ]],
    ),
];

#[test]
fn splits_go_as_their_cases_say(rt: HostRuntime) {
    for (shows, parts) in CASES {
        assert!(rt;
            holds(rt.alloc(), split_map_of(rt.alloc(), &[]), parts),
            "{shows}"
        );
    }
}

// 16: range 1, server 2, up to 50. 17: range 1, up to 70. 18: range 1 at the key m. 19: range 1.
const ASSIGN: &[u8] = &[16, 0, 0, 0, 0, 0, 0, 0, 1, 2, 0, 0, 0, 0, 0, 0, 0, 50];

const RENEW: &[u8] = &[17, 0, 0, 0, 0, 0, 0, 0, 1, 0, 0, 0, 0, 0, 0, 0, 70];

const BEGIN_SPLIT: &[u8] = &[18, 0, 0, 0, 0, 0, 0, 0, 1, 0, 1, 109];

const COMPLETE_SPLIT: &[u8] = &[19, 0, 0, 0, 0, 0, 0, 0, 1];

// 20 and 21: ranges 2 and 3.
const BEGIN_MERGE: &[u8] = &[20, 0, 0, 0, 0, 0, 0, 0, 2, 0, 0, 0, 0, 0, 0, 0, 3];

const COMPLETE_MERGE: &[u8] = &[21, 0, 0, 0, 0, 0, 0, 0, 2, 0, 0, 0, 0, 0, 0, 0, 3];

const HAS_HALVES: &[&[Event]] = &[&[Event::Has(&[
    (2, b"", Some(b"m"), 1, None, 0),
    (3, b"m", None, 1, None, 0),
])]];

const HAS_ONE: &[&[Event]] = &[&[Event::Has(&[(4, b"", None, 0, None, 0)])]];

#[test]
fn reads_records(rt: HostRuntime) {
    let halves = split_map_of(rt.alloc(), &[ASSIGN, RENEW, BEGIN_SPLIT, COMPLETE_SPLIT]);
    assert!(rt; holds(rt.alloc(), halves, HAS_HALVES));
    let texts: &[&[u8]] = &[BEGIN_SPLIT, COMPLETE_SPLIT, BEGIN_MERGE, COMPLETE_MERGE];
    let whole = split_map_of(rt.alloc(), texts);
    assert!(rt; holds(rt.alloc(), whole, HAS_ONE));
}
