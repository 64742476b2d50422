//! Replicas in each state, by steps that hand a replica over and by steps in place.
use crate::cases::{Subject, holds};
use crate::groups::{group_of, groups_of};
use Event::{
    EndsAt, FillsInPlace, FillsTail, Freezes, FreezesInPlace, GroupsFrom, GroupsTo, Is, Puts,
    PutsInPlace, Raises, RaisesInPlace, Reads, ReadsFour, Seals, SealsInPlace,
};
use Phase::{Frozen, Open, Sealed};
use block_types::{Group, Groups, Nodes};
use bytes::Bytes;
use replica::{
    FillFault, FrozenReplica, OpenReplica, PastEnd, Phase, PutFault, Replica, SealedReplica, Stale,
};
use std::alloc::{AllocError, Global};
use std::mem;

const PLACES: Nodes = Nodes {
    primary: 1,
    second: 2,
    third: 3,
};

const TARGET: u32 = 4096;

/// How many groups there are, and the bytes of the first two.
pub(crate) type Sizes = Option<(usize, Option<u32>, Option<u32>)>;

/// What happens to a replica, or what is seen of it. A step that is refused for a fault gives back the replica as it was,
/// and the groups that were to be taken.
#[derive(Clone, Copy)]
pub(crate) enum Event {
    /// A group of one block is put in an open replica, under a generation and at an offset.
    Puts(u64, u32, &'static [u8], Option<PutFault>),
    Raises(u64, Option<Stale>),
    Freezes,
    /// It is sealed at a length, from open or frozen.
    Seals(u32, Option<PastEnd>),
    /// Groups of one block each fill a frozen one, from a length to another.
    FillsTail(u32, u32, &'static [&'static [u8]], Option<FillFault>),
    /// A group of one block is put in place.
    PutsInPlace(u64, u32, &'static [u8], Option<PutFault>),
    RaisesInPlace(u64, Option<Stale>),
    FreezesInPlace,
    SealsInPlace(u32),
    /// Groups of one block each fill it in place.
    FillsInPlace(u32, u32, &'static [&'static [u8]], Option<FillFault>),
    /// Its length, its fence and its state, at the target and the places that it was made with.
    Is(u32, u64, Phase),
    /// So many bytes from an offset on are these.
    Reads(u32, u32, &'static [u8]),
    /// What a read from an offset on into four bytes answers, and what they are then.
    ReadsFour(u32, Result<(), PastEnd>, [u8; 4]),
    /// Whether a group ends at a length.
    EndsAt(u32, bool),
    GroupsTo(u32, Sizes),
    GroupsFrom(u32, Sizes),
}

/// The groups `abc` and `de`.
const PUTS_TWO: &[Event] = &[Puts(2, 0, b"abc", None), Puts(7, 3, b"de", None)];

/// The same in place.
const ADDS_TWO: &[Event] = &[
    PutsInPlace(2, 0, b"abc", None),
    PutsInPlace(7, 3, b"de", None),
];

const REFUSES_IN_PLACE: &[Event] = &[
    PutsInPlace(1, 5, b"f", Some(PutFault::Stale)),
    PutsInPlace(2, 3, b"f", Some(PutFault::PastEnd)),
    RaisesInPlace(1, Some(Stale)),
    Is(5, 2, Open),
    FreezesInPlace,
    FillsInPlace(3, 6, TAIL, Some(FillFault::PastEnd)),
    FillsInPlace(5, 20_971_520, TAIL, Some(FillFault::ExtentFull)),
    Is(5, 2, Frozen),
    Reads(0, 9, b"abcde"),
];

const TAKES_GROUPS: &[Event] = &[Is(5, 2, Open), Reads(2, 2, b"cd")];

const REFUSES_A_GROUP: &[Event] = &[
    Puts(1, 5, b"f", Some(PutFault::Stale)),
    Is(5, 2, Open),
    Puts(2, 3, b"f", Some(PutFault::PastEnd)),
    Is(5, 2, Open),
];

const IS_FULL: &[Event] = &[
    Puts(0, 0, &[b'a'; 4096], None),
    Puts(0, 4096, b"f", Some(PutFault::ExtentFull)),
    Is(4096, 0, Open),
];

const RAISES_ITS_FENCE: &[Event] = &[
    Raises(4, None),
    Is(5, 4, Open),
    Raises(3, Some(Stale)),
    Is(5, 4, Open),
];

const SEALED_AT_THREE: &[Event] = &[
    Seals(4, Some(PastEnd)),
    Is(5, 2, Open),
    Seals(3, None),
    Is(3, 2, Sealed),
    Reads(0, 9, b"abc"),
];

const SEALED_FROM_FROZEN: &[Event] = &[
    Freezes,
    Seals(6, Some(PastEnd)),
    Is(5, 2, Frozen),
    Reads(3, 2, b"de"),
    Seals(5, None),
    Is(5, 2, Sealed),
];

const TAIL: &[&[u8]] = &[b"f", b"gh"];

const TAKES_ITS_TAIL_ALONE: &[Event] = &[
    Freezes,
    FillsTail(3, 6, TAIL, Some(FillFault::PastEnd)),
    Is(5, 2, Frozen),
    FillsTail(6, 9, TAIL, Some(FillFault::PastEnd)),
    Is(5, 2, Frozen),
    FillsTail(5, 20_971_520, TAIL, Some(FillFault::ExtentFull)),
    Is(5, 2, Frozen),
    FillsTail(5, 7, TAIL, Some(FillFault::PastEnd)),
    Is(5, 2, Frozen),
    FillsTail(5, 9, TAIL, Some(FillFault::PastEnd)),
    Is(5, 2, Frozen),
    FillsTail(5, 4, TAIL, Some(FillFault::PastEnd)),
    Is(5, 2, Frozen),
    FillsTail(5, 5, &[], Some(FillFault::PastEnd)),
    Is(5, 2, Frozen),
    FillsTail(5, 8, TAIL, None),
    Is(8, 2, Sealed),
    Reads(0, 9, b"abcdefgh"),
];

const READS_WHAT_IS_THERE: &[Event] = &[
    Is(5, 2, Open),
    Reads(4, 4, b"e"),
    ReadsFour(2, Err(PastEnd), *b"...."),
    ReadsFour(1, Ok(()), *b"bcde"),
];

const ENDS_AT_THREE_AND_FIVE: &[Event] = &[
    EndsAt(0, true),
    EndsAt(2, false),
    EndsAt(3, true),
    EndsAt(4, false),
    EndsAt(5, true),
    EndsAt(6, false),
];

const GIVES_GROUPS: &[Event] = &[
    GroupsTo(3, Some((1, Some(3), None))),
    GroupsTo(4, None),
    GroupsFrom(0, Some((2, Some(3), Some(2)))),
    GroupsFrom(3, Some((1, Some(2), None))),
    GroupsFrom(4, None),
    GroupsFrom(5, Some((0, None, None))),
];

const FILLED_IN_PLACE: &[Event] = &[
    RaisesInPlace(9, None),
    FreezesInPlace,
    FillsInPlace(5, 8, TAIL, None),
    Is(8, 9, Sealed),
    Reads(0, 9, b"abcdefgh"),
];

const CUT_IN_PLACE: &[Event] = &[SealsInPlace(3), Is(3, 2, Sealed), Reads(0, 9, b"abc")];

/// What a case shows, the fence of its new replica, and its parts.
type Case = (&'static str, u64, &'static [&'static [Event]]);

const CASES: &[Case] = &[
    ("groups are taken at the end", 2, &[PUTS_TWO, TAKES_GROUPS]),
    ("a group is refused", 2, &[PUTS_TWO, REFUSES_A_GROUP]),
    ("it is full at its target", 0, &[IS_FULL]),
    ("its fence is raised", 2, &[PUTS_TWO, RAISES_ITS_FENCE]),
    (
        "it is sealed where a group ends",
        2,
        &[PUTS_TWO, SEALED_AT_THREE],
    ),
    (
        "it is frozen until sealed",
        2,
        &[PUTS_TWO, SEALED_FROM_FROZEN],
    ),
    (
        "it takes its tail alone",
        2,
        &[PUTS_TWO, TAKES_ITS_TAIL_ALONE],
    ),
    (
        "it reads what is there",
        2,
        &[ADDS_TWO, READS_WHAT_IS_THERE],
    ),
    (
        "it knows where groups end",
        2,
        &[ADDS_TWO, ENDS_AT_THREE_AND_FIVE],
    ),
    ("it gives groups out", 2, &[ADDS_TWO, GIVES_GROUPS]),
    ("it is filled in place", 2, &[ADDS_TWO, FILLED_IN_PLACE]),
    ("it refuses in place", 2, &[ADDS_TWO, REFUSES_IN_PLACE]),
    ("it is cut in place", 2, &[ADDS_TWO, CUT_IN_PLACE]),
    (
        "it is cut in place once frozen",
        2,
        &[ADDS_TWO, &[FreezesInPlace], CUT_IN_PLACE],
    ),
];

// Most of these calls pass no contract on, so that a test is proved from what it reads alone. Replicas and groups are handed
// over whole: a local that lives on is dropped at each exit, and each costs the proof.

/// A replica, where a step came to what the case says.
fn kept_if(kept: Replica, holds: bool) -> Option<Replica> {
    if holds { Some(kept) } else { None }
}

fn put(
    taken: Result<OpenReplica, (PutFault, OpenReplica, Group)>,
    size: usize,
    wanted: Option<PutFault>,
) -> Option<Replica> {
    match taken {
        Ok(open) => kept_if(Replica::Open(open), wanted.is_none()),
        Err((fault, open, given)) => {
            let returned = given.size() as usize;
            drop(given);
            kept_if(
                Replica::Open(open),
                wanted == Some(fault) && returned == size,
            )
        }
    }
}

fn raised(
    taken: Result<OpenReplica, (Stale, OpenReplica)>,
    wanted: Option<Stale>,
) -> Option<Replica> {
    match taken {
        Ok(open) => kept_if(Replica::Open(open), wanted.is_none()),
        Err((fault, open)) => kept_if(Replica::Open(open), wanted == Some(fault)),
    }
}

fn sealed_from_open(
    taken: Result<SealedReplica, (PastEnd, OpenReplica)>,
    wanted: Option<PastEnd>,
) -> Option<Replica> {
    match taken {
        Ok(sealed) => kept_if(Replica::Sealed(sealed), wanted.is_none()),
        Err((fault, open)) => kept_if(Replica::Open(open), wanted == Some(fault)),
    }
}

fn sealed_from_frozen(
    taken: Result<SealedReplica, (PastEnd, FrozenReplica)>,
    wanted: Option<PastEnd>,
) -> Option<Replica> {
    match taken {
        Ok(sealed) => kept_if(Replica::Sealed(sealed), wanted.is_none()),
        Err((fault, frozen)) => kept_if(Replica::Frozen(frozen), wanted == Some(fault)),
    }
}

fn filled(
    taken: Result<SealedReplica, (FillFault, FrozenReplica, Groups)>,
    count: usize,
    wanted: Option<FillFault>,
) -> Option<Replica> {
    match taken {
        Ok(sealed) => kept_if(Replica::Sealed(sealed), wanted.is_none()),
        Err((fault, frozen, given)) => {
            let returned = given.items.len();
            drop(given);
            kept_if(
                Replica::Frozen(frozen),
                wanted == Some(fault) && returned == count,
            )
        }
    }
}

fn open_after(alloc: Global, open: OpenReplica, event: Event) -> Option<Replica> {
    match event {
        Puts(generation, offset, text, wanted) => put(
            open.put(generation, offset, group_of(alloc, &[text]).ok()?),
            text.len(),
            wanted,
        ),
        Raises(generation, wanted) => raised(open.raise(generation), wanted),
        Freezes => Some(Replica::Frozen(open.freeze())),
        Seals(length, wanted) => sealed_from_open(open.seal(length), wanted),
        _ => None,
    }
}

fn frozen_after(alloc: Global, frozen: FrozenReplica, event: Event) -> Option<Replica> {
    match event {
        Seals(length, wanted) => sealed_from_frozen(frozen.seal(length), wanted),
        FillsTail(from, length, texts, wanted) => filled(
            frozen.fill_tail(from, length, groups_of(alloc, texts).ok()?),
            texts.len(),
            wanted,
        ),
        _ => None,
    }
}

/// What a step makes of a replica that is handed over, where it comes to what the case says.
fn after(alloc: Global, kept: Replica, event: Event) -> Option<Replica> {
    match kept {
        Replica::Open(open) => open_after(alloc, open, event),
        Replica::Frozen(frozen) => frozen_after(alloc, frozen, event),
        Replica::Sealed(_sealed) => None,
    }
}

fn steps(alloc: Global, kept: &mut Replica, event: Event) -> bool {
    let before = mem::replace(kept, Replica::new(alloc, PLACES, TARGET, 0));
    match after(alloc, before, event) {
        Some(next) => {
            *kept = next;
            true
        }
        None => false,
    }
}

fn put_in_place(
    alloc: Global,
    kept: &mut Replica,
    generation: u64,
    offset: u32,
    text: &[u8],
    wanted: Option<PutFault>,
) -> bool {
    let Open = kept.state() else {
        return false;
    };
    let Ok(group) = group_of(alloc, &[text]) else {
        return false;
    };
    match kept.put(generation, offset, &group) {
        Ok(()) => wanted.is_none(),
        Err(fault) => wanted == Some(fault),
    }
}

fn raise(kept: &mut Replica, generation: u64, wanted: Option<Stale>) -> bool {
    let Open = kept.state() else {
        return false;
    };
    match kept.raise(generation) {
        Ok(()) => wanted.is_none(),
        Err(stale) => wanted == Some(stale),
    }
}

fn freeze(alloc: Global, kept: &mut Replica) -> bool {
    let Open = kept.state() else {
        return false;
    };
    kept.freeze(alloc);
    true
}

fn seal(alloc: Global, kept: &mut Replica, length: u32) -> bool {
    match kept.state() {
        Open | Frozen if kept.is_boundary(length) => {
            kept.seal(alloc, length);
            true
        }
        _ => false,
    }
}

fn fill(
    alloc: Global,
    kept: &mut Replica,
    from: u32,
    end: u32,
    texts: &[&[u8]],
    wanted: Option<FillFault>,
) -> bool {
    let Frozen = kept.state() else {
        return false;
    };
    let Ok(groups) = groups_of(alloc, texts) else {
        return false;
    };
    match kept.fill_tail(alloc, from, end, groups) {
        Ok(()) => wanted.is_none(),
        Err(fault) => wanted == Some(fault),
    }
}

fn is(kept: &Replica, length: u32, fence: u64, phase: Phase) -> bool {
    kept.len() == length
        && kept.fence() == fence
        && kept.target() == TARGET
        && kept.places() == PLACES
        && kept.state() == phase
}

fn reads(found: Result<Bytes, AllocError>, wanted: &[u8]) -> bool {
    match found {
        Ok(bytes) => bytes.as_slice() == wanted,
        Err(_full) => false,
    }
}

fn read_four(kept: &Replica, offset: u32) -> (Result<(), PastEnd>, [u8; 4]) {
    let mut bytes = [b'.'; 4];
    let read = kept.read_into(offset, &mut bytes);
    (read, bytes)
}

fn sizes(groups: &[Group]) -> Sizes {
    match groups {
        [] => Some((0, None, None)),
        [only] => Some((1, Some(only.size()), None)),
        [first, second, rest @ ..] => {
            Some((rest.len() + 2, Some(first.size()), Some(second.size())))
        }
    }
}

fn has_sizes(found: Result<Option<Groups>, AllocError>, wanted: Sizes) -> bool {
    match found {
        Ok(Some(groups)) => sizes(&groups.items) == wanted,
        Ok(None) => wanted.is_none(),
        Err(_full) => false,
    }
}

impl Subject for Replica {
    type Event = Event;

    fn takes(&mut self, alloc: Global, event: Event) -> bool {
        match event {
            Puts(..) | Raises(..) | Freezes | Seals(..) | FillsTail(..) => steps(
                alloc, self, event,
            ),
            PutsInPlace(generation, offset, text, wanted) => {
                put_in_place(alloc, self, generation, offset, text, wanted)
            }
            RaisesInPlace(generation, wanted) => raise(self, generation, wanted),
            FreezesInPlace => freeze(alloc, self),
            SealsInPlace(length) => seal(alloc, self, length),
            FillsInPlace(from, end, texts, wanted) => {
                fill(alloc, self, from, end, texts, wanted)
            }
            Is(length, fence, phase) => is(self, length, fence, phase),
            Reads(offset, length, wanted) => reads(self.bytes(alloc, offset, length), wanted),
            ReadsFour(offset, told, wanted) => read_four(self, offset) == (told, wanted),
            EndsAt(length, ends) => self.is_boundary(length) == ends,
            GroupsTo(upto, wanted) => has_sizes(self.groups_to(alloc, upto), wanted),
            GroupsFrom(from, wanted) => has_sizes(self.groups_from(alloc, from), wanted),
        }
    }
}

#[test]
fn each_event_goes_as_its_case_says(rt: HostRuntime) {
    for (shows, fence, parts) in CASES {
        let kept = Replica::new(rt.alloc(), PLACES, TARGET, *fence);
        assert!(rt; holds(rt.alloc(), kept, parts), "{shows}");
    }
}
