//! Replicas whose text goes over the ends of buffers, which have 65,536 bytes each.
use crate::cases::{Subject, holds};
use Event::{Cut, GroupsFrom, GroupsTo, Holds, Puts, Reads, ReadsInto};
use block_types::{Group, GroupFault, Nodes};
use bytes::Bytes;
use replica::{Phase, Replica};
use std::alloc::{AllocError, Global};

const PLACES: Nodes = Nodes {
    primary: 1,
    second: 2,
    third: 3,
};

const TARGET: u32 = 1_048_576;

/// What happens to a long text, or what is seen of it.
#[derive(Clone, Copy)]
pub(crate) enum Event {
    /// So many groups of blocks of these sizes are put at its end.
    Puts(u32, &'static [usize]),
    /// It is sealed at a length.
    Cut(u32),
    /// How many bytes there are.
    Holds(u32),
    /// A read of so many bytes from an offset on gives as many of them as there are: so many.
    Reads(u32, u32, usize),
    /// A read from an offset on fills a slice of so many bytes.
    ReadsInto(u32, usize),
    /// The groups up to a length are these many, and begin at the start.
    GroupsTo(u32, usize),
    /// The groups from a length on are these many.
    GroupsFrom(u32, usize),
}

/// A replica whose byte at each offset is that of [`byte_at`].
#[derive(Drop)]
struct LongText {
    kept: Replica,
}

/// The byte at an offset: another one at the same place of each buffer.
fn byte_at(offset: usize) -> u8 {
    (offset % 251) as u8
}

fn bytes_from(alloc: Global, offset: usize, count: usize) -> Result<Vec<u8>, AllocError> {
    let mut bytes = Vec::with_capacity(alloc, count)?;
    for index in 0..count {
        bytes.push(byte_at(offset.wrapping_add(index)))?;
    }
    Ok(bytes)
}

fn are_from(bytes: &[u8], offset: usize) -> bool {
    for (index, byte) in bytes.iter().enumerate() {
        if *byte != byte_at(offset.wrapping_add(index)) {
            return false;
        }
    }
    true
}

fn group_at(alloc: Global, offset: u32, sizes: &[usize]) -> Result<Group, GroupFault> {
    let mut texts = Vec::new(alloc);
    let mut at = offset as usize;
    for size in sizes {
        texts.push(bytes_from(alloc, at, *size)?)?;
        at = at.wrapping_add(*size);
    }
    Group::new(alloc, texts)
}

fn put(alloc: Global, kept: &mut Replica, sizes: &[usize]) -> bool {
    let Phase::Open = kept.state() else {
        return false;
    };
    let offset = kept.len();
    match group_at(alloc, offset, sizes) {
        Ok(group) => kept.put(0, offset, &group).is_ok(),
        Err(_fault) => false,
    }
}

fn put_all(alloc: Global, kept: &mut Replica, count: u32, sizes: &[usize]) -> bool {
    for _ in 0..count {
        if !put(alloc, kept, sizes) {
            return false;
        }
    }
    true
}

fn cut(alloc: Global, kept: &mut Replica, length: u32) -> bool {
    match kept.state() {
        Phase::Open | Phase::Frozen if kept.is_boundary(length) => {
            kept.seal(alloc, length);
            kept.len() == length
        }
        _ => false,
    }
}

fn reads(found: Result<Bytes, AllocError>, offset: u32, count: usize) -> bool {
    match found {
        Ok(bytes) => bytes.len() == count && are_from(bytes.as_slice(), offset as usize),
        Err(_full) => false,
    }
}

fn reads_into(alloc: Global, kept: &Replica, offset: u32, count: usize) -> bool {
    let mut bytes = Vec::new(alloc);
    bytes.resize(count, 0).is_ok()
        && kept.read_into(offset, bytes.as_mut_slice()).is_ok()
        && are_from(bytes.as_slice(), offset as usize)
}

/// Where blocks end that begin at an offset, if they are the bytes from there on.
fn end_of_blocks(blocks: &[Bytes], offset: usize) -> Option<usize> {
    let mut at = offset;
    for block in blocks {
        let bytes = block.as_slice();
        if !are_from(bytes, at) {
            return None;
        }
        at = at.wrapping_add(bytes.len());
    }
    Some(at)
}

/// Where groups end that begin at an offset, if they are the bytes from there on.
fn end_of_groups(groups: &[Group], offset: u32) -> Option<usize> {
    let mut at = offset as usize;
    for group in groups {
        at = end_of_blocks(group.blocks(), at)?;
    }
    Some(at)
}

fn groups_to(alloc: Global, kept: &Replica, upto: u32, count: usize) -> bool {
    match kept.groups_to(alloc, upto) {
        Ok(Some(groups)) => {
            groups.items.len() == count && end_of_groups(&groups.items, 0) == Some(upto as usize)
        }
        _ => false,
    }
}

fn groups_from(alloc: Global, kept: &Replica, from: u32, count: usize) -> bool {
    match kept.groups_from(alloc, from) {
        Ok(Some(groups)) => {
            groups.items.len() == count
                && end_of_groups(&groups.items, from) == Some(kept.len() as usize)
        }
        _ => false,
    }
}

impl Subject for LongText {
    type Event = Event;

    fn takes(&mut self, alloc: Global, event: Event) -> bool {
        match event {
            Puts(count, sizes) => put_all(alloc, &mut self.kept, count, sizes),
            Cut(length) => cut(alloc, &mut self.kept, length),
            Holds(length) => self.kept.len() == length,
            Reads(offset, length, count) => {
                reads(self.kept.bytes(alloc, offset, length), offset, count)
            }
            ReadsInto(offset, count) => reads_into(alloc, &self.kept, offset, count),
            GroupsTo(upto, count) => groups_to(alloc, &self.kept, upto, count),
            GroupsFrom(from, count) => groups_from(alloc, &self.kept, from, count),
        }
    }
}

/// Groups of 40,000 bytes: the second has a block that goes over the first buffer's end, the fourth one that goes over the
/// second's.
const FIVE_GROUPS: &[Event] = &[Puts(5, &[5_000, 35_000]), Holds(200_000)];

const READS_OVER_ENDS: &[Event] = &[
    Reads(0, 200_000, 200_000),
    Reads(65_530, 12, 12),
    Reads(65_536, 65_536, 65_536),
    Reads(131_071, 2, 2),
    Reads(60_000, 80_000, 80_000),
    Reads(199_999, 9, 1),
    Reads(200_000, 9, 0),
    ReadsInto(0, 200_000),
    ReadsInto(65_535, 65_538),
    ReadsInto(131_072, 68_928),
];

const GROUPS_OVER_ENDS: &[Event] = &[
    GroupsTo(0, 0),
    GroupsTo(80_000, 2),
    GroupsTo(200_000, 5),
    GroupsFrom(0, 5),
    GroupsFrom(40_000, 4),
    GroupsFrom(160_000, 1),
    GroupsFrom(200_000, 0),
];

/// Within the second buffer, which was full.
const CUT_IN_A_FULL_BUFFER: &[Event] = &[
    Cut(120_000),
    Reads(0, 200_000, 120_000),
    Reads(65_530, 12, 12),
    Reads(119_999, 9, 1),
    Reads(120_000, 9, 0),
    ReadsInto(60_000, 60_000),
    GroupsTo(120_000, 3),
    GroupsFrom(40_000, 2),
];

/// Within the first.
const CUT_IN_THE_FIRST: &[Event] = &[
    Cut(40_000),
    Reads(0, 200_000, 40_000),
    ReadsInto(1, 39_999),
    GroupsFrom(0, 1),
];

/// Groups that end where a buffer does.
const WHOLE_BUFFERS: &[Event] = &[
    Puts(3, &[65_536]),
    Reads(0, 200_000, 196_608),
    Reads(65_535, 65_538, 65_538),
    GroupsTo(131_072, 2),
    GroupsFrom(65_536, 2),
    Cut(131_072),
    Reads(131_071, 9, 1),
    GroupsFrom(0, 2),
];

/// Many groups, each a small part of a buffer.
const SMALL_GROUPS: &[Event] = &[
    Puts(140, &[500, 500]),
    Reads(0, 300_000, 140_000),
    GroupsFrom(0, 140),
    Cut(66_000),
    Reads(65_000, 9_000, 1_000),
];

/// A group that is longer than a buffer, between small ones.
const LONG_GROUP: &[Event] = &[
    Puts(2, &[1_000]),
    Puts(1, &[65_536, 65_536, 65_536]),
    Puts(70, &[1_000]),
    Reads(0, 300_000, 268_608),
    ReadsInto(65_530, 131_084),
    GroupsTo(198_608, 3),
    GroupsFrom(198_608, 70),
];

/// What a case shows, and its parts.
type Case = (&'static str, &'static [&'static [Event]]);

const CASES: &[Case] = &[
    (
        "reads go over buffers' ends",
        &[FIVE_GROUPS, READS_OVER_ENDS],
    ),
    (
        "blocks go over buffers' ends",
        &[FIVE_GROUPS, GROUPS_OVER_ENDS],
    ),
    (
        "it is cut within a full buffer",
        &[FIVE_GROUPS, CUT_IN_A_FULL_BUFFER],
    ),
    (
        "it is cut within the first buffer",
        &[FIVE_GROUPS, CUT_IN_THE_FIRST],
    ),
    ("groups end where buffers do", &[WHOLE_BUFFERS]),
    ("small groups fill buffers", &[SMALL_GROUPS]),
    ("a group is longer than a buffer", &[LONG_GROUP]),
];

#[test]
fn long_texts_are_read_over_the_ends_of_buffers(rt: HostRuntime) {
    for (shows, parts) in CASES {
        let start = LongText {
            kept: Replica::new(rt.alloc(), PLACES, TARGET, 0),
        };
        assert!(rt; holds(rt.alloc(), start, parts), "{shows}");
    }
}
