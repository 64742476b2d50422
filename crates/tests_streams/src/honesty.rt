//! What the checker finds in the observations of a run.
use crate::groups::{group_of, groups_of};
use block_types::GroupFault;
use bytes::Bytes;
use std::alloc::Global;
use wire::{ExtentId, Note, Notes};
use world_checker::{check, check_indexed};

/// What is seen of an extent.
#[derive(Clone, Copy)]
enum Observation {
    /// The primary acknowledged a group of these words, at this offset.
    Acked(u32, &'static [&'static [u8]]),
    /// The manager sealed it at this length.
    SealedAt(u32),
    /// A node showed a sealed replica of groups of one word each.
    Content(&'static [&'static [u8]]),
    /// A node showed this word, at this offset.
    Seen(u32, &'static [u8]),
}

use Observation::{Acked, Content, SealedAt, Seen};

/// What all saw of an extent with the groups `ab` and `cde`, of five bytes.
const AGREEING: &[Observation] = &[
    Acked(0, &[b"ab"]),
    Seen(1, b"bcd"),
    Acked(2, &[b"cde"]),
    SealedAt(5),
    Content(&[b"ab", b"cde"]),
    Content(&[b"ab", b"cde"]),
    Seen(3, b"de"),
    Seen(9, b"beyond"),
];

/// Another seal of an extent, which breaks the one in what agrees.
const SEALED_AGAIN: &[Observation] = &[SealedAt(6)];

/// Observations of one extent, each of which breaks what agrees in front of it.
const BREAKING: &[Observation] = &[
    Acked(1, &[b"bc"]),
    Acked(5, &[b"f"]),
    Acked(9, &[b"b"]),
    SealedAt(4),
    Content(&[b"abcde"]),
    Content(&[b"ab", b"cdx"]),
    Content(&[b"ab", b"cde", b"f"]),
    Seen(0, b"b"),
    Seen(13, b"nX"),
];

/// Two observations of one extent, the second of which breaks the first.
const PAIRS: &[[Observation; 2]] = &[
    [Acked(0, &[b"ab", b"c"]), Acked(2, &[b"d"])],
    [Acked(0, &[b"ab", b"c"]), Content(&[b"abc"])],
    [Acked(1, &[b"ab"]), SealedAt(2)],
    [Acked(1, &[b"ab", b"c"]), Seen(0, b"?abd")],
    [SealedAt(4), Content(&[b"ab", b"c"])],
    [Content(&[b"ab", b"c"]), Seen(2, b"d")],
    [Seen(4, b"abc"), Seen(6, b"d")],
    [SealedAt(4), SealedAt(5)],
];

// These calls pass no contract on, so that a test is proved from what it reads alone.
fn note_of(alloc: Global, extent: u64, seen: Observation) -> Result<Note, GroupFault> {
    let extent = ExtentId(extent);
    Ok(match seen {
        Acked(offset, words) => Note::Acked {
            extent,
            offset,
            group: group_of(alloc, words)?,
        },
        SealedAt(length) => Note::SealedAt { extent, length },
        Content(words) => Note::Content {
            extent,
            node: 1,
            groups: groups_of(alloc, words)?,
        },
        Seen(offset, word) => Note::Seen {
            extent,
            node: 2,
            offset,
            bytes: Bytes::copy_from_slice(alloc, word)?,
        },
    })
}

fn add(
    notes: &mut Notes,
    alloc: Global,
    extent: u64,
    seen: &[Observation],
) -> Result<(), GroupFault> {
    for observation in seen {
        notes.push(note_of(alloc, extent, *observation)?)?;
    }
    Ok(())
}

/// Which observation, counted from 0, is the first that breaks an earlier one, where these are seen of extents of these numbers.
fn first_broken(
    alloc: Global,
    parts: &[(u64, &[Observation])],
) -> Result<Option<usize>, GroupFault> {
    let mut notes = Notes::new(alloc);
    for (extent, seen) in parts {
        add(&mut notes, alloc, *extent, seen)?;
    }
    Ok(check(&notes.items))
}

#[test]
fn finds_nothing_in_what_agrees(rt: HostRuntime) {
    let alloc = rt.alloc();
    assert!(rt; first_broken(alloc, &[]) == Ok(None));
    assert!(rt; first_broken(alloc, &[(1, AGREEING), (2, AGREEING)]) == Ok(None));
}

/// The same where an observation of extent 7 stands between what agrees, and extent 8 is sealed again at the end.
fn first_broken_with(alloc: Global, breaking: &[Observation]) -> Result<Option<usize>, GroupFault> {
    first_broken(
        alloc,
        &[
            (7, AGREEING),
            (7, breaking),
            (8, AGREEING),
            (8, SEALED_AGAIN),
        ],
    )
}

#[test]
fn finds_the_first_that_breaks(rt: HostRuntime) {
    for breaking in BREAKING {
        assert!(rt; first_broken_with(rt.alloc(), &[*breaking]) == Ok(Some(8)));
    }
    assert!(rt; first_broken_with(rt.alloc(), &[]) == Ok(Some(16)));
}

#[test]
fn finds_each_pair_that_breaks(rt: HostRuntime) {
    for pair in PAIRS {
        assert!(rt; first_broken(rt.alloc(), &[(3, pair)]) == Ok(Some(1)));
    }
}

fn add_to_many(notes: &mut Notes, alloc: Global, seen: Observation) -> Result<(), GroupFault> {
    for extent in 1..2000 {
        add(notes, alloc, extent, &[seen])?;
    }
    Ok(())
}

/// The same where many extents are sealed, and this is seen of the first one then.
fn first_broken_of_many(alloc: Global, seen: &[Observation]) -> Result<Option<usize>, GroupFault> {
    let mut notes = Notes::new(alloc);
    add_to_many(&mut notes, alloc, Acked(0, &[b"ab"]))?;
    add_to_many(&mut notes, alloc, SealedAt(2))?;
    add(&mut notes, alloc, 1, seen)?;
    Ok(check_indexed(alloc, &notes.items))
}

#[test]
fn looks_through_many_extents(rt: HostRuntime) {
    let alloc = rt.alloc();
    assert!(rt; first_broken_of_many(alloc, &[]) == Ok(None));
    assert!(rt; first_broken_of_many(alloc, &[SealedAt(3)]) == Ok(Some(3998)));
}

/// The bytes of one append.
const WORD: &[u8] = b"ab";

/// All appends, as groups of one block each.
const WORDS: &[&[u8]] = &[WORD; 300];

/// Observations of the extent whose first half was acknowledged, each of which breaks what was.
const BREAKING_HALF: &[Observation] = &[
    Acked(1, &[b"b"]),
    Acked(298, &[b"abc"]),
    SealedAt(299),
    Content(&[b"ab", b"ab"]),
    Seen(7, b"bb"),
];

fn add_half(notes: &mut Notes, alloc: Global, from: u16) -> Result<(), GroupFault> {
    for number in 0..150 {
        add(
            notes,
            alloc,
            5,
            &[Acked(u32::from(from) + 2 * number, &[b"ab"])],
        )?;
    }
    Ok(())
}

/// The same where 150 appends were acknowledged, this was seen then, 150 more were acknowledged, and this was seen at last.
fn first_broken_of_one(
    alloc: Global,
    between: &[Observation],
    last: &[Observation],
) -> Result<Option<usize>, GroupFault> {
    let mut notes = Notes::new(alloc);
    add_half(&mut notes, alloc, 0)?;
    add(&mut notes, alloc, 5, between)?;
    add_half(&mut notes, alloc, 300)?;
    add(&mut notes, alloc, 5, last)?;
    Ok(check_indexed(alloc, &notes.items))
}

#[test]
fn looks_through_one_extent(rt: HostRuntime) {
    let alloc = rt.alloc();
    let sealed = [SealedAt(600), Seen(301, b"bab"), Content(WORDS)];
    assert!(rt; first_broken_of_one(alloc, &sealed, &sealed) == Ok(None));
    for breaking in BREAKING_HALF {
        assert!(rt; first_broken_of_one(alloc, &[*breaking], &sealed) == Ok(Some(150)));
    }
}

#[test]
fn finds_the_append_that_breaks(rt: HostRuntime) {
    let alloc = rt.alloc();
    assert!(rt; first_broken_of_one(alloc, &[SealedAt(400)], &[]) == Ok(Some(201)));
    assert!(rt; first_broken_of_one(alloc, &[Seen(310, b"xb")], &[]) == Ok(Some(156)));
    assert!(rt; first_broken_of_one(alloc, &[Acked(310, &[b"ab"])], &[]) == Ok(Some(156)));
    assert!(rt; first_broken_of_one(alloc, &[], &[Acked(310, &[b"ab"])]) == Ok(Some(300)));
}
