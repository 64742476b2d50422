//! What no clause says: that calls succeed, and that the spelling is that of docs/FORMATS.md.
ghost use Rattle.std.specs.Prelude.{IfOk};
ghost use Rattle.std.specs.List.{AllByRecursion};
ghost use Rattle.block_types.specs.Limits.{IsBlock};
ghost use Rattle.commitlog.specs.Record.{Fits};

use crate::groups::{group_of, has_blocks};
use block_types::{Block, BlockFault, Group};
use bytes::Bytes;
use commitlog::{GroupText, LogReader, LogRecord, Replay, cells, decode, encode, one_spelling};
use memtable::{Cell, Place};
use std::alloc::{AllocError, Global};
use std::test::Fail;
use wire::ExtentId;

/// The text of one transaction of first number 1 that puts the value `x` at the key `a`.
const TEXT: &[u8] = &[
    0, 0, 0, 24, // its length
    0, 0, 0, 0, 0, 0, 0, 1, // the first number
    0, 1, // one transaction
    1, // of one change
    0, 1, 97, // the key
    1, 0, 0, 0, 1, 120, // a value beside it
];

/// As `TEXT`, with a value of 5,000 bytes in a block of its own, the first.
const LARGE: &[u8] = &[
    0, 0, 0, 24, 0, 0, 0, 0, 0, 0, 0, 1, 0, 1, 1, 0, 1, 97, 2, 0, 0, 0, 19, 136,
];

const LARGE_VALUE: &[u8] = &[b'x'; 5_000];

const LARGE_RECORD: &[&[u8]] = &[LARGE, LARGE_VALUE];

const SPELLED: Result<bool, BlockFault> = Ok(true);

const DAMAGED: Result<bool, BlockFault> = Err(BlockFault::Damaged);

/// Blocks of two records, and of none: as `TEXT`, with a byte left over, first number 0, a key of no byte, and a cell of
/// another kind; and `LARGE` without its value, with another one, and with one more.
const READINGS: &[(&[&[u8]], Result<bool, BlockFault>)] = &[
    (&[TEXT], SPELLED),
    (LARGE_RECORD, SPELLED),
    (
        &[&[
            0, 0, 0, 25, 0, 0, 0, 0, 0, 0, 0, 1, 0, 1, 1, 0, 1, 97, 1, 0, 0, 0, 1, 120, 0,
        ]],
        DAMAGED,
    ),
    (
        &[&[
            0, 0, 0, 24, 0, 0, 0, 0, 0, 0, 0, 0, 0, 1, 1, 0, 1, 97, 1, 0, 0, 0, 1, 120,
        ]],
        DAMAGED,
    ),
    (
        &[&[
            0, 0, 0, 23, 0, 0, 0, 0, 0, 0, 0, 1, 0, 1, 1, 0, 0, 1, 0, 0, 0, 1, 120,
        ]],
        DAMAGED,
    ),
    (
        &[&[0, 0, 0, 19, 0, 0, 0, 0, 0, 0, 0, 1, 0, 1, 1, 0, 1, 97, 3]],
        DAMAGED,
    ),
    (&[LARGE], DAMAGED),
    (&[LARGE, &[b'x'; 5_001]], DAMAGED),
    (&[LARGE, LARGE_VALUE, LARGE_VALUE], DAMAGED),
];

// Here and below much is let go by a call: at the end of its block a value is let go part by part, and each part costs the proof.
fn read(alloc: Global, texts: &[&[u8]]) -> Result<LogRecord, BlockFault>
    ensures { IfOk result Fits }
{
    let group = group_of(alloc, texts)?;
    let read = decode(alloc, &group);
    drop(group);
    read
}

/// Whether the record of these blocks is spelled as they are.
fn is_spelled_again(alloc: Global, texts: &[&[u8]]) -> Result<bool, BlockFault> {
    let record = read(alloc, texts)?;
    let spelled = encode(alloc, &record);
    drop(record);
    Ok(has_blocks(spelled?, texts))
}

fn fed(alloc: Global, blocks: &[Bytes]) -> Result<LogReader, AllocError>
    requires { AllByRecursion IsBlock blocks.now }
{
    let mut reader = LogReader::new(alloc);
    for block in blocks {
        reader.feed(&Block::of(block.clone()?))?;
    }
    Ok(reader)
}

fn read_by_blocks(alloc: Global, texts: &[&[u8]]) -> Result<LogRecord, BlockFault>
    ensures { IfOk result Fits }
{
    let group = group_of(alloc, texts)?;
    let reader = fed(alloc, group.blocks());
    drop(group);
    reader?.end(alloc)
}

/// Whether the record of these blocks, read one by one, is spelled as they are.
fn is_read_by_blocks(alloc: Global, texts: &[&[u8]]) -> Result<bool, BlockFault> {
    let record = read_by_blocks(alloc, texts)?;
    let spelled = encode(alloc, &record);
    drop(record);
    Ok(has_blocks(spelled?, texts))
}

#[test]
fn is_spelled_so_by_hand_and_damaged_else(rt: HostRuntime) {
    for (texts, expected) in READINGS {
        assert!(rt; is_spelled_again(rt.alloc(), *texts) == *expected);
        assert!(rt; is_read_by_blocks(rt.alloc(), *texts) == *expected);
    }
}

/// What a row keeps of the first change, if the group stands at offset 100 of extent 7.
fn first_place(alloc: Global, group: &Group) -> Result<Option<Place>, Fail> {
    let read = decode(alloc, group)?;
    // Its clause says that the group has at most 4,194,304 bytes.
    let _size = group.size();
    let kept = cells(alloc, &read, ExtentId(7), 100);
    drop(read);
    match kept?.as_slice() {
        [(_, Cell::Placed(place)), ..] => Ok(Some(*place)),
        _ => Ok(None),
    }
}

#[test]
fn is_kept_by_its_place(rt: HostRuntime) -> Result<(), Fail> {
    let group = group_of(rt.alloc(), LARGE_RECORD)?;
    let kept = first_place(rt.alloc(), &group);
    drop(group);
    let place = Place {
        extent: ExtentId(7),
        offset: 124,
        length: 5_000,
    };
    assert!(rt; kept? == Some(place));
    Ok(())
}

/// Whether the first transaction is held, and was encoded once.
fn holds_first(text: &mut GroupText, read: &LogRecord) -> Result<bool, AllocError>
    requires { Fits read.now }
{
    let mut encodings = 0;
    match read.transactions.items.as_slice() {
        [first, ..] => Ok(text.add(first.as_slice(), &mut encodings)? && encodings == 1),
        [] => Ok(false),
    }
}

#[test]
fn has_room_for_one(rt: HostRuntime) -> Result<(), Fail> {
    let record = read(rt.alloc(), LARGE_RECORD)?;
    let told = holds_first(&mut GroupText::new(rt.alloc()), &record);
    drop(record);
    assert!(rt; told?);
    Ok(())
}

/// Numbers as they come, the first of which is the next, and whether each is new.
const NUMBERS: [(u64, bool); 5] = [(1, true), (2, true), (2, false), (1, false), (3, true)];

/// Whether each number is taken as it should be, and the next is then 4.
fn are_taken(replay: &mut Replay) -> bool {
    for (number, is_new) in NUMBERS {
        if replay.take(number) != Ok(is_new) {
            return false;
        }
    }
    replay.next() == 4
}

fn is_refused(next: u64, number: u64) -> bool {
    let mut replay = Replay::new(next);
    replay.take(number) == Err(BlockFault::Damaged) && replay.next() == next
}

fn are_refused() -> bool {
    is_refused(4, 5) && is_refused(u64::MAX, u64::MAX)
}

#[test]
fn is_taken_once(rt: HostRuntime) {
    assert!(rt; are_taken(&mut Replay::new(1)) && are_refused());
    one_spelling();
}
