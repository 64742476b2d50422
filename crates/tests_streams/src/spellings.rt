//! What no clause says: that calls succeed, and that the spellings are those of docs/FORMATS.md.
ghost use Rattle.blocks.specs.Record.{Fits};
ghost use Rattle.block_types.specs.declared.record.Version.TheVariants.{V1};

use crate::groups::group_of;
use block_types::{Block, BlockFault, Group, GroupFault, Groups, Nodes, Record, Version};
use blocks::reader::{bytes_of, ended, u8_at, u16_at, u32_at, u64_at};
use blocks::writer::{put_bytes, put_u8, put_u16, put_u32, put_u64};
use blocks::{decode, decode_as, decode_shared, encode, encode_as};
use bytes::Bytes;
use std::alloc::{AllocError, Global};
use std::test::Fail;

const MAKE: [u8; 28] = [
    0, 0, 0, 24, 1, 0, 0, 0, 0, 0, 0, 0, 1, 0, 0, 0, 0, 0, 0, 0, 1, 0, 0, 16, 0, 1, 2, 3,
];

const APPEND: [u8; 31] = [
    0, 0, 0, 27, 2, 0, 0, 0, 0, 0, 0, 0, 1, 0, 0, 0, 0, 2, 0, 0, 0, 3, 97, 98, 99, 0, 0, 0, 2, 100,
    101,
];

// the digest at its end is the SHA-256 of abc
const APPEND_V2: [u8; 57] = [
    0, 0, 0, 53, 2, 0, 0, 0, 0, 0, 0, 0, 1, 0, 0, 0, 0, 1, 0, 0, 0, 3, 97, 98, 99, 0xba, 0x78,
    0x16, 0xbf, 0x8f, 0x01, 0xcf, 0xea, 0x41, 0x41, 0x40, 0xde, 0x5d, 0xae, 0x22, 0x23, 0xb0, 0x03,
    0x61, 0xa3, 0x96, 0x17, 0x7a, 0x9c, 0xb4, 0x10, 0xff, 0x61, 0xf2, 0x00, 0x15, 0xad,
];

const FENCE: [u8; 21] = [
    0, 0, 0, 17, 3, 0, 0, 0, 0, 0, 0, 0, 1, 0, 0, 0, 0, 0, 0, 0, 2,
];

const FREEZE: [u8; 13] = [0, 0, 0, 9, 4, 0, 0, 0, 0, 0, 0, 0, 1];

const SEAL: [u8; 17] = [0, 0, 0, 13, 5, 0, 0, 0, 0, 0, 0, 0, 1, 0, 0, 0, 5];

const FILL: [u8; 32] = [
    0, 0, 0, 28, 6, 0, 0, 0, 0, 0, 0, 0, 1, 0, 0, 0, 3, 0, 0, 0, 5, 0, 0, 0, 1, 1, 0, 0, 0, 2, 100,
    101,
];

const MANAGE: [u8; 7] = [0, 0, 0, 3, 7, 97, 98];

/// Each kind of record in version 1, and an append in version 2.
const SPELLINGS: &[(Version, &[u8])] = &[
    (Version::V1, &MAKE),
    (Version::V1, &APPEND),
    (Version::V1, &FENCE),
    (Version::V1, &FREEZE),
    (Version::V1, &SEAL),
    (Version::V1, &FILL),
    (Version::V1, &MANAGE),
    (Version::V2, &APPEND_V2),
];

const NUMBERS: [u8; 17] = [1, 2, 3, 4, 5, 6, 7, 8, 9, 10, 11, 12, 13, 14, 15, 97, 98];

const DAMAGED: [&[u8]; 8] = [
    // no byte, no body, an unknown kind
    &[],
    &[0, 0, 0, 0],
    &[0, 0, 0, 1, 8],
    // a body with one byte left over, one that is cut, and one whose end is missing
    &[0, 0, 0, 10, 4, 0, 0, 0, 0, 0, 0, 0, 1, 0],
    &[0, 0, 0, 8, 4, 0, 0, 0, 0, 0, 0, 0],
    &[0, 0, 0, 9, 4, 0, 0, 0, 0, 0, 0, 0],
    // groups of no block and of 65
    &[0, 0, 0, 14, 2, 0, 0, 0, 0, 0, 0, 0, 1, 0, 0, 0, 0, 0],
    &[0, 0, 0, 14, 2, 0, 0, 0, 0, 0, 0, 0, 1, 0, 0, 0, 0, 65],
];

/// How many texts of which size, and why they make no group.
const GROUPS: &[(usize, usize, Option<GroupFault>)] = &[
    (0, 1, Some(GroupFault::TooManyBlocks)),
    (65, 1, Some(GroupFault::TooManyBlocks)),
    (65, 0, Some(GroupFault::TooManyBlocks)),
    (2, 0, Some(GroupFault::BadBlock)),
    (2, 65_537, Some(GroupFault::BadBlock)),
    (1, 65_536, None),
    (64, 1, None),
];

const PLACES: Nodes = Nodes {
    primary: 1,
    second: 2,
    third: 3,
};

/// Whether a record, which is let go, is spelled so in version 1.
fn is_spelled(alloc: Global, whole: Record, wanted: &[u8]) -> bool
    requires { Fits V1 whole }
{
    let mut spelled = Vec::new(alloc);
    let done = encode(&whole, &mut spelled);
    drop(whole);
    done.is_ok() && spelled.as_slice() == wanted
}

fn is_spelled_as(alloc: Global, version: Version, whole: Record, wanted: &[u8]) -> bool
    requires { Fits version whole }
{
    let mut spelled = Vec::new(alloc);
    let done = encode_as(version, &whole, &mut spelled);
    drop(whole);
    done.is_ok() && spelled.as_slice() == wanted
}

/// Whether the bytes are one record and nothing else, which is spelled as they are.
fn is_spelled_again(alloc: Global, version: Version, bytes: &[u8]) -> Result<bool, BlockFault> {
    let (record, size) = decode_as(alloc, version, bytes)?;
    Ok(is_spelled_as(alloc, version, record, bytes) && size == bytes.len())
}

#[test]
fn each_kind_is_read_and_written_so(rt: HostRuntime) {
    for (version, bytes) in SPELLINGS {
        assert!(rt; is_spelled_again(rt.alloc(), *version, bytes) == Ok(true));
    }
}

#[test]
fn a_make_is_written_so(rt: HostRuntime) {
    let make = Record::Make {
        extent: 1,
        fence: 1,
        target: 4096,
        nodes: PLACES,
    };
    assert!(rt; PLACES.are_distinct_nodes() && is_spelled(rt.alloc(), make, &MAKE));
}

fn append_is_spelled(alloc: Global) -> Result<bool, GroupFault> {
    let group = group_of(alloc, &[b"abc", b"de"])?;
    // Its clause says that the group has at most 4,194,304 bytes.
    let _size = group.size();
    let append = Record::Append {
        extent: 1,
        offset: 0,
        group,
    };
    Ok(is_spelled(alloc, append, &APPEND))
}

/// The extent and the offset of an append, and the bytes and the blocks of its group.
fn append_in(read: Record) -> Option<(u64, u32, u32, usize)> {
    match read {
        Record::Append {
            extent,
            offset,
            group,
        } => Some((extent, offset, group.size(), group.blocks().len())),
        _ => None,
    }
}

/// An append that begins the bytes, and its size.
fn read_append(
    alloc: Global,
    bytes: &[u8],
) -> Result<(Option<(u64, u32, u32, usize)>, usize), BlockFault> {
    let (read, size) = decode(alloc, bytes)?;
    Ok((append_in(read), size))
}

#[test]
fn an_append_is_written_and_read_so(rt: HostRuntime) {
    assert!(rt; append_is_spelled(rt.alloc()) == Ok(true));
    assert!(rt; read_append(rt.alloc(), &APPEND) == Ok((Some((1, 0, 5, 2)), 31)));
}

/// Whether bytes in one buffer, after a byte that is none of theirs, are one record, which is spelled as they are once the
/// buffer is let go.
fn is_shared(alloc: Global, version: Version, bytes: &[u8]) -> Result<bool, BlockFault> {
    let mut text = vec![in alloc; 1u8]?;
    text.extend_from_slice(bytes)?;
    let buffer = Bytes::from_vec(text)?;
    if buffer.len() < 1 {
        return Ok(false);
    }
    let (record, size) = decode_shared(alloc, version, &buffer, 1)?;
    drop(buffer);
    Ok(is_spelled_as(alloc, version, record, bytes) && size == bytes.len())
}

#[test]
fn each_kind_is_read_from_a_shared_buffer(rt: HostRuntime) {
    for (version, bytes) in SPELLINGS {
        assert!(rt; is_shared(rt.alloc(), *version, bytes) == Ok(true));
    }
}

fn is_damaged(alloc: Global, version: Version, bytes: &[u8]) -> bool {
    matches!(decode_as(alloc, version, bytes), Err(BlockFault::Damaged))
}

#[test]
fn other_bytes_are_damaged(rt: HostRuntime) {
    for bytes in DAMAGED {
        assert!(rt; is_damaged(rt.alloc(), Version::V1, bytes), "{bytes:?}");
    }
    let mut changed = APPEND_V2;
    changed[24] = 100;
    assert!(rt; is_damaged(rt.alloc(), Version::V2, &changed));
}

/// As many texts of one size.
fn texts(alloc: Global, count: usize, size: usize) -> Result<Vec<Vec<u8>>, AllocError> {
    let mut all = Vec::new(alloc);
    for _ in 0..count {
        all.push(vec![in alloc; b'a'; size]?)?;
    }
    Ok(all)
}

/// Why as many texts of one size make no group.
fn fault_of(alloc: Global, count: usize, size: usize) -> Result<Option<GroupFault>, AllocError> {
    Ok(Group::new(alloc, texts(alloc, count, size)?).err())
}

#[test]
fn groups_are_made_or_refused(rt: HostRuntime) {
    for (count, size, fault) in GROUPS {
        assert!(rt;
            fault_of(rt.alloc(), *count, *size) == Ok(*fault),
            "{count} of {size}"
        );
    }
}

/// Another block with the bytes of this one.
fn other(block: &Block) -> Result<Block, AllocError> {
    Ok(Block::of(block.share()?))
}

/// A group that shares the bytes of a block.
fn only(alloc: Global, block: &Block) -> Result<Group, AllocError> {
    let mut blocks = Vec::new(alloc);
    blocks.push(other(block)?.share()?)?;
    Group::of(blocks)
}

/// A group that shares the list of another.
fn shared(group: &Group) -> Result<Group, AllocError> {
    Group::shared(&group.share()?)
}

/// Whether a group that shares a block has so many bytes, copied, and stands in groups after one of the block.
fn are_shared(alloc: Global, groups: &mut Groups) -> Result<bool, AllocError> {
    let block = Block::copied(alloc, b"abc")?;
    let is_same = other(&block)?.as_slice() == b"abc".as_slice();
    let only = only(alloc, &block)?;
    let shared = shared(&only)?;
    let size = shared.copy()?.size();
    groups.items.push(only)?;
    groups.items.push(shared)?;
    Ok(is_same && size == 3 && groups.items.len() == 2)
}

#[test]
fn payloads_are_shared(rt: HostRuntime) -> Result<(), Fail> {
    let mut groups = Groups {
        items: Vec::new(rt.alloc()),
    };
    assert!(rt; are_shared(rt.alloc(), &mut groups)?);
    assert!(rt; groups.items.len() == 2);
    Ok(())
}

fn put_numbers(out: &mut Vec<u8>) -> Result<(), AllocError> {
    put_u8(out, 1)?;
    put_u16(out, 0x0203)?;
    put_u32(out, 0x0405_0607)?;
    put_u64(out, 0x0809_0a0b_0c0d_0e0f)?;
    put_bytes(out, b"ab")
}

#[test]
fn numbers_are_written_highest_byte_first(rt: HostRuntime) {
    let mut written = Vec::new(rt.alloc());
    let done = put_numbers(&mut written);
    assert!(rt; done.is_ok() && written.as_slice() == NUMBERS.as_slice());
}

fn read_numbers(bytes: &[u8]) -> Result<(u8, u16, u32, u64), BlockFault> {
    let first = u8_at(bytes)?.0;
    let second = u16_at(bytes)?.0;
    let third = u32_at(bytes)?.0;
    Ok((first, second, third, u64_at(bytes)?.0))
}

/// Whether a text of 15 bytes has `ab` after it, which is the end of the bytes and not of the text.
fn are_read(bytes: &[u8]) -> Result<bool, BlockFault> {
    let (text, rest) = bytes_of(15, bytes)?;
    Ok(
        text.len() == 15
            && rest == b"ab".as_slice()
            && ended(1u8, &[]).is_ok()
            && ended(1u8, rest).is_err(),
    )
}

#[test]
fn numbers_are_read_highest_byte_first(rt: HostRuntime) {
    let numbers = (1, 0x0102, 0x0102_0304, 0x0102_0304_0506_0708);
    assert!(rt; read_numbers(&NUMBERS) == Ok(numbers));
    assert!(rt; are_read(&NUMBERS) == Ok(true));
}
