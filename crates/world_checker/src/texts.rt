//! Comparisons of texts that are shown in pieces. None of them copies a byte.
ghost use Rattle.std.specs.Prelude.{◌≡◌, ◌<◌, ◌^◌, length};
ghost use Rattle.std.specs.Bool.{Decides};
ghost use Rattle.std.specs.List.{AllByRecursion};
ghost use Rattle.block_types.specs.Limits.{IsBlock};
ghost use Rattle.replica.specs.Groups.{joined, text, text_length};
ghost use Rattle.model_streams.specs.Honest.{Stands, SameWhereBoth};

use block_types::Group;
use bytes::Bytes;

/// Whether the bytes from this one on and the other bytes are the same as far as both go.
fn is_same_from(start: u64, bytes: &[u8], others: &[u8]) -> bool
    ensures { Decides result (SameWhereBoth 0 bytes.now start others.now) }
{
    if start >= bytes.len() as u64 {
        return true;
    }
    let rest = &bytes[start as usize..];
    let both = rest.len().min(others.len());
    rest[..both] == others[..both]
}

/// Whether two texts, each with the offset of its first byte, show the same byte wherever both cover.
pub fn is_same_where_both(offset: u64, bytes: &[u8], other: u64, others: &[u8]) -> bool
    ensures { Decides result (SameWhereBoth offset bytes.now other others.now) }
{
    if offset <= other {
        is_same_from(other - offset, bytes, others)
    } else {
        is_same_from(offset - other, others, bytes)
    }
}

/// The same for bytes and the joined blocks that begin at the other offset.
pub fn is_same_in_blocks(offset: u32, bytes: &[u8], other: u64, blocks: &[Bytes]) -> bool
    requires bytes { length bytes.now < 2 ^ 63 }
    requires blocks { AllByRecursion IsBlock blocks.now }
    ensures { Decides result (SameWhereBoth offset bytes.now other (joined blocks.now)) }
{
    let start = u64::from(offset);
    let end = start + bytes.len() as u64;
    let mut at = other;
    for block in blocks {
        if at >= end {
            return true;
        }
        let shown = block.as_slice();
        if !is_same_where_both(start, bytes, at, shown) {
            return false;
        }
        at += shown.len() as u64;
    }
    true
}

/// The same for bytes and the text of groups, which begins at 0.
pub fn is_same_in_groups(offset: u32, bytes: &[u8], groups: &[Group]) -> bool
    requires { length bytes.now < 2 ^ 63 }
    ensures { Decides result (SameWhereBoth offset bytes.now 0 (text groups.now)) }
{
    let end = u64::from(offset) + bytes.len() as u64;
    let mut at = 0;
    for group in groups {
        if at >= end {
            return true;
        }
        if !is_same_in_blocks(offset, bytes, at, group.blocks()) {
            return false;
        }
        at += u64::from(group.size());
    }
    true
}

/// Whether the text of the groups has this many bytes.
pub fn has_length(groups: &[Group], wanted: u32) -> bool
    ensures { Decides result (text_length groups.now ≡ wanted) }
{
    let mut rest = wanted;
    for group in groups {
        let size = group.size();
        if size > rest {
            return false;
        }
        rest -= size;
    }
    rest == 0
}

fn is_same_block(block: &Bytes, other: &Bytes) -> bool
    ensures { Decides result (block.now ≡ other.now) }
{
    block.as_slice() == other.as_slice()
}

/// Whether two groups have the same blocks.
pub fn is_same_group(group: &[Bytes], other: &[Bytes]) -> bool
    ensures { Decides result (group.now ≡ other.now) }
{
    group.len() == other.len()
        && group
            .iter()
            .zip(other)
            .all(|(block, of_other)| is_same_block(block, of_other))
}

/// Whether two lists have the same groups.
pub fn is_same_groups(groups: &[Group], others: &[Group]) -> bool
    ensures { Decides result (groups.now ≡ others.now) }
{
    groups.len() == others.len()
        && groups.iter().zip(others).all(|(group, of_others)| is_same_group(
            group.blocks(),
            of_others.blocks(),
        ))
}

/// Whether the group stands among the groups where this many bytes stand before it.
pub fn stands_at(group: &Group, offset: u32, groups: &[Group]) -> bool
    ensures { Decides result (Stands group.now offset groups.now) }
{
    let mut rest = offset;
    for next in groups {
        if rest == 0 && is_same_group(next.blocks(), group.blocks()) {
            return true;
        }
        let size = next.size();
        if size > rest {
            return false;
        }
        rest -= size;
    }
    false
}
