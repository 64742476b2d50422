//! Reading a record from bytes. Each reader is the function on lists of specs/Reading.antt that its clause cites.
//!
//! A reader of what may hold payload takes the buffer `text` too, which its bytes are the end of: what it answers shares
//! that buffer.
ghost use Rattle.std.specs.Prelude.{◌≡◌, ◌<◌, ◌≤◌, ◌^◌, ◌++◌, ℕ, List, length, drop, IfOk, OnOk, MatchResult};
ghost use Rattle.std.specs.List.{AllByRecursion};
ghost use Rattle.block_types.specs.Limits.{IsBlock, IsGroup, groups_size};
ghost use Rattle.blocks.specs.Format.{Gives, IsEndOf, after, many_at};
ghost use Rattle.block_types.specs.declared.record.Version.TheVariants.{V1};
ghost use Rattle.blocks.specs.Compared.{compared, all_compared};
ghost use Rattle.blocks.specs.Record.{check, spelling, Fits, Begins};
ghost use Rattle.blocks.specs.Reading.{block_at, group_at, nodes_at, groups_at, make_record_at, append_record_at, fence_record_at, freeze_record_at, seal_record_at, fill_record_at, fields_at, body_at, record_at};

use crate::reader::{bytes_of, ended, u8_at, u32_at, u64_at};
use crate::shared::shared_of;
use block_types::{
    BlockFault, Group, Groups, MAX_BLOCK, MAX_BLOCKS, MAX_TARGET, MIN_TARGET, Nodes, Record,
    Version,
};
use bytes::Bytes;
use sha2::{Digest, Sha256};
use std::alloc::{AllocError, Global};

/// The bytes after what stands after a block. A digest that was compared is kept.
fn after_check<'a>(
    version: Version,
    block: &[u8],
    bytes: &'a [u8],
    kept: &mut Vec<[u8; 32]>,
) -> Result<&'a [u8], BlockFault>
    ensures read { Gives (λ x. x.now) result (after (check version block.now) bytes.now) }
    ensures kept { OnOk result (kept.new.items ≡ kept.old.items ++ compared version block.now) }
{
    match version {
        Version::V1 => Ok(bytes),
        Version::V2 => {
            let digest = Sha256::digest(block);
            if bytes.starts_with(&digest) {
                kept.push(digest)?;
                Ok(&bytes[digest.len()..])
            } else {
                Err(BlockFault::Damaged)
            }
        }
    }
}

#[tactic(auto, unfolding(crate::specs::Reading::block_at))]
fn block_of<'a>(
    version: Version,
    text: &Bytes,
    bytes: &'a [u8],
    kept: &mut Vec<[u8; 32]>,
) -> Result<(Bytes, &'a [u8]), BlockFault>
    requires { IsEndOf bytes.now text.now }
    ensures read { Gives (λ x. (x.0, x.1.now)) result (block_at version bytes.now) }
    ensures kept { IfOk result (λ x. kept.new.items ≡ kept.old.items ++ compared version x.0) }
    ensures fits { IfOk result (λ x. IsBlock x.0) }
    ensures end { IfOk result (λ x. IsEndOf x.1.now text.now) }
{
    let (len, rest) = u32_at(bytes)?;
    if !(1..=MAX_BLOCK).contains(&len) {
        return Err(BlockFault::Damaged);
    }
    let (block, rest) = shared_of(len as usize, text, rest)?;
    let rest = after_check(version, block.as_slice(), rest, kept)?;
    Ok((block, rest))
}

fn blocks_of<'a>(
    alloc: Global,
    version: Version,
    count: u8,
    text: &Bytes,
    bytes: &'a [u8],
) -> Result<(Vec<Bytes>, Vec<[u8; 32]>, &'a [u8]), BlockFault>
    requires { IsEndOf bytes.now text.now }
    ensures read { Gives (λ x. (x.0.items, x.2.now)) result (many_at (block_at version) count bytes.now) }
    ensures kept { IfOk result (λ x. x.1.items ≡ all_compared version x.0.items) }
    ensures fits { IfOk result (λ x. (length x.0.items ≡ count) × AllByRecursion IsBlock x.0.items) }
    ensures end { IfOk result (λ x. IsEndOf x.2.now text.now) }
{
    let mut read = Vec::new(alloc);
    let mut kept = Vec::new(alloc);
    let mut rest = bytes;
    for _ in 0..count {
        let (block, after) = block_of(version, text, rest, &mut kept)?;
        read.push(block)?;
        rest = after;
    }
    Ok((read, kept, rest))
}

/// The group of these blocks, with the digests that were compared, where there are any.
fn group_with(
    version: Version,
    blocks: Vec<Bytes>,
    kept: Vec<[u8; 32]>,
) -> Result<Group, AllocError>
    requires group { IsGroup blocks.items }
    requires kept { kept.items ≡ all_compared version blocks.items }
    ensures { IfOk result (λ group. group ≡ blocks.items) }
{
    match version {
        Version::V1 => Group::of(blocks),
        Version::V2 => Group::of_digests(blocks, kept),
    }
}

#[tactic(auto, unfolding(crate::specs::Reading::group_at))]
fn group_of<'a>(
    alloc: Global,
    version: Version,
    text: &Bytes,
    bytes: &'a [u8],
) -> Result<(Group, &'a [u8]), BlockFault>
    requires { IsEndOf bytes.now text.now }
    ensures read { Gives (λ x. (x.0, x.1.now)) result (group_at version bytes.now) }
    ensures end { IfOk result (λ x. IsEndOf x.1.now text.now) }
{
    let (count, rest) = u8_at(bytes)?;
    if !(1..=MAX_BLOCKS).contains(&count) {
        return Err(BlockFault::Damaged);
    }
    let (blocks, kept, rest) = blocks_of(alloc, version, count, text, rest)?;
    Ok((group_with(version, blocks, kept)?, rest))
}

#[tactic(auto, unfolding(crate::specs::Reading::nodes_at, block_types::specs::Limits::are_nodes))]
fn nodes_of(bytes: &[u8]) -> Result<(Nodes, &[u8]), BlockFault>
    ensures { Gives (λ x. (x.0, x.1.now)) result (nodes_at bytes.now) }
{
    match bytes {
        [primary, second, third, rest @ ..] => {
            let nodes = Nodes {
                primary: *primary,
                second: *second,
                third: *third,
            };
            if nodes.are_distinct_nodes() {
                Ok((nodes, rest))
            } else {
                Err(BlockFault::Damaged)
            }
        }
        _ => Err(BlockFault::Damaged),
    }
}

/// The record of kind 1 in its fields.
#[tactic(auto, unfolding(crate::specs::Reading::make_record_at, crate::specs::Reading::make_at))]
fn make_of(fields: &[u8]) -> Result<Record, BlockFault>
    ensures { Gives (λ r. r) result (make_record_at fields.now) }
{
    let (extent, rest) = u64_at(fields)?;
    let (fence, rest) = u64_at(rest)?;
    let (target, rest) = u32_at(rest)?;
    if !(MIN_TARGET..=MAX_TARGET).contains(&target) {
        return Err(BlockFault::Damaged);
    }
    let (nodes, rest) = nodes_of(rest)?;
    ended(
        Record::Make {
            extent,
            fence,
            target,
            nodes,
        },
        rest,
    )
}

#[tactic(auto, unfolding(crate::specs::Reading::append_record_at, crate::specs::Reading::append_at))]
fn append_of(
    alloc: Global,
    version: Version,
    text: &Bytes,
    fields: &[u8],
) -> Result<Record, BlockFault>
    requires { IsEndOf fields.now text.now }
    ensures { Gives (λ r. r) result (append_record_at version fields.now) }
{
    let (extent, rest) = u64_at(fields)?;
    let (offset, rest) = u32_at(rest)?;
    let (group, rest) = group_of(alloc, version, text, rest)?;
    ended(
        Record::Append {
            extent,
            offset,
            group,
        },
        rest,
    )
}

fn all_groups_of<'a>(
    alloc: Global,
    version: Version,
    count: u32,
    text: &Bytes,
    bytes: &'a [u8],
) -> Result<(Vec<Group>, u64, &'a [u8]), BlockFault>
    requires { IsEndOf bytes.now text.now }
    ensures read { Gives (λ x. (x.0.items, x.2.now)) result (many_at (group_at version) count bytes.now) }
    ensures size { IfOk result (λ x. x.1 ≡ groups_size x.0.items) }
    ensures bound { IfOk result (λ x. x.1 < 2 ^ 60) }
{
    let mut groups = Vec::new(alloc);
    let mut size = 0u64;
    let mut rest = bytes;
    for _ in 0..count {
        let (group, after) = group_of(alloc, version, text, rest)?;
        size += group.size() as u64;
        groups.push(group)?;
        rest = after;
    }
    Ok((groups, size, rest))
}

#[tactic(auto, unfolding(crate::specs::Reading::groups_at))]
fn groups_of<'a>(
    alloc: Global,
    version: Version,
    text: &Bytes,
    bytes: &'a [u8],
) -> Result<(Groups, u64, &'a [u8]), BlockFault>
    requires { IsEndOf bytes.now text.now }
    ensures read { Gives (λ x. (x.0, x.2.now)) result (groups_at version bytes.now) }
    ensures size { IfOk result (λ x. x.1 ≡ groups_size x.0) }
    ensures bound { IfOk result (λ x. x.1 < 2 ^ 60) }
{
    let (count, rest) = u32_at(bytes)?;
    if count < 1 {
        return Err(BlockFault::Damaged);
    }
    let (groups, size, rest) = all_groups_of(alloc, version, count, text, rest)?;
    Ok((Groups { items: groups }, size, rest))
}

#[tactic(auto, unfolding(crate::specs::Reading::fence_record_at, crate::specs::Reading::fence_at))]
fn fence_of(fields: &[u8]) -> Result<Record, BlockFault>
    ensures { Gives (λ r. r) result (fence_record_at fields.now) }
{
    let (extent, rest) = u64_at(fields)?;
    let (generation, rest) = u64_at(rest)?;
    ended(Record::Fence { extent, generation }, rest)
}

#[tactic(auto, unfolding(crate::specs::Reading::freeze_record_at))]
fn freeze_of(fields: &[u8]) -> Result<Record, BlockFault>
    ensures { Gives (λ r. r) result (freeze_record_at fields.now) }
{
    let (extent, rest) = u64_at(fields)?;
    ended(Record::Freeze { extent }, rest)
}

#[tactic(auto, unfolding(crate::specs::Reading::seal_record_at, crate::specs::Reading::seal_at))]
fn seal_of(fields: &[u8]) -> Result<Record, BlockFault>
    ensures { Gives (λ r. r) result (seal_record_at fields.now) }
{
    let (extent, rest) = u64_at(fields)?;
    let (length, rest) = u32_at(rest)?;
    ended(Record::Seal { extent, length }, rest)
}

#[tactic(auto, unfolding(crate::specs::Reading::fill_record_at, crate::specs::Reading::fill_at))]
fn fill_of(
    alloc: Global,
    version: Version,
    text: &Bytes,
    fields: &[u8],
) -> Result<Record, BlockFault>
    requires { IsEndOf fields.now text.now }
    ensures { Gives (λ r. r) result (fill_record_at version fields.now) }
{
    let (extent, rest) = u64_at(fields)?;
    let (from, rest) = u32_at(rest)?;
    let (length, rest) = u32_at(rest)?;
    let (groups, size, rest) = groups_of(alloc, version, text, rest)?;
    if from as u64 + size != length as u64 {
        return Err(BlockFault::Damaged);
    }
    let read = Record::Fill {
        extent,
        from,
        length,
        groups,
    };
    ended(read, rest)
}

/// The record of kind 7.
fn manage_of(text: &Bytes, fields: &[u8]) -> Result<Record, BlockFault>
    requires { IsEndOf fields.now text.now }
    ensures { Gives (λ r. r) result (Some (Record.Manage fields.now)) }
{
    let (text, _) = shared_of(fields.len(), text, fields)?;
    Ok(Record::Manage { text })
}

#[tactic(auto, unfolding(crate::specs::Reading::fields_at))]
fn fields_of(
    alloc: Global,
    version: Version,
    kind: u8,
    text: &Bytes,
    fields: &[u8],
) -> Result<Record, BlockFault>
    requires { IsEndOf fields.now text.now }
    ensures { Gives (λ r. r) result (fields_at version kind fields.now) }
{
    match kind {
        1 => make_of(fields),
        2 => append_of(alloc, version, text, fields),
        3 => fence_of(fields),
        4 => freeze_of(fields),
        5 => seal_of(fields),
        6 => fill_of(alloc, version, text, fields),
        7 => manage_of(text, fields),
        _ => Err(BlockFault::Damaged),
    }
}

#[tactic(auto, unfolding(crate::specs::Reading::body_at))]
fn body_of(alloc: Global, version: Version, text: &Bytes) -> Result<Record, BlockFault>
    ensures { Gives (λ r. r) result (body_at version text.now) }
{
    match text.as_slice() {
        [] => Err(BlockFault::Damaged),
        [kind, fields @ ..] => fields_of(alloc, version, *kind, text, fields),
    }
}

#[tactic(auto, unfolding(crate::specs::Reading::record_at))]
fn copied_record_of(
    alloc: Global,
    version: Version,
    bytes: &[u8],
) -> Result<(Record, usize), BlockFault>
    ensures { Gives (λ x. x) result (record_at version bytes.now) }
{
    let (len, rest) = u32_at(bytes)?;
    let (body, _) = bytes_of(len as usize, rest)?;
    let text = Bytes::copy_from_slice(alloc, body)?;
    let record = body_of(alloc, version, &text)?;
    Ok((record, 4 + len as usize))
}

#[tactic(auto, unfolding(crate::specs::Reading::record_at))]
fn shared_record_of(
    alloc: Global,
    version: Version,
    text: &Bytes,
    bytes: &[u8],
) -> Result<(Record, usize), BlockFault>
    requires { IsEndOf bytes.now text.now }
    ensures { Gives (λ x. x) result (record_at version bytes.now) }
{
    let (len, rest) = u32_at(bytes)?;
    let (body, _) = shared_of(len as usize, text, rest)?;
    let record = body_of(alloc, version, &body)?;
    Ok((record, 4 + len as usize))
}

/// The record whose spelling in the version begins the bytes, and the size of that spelling; bytes after it do not
/// matter. It copies the payloads, into one buffer that the record's blocks share.
///
/// It is refused `Damaged` (21) only where no front of the bytes is a spelling: cut short, a field out of range, a body
/// with bytes left over, in version 2 a digest that is not the block's. `Memory` (22) says nothing of the bytes.
pub fn decode_as(
    alloc: Global,
    version: Version,
    bytes: &[u8],
) -> Result<(Record, usize), BlockFault>
    ensures found { IfOk result (λ x. Begins version bytes.now x.0 x.1) }

    // Where a record begins the bytes it is found, unless memory ran out.
    ensures only { (r : Record) (n : ℕ) → Begins version bytes.now r n
        → MatchResult result (λ x. x ≡ (r, n)) (λ e. e ≡ BlockFault.Memory) }
{
    copied_record_of(alloc, version, bytes)
}

/// As `decode_as` of the end of a buffer, which the record's blocks share.
fn decode_end(
    alloc: Global,
    version: Version,
    text: &Bytes,
    bytes: &[u8],
) -> Result<(Record, usize), BlockFault>
    requires { IsEndOf bytes.now text.now }
    ensures found { IfOk result (λ x. Begins version bytes.now x.0 x.1) }
    ensures only { (r : Record) (n : ℕ) → Begins version bytes.now r n
        → MatchResult result (λ x. x ≡ (r, n)) (λ e. e ≡ BlockFault.Memory) }
{
    shared_record_of(alloc, version, text, bytes)
}

/// As `decode_as` of the bytes from `from` on, which counts bytes from 0. It copies no payload: the record's blocks, or its
/// text, share the bytes that were given, and keep all of them in memory for as long as one of these lives. It is refused
/// as `decode_as` is.
pub fn decode_shared(
    alloc: Global,
    version: Version,
    bytes: &Bytes,
    from: usize,
) -> Result<(Record, usize), BlockFault>
    requires { from ≤ length bytes.now }
    ensures found { IfOk result (λ x. Begins version (drop from bytes.now) x.0 x.1) }

    // Where a record begins there it is found, unless memory ran out.
    ensures only { (r : Record) (n : ℕ) → Begins version (drop from bytes.now) r n
        → MatchResult result (λ x. x ≡ (r, n)) (λ e. e ≡ BlockFault.Memory) }
{
    decode_end(alloc, version, bytes, &bytes.as_slice()[from..])
}

/// As `decode_as` in version 1.
pub fn decode(alloc: Global, bytes: &[u8]) -> Result<(Record, usize), BlockFault>
    ensures found { IfOk result (λ x. Begins V1 bytes.now x.0 x.1) }
    ensures only { (r : Record) (n : ℕ) → Begins V1 bytes.now r n
        → MatchResult result (λ x. x ≡ (r, n)) (λ e. e ≡ BlockFault.Memory) }
{
    decode_as(alloc, Version::V1, bytes)
}

/// A law, which does nothing when it runs: in each version no spelling begins another.
pub fn one_spelling(version: Version)
    ensures { (a b : Record) (x y : List ℕ) → Fits version a → Fits version b
        → spelling version a ++ x ≡ spelling version b ++ y → a ≡ b }
{}
