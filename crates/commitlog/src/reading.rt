//! Reading a record from a group. Each reader is the function on lists of specs/Reading.antt that its clause cites.
ghost use Rattle.std.specs.Prelude.{◌≡◌, ◌<◌, ℕ, List, Some, slice_index, IfOk, MatchResult};
ghost use Rattle.blocks.specs.Format.{Gives, bytes_at, many_at};
ghost use Rattle.block_types.specs.Limits.{is_within};
ghost use Rattle.commitlog.specs.declared.log_record.LogRecord.{LogRecord};
ghost use Rattle.commitlog.specs.Record.{piece_count, spelling, Fits};
ghost use Rattle.commitlog.specs.Reading.{counted_at, is_small, large_at, fields_at, cell_at, change_at, transaction_at, transactions_at, body_at, text_at, piece_at, joined, joined_at, record_at};

use crate::log_record::{LogRecord, Transactions};
use crate::text_cell::{TextCell, TextChanges};
use crate::values::transactions_of;
use block_types::{BlockFault, Group, MAX_BLOCK};
use blocks::reader::{ended, u8_at, u16_at, u32_at, u64_at};
use bytes::Bytes;
use memtable::{MAX_BATCH, MAX_CHANGES, MAX_INLINE, MAX_KEY, MAX_VALUE};
use std::alloc::Global;

/// A copy of so many bytes, and the bytes after them.
fn copied_of(alloc: Global, len: usize, bytes: &[u8]) -> Result<(Bytes, &[u8]), BlockFault>
    ensures { Gives (λ x. (x.0, x.1.now)) result (bytes_at len bytes.now) }
{
    if bytes.len() < len {
        return Err(BlockFault::Damaged);
    }
    let (front, rest) = bytes.split_at(len);
    match Bytes::copy_from_slice(alloc, front) {
        Ok(copy) => Ok((copy, rest)),
        Err(_full) => Err(BlockFault::Memory),
    }
}

#[tactic(auto, unfolding(crate::specs::Reading::counted_at))]
fn key_of(alloc: Global, bytes: &[u8]) -> Result<(Bytes, &[u8]), BlockFault>
    ensures { Gives (λ x. (x.0, x.1.now)) result (counted_at 2 (is_within 1 256) bytes.now) }
{
    let Ok((len, rest)) = u16_at(bytes) else {
        return Err(BlockFault::Damaged);
    };
    if !(1..=MAX_KEY).contains(&(len as usize)) {
        return Err(BlockFault::Damaged);
    }
    copied_of(alloc, len as usize, rest)
}

#[tactic(auto, unfolding(crate::specs::Reading::counted_at))]
fn inline_of(alloc: Global, bytes: &[u8]) -> Result<(Bytes, &[u8]), BlockFault>
    ensures { Gives (λ x. (x.0, x.1.now)) result (counted_at 4 is_small bytes.now) }
{
    let Ok((len, rest)) = u32_at(bytes) else {
        return Err(BlockFault::Damaged);
    };
    if len as usize > MAX_INLINE {
        return Err(BlockFault::Damaged);
    }
    copied_of(alloc, len as usize, rest)
}

#[tactic(auto, unfolding(crate::specs::Reading::large_at))]
fn large_of(bytes: &[u8]) -> Result<((u8, u32), &[u8]), BlockFault>
    ensures { Gives (λ x. (x.0, x.1.now)) result (large_at bytes.now) }
{
    let Ok((number, rest)) = u8_at(bytes) else {
        return Err(BlockFault::Damaged);
    };
    let Ok((size, rest)) = u32_at(rest) else {
        return Err(BlockFault::Damaged);
    };
    if !(MAX_INLINE + 1..=MAX_VALUE).contains(&(size as usize)) {
        return Err(BlockFault::Damaged);
    }
    Ok(((number, size), rest))
}

/// The cell of a kind: 0 deleted, 1 beside its key, 2 in a block of its own.
#[tactic(auto, unfolding(crate::specs::Reading::fields_at))]
fn fields_of(alloc: Global, kind: u8, fields: &[u8]) -> Result<(TextCell, &[u8]), BlockFault>
    ensures { Gives (λ x. (x.0, x.1.now)) result (fields_at kind fields.now) }
{
    match kind {
        0 => Ok((TextCell::Deleted, fields)),
        1 => {
            let (value, rest) = inline_of(alloc, fields)?;
            Ok((TextCell::Inline(value), rest))
        }
        2 => {
            let ((number, size), rest) = large_of(fields)?;
            Ok((TextCell::Large(number, size), rest))
        }
        _ => Err(BlockFault::Damaged),
    }
}

#[tactic(auto, unfolding(crate::specs::Reading::cell_at))]
fn cell_of(alloc: Global, bytes: &[u8]) -> Result<(TextCell, &[u8]), BlockFault>
    ensures { Gives (λ x. (x.0, x.1.now)) result (cell_at bytes.now) }
{
    match bytes {
        [] => Err(BlockFault::Damaged),
        [kind, fields @ ..] => fields_of(alloc, *kind, fields),
    }
}

#[tactic(auto, unfolding(crate::specs::Reading::change_at))]
fn change_of(alloc: Global, bytes: &[u8]) -> Result<((Bytes, TextCell), &[u8]), BlockFault>
    ensures { Gives (λ x. (x.0, x.1.now)) result (change_at bytes.now) }
{
    let (key, rest) = key_of(alloc, bytes)?;
    let (cell, rest) = cell_of(alloc, rest)?;
    Ok(((key, cell), rest))
}

fn all_changes_of(
    alloc: Global,
    count: u8,
    bytes: &[u8],
) -> Result<(Vec<(Bytes, TextCell)>, &[u8]), BlockFault>
    ensures { Gives (λ x. (x.0.items, x.1.now)) result (many_at change_at count bytes.now) }
{
    let mut read = Vec::new(alloc);
    let mut rest = bytes;
    for _ in 0..count {
        let (change, after) = change_of(alloc, rest)?;
        read.push(change)?;
        rest = after;
    }
    Ok((read, rest))
}

#[tactic(auto, unfolding(crate::specs::Reading::transaction_at))]
fn transaction_of(alloc: Global, bytes: &[u8]) -> Result<(TextChanges, &[u8]), BlockFault>
    ensures { Gives (λ x. (x.0, x.1.now)) result (transaction_at bytes.now) }
{
    let Ok((count, rest)) = u8_at(bytes) else {
        return Err(BlockFault::Damaged);
    };
    if !(1..=MAX_CHANGES).contains(&(count as usize)) {
        return Err(BlockFault::Damaged);
    }
    let (changes, rest) = all_changes_of(alloc, count, rest)?;
    Ok((TextChanges { items: changes }, rest))
}

fn many_transactions_of(
    alloc: Global,
    count: u16,
    bytes: &[u8],
) -> Result<(Vec<TextChanges>, &[u8]), BlockFault>
    ensures { Gives (λ x. (x.0.items, x.1.now)) result (many_at transaction_at count bytes.now) }
{
    let mut read = Vec::new(alloc);
    let mut rest = bytes;
    for _ in 0..count {
        let (changes, after) = transaction_of(alloc, rest)?;
        read.push(changes)?;
        rest = after;
    }
    Ok((read, rest))
}

#[tactic(auto, unfolding(crate::specs::Reading::transactions_at))]
fn all_transactions_of(alloc: Global, bytes: &[u8]) -> Result<(Vec<TextChanges>, &[u8]), BlockFault>
    ensures { Gives (λ x. (x.0.items, x.1.now)) result (transactions_at bytes.now) }
{
    let Ok((count, rest)) = u16_at(bytes) else {
        return Err(BlockFault::Damaged);
    };
    if !(1..=MAX_BATCH).contains(&(count as usize)) {
        return Err(BlockFault::Damaged);
    }
    many_transactions_of(alloc, count, rest)
}

#[tactic(auto, unfolding(crate::specs::Reading::body_at))]
fn body_of(alloc: Global, bytes: &[u8]) -> Result<((u64, Vec<TextChanges>), &[u8]), BlockFault>
    ensures { Gives (λ x. ((x.0.0, x.0.1.items), x.1.now)) result (body_at bytes.now) }
{
    let Ok((first, rest)) = u64_at(bytes) else {
        return Err(BlockFault::Damaged);
    };
    let (transactions, rest) = all_transactions_of(alloc, rest)?;
    if first < 1 || transactions.len() as u64 > u64::MAX - first {
        return Err(BlockFault::Damaged);
    }
    Ok(((first, transactions), rest))
}

#[tactic(auto, unfolding(crate::specs::Reading::text_at))]
fn text_of(alloc: Global, bytes: &[u8]) -> Result<(u64, Vec<TextChanges>), BlockFault>
    ensures read { Gives (λ x. (x.0, x.1.items)) result (text_at bytes.now) }
    ensures bytes { (i : ℕ) → slice_index bytes.now i < 256 }
{
    let Ok((size, rest)) = u32_at(bytes) else {
        return Err(BlockFault::Damaged);
    };
    if size as usize != bytes.len() {
        return Err(BlockFault::Damaged);
    }
    let (read, rest) = body_of(alloc, rest)?;
    ended(read, rest)
}

fn piece_of(size: usize, blocks: &[Bytes]) -> Result<(&[u8], &[Bytes]), BlockFault>
    ensures { Gives (λ x. (x.0.now, x.1.now)) result (piece_at 65536 size blocks.now) }
{
    match blocks {
        [] => Err(BlockFault::Damaged),
        [first, rest @ ..] => {
            let piece = first.as_slice();
            if piece.len() == size.min(MAX_BLOCK as usize) {
                Ok((piece, rest))
            } else {
                Err(BlockFault::Damaged)
            }
        }
    }
}

fn pieces_of(alloc: Global, size: u32, blocks: &[Bytes]) -> Result<(Vec<u8>, &[Bytes]), BlockFault>
    ensures { Gives (λ x. (x.0.items, x.1.now)) result (joined 65536 (piece_count size) size blocks.now) }
{
    let count = (size as usize + (MAX_BLOCK as usize - 1)) / MAX_BLOCK as usize;
    let mut text = Vec::new(alloc);
    let mut left = size as usize;
    let mut rest = blocks;
    for _ in 0..count {
        let (piece, after) = piece_of(left, rest)?;
        text.extend_from_slice(piece)?;
        left -= piece.len();
        rest = after;
    }
    Ok((text, rest))
}

/// The text, whose first four bytes say how long it is, and the blocks after it.
#[tactic(auto, unfolding(crate::specs::Reading::joined_at))]
fn joined_of(alloc: Global, blocks: &[Bytes]) -> Result<(Vec<u8>, &[Bytes]), BlockFault>
    ensures { Gives (λ x. (x.0.items, x.1.now)) result (joined_at blocks.now) }
{
    match blocks {
        [] => Err(BlockFault::Damaged),
        [first, ..] => {
            let Ok((size, _)) = u32_at(first.as_slice()) else {
                return Err(BlockFault::Damaged);
            };
            pieces_of(alloc, size, blocks)
        }
    }
}

#[tactic(auto, unfolding(crate::specs::Reading::record_at))]
pub(crate) fn record_of(alloc: Global, blocks: &[Bytes]) -> Result<LogRecord, BlockFault>
    ensures read { Gives (λ r. r) result (record_at blocks.now) }

    // The text is bytes.
    ensures bytes { IfOk result (λ r. (t : List ℕ × List (List ℕ)) → joined_at blocks.now ≡ Some t
        → (i : ℕ) → slice_index t.0 i < 256) }
{
    let (text, values) = joined_of(alloc, blocks)?;
    let (first, items) = text_of(alloc, &text)?;
    let transactions = Transactions {
        items: transactions_of(alloc, values, &items)?,
    };
    Ok(LogRecord {
        first,
        transactions,
    })
}

/// The record that a group spells. Large values share the blocks' buffers; keys and small values are copied.
///
/// It is refused `Damaged` (21) only where no record that fits has this spelling: a text cut short or with a byte left
/// over, pieces of another size, a field out of range, a value whose block is not the next one or has another size, a
/// block too many. `Memory` (22) says nothing of the group.
pub fn decode(alloc: Global, group: &Group) -> Result<LogRecord, BlockFault>
    ensures found { IfOk result (λ r. Fits r × (spelling r ≡ group.now)) }

    // So it is what reading from left to right gives.
    ensures read { Gives (λ r. r) result (record_at group.now) }

    // Where the group is a record's spelling that record is found, unless memory ran out.
    ensures only { (r : LogRecord) → Fits r → spelling r ≡ group.now
        → MatchResult result (λ x. x ≡ r) (λ e. e ≡ BlockFault.Memory) }
{
    let blocks = group.blocks();
    record_of(alloc, blocks)
}

/// A law, which does nothing when it runs: no two records that fit have one spelling.
pub fn one_spelling()
    ensures { (a b : LogRecord) → Fits a → Fits b → spelling a ≡ spelling b → a ≡ b }
{}
