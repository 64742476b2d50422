//! What rows keep of the changes of a record: small values themselves, large ones by the place of their block.
ghost use Rattle.std.specs.Prelude.{◌≡◌, ◌+◌, ◌<◌, ◌≤◌, ◌^◌, ◌++◌, length, drop, IfOk, OnOk};
ghost use Rattle.std.specs.List.{AllByRecursion, flat_map};
ghost use Rattle.block_types.specs.Limits.{group_size};
ghost use Rattle.memtable.specs.Cell.{IsEntry};
ghost use Rattle.commitlog.specs.Record.{large, change_values, transaction_values, spelling, HasValue, IsChange, IsTransaction, Fits};
ghost use Rattle.commitlog.specs.Places as specs;

use crate::log_record::LogRecord;
use crate::sizes::text_size;
use bytes::Bytes;
use memtable::{Cell, Place, is_large};
use std::alloc::{AllocError, Global};
use wire::{Change, Changes, ExtentId};

/// What a row keeps of a value, and the offset of the next large value.
fn kept_cell(
    extent: ExtentId,
    offset: u32,
    value: &Option<Bytes>,
) -> Result<(Cell, u32), AllocError>
    requires fits { HasValue value.now }
    requires room { offset + group_size (large value.now) < 2 ^ 32 }
    ensures { IfOk result (λ x. (x.0 ≡ specs.kept_cell extent offset value.now)
        × (x.1 ≡ offset + group_size (large value.now))) }
{
    match value {
        None => Ok((Cell::Deleted, offset)),
        Some(value) => {
            if is_large(value) {
                let length = value.len() as u32;
                let place = Place {
                    extent,
                    offset,
                    length,
                };
                Ok((Cell::Placed(place), offset + length))
            } else {
                Ok((Cell::Inline(value.clone()?), offset))
            }
        }
    }
}

/// What a row keeps of a change, and the offset of the next large value.
fn kept_change(
    extent: ExtentId,
    offset: u32,
    change: &Change,
) -> Result<((Bytes, Cell), u32), AllocError>
    requires fits { IsChange change.now }
    requires room { offset + group_size (change_values change.now) < 2 ^ 32 }
    ensures { IfOk result (λ x. (x.0 ≡ specs.kept_change extent offset change.now)
        × (x.1 ≡ offset + group_size (change_values change.now))) }
{
    let (cell, next) = kept_cell(extent, offset, &change.value)?;
    let key = change.key.clone()?;
    Ok(((key, cell), next))
}

/// Adds what rows keep of the changes of a transaction whose first large value stands in the extent at the offset, and answers
/// the offset of the next large value. Small values share their buffers. An error is out of memory (22), and what it leaves of
/// the cells is of no use.
///
/// That the transaction is in range is the caller's condition, as is that its large values end below 2^32 in the extent.
pub fn put_cells(
    out: &mut Vec<(Bytes, Cell)>,
    extent: ExtentId,
    offset: u32,
    changes: &[Change],
) -> Result<u32, AllocError>
    requires fits { AllByRecursion IsChange changes.now }
    requires room { offset + group_size (transaction_values changes.now) < 2 ^ 32 }
    ensures cells { OnOk result (out.new.items ≡ out.old.items ++ specs.kept_changes extent offset changes.now) }
    ensures next { IfOk result (λ next. next ≡ offset + group_size (transaction_values changes.now)) }
{
    let mut next = offset;
    for change in changes {
        let (kept, after) = kept_change(extent, next, change)?;
        out.push(kept)?;
        next = after;
    }
    Ok(next)
}

fn put_all_cells(
    out: &mut Vec<(Bytes, Cell)>,
    extent: ExtentId,
    offset: u32,
    all: &[Changes],
) -> Result<(), AllocError>
    requires fits { AllByRecursion IsTransaction all.now }
    requires room { offset + group_size (flat_map transaction_values all.now) < 2 ^ 32 }
    ensures { OnOk result (out.new.items
        ≡ out.old.items ++ flat_map (λ t. t) (specs.kept_transactions extent offset all.now)) }
{
    let mut next = offset;
    for changes in all {
        next = put_cells(out, extent, next, changes.as_slice())?;
    }
    Ok(())
}

/// The offset after the large values of a transaction, the first of which stands at this one; it must fit 32 bits.
pub fn offset_after(offset: u32, changes: &[Change]) -> u32
    requires { offset + group_size (transaction_values changes.now) < 2 ^ 32 }
    ensures { result ≡ offset + group_size (transaction_values changes.now) }
{
    let mut next = offset;
    for change in changes {
        if let Some(value) = &change.value
            && is_large(value)
        {
            next += value.len() as u32;
        }
    }
    next
}

/// The offset after the large values of some transactions.
fn offset_after_all(offset: u32, all: &[Changes]) -> u32
    requires { offset + group_size (flat_map transaction_values all.now) < 2 ^ 32 }
    ensures { result ≡ offset + group_size (flat_map transaction_values all.now) }
{
    let mut next = offset;
    for changes in all {
        next = offset_after(next, changes.as_slice());
    }
    next
}

/// What rows keep of the changes of a record whose group stands in the extent from the offset on, transaction by
/// transaction, without the first `old` transactions. Small values share their buffers; an error is out of memory (22).
///
/// That the record fits is the caller's condition, as is that it has so many transactions, and that the group ends below
/// 2^32 in the extent.
pub fn cells_from(
    alloc: Global,
    written: &LogRecord,
    old: usize,
    extent: ExtentId,
    offset: u32,
) -> Result<Vec<(Bytes, Cell)>, AllocError>
    requires fits { Fits written.now }
    requires first { old ≤ length written.now.transactions }
    requires room { offset + group_size (spelling written.now) < 2 ^ 32 }
    ensures kept { IfOk result (λ kept. kept.items ≡ flat_map (λ t. t) (drop old (specs.kept written.now extent offset))) }
    ensures entries { IfOk result (λ kept. AllByRecursion (λ e. IsEntry e.0 e.1) kept.items) }
{
    let all = &written.transactions.items;
    let start = offset + text_size(written);
    let (before, rest) = all.split_at(old);
    let first = offset_after_all(start, before);
    let mut out = Vec::new(alloc);
    put_all_cells(&mut out, extent, first, rest)?;
    Ok(out)
}

/// What rows keep of all changes of a record whose group stands in the extent from the offset on, as `cells_from`.
pub fn cells(
    alloc: Global,
    written: &LogRecord,
    extent: ExtentId,
    offset: u32,
) -> Result<Vec<(Bytes, Cell)>, AllocError>
    requires fits { Fits written.now }
    requires room { offset + group_size (spelling written.now) < 2 ^ 32 }
    ensures kept { IfOk result (λ kept. kept.items ≡ flat_map (λ t. t) (specs.kept written.now extent offset)) }
    ensures entries { IfOk result (λ kept. AllByRecursion (λ e. IsEntry e.0 e.1) kept.items) }
{
    cells_from(alloc, written, 0, extent, offset)
}
