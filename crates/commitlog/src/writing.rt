//! Writing a record as a group. The writers of text append what their clauses say, or where memory runs out a part of it.
ghost use Rattle.std.specs.Prelude.{◌≡◌, ◌+◌, ◌<◌, ◌≤◌, ◌^◌, ◌++◌, ◌∷◌, [], length, IfOk, OnOk};
ghost use Rattle.std.specs.List.{AllByRecursion, flat_map};
ghost use Rattle.commitlog.specs.Record.{large, change_values, transaction_values, text_cell, text_change, text_changes, cell_bytes, change_bytes, transaction_bytes, pieces, spelling, HasValue, IsChange, IsTransaction, Fits};
ghost use Rattle.commitlog.specs.Sizes.{HasRoom};

use crate::group_text::GroupText;
use crate::log_record::LogRecord;
use block_types::{Group, MAX_BLOCK};
use blocks::writer::{put_bytes, put_u8, put_u16, put_u32};
use bytes::Bytes;
use memtable::is_large;
use std::alloc::{AllocError, Global};
use wire::{Change, Changes};

/// Appends a cell, and answers the number of the next large value.
fn put_cell(out: &mut Vec<u8>, number: u32, value: &Option<Bytes>) -> Result<u32, AllocError>
    requires fits { HasValue value.now }
    requires room { number + length (large value.now) ≤ 256 }
    ensures text { OnOk result (out.new.items ≡ out.old.items ++ cell_bytes (text_cell number value.now)) }
    ensures next { IfOk result (λ next. next ≡ number + length (large value.now)) }
{
    match value {
        None => {
            put_u8(out, 0)?;
            Ok(number)
        }
        Some(value) => {
            if is_large(value) {
                put_u8(out, 2)?;
                put_u8(out, number as u8)?;
                put_u32(out, value.len() as u32)?;
                Ok(number + 1)
            } else {
                put_u8(out, 1)?;
                put_u32(out, value.len() as u32)?;
                put_bytes(out, value)?;
                Ok(number)
            }
        }
    }
}

/// Appends a change, and answers the number of the next large value.
fn put_change(out: &mut Vec<u8>, number: u32, change: &Change) -> Result<u32, AllocError>
    requires fits { IsChange change.now }
    requires room { number + length (change_values change.now) ≤ 256 }
    ensures text { OnOk result (out.new.items ≡ out.old.items ++ change_bytes (text_change number change.now)) }
    ensures next { IfOk result (λ next. next ≡ number + length (change_values change.now)) }
{
    put_u16(out, change.key.len() as u16)?;
    put_bytes(out, &change.key)?;
    put_cell(out, number, &change.value)
}

/// Appends the changes of a transaction, and answers the number of the next large value.
fn put_changes(out: &mut Vec<u8>, number: u32, changes: &[Change]) -> Result<u32, AllocError>
    requires fits { AllByRecursion IsChange changes.now }
    requires room { number + length (transaction_values changes.now) ≤ 256 }
    ensures text { OnOk result (out.new.items ≡ out.old.items ++ flat_map change_bytes (text_changes number changes.now)) }
    ensures next { IfOk result (λ next. next ≡ number + length (transaction_values changes.now)) }
{
    let mut next = number;
    for change in changes {
        next = put_change(out, next, change)?;
    }
    Ok(next)
}

/// Appends a transaction, and answers the number of the next large value.
pub(crate) fn put_transaction(
    out: &mut Vec<u8>,
    number: u32,
    changes: &[Change],
) -> Result<u32, AllocError>
    requires fits { IsTransaction changes.now }
    requires room { number + length (transaction_values changes.now) ≤ 256 }
    ensures text { OnOk result (out.new.items ≡ out.old.items ++ transaction_bytes (text_changes number changes.now)) }
    ensures next { IfOk result (λ next. next ≡ number + length (transaction_values changes.now)) }
{
    put_u8(out, changes.len() as u8)?;
    put_changes(out, number, changes)
}

/// The pieces of a text, each but the last of 65,536 bytes, which share its buffer. An error is out of memory (22).
pub fn pieces_of(alloc: Global, text: Vec<u8>) -> Result<Vec<Bytes>, AllocError>
    ensures { IfOk result (λ made. made.items ≡ pieces text.items) }
{
    let count = (text.len() + (MAX_BLOCK as usize - 1)) / MAX_BLOCK as usize;
    let mut rest = Bytes::from_vec(text)?;
    let mut made = Vec::with_capacity(alloc, count)?;
    for _ in 0..count {
        let end = rest.len().min(MAX_BLOCK as usize);
        made.push(rest.split_to(end)?)?;
    }
    Ok(made)
}

/// Adds the large value of a change, which shares its buffer.
fn put_value(out: &mut Vec<Bytes>, value: &Option<Bytes>) -> Result<(), AllocError>
    requires { HasValue value.now }
    ensures { OnOk result (out.new.items ≡ out.old.items ++ large value.now) }
{
    match value {
        None => Ok(()),
        Some(value) => {
            if !is_large(value) {
                return Ok(());
            }
            out.push(value.clone()?)?;
            Ok(())
        }
    }
}

pub(crate) fn put_values(out: &mut Vec<Bytes>, changes: &[Change]) -> Result<(), AllocError>
    requires { AllByRecursion IsChange changes.now }
    ensures { OnOk result (out.new.items ≡ out.old.items ++ transaction_values changes.now) }
{
    for change in changes {
        put_value(out, &change.value)?;
    }
    Ok(())
}

/// Adds a transaction that fits.
fn add_fitting(
    text: &mut GroupText,
    changes: &[Change],
    encodings: &mut u64,
) -> Result<(), AllocError>
    requires fits { IsTransaction changes.now }
    requires room { HasRoom (text.old ++ changes.now ∷ []) }
    requires counts { encodings.old + 1 < 2 ^ 64 }
    ensures ok { OnOk result (text.new ≡ text.old ++ changes.now ∷ []) }
    ensures counts { encodings.new ≡ encodings.old + 1 }
{
    match text.add(changes, encodings) {
        Ok(true) => Ok(()),
        Ok(false) => unreachable!(),
        Err(full) => Err(full),
    }
}

/// The text of these transactions.
fn text_of(alloc: Global, all: &[Changes]) -> Result<GroupText, AllocError>
    requires fits { AllByRecursion IsTransaction all.now }
    requires room { HasRoom all.now }
    requires count { length all.now ≤ 1024 }
    ensures { IfOk result (λ text. text ≡ all.now) }
{
    let mut text = GroupText::new(alloc);
    let mut encodings = 0;
    for changes in all {
        add_fitting(&mut text, changes.as_slice(), &mut encodings)?;
    }
    Ok(text)
}

/// The group that a record is spelled as: the pieces of its text, and then its large values, which share their buffers.
///
/// That the record fits is the caller's condition. An error is out of memory (22).
pub fn encode(alloc: Global, written: &LogRecord) -> Result<Group, AllocError>
    requires { Fits written.now }
    ensures { IfOk result (λ group. group ≡ spelling written.now) }
{
    let text = text_of(alloc, &written.transactions.items)?;
    text.group(alloc, written.first)
}
