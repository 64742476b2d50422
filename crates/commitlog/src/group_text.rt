//! The text of a group as it grows, transaction by transaction.
ghost use Rattle.std.specs.Prelude.{◌≡◌, ◌+◌, ◌<◌, ◌≤◌, ◌^◌, ◌++◌, ◌∷◌, [], length, nat_le, true, false, Ok, IfOk, OnOk, OnErr};
ghost use Rattle.blocks.specs.Record.{number};
ghost use Rattle.commitlog.specs.Record.{transaction_values, transaction_bytes, text_changes, piece_count, spelling, IsTransaction};
ghost use Rattle.commitlog.specs.Sizes.{HasRoom};

use crate::writing::{pieces_of, put_transaction, put_values};
use block_types::{Group, MAX_BLOCK, MAX_BLOCKS};
use blocks::writer::{put_u16, put_u32, put_u64};
use bytes::Bytes;
use std::alloc::{AllocError, Global};
use std::marker::Model;
use wire::Change;

/// The bytes of a text before its first transaction.
const HEADER: usize = 14;

/// The text of a group as it grows. Its value is the list of the transactions whose text it holds.
#[derive(Drop)]
pub struct GroupText {
    /// The bytes of the transactions, without what stands before them.
    text: Vec<u8>,
    /// Their large values, a block each, which share their buffers.
    values: Vec<Bytes>,
    count: usize,
    /// Where a transaction is encoded before it is known to fit, kept for the next one.
    scratch: Vec<u8>,
}

impl Model for GroupText {
    ghost use Rattle.std.specs.Prelude.{List};
    ghost use Rattle.wire.specs.declared.transaction.Change.{Change};

    ghost Value = { List (List Change) };

    ghost use Rattle.commitlog.specs.Growing.{held, IsTextOf};

    ghost view = { λ g. held g.text.items g.values.items g.count };

    ghost invariant = { λ g. IsTextOf (held g.text.items g.values.items g.count) g.text.items g.values.items g.count };
}

/// The bytes of a transaction alone, where the next large value has this number, and the number of the one after its own.
fn encoded(scratch: &mut Vec<u8>, number: u32, changes: &[Change]) -> Result<u32, AllocError>
    requires fits { IsTransaction changes.now }
    requires room { number + length (transaction_values changes.now) ≤ 256 }
    ensures text { OnOk result (scratch.new.items ≡ transaction_bytes (text_changes number changes.now)) }
    ensures next { IfOk result (λ next. next ≡ number + length (transaction_values changes.now)) }
{
    scratch.clear();
    put_transaction(scratch, number, changes)
}

/// Whether a text of so many bytes and so many large values are at most 64 blocks.
fn has_room(size: usize, values: u32) -> bool
    requires { size + 65535 < 2 ^ 64 }
    ensures { result ≡ nat_le (piece_count size + values) 64 }
{
    let pieces = (size + (MAX_BLOCK as usize - 1)) / MAX_BLOCK as usize;
    pieces + values as usize <= MAX_BLOCKS as usize
}

/// Moves the bytes of a transaction after the others, and adds its large values, which share their buffers. Where memory
/// runs out neither has changed.
fn take(
    text: &mut Vec<u8>,
    values: &mut Vec<Bytes>,
    encoded: &mut Vec<u8>,
    changes: &[Change],
) -> Result<(), AllocError>
    requires { IsTransaction changes.now }
    ensures text { OnOk result (text.new.items ≡ text.old.items ++ encoded.old.items) }
    ensures values { OnOk result (values.new.items ≡ values.old.items ++ transaction_values changes.now) }
    ensures err { OnErr result ((text.new.items ≡ text.old.items) × (values.new.items ≡ values.old.items)) }
{
    let mut more = Vec::new(*values.allocator());
    put_values(&mut more, changes)?;
    text.reserve(encoded.len())?;
    values.append(&mut more)?;
    let moved: Result<(), AllocError> = text.append(encoded);
    moved.unwrap();
    Ok(())
}

/// The text of a record: how long it is, the first number, how many transactions, and their bytes.
fn headed(
    alloc: Global,
    first: u64,
    count: u16,
    mut transactions: Vec<u8>,
) -> Result<Vec<u8>, AllocError>
    requires { 14 + length transactions.items < 2 ^ 32 }
    ensures { IfOk result (λ text. text.items
        ≡ number 4 (14 + length transactions.items) ++ (number 8 first ++ (number 2 count ++ transactions.items))) }
{
    let size = HEADER + transactions.len();
    let mut text = Vec::with_capacity(alloc, size)?;
    put_u32(&mut text, size as u32)?;
    put_u64(&mut text, first)?;
    put_u16(&mut text, count)?;
    text.append(&mut transactions)?;
    Ok(text)
}

impl GroupText {
    /// Of no transaction. Takes no memory.
    pub fn new(alloc: Global) -> GroupText
        ensures { result ≡ [] }
    {
        GroupText {
            text: Vec::new(alloc),
            values: Vec::new(alloc),
            count: 0,
            scratch: Vec::new(alloc),
        }
    }

    /// Encodes one more transaction, once, and holds it exactly if the group then has at most 64 blocks, whatever the first
    /// number; else nothing has changed. An error is out of memory (22), and nothing has changed then.
    ///
    /// That the transaction is in range is the caller's condition.
    pub fn add(&mut self, changes: &[Change], encodings: &mut u64) -> Result<bool, AllocError>
        requires fits { IsTransaction changes.now }
        requires room { encodings.old + 1 < 2 ^ 64 }
        ensures counts { encodings.new ≡ encodings.old + 1 }
        ensures taken { result ≡ Ok true → (self.new ≡ self.old ++ changes.now ∷ []) × HasRoom self.new }
        ensures full { result ≡ Ok false → (self.new ≡ self.old) × (HasRoom (self.old ++ changes.now ∷ []) → ⊥) }
        ensures err { OnErr result (self.new ≡ self.old) }
    {
        *encodings += 1;
        let number = self.values.len() as u32;
        let next = encoded(&mut self.scratch, number, changes)?;
        let size = HEADER + self.text.len() + self.scratch.len();
        if !has_room(size, next) {
            return Ok(false);
        }
        take(&mut self.text, &mut self.values, &mut self.scratch, changes)?;
        self.count += 1;
        Ok(true)
    }

    /// The group of the record of these transactions, numbered from `first` on: the pieces of its text, and then the large
    /// values. That they are fewer than 2^16 is the caller's condition. An error is out of memory (22).
    pub fn group(self, alloc: Global, first: u64) -> Result<Group, AllocError>
        requires { length self < 2 ^ 16 }
        ensures { IfOk result (λ group. group ≡ spelling (record { first = first; transactions = self })) }
    {
        let GroupText {
            text,
            mut values,
            count,
            scratch: _,
        } = self;
        let whole = headed(alloc, first, count as u16, text)?;
        let mut made = pieces_of(alloc, whole)?;
        made.append(&mut values)?;
        Group::of(made)
    }
}
