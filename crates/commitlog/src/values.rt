//! The values of a record that is read: small ones from its text, large ones from the blocks after it, which they share.
ghost use Rattle.std.specs.Prelude.{length};
ghost use Rattle.blocks.specs.Format.{Gives};
ghost use Rattle.commitlog.specs.Reading.{value_at, change_of as change_from, changes_of as changes_from, each_of, transactions_of as transactions_from};

use crate::text_cell::{TextCell, TextChanges};
use block_types::BlockFault;
use bytes::Bytes;
use std::alloc::Global;
use wire::{Change, Changes};

/// The value in the next block, which has to have this number and this size.
fn large_of(
    total: usize,
    blocks: &[Bytes],
    number: u8,
    size: u32,
) -> Result<(Option<Bytes>, &[Bytes]), BlockFault>
    ensures { Gives (λ x. (x.0, x.1.now)) result (value_at total blocks.now (TextCell.Large number size)) }
{
    match blocks {
        [] => Err(BlockFault::Damaged),
        [first, rest @ ..] => {
            let length = first.len();
            if number as usize + blocks.len() == total && length == size as usize {
                Ok((Some(first.clone()?), rest))
            } else {
                Err(BlockFault::Damaged)
            }
        }
    }
}

fn value_of<'a>(
    total: usize,
    blocks: &'a [Bytes],
    cell: &TextCell,
) -> Result<(Option<Bytes>, &'a [Bytes]), BlockFault>
    ensures { Gives (λ x. (x.0, x.1.now)) result (value_at total blocks.now cell.now) }
{
    match cell {
        TextCell::Deleted => Ok((None, blocks)),
        TextCell::Inline(value) => Ok((Some(value.clone()?), blocks)),
        TextCell::Large(number, size) => large_of(total, blocks, *number, *size),
    }
}

fn change_of<'a>(
    total: usize,
    blocks: &'a [Bytes],
    key: &Bytes,
    cell: &TextCell,
) -> Result<(Change, &'a [Bytes]), BlockFault>
    ensures { Gives (λ x. (x.0, x.1.now)) result (change_from total blocks.now (key.now, cell.now)) }
{
    let (value, rest) = value_of(total, blocks, cell)?;
    let key = key.clone()?;
    Ok((Change { key, value }, rest))
}

fn changes_of<'a>(
    alloc: Global,
    total: usize,
    blocks: &'a [Bytes],
    items: &[(Bytes, TextCell)],
) -> Result<(Vec<Change>, &'a [Bytes]), BlockFault>
    ensures { Gives (λ x. (x.0.items, x.1.now)) result (changes_from total blocks.now items.now) }
{
    let mut made = Vec::with_capacity(alloc, items.len())?;
    let mut rest = blocks;
    for item in items {
        let (change, after) = change_of(total, rest, &item.0, &item.1)?;
        made.push(change)?;
        rest = after;
    }
    Ok((made, rest))
}

fn all_transactions_of<'a>(
    alloc: Global,
    blocks: &'a [Bytes],
    items: &[TextChanges],
) -> Result<(Vec<Changes>, &'a [Bytes]), BlockFault>
    ensures { Gives (λ x. (x.0.items, x.1.now)) result
        (each_of (changes_from (length blocks.now)) blocks.now items.now) }
{
    let mut made = Vec::with_capacity(alloc, items.len())?;
    let mut rest = blocks;
    for item in items {
        let (changes, after) = changes_of(alloc, blocks.len(), rest, &item.items)?;
        made.push(Changes::of(changes)?)?;
        rest = after;
    }
    Ok((made, rest))
}

/// The transactions with their values, where the blocks are the large ones in order and no other.
#[tactic(auto, unfolding(crate::specs::Reading::transactions_of))]
pub(crate) fn transactions_of(
    alloc: Global,
    blocks: &[Bytes],
    items: &[TextChanges],
) -> Result<Vec<Changes>, BlockFault>
    ensures { Gives (λ x. x.items) result (transactions_from blocks.now items.now) }
{
    let (made, rest) = all_transactions_of(alloc, blocks, items)?;
    if rest.is_empty() {
        Ok(made)
    } else {
        Err(BlockFault::Damaged)
    }
}
