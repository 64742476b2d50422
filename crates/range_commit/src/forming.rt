//! The group that is formed next.
ghost use Rattle.std.specs.Prelude.{◌≡◌, ◌+◌, ◌<◌, ◌≤◌, ◌^◌, ℕ, [], false, length, map, take, IfOk, IfSome, IfNone};
ghost use Rattle.block_types.specs.Limits.{group_size};
ghost use Rattle.commitlog.specs.Record.{spelling};
ghost use Rattle.range_commit.specs.Queue.{is_formed, AreTransactions, IsNextGroup};
ghost use Rattle.model_partition.specs.Serving.{began, grown, record_of};

use crate::queue::Queue;
use block_types::Group;
use commitlog::GroupText;
use model_partition::{TableNote, WaitingTransaction};
use std::alloc::{AllocError, Global};
use wire::{Blocks, Fence, RangeId};

/// A group that may be appended: how many transactions it has, how many bytes, its blocks, which share their buffers, and the
/// observations that its transactions got their numbers.
#[derive(Drop)]
pub struct Plan {
    pub count: usize,
    pub size: u32,
    pub blocks: Blocks,
    pub notes: Vec<TableNote>,
}

/// Adds to a text of no transaction those that wait, as long as they fit and the batch allows it, and answers how many.
fn grow(
    text: &mut GroupText,
    waiting: &[WaitingTransaction],
    batch: u16,
    encodings: &mut u64,
) -> Result<usize, AllocError>
    requires transactions { AreTransactions waiting.now }
    requires empty { text.old ≡ [] }
    requires counts { encodings.old + batch < 2 ^ 64 }
    ensures taken { IfOk result (λ count. (next : ℕ) → count ≡ grown next waiting.now 0 batch) }
    ensures text { IfOk result (λ count. text.new ≡ map (λ t. t.changes) (take count waiting.now)) }
    ensures few { IfOk result (λ count. (count ≤ batch) × (count ≤ length waiting.now)) }
    ensures bound { IfOk result (λ count. encodings.new ≤ encodings.old + count + 1) }
{
    let mut count = 0;
    for transaction in waiting {
        if count >= batch as usize {
            return Ok(count);
        }
        if !text.add(transaction.changes.as_slice(), encodings)? {
            return Ok(count);
        }
        count += 1;
    }
    Ok(count)
}

/// The group of the transactions that wait at the front of the queue and are not out, numbered from `first` on, and how many
/// it takes: one more, as long as they fit 64 blocks and the batch allows it. Each is encoded once, and at most one more is, to
/// see that it does not fit. An error is out of memory (22).
pub fn form(
    alloc: Global,
    first: u64,
    queue: &Queue,
    batch: u16,
    encodings: &mut u64,
) -> Result<(Group, usize), AllocError>
    requires { encodings.old < 2 ^ 63 }
    ensures taken { IfOk result (λ x. x.1 ≡ grown first queue.now.queue 0 batch) }
    ensures group { IfOk result (λ x. x.0 ≡ spelling (record_of first (take x.1 queue.now.queue))) }
    ensures bound { IfOk result (λ x. encodings.new ≤ encodings.old + x.1 + 1) }
{
    let waiting = queue.queued();
    let mut text = GroupText::new(alloc);
    let count = grow(&mut text, waiting, batch, encodings)?;
    let group = text.group(alloc, first)?;
    Ok((group, count))
}

fn notes_of(
    alloc: Global,
    range: RangeId,
    generation: Fence,
    first: u64,
    group: &[WaitingTransaction],
) -> Result<Vec<TableNote>, AllocError>
    requires { first + length group.now < 2 ^ 64 }
    ensures { IfOk result (λ notes. notes.items ≡ began range generation first group.now) }
{
    let mut notes = Vec::with_capacity(alloc, group.len())?;
    let mut number = first;
    for transaction in group {
        let changes = transaction.changes.copy()?;
        notes.push(TableNote::Began {
            range,
            generation,
            number,
            changes,
        })?;
        number += 1;
    }
    Ok(notes)
}

fn plan_of(
    alloc: Global,
    range: RangeId,
    generation: Fence,
    next: u64,
    transactions: &[WaitingTransaction],
    group: &Group,
) -> Result<Plan, AllocError>
    requires numbered { next + length transactions.now < 2 ^ 64 }
    requires spelled { group.now ≡ spelling (record_of next transactions.now) }
    ensures count { IfOk result (λ plan. plan.count ≡ length transactions.now) }
    ensures size { IfOk result (λ plan. plan.size ≡ group_size (spelling (record_of next transactions.now))) }
    ensures blocks { IfOk result (λ plan. plan.blocks ≡ spelling (record_of next transactions.now)) }
    ensures notes { IfOk result (λ plan. plan.notes.items ≡ began range generation next transactions.now) }
{
    let blocks = Blocks::of_group(group)?;
    let notes = notes_of(alloc, range, generation, next, transactions)?;
    Ok(Plan {
        count: transactions.len(),
        size: group.size(),
        blocks,
        notes,
    })
}

/// The plan of the group of the first transactions that wait and are not out, if it has one and the numbers fit 64 bits.
pub(crate) fn next_plan(
    alloc: Global,
    queue: &Queue,
    range: RangeId,
    generation: Fence,
    count: usize,
    group: &Group,
) -> Result<Option<Plan>, AllocError>
    requires within { count ≤ length queue.now.queue }
    requires spelled { group.now ≡ spelling (record_of queue.now.next (take count queue.now.queue)) }
    requires blocks { length group.now ≤ 64 }
    ensures some { IfOk result (λ planned. IfSome planned (λ plan. plan.count ≡ count)) }
    ensures none { IfOk result (λ planned. IfNone planned (is_formed queue.now.next count ≡ false)) }
    ensures begins { IfOk result (λ planned. IfSome planned (λ plan. IsNextGroup queue.now.next queue.now.queue plan.count plan.size)) }
    ensures blocks { IfOk result (λ planned. IfSome planned (λ plan. plan.blocks
        ≡ spelling (record_of queue.now.next (take plan.count queue.now.queue)))) }
    ensures notes { IfOk result (λ planned. IfSome planned (λ plan. plan.notes.items
        ≡ began range generation queue.now.next (take plan.count queue.now.queue))) }
{
    let next = queue.next();
    if count == 0 || next.checked_add(count as u64).is_none() {
        return Ok(None);
    }
    let (transactions, _rest) = queue.queued().split_at(count);
    match plan_of(alloc, range, generation, next, transactions, group) {
        Ok(plan) => Ok(Some(plan)),
        Err(full) => Err(full),
    }
}
