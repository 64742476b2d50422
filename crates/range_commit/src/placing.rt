//! What rows keep of the transactions of a group.
ghost use Rattle.std.specs.Prelude.{◌≡◌, ◌+◌, ◌<◌, ◌^◌, ◌++◌, map, IfOk, OnOk};
ghost use Rattle.std.specs.List.{AllByRecursion, flat_map};
ghost use Rattle.block_types.specs.Limits.{group_size};
ghost use Rattle.memtable.specs.Cell.{IsEntry};
ghost use Rattle.commitlog.specs.Record.{transaction_values};
ghost use Rattle.commitlog.specs.Places.{kept_transactions};
ghost use Rattle.commitlog.specs.Sizes.{text_size};
ghost use Rattle.range_commit.specs.Queue.{AreTransactions};

use bytes::Bytes;
use commitlog::{offset_after, put_cells};
use memtable::Cell;
use model_partition::WaitingTransaction;
use std::alloc::{AllocError, Global};
use wire::ExtentId;

/// How many bytes the large values have.
fn values_size(group: &[WaitingTransaction]) -> u32
    requires { group_size (flat_map transaction_values (map (λ t. t.changes) group.now)) < 2 ^ 32 }
    ensures { result ≡ group_size (flat_map transaction_values (map (λ t. t.changes) group.now)) }
{
    let mut size = 0;
    for transaction in group {
        size = offset_after(size, transaction.changes.as_slice());
    }
    size
}

fn put_all_cells(
    out: &mut Vec<(Bytes, Cell)>,
    extent: ExtentId,
    offset: u32,
    group: &[WaitingTransaction],
) -> Result<(), AllocError>
    requires fits { AreTransactions group.now }
    requires room { offset + group_size (flat_map transaction_values (map (λ t. t.changes) group.now)) < 2 ^ 32 }
    ensures { OnOk result (out.new.items
        ≡ out.old.items ++ flat_map (λ t. t) (kept_transactions extent offset (map (λ t. t.changes) group.now))) }
{
    let mut next = offset;
    for transaction in group {
        next = put_cells(out, extent, next, transaction.changes.as_slice())?;
    }
    Ok(())
}

/// What rows keep of the changes of a group of so many bytes that stands in the extent from the offset on, in order: the large
/// values stand after its text.
pub(crate) fn cells_of(
    alloc: Global,
    group: &[WaitingTransaction],
    size: u32,
    extent: ExtentId,
    offset: u32,
) -> Result<Vec<(Bytes, Cell)>, AllocError>
    requires fits { AreTransactions group.now }
    requires sized { size ≡ text_size (map (λ t. t.changes) group.now)
        + group_size (flat_map transaction_values (map (λ t. t.changes) group.now)) }
    requires room { offset + size < 2 ^ 32 }
    ensures kept { IfOk result (λ kept. kept.items
        ≡ flat_map (λ t. t) (kept_transactions extent (offset + text_size (map (λ t. t.changes) group.now)) (map (λ t. t.changes) group.now))) }
    ensures entries { IfOk result (λ kept. AllByRecursion (λ e. IsEntry e.0 e.1) kept.items) }
{
    let first = offset + (size - values_size(group));
    let mut out = Vec::new(alloc);
    put_all_cells(&mut out, extent, first, group)?;
    Ok(out)
}
