//! How many bytes the text of a record has.
ghost use Rattle.std.specs.Prelude.{◌≡◌, ◌≤◌, length};
ghost use Rattle.std.specs.List.{AllByRecursion};
ghost use Rattle.commitlog.specs.Record.{text as text_from, HasValue, IsChange, IsTransaction, Fits};
ghost use Rattle.commitlog.specs.Sizes as specs;

use crate::log_record::LogRecord;
use bytes::Bytes;
use memtable::is_large;
use wire::{Change, Changes};

/// The bytes of a text before its first transaction.
const HEADER: u32 = 14;

fn cell_size(value: &Option<Bytes>) -> u32
    requires { HasValue value.now }
    ensures value { result ≡ specs.cell_size value.now }
    ensures bound { result ≤ 4101 }
{
    match value {
        None => 1,
        Some(value) => {
            if is_large(value) {
                6
            } else {
                5 + value.len() as u32
            }
        }
    }
}

fn change_size(change: &Change) -> u32
    requires { IsChange change.now }
    ensures value { result ≡ specs.change_size change.now }
    ensures bound { result ≤ 4359 }
{
    2 + change.key.len() as u32 + cell_size(&change.value)
}

fn transaction_size(changes: &[Change]) -> u32
    requires { IsTransaction changes.now }
    ensures value { result ≡ specs.transaction_size changes.now }
    ensures bound { result ≤ 139489 }
{
    let mut size = 1;
    for change in changes {
        size += change_size(change);
    }
    size
}

fn sum_of(all: &[Changes]) -> u32
    requires fits { AllByRecursion IsTransaction all.now }
    requires bound { specs.text_size all.now ≤ 4194304 }
    ensures { result ≡ specs.text_size all.now }
{
    let mut size = HEADER;
    for changes in all {
        size += transaction_size(changes.as_slice());
    }
    size
}

/// How many bytes the text of a record has.
pub(crate) fn text_size(written: &LogRecord) -> u32
    requires { Fits written.now }
    ensures value { result ≡ length (text_from written.now) }
    ensures bound { result ≤ 4194304 }
{
    sum_of(&written.transactions.items)
}
