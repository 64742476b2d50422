//! Which changes are refused.
ghost use Rattle.std.specs.Prelude.{◌≡◌, None, not, nat_lt};
ghost use Rattle.std.specs.List.{list_any};
ghost use Rattle.commitlog.specs.Record.{IsTransaction};
ghost use Rattle.range_commit.specs.Queue.{changes_fault};
ghost use Rattle.metadata.specs.Keys.{within};
ghost use Rattle.model_partition.specs.Serving.{is_key, value_size};

use bytes::Bytes;
use memtable::{MAX_CHANGES, MAX_KEY, MAX_VALUE};
use metadata::KeyRange;
use wire::{Change, Refusal};

fn is_key(key: &Bytes) -> bool
    ensures { result ≡ is_key key.now }
{
    1 <= key.len() && key.len() <= MAX_KEY
}

fn value_size(value: &Option<Bytes>) -> usize
    ensures { result ≡ value_size value.now }
{
    match value {
        None => 0,
        Some(bytes) => bytes.len(),
    }
}

fn has_bad_key(changes: &[Change]) -> bool
    ensures { result ≡ list_any (λ c. not (is_key c.key)) changes.now }
{
    changes.iter().any(|change| !is_key(&change.key))
}

fn has_large_value(changes: &[Change]) -> bool
    ensures { result ≡ list_any (λ c. nat_lt 65536 (value_size c.value)) changes.now }
{
    changes
        .iter()
        .any(|change| value_size(&change.value) > MAX_VALUE)
}

fn has_key_outside(changes: &[Change], keys: &KeyRange) -> bool
    ensures { result ≡ list_any (λ c. not (within keys.now c.key)) changes.now }
{
    changes
        .iter()
        .any(|change| !keys.contains(change.key.as_slice()))
}

/// Why a range of these keys refuses the changes of a transaction: `TooLarge` (37) where there are none or more than 32,
/// then `BadKey` (36) where a key has no byte or more than 256, then `TooLarge` (37) where a value has more than 65,536
/// bytes, then `OutOfRange` (33) where a key is not of the range. Where none is, a record may hold them.
pub fn change_fault(changes: &[Change], keys: &KeyRange) -> Option<Refusal>
    ensures value { result ≡ changes_fault keys.now changes.now }
    ensures fits { result ≡ None → IsTransaction changes.now }
{
    if changes.is_empty() || changes.len() > MAX_CHANGES {
        return Some(Refusal::TooLarge);
    }
    if has_bad_key(changes) {
        return Some(Refusal::BadKey);
    }
    if has_large_value(changes) {
        return Some(Refusal::TooLarge);
    }
    if has_key_outside(changes, keys) {
        return Some(Refusal::OutOfRange);
    }
    None
}
