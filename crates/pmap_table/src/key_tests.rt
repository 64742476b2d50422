//! Tests of the keys of ranges.
ghost use Rattle.std.specs.Prelude.{◌≡◌};
ghost use Rattle.model_partition.specs.Map.{is_split_key};
ghost use Rattle.model_partition.specs.MapRules.{is_beside};

use memtable::MAX_KEY;
use metadata::KeyRange;

/// Whether a range is split at this key: one of 1 to 256 bytes, above the first key of the range, and below its end.
pub fn is_split_key(keys: &KeyRange, key: &[u8]) -> bool
    ensures { result ≡ is_split_key keys.now key.now }
{
    let above = keys.low.as_slice().cmp(key).is_lt();
    let below = match &keys.high {
        None => true,
        Some(high) => key.cmp(high.as_slice()).is_lt(),
    };
    (1..=MAX_KEY).contains(&key.len()) && above && below
}

/// Whether the one ends where the other begins.
pub fn is_beside(keys: &KeyRange, others: &KeyRange) -> bool
    ensures { result ≡ is_beside keys.now others.now }
{
    match &keys.high {
        None => false,
        Some(high) => high.as_slice() == others.low.as_slice(),
    }
}
