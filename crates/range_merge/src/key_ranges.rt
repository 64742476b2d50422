//! Keys of two ranges that are merged.
ghost use Rattle.std.specs.Prelude.{◌≡◌, IfOk};
ghost use Rattle.model_partition.specs.Splits.{is_record_end};
ghost use Rattle.model_partition.specs.JoinedRanges as specs;

use bytes::Bytes;
use memtable::MAX_KEY;
use metadata::KeyRange;
use std::alloc::AllocError;

fn later_low(low: &Bytes, other: &Bytes) -> Result<Bytes, AllocError>
    ensures { IfOk result (λ made. made ≡ specs.later_low low.now other.now) }
{
    if low.as_slice().cmp(other.as_slice()).is_lt() {
        return Ok(other.clone()?);
    }
    Ok(low.clone()?)
}

fn earlier_of(high: &Bytes, other: &Bytes) -> Result<Bytes, AllocError>
    ensures { IfOk result (λ made. made ≡ specs.earlier_of high.now other.now) }
{
    if other.as_slice().cmp(high.as_slice()).is_lt() {
        return Ok(other.clone()?);
    }
    Ok(high.clone()?)
}

fn copied_high(high: &Option<Bytes>) -> Result<Option<Bytes>, AllocError>
    ensures { IfOk result (λ made. made ≡ high.now) }
{
    match high {
        None => Ok(None),
        Some(key) => Ok(Some(key.clone()?)),
    }
}

fn earlier_high(high: &Option<Bytes>, other: &Option<Bytes>) -> Result<Option<Bytes>, AllocError>
    ensures { IfOk result (λ made. made ≡ specs.earlier_high high.now other.now) }
{
    match high {
        None => copied_high(other),
        Some(key) => match other {
            None => copied_high(high),
            Some(end) => Ok(Some(earlier_of(key, end)?)),
        },
    }
}

/// The keys that are in both, which may be none. An error is out of memory (22).
pub(crate) fn meet(keys: &KeyRange, others: &KeyRange) -> Result<KeyRange, AllocError>
    ensures { IfOk result (λ made. made ≡ specs.meet keys.now others.now) }
{
    let low = later_low(&keys.low, &others.low)?;
    let high = earlier_high(&keys.high, &others.high)?;
    Ok(KeyRange { low, high })
}

/// From the first key of the one up to the end of the other. An error is out of memory (22).
pub(crate) fn joined_keys(left: &KeyRange, right: &KeyRange) -> Result<KeyRange, AllocError>
    ensures { IfOk result (λ made. made ≡ record { low = left.now.low; high = right.now.high }) }
{
    let low = left.low.clone()?;
    let high = copied_high(&right.high)?;
    Ok(KeyRange { low, high })
}

fn is_record_end(end: &Option<Bytes>) -> bool
    ensures { result ≡ is_record_end end.now }
{
    match end {
        None => true,
        Some(key) => 1 <= key.len() && key.len() <= MAX_KEY,
    }
}

/// Whether some keys have their bytes.
pub(crate) fn are_record_keys(keys: &KeyRange) -> bool
    ensures { result ≡ specs.are_record_keys keys.now }
{
    keys.low.len() <= MAX_KEY && is_record_end(&keys.high)
}
