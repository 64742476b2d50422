//! The records that a split writes: that of the split itself, and those of the keys of the two ranges.
ghost use Rattle.std.specs.Prelude.{◌≡◌, ◌∷◌, ◌<◌, ◌^◌, [], true, IfOk};
ghost use Rattle.metadata.specs.declared.record.MetaItem.TheVariants.{Ranges};
ghost use Rattle.metadata.specs.Record.{IsHigh, IsKey, IsKeyRange, spelling};
ghost use Rattle.model_partition.specs.Splits as rules;
ghost use Rattle.range_split.specs.Rooms.{record_if};

use bytes::Bytes;
use client::Appending;
use memtable::MAX_KEY;
use metadata::{KeyRange, MetaItem, MetaRecord, copied_keys, encode};
use model_partition::{Side, SplitJob};
use range_checkpoint::appending_of;
use range_core::RangeState;
use std::alloc::{AllocError, Global};
use wire::RangeId;

fn is_record_key(key: &Bytes) -> bool
    ensures value { result ≡ rules.is_record_key key.now }
    ensures fits { result ≡ true → IsKey key.now }
{
    1 <= key.len() && key.len() <= MAX_KEY
}

fn is_record_end(end: &Option<Bytes>) -> bool
    ensures value { result ≡ rules.is_record_end end.now }
    ensures fits { result ≡ true → IsHigh end.now }
{
    match end {
        None => true,
        Some(key) => is_record_key(key),
    }
}

/// Whether the keys of a range, and the key that splits it, have their bytes.
fn have_key_bytes(keys: &KeyRange, key: &Bytes) -> bool
    ensures value { result ≡ rules.have_key_bytes keys.now key.now }
    ensures range { result ≡ true → IsKeyRange keys.now }
    ensures key { result ≡ true → IsKey key.now }
{
    keys.low.len() <= MAX_KEY && is_record_end(&keys.high) && is_record_key(key)
}

/// The number of a range, which has 64 bits.
fn fit_range(range: u64) -> RangeId
    ensures value { result ≡ range }
    ensures fits { result < 2 ^ 64 }
{
    RangeId(range)
}

/// The same key again, which shares its bytes.
fn copied_key(key: &Bytes) -> Result<Bytes, AllocError>
    requires { IsKey key.now }
    ensures value { IfOk result (λ copy. copy ≡ key.now) }
    ensures fits { IfOk result IsKey }
{
    Ok(key.clone()?)
}

/// Whether the record of a split has a number, and all that stands in it has its bytes.
fn has_record(job: &SplitJob) -> bool
    ensures value { result ≡ rules.has_record job.now }
    ensures number { result ≡ true → 0 < job.now.number }
    ensures key { result ≡ true → IsKey job.now.key }
{
    // For the clause: the numbers of the two ranges have 64 bits.
    let _low = job.low.0;
    let _high = job.high.0;
    0 < job.number && is_record_key(&job.key)
}

/// The record of a split under a number, ready to be appended.
fn split_append(alloc: Global, number: u64, job: &SplitJob) -> Result<Appending, AllocError>
    requires number { 0 < number }
    requires key { IsKey job.now.key }
    ensures { IfOk result (λ blocks. blocks ≡ spelling (record { number = number; item = rules.split_item job.now }) ∷ []) }
{
    let key = copied_key(&job.key)?;
    let low = fit_range(job.low.0);
    let high = fit_range(job.high.0);
    let record = MetaRecord {
        number,
        item: MetaItem::SplitStatus { low, high, key },
    };
    match encode(alloc, &record) {
        Ok(group) => appending_of(&group),
        Err(_full) => Err(AllocError),
    }
}

/// The record of a split, ready to be appended, if it has one. An error is out of memory (22).
pub(crate) fn record_of(alloc: Global, job: &SplitJob) -> Result<Option<Appending>, AllocError>
    ensures { IfOk result (λ blocks. blocks ≡ record_if job.now) }
{
    if !has_record(job) {
        return Ok(None);
    }
    Ok(Some(split_append(alloc, job.number, job)?))
}

/// Whether the records of the keys can be written.
pub(crate) fn may_say_keys(state: &RangeState, job: &SplitJob) -> bool
    ensures value { result ≡ rules.may_say_keys state.now job.now }
    ensures number { result ≡ true → 0 < state.now.said.next }
    ensures range { result ≡ true → IsKeyRange state.now.said.keys }
    ensures key { result ≡ true → IsKey job.now.key }
{
    let said = &state.content.said;
    0 < said.next && have_key_bytes(&said.keys, &job.key)
}

/// The keys of one of the two ranges.
fn side_keys(keys: &KeyRange, key: &Bytes, side: Side) -> Result<KeyRange, AllocError>
    requires range { IsKeyRange keys.now }
    requires key { IsKey key.now }
    ensures value { IfOk result (λ made. made ≡ rules.side_keys keys.now key.now side) }
    ensures fits { IfOk result IsKeyRange }
{
    let mut all = copied_keys(keys)?;
    match side {
        Side::Low => all.high = Some(key.clone()?),
        Side::High => all.low = key.clone()?,
    }
    Ok(all)
}

/// The record of some keys under a number, ready to be appended.
fn keys_append(alloc: Global, number: u64, keys: KeyRange) -> Result<Appending, AllocError>
    requires number { 0 < number }
    requires fits { IsKeyRange keys }
    ensures { IfOk result (λ blocks. blocks ≡ spelling (record { number = number; item = Ranges keys }) ∷ []) }
{
    let record = MetaRecord {
        number,
        item: MetaItem::Ranges { keys },
    };
    match encode(alloc, &record) {
        Ok(group) => appending_of(&group),
        Err(_full) => Err(AllocError),
    }
}

/// The record of the keys of one of the two ranges, under the next number of the range's own metadata, ready to be appended. An
/// error is out of memory (22).
pub(crate) fn keys_record(
    alloc: Global,
    state: &RangeState,
    job: &SplitJob,
    side: Side,
) -> Result<Appending, AllocError>
    requires number { 0 < state.now.said.next }
    requires range { IsKeyRange state.now.said.keys }
    requires key { IsKey job.now.key }
    ensures { IfOk result (λ blocks. blocks ≡ spelling (rules.keys_record state.now job.now side) ∷ []) }
{
    let said = &state.content.said;
    let keys = side_keys(&said.keys, &job.key, side)?;
    keys_append(alloc, said.next, keys)
}
