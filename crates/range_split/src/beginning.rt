//! How a split begins.
ghost use Rattle.std.specs.Prelude.{◌≡◌, IfOk};
ghost use Rattle.metadata.specs.Keys.{below_high};
ghost use Rattle.model_partition.specs.Map as map;
ghost use Rattle.model_partition.specs.Range.{request};
ghost use Rattle.model_partition.specs.Splits as rules;

use crate::packets::begin_packet;
use bytes::Bytes;
use memtable::MAX_KEY;
use metadata::KeyRange;
use model_partition::{ServerContext, SplitJob, SplitPhase, Stage, next_request};
use range_core::RangeState;
use std::alloc::AllocError;
use wire::{Packet, RangeId, Refusal};

fn is_below(key: &[u8], high: &Option<Bytes>) -> bool
    ensures { result ≡ below_high high.now key.now }
{
    match high {
        None => true,
        Some(high) => key.cmp(high.as_slice()).is_lt(),
    }
}

/// Whether a key splits a range: it has 1 to 256 bytes, and stands above the range's first key and below its end.
fn is_split_key(keys: &KeyRange, key: &Bytes) -> bool
    ensures { result ≡ map.is_split_key keys.now key.now }
{
    1 <= key.len()
        && key.len() <= MAX_KEY
        && keys.low.as_slice().cmp(key.as_slice()).is_lt()
        && is_below(key.as_slice(), &keys.high)
}

/// Why no split of a range begins at a key: 38 until the range is served, 34 while it is paused, 35 while a split or a checkpoint
/// of it is under way, and 39 where the key does not split it, the first that is met; or none. `splits` tells whether a split of it
/// is under way.
pub fn split_fault(state: &RangeState, splits: bool, key: &Bytes) -> Option<Refusal>
    ensures { result ≡ rules.split_fault state.now splits key.now }
{
    let content = &state.content;
    if content.stage != Stage::Serving {
        return Some(Refusal::Loading);
    }
    if state.pause.is_paused() {
        return Some(Refusal::Paused);
    }
    if splits || content.control.is_some() || content.table.fixed().is_some() {
        return Some(Refusal::Busy);
    }
    if !is_split_key(&content.said.keys, key) {
        return Some(Refusal::BadSplitKey);
    }
    None
}

/// A split of a range at a key, and the packet that asks the map for the numbers of the two ranges, under the next number of the
/// server. That nothing refuses it is for the caller to see. An error is out of memory (22).
pub fn begin(
    context: &ServerContext,
    state: &RangeState,
    key: &Bytes,
) -> Result<(SplitJob, Packet), AllocError>
    ensures job { IfOk result (λ x. x.0 ≡ rules.new_split context.now state.now key.now) }
    ensures packet { IfOk result (λ x. x.1 ≡ rules.begin_packet context.now (rules.new_split context.now state.now key.now) (request context.now)) }
{
    let asked = key.clone()?;
    let kept = key.clone()?;
    let request = next_request(context);
    let load = &state.content.load;
    let job = SplitJob {
        range: load.range,
        generation: load.generation,
        key: kept,
        low: RangeId(0),
        high: RangeId(0),
        number: 0,
        phase: SplitPhase::Begin { request },
    };
    let packet = begin_packet(context, &job, asked, &request);
    Ok((job, packet))
}
