//! Which reads the Gets wait for, and what those who wait are told.
ghost use Rattle.std.specs.Prelude.{◌≡◌, None, Some, map, IfOk};
ghost use Rattle.std.specs.List.{list_any};
ghost use Rattle.client.specs.Requests.{is_same as are_same};
ghost use Rattle.model_partition.specs.Answering.{get_awaits};
ghost use Rattle.model_partition.specs.Getting.{read_at, read_in as found_in};
ghost use Rattle.model_partition.specs.PlaceReads.{place_of};
ghost use Rattle.range_reads.specs.Caching.{IsFor};
ghost use Rattle.model_partition.specs.Range.{refuses as refuses_of};
ghost use Rattle.wire.specs.declared.refusal.Refusal.TheVariants as refusals;

use crate::kept::Kept;
use crate::trying::refuses;
use crate::value_cache::Fresh;
use model_partition::{PlaceRead, ServerContext, WaitingGet};
use std::alloc::{AllocError, Global};
use wire::{ExtentId, Packet, Refusal, ReqNo};

fn read_in(reads: &[PlaceRead], number: &ReqNo) -> Option<PlaceRead>
    ensures { result ≡ found_in reads.now number.now }
{
    reads.iter().find(|read| read.request == *number).copied()
}

/// The read of this number.
pub(crate) fn read_of(gets: &[WaitingGet], number: &ReqNo) -> Option<PlaceRead>
    ensures { result ≡ read_at gets.now number.now }
{
    for get in gets {
        if let Some(read) = read_in(&get.reads.items, number) {
            return Some(read);
        }
    }
    None
}

/// The bytes, to be held, if these were asked for.
pub(crate) fn fresh_of(
    asked: &Option<PlaceRead>,
    extent: ExtentId,
    offset: u32,
    bytes: Kept,
) -> Option<Fresh>
    ensures there { IsFor asked.now (place_of extent offset bytes)
        → result ≡ Some (record { place = place_of extent offset bytes; bytes = bytes }) }
    ensures other { (IsFor asked.now (place_of extent offset bytes) → ⊥) → result ≡ None }
{
    match asked {
        None => None,
        Some(read) => {
            let place = read.place;
            if place.extent.0 == extent.0
                && place.offset == offset
                && place.length as usize == bytes.bytes().len()
            {
                Some(Fresh { place, bytes })
            } else {
                None
            }
        }
    }
}

fn is_awaited(reads: &[PlaceRead], number: &ReqNo) -> bool
    ensures { result ≡ list_any (λ read. are_same read.request number.now) reads.now }
{
    reads.iter().any(|read| read.request == *number)
}

/// Whether a Get waits for an answer of this number.
pub(crate) fn some_awaits(gets: &[WaitingGet], number: &ReqNo) -> bool
    ensures { result ≡ list_any (λ g. get_awaits g number.now) gets.now }
{
    gets.iter().any(|get| is_awaited(&get.reads.items, number))
}

/// Each Get is told that this server does not hold the range.
pub(crate) fn refusals_of(
    alloc: Global,
    context: &ServerContext,
    gets: &[WaitingGet],
) -> Result<Vec<Packet>, AllocError>
    ensures { IfOk result (λ packets. packets.items
        ≡ map (λ g. refuses_of context.now g.from g.request refusals.NotOwner) gets.now) }
{
    let mut packets = Vec::with_capacity(alloc, gets.len())?;
    for get in gets {
        packets.push(refuses(context, get, Refusal::NotOwner))?;
    }
    Ok(packets)
}
