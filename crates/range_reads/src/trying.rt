//! One try of a Get.
ghost use Rattle.std.specs.Prelude.{ℕ, ◌≡◌, ◌+◌, ◌++◌, ◌∷◌, ◌<◌, ◌≤◌, ◌^◌, [], Some, None, map, length, option_to_list, IfOk, OnOk};
ghost use Rattle.range_reads.specs.Lookups.{seen, tried_of};
ghost use Rattle.range_reads.specs.Looking.{answer_of, newest_cell as newest_of, view_content};
ghost use Rattle.memtable.specs.Layers.{cell_at};
ghost use Rattle.model_partition.specs.Getting.{Is, answered as answered_of, try as tries, try_all, try_fault, held_at, asks_place as asks_of, without as without_read};
ghost use Rattle.model_partition.specs.PlaceReads.{places_in as nodes_in};
ghost use Rattle.range_reads.specs.ValueCache.{Values};
ghost use Rattle.model_partition.specs.Range.{RangeState, refuses as refuses_of};

use crate::adding::push_some;
use crate::answered::without;
use crate::asking::{Asking, places_of};
use crate::cache_view::CacheView;
use crate::key_lookup::{Found, newest_cell, value_or_place};
use bytes::Bytes;
use checkpoint::Lookup;
use client::Place as Replica;
use memtable::Place;
use model_partition::{
    PlaceRead, PlaceReads, ServerContext, TableNote, WaitingGet, next_request, reads_place,
};
use std::alloc::{AllocError, Global};
use wire::{ActorId, AppendBody, Body, Packet, Refusal, ReqNo, TableBody};

/// What a try leaves: the Get, if it still waits, the number of the next request, the packet, if there is one, and what is shown
/// of the answer, if it is one.
#[derive(Drop)]
pub(crate) struct OneTry {
    pub(crate) waiting: Option<WaitingGet>,
    pub(crate) count: u64,
    pub(crate) packet: Option<Packet>,
    pub(crate) note: Option<TableNote>,
}

/// What tries leave: the Gets that still wait, the number of the next request, the packets, and the observations.
#[derive(Drop)]
pub(crate) struct Tries {
    pub(crate) waiting: Vec<WaitingGet>,
    pub(crate) count: u64,
    pub(crate) packets: Vec<Packet>,
    pub(crate) notes: Vec<TableNote>,
}

fn with_read(alloc: Global, reads: &PlaceReads, read: PlaceRead) -> Result<PlaceReads, AllocError>
    ensures { IfOk result (λ made. made ≡ reads.now ++ read ∷ []) }
{
    let mut items = reads.items.to_vec(alloc)?;
    items.push(read)?;
    Ok(PlaceReads { items })
}

/// One read more is sent for what a Get needs, if its extent is known.
fn asks_place(
    alloc: Global,
    asking: &Asking<'_>,
    count: u64,
    get: WaitingGet,
    page: bool,
    place: Place,
) -> Result<OneTry, AllocError>
    requires { count + 1 < 2 ^ 64 }
    ensures { IfOk result (λ one. tried_of one ≡ asks_of (record asking.now.context.now { count = count }) get page place
        (nodes_in (asking.now.log.now ++ (asking.now.blob.now ++ asking.now.rows.now)) place.extent)) }
{
    match places_of(asking, place.extent) {
        None => Ok(OneTry {
            waiting: Some(get),
            count,
            packet: None,
            note: None,
        }),
        Some(places) => {
            let request = next_request(&ServerContext {
                count,
                ..*asking.context
            });
            let read = PlaceRead {
                request,
                place,
                page,
                replica: Replica::First,
            };
            match with_read(alloc, &get.reads, read) {
                Ok(reads) => Ok(OneTry {
                    waiting: Some(WaitingGet { reads, ..get }),
                    count: count + 1,
                    packet: Some(reads_place(asking.context, &places, &read)),
                    note: None,
                }),
                Err(full) => Err(full),
            }
        }
    }
}

/// The same value, which shares its bytes.
fn shared(value: &Option<Bytes>) -> Result<Option<Bytes>, AllocError>
    ensures { IfOk result (λ made. made ≡ value.now) }
{
    match value {
        None => Ok(None),
        Some(bytes) => Ok(Some(bytes.clone()?)),
    }
}

/// The packet of a value, or that there is none.
fn tells_value(context: &ServerContext, get: &WaitingGet, value: Option<Bytes>) -> Packet
    ensures { result ≡ answer_of context.now get.now value }
{
    Packet {
        from: ActorId::Server(context.server),
        to: get.from,
        body: Body::Table(TableBody::Value {
            request: get.request,
            value,
        }),
    }
}

/// A Get is answered, and shown with what is told: its key and the value share their bytes.
fn answers(
    asking: &Asking<'_>,
    count: u64,
    get: WaitingGet,
    value: Option<Bytes>,
) -> Result<OneTry, AllocError>
    ensures value { IfOk result (λ one. (held : Values) (r : RangeState)
        → tried_of one ≡ answered_of (record asking.now.context.now { count = count }) (seen asking.now held r) get (Is value)) }
    ensures count { IfOk result (λ one. one.count ≡ count) }
{
    let shown = shared(&value)?;
    let packet = tells_value(asking.context, &get, value);
    let note = TableNote::Got {
        range: asking.range,
        generation: asking.generation,
        key: get.key.into_bytes(),
        value: shown,
    };
    Ok(OneTry {
        waiting: None,
        count,
        packet: Some(packet),
        note: Some(note),
    })
}

/// The packet of a refusal.
pub(crate) fn refuses(context: &ServerContext, get: &WaitingGet, refusal: Refusal) -> Packet
    ensures { result ≡ refuses_of context.now get.now.from get.now.request refusal }
{
    Packet {
        from: ActorId::Server(context.server),
        to: get.from,
        body: Body::Append(AppendBody::Refused {
            request: get.request,
            refusal,
        }),
    }
}

/// Why a Get that waits is answered no more: 34 or 32, the first that is met.
fn try_fault(asking: &Asking<'_>) -> Option<Refusal>
    ensures { (count : ℕ) (held : Values) (r : RangeState) → result ≡ try_fault (record asking.now.context.now { count = count }) (seen asking.now held r) }
{
    if asking.pause.is_paused() {
        return Some(Refusal::Paused);
    }
    if asking.until <= asking.context.moment {
        return Some(Refusal::LeaseEnded);
    }
    None
}

/// A Get is tried, of whose key this was found: refused where the range is paused or the lease has ended, else answered, or one
/// more read is sent for what is missing.
pub(crate) fn one_try(
    alloc: Global,
    asking: &Asking<'_>,
    view: &CacheView<'_>,
    count: u64,
    get: WaitingGet,
    found: &Lookup,
) -> Result<OneTry, AllocError>
    requires { count + 1 < 2 ^ 64 }
    ensures value { IfOk result (λ one. (r : RangeState)
        → found.now ≡ newest_of (held_at (view_content view.now)) asking.now.indexes.now get.key (cell_at asking.now.table.now get.key)
        → tried_of one ≡ tries (record asking.now.context.now { count = count }) (seen asking.now (view_content view.now) r) get) }
    ensures bound { IfOk result (λ one. one.count ≤ count + 1) }
{
    if let Some(refusal) = try_fault(asking) {
        let packet = refuses(asking.context, &get, refusal);
        return Ok(OneTry {
            waiting: None,
            count,
            packet: Some(packet),
            note: None,
        });
    }
    match value_or_place(view, found) {
        Ok(Found::Is(value)) => answers(asking, count, get, value),
        Ok(Found::Needs { page, place }) => asks_place(alloc, asking, count, get, page, place),
        Err(full) => Err(full),
    }
}

/// A Get is looked up and tried.
fn next_try(
    alloc: Global,
    asking: &Asking<'_>,
    view: &CacheView<'_>,
    count: u64,
    get: WaitingGet,
) -> Result<OneTry, AllocError>
    requires { count + 1 < 2 ^ 64 }
    ensures value { IfOk result (λ one. (r : RangeState)
        → tried_of one ≡ tries (record asking.now.context.now { count = count }) (seen asking.now (view_content view.now) r) get) }
    ensures bound { IfOk result (λ one. one.count ≤ count + 1) }
{
    let found = newest_cell(asking, view, &get.key, asking.table.get(&get.key))?;
    one_try(alloc, asking, view, count, get, &found)
}

/// No try yet, with room for what so many leave.
fn no_tries(alloc: Global, count: u64, most: usize) -> Result<Tries, AllocError>
    ensures waiting { IfOk result (λ tries. tries.waiting.items ≡ []) }
    ensures count { IfOk result (λ tries. tries.count ≡ count) }
    ensures packets { IfOk result (λ tries. tries.packets.items ≡ []) }
    ensures notes { IfOk result (λ tries. tries.notes.items ≡ []) }
{
    Ok(Tries {
        waiting: Vec::with_capacity(alloc, most)?,
        count,
        packets: Vec::with_capacity(alloc, most)?,
        notes: Vec::with_capacity(alloc, most)?,
    })
}

/// Each Get in turn is tried without the read that was answered.
pub(crate) fn try_each(
    alloc: Global,
    asking: &Asking<'_>,
    view: &CacheView<'_>,
    answered: &ReqNo,
    gets: &[WaitingGet],
) -> Result<Tries, AllocError>
    requires room { asking.now.context.now.count + 1024 < 2 ^ 64 }
    requires most { length gets.now ≤ 256 }
    ensures value { IfOk result (λ tries. (r : RangeState)
        → try_all asking.now.context.now (seen asking.now (view_content view.now) r) (map (without_read answered.now) gets.now)
        ≡ record { waiting = tries.waiting.items; count = tries.count; packets = tries.packets.items; notes = tries.notes.items }) }
    ensures waiting { IfOk result (λ tries. length tries.waiting.items ≤ length gets.now) }
    ensures packets { IfOk result (λ tries. length tries.packets.items ≤ length gets.now) }
    ensures notes { IfOk result (λ tries. length tries.notes.items ≤ length gets.now) }
{
    let mut tries = no_tries(alloc, asking.context.count, gets.len())?;
    for get in gets {
        let left = without(alloc, answered, get)?;
        let one = next_try(alloc, asking, view, tries.count, left)?;
        take_in(&mut tries, one)?;
    }
    Ok(tries)
}

fn take_in(tries: &mut Tries, one: OneTry) -> Result<(), AllocError>
    ensures waiting { OnOk result (tries.new.waiting.items ≡ tries.old.waiting.items ++ option_to_list one.waiting) }
    ensures count { OnOk result (tries.new.count ≡ one.count) }
    ensures packets { OnOk result (tries.new.packets.items ≡ tries.old.packets.items ++ option_to_list one.packet) }
    ensures notes { OnOk result (tries.new.notes.items ≡ tries.old.notes.items ++ option_to_list one.note) }
{
    let OneTry {
        waiting,
        count,
        packet,
        note,
    } = one;
    push_some(&mut tries.waiting, waiting)?;
    push_some(&mut tries.packets, packet)?;
    push_some(&mut tries.notes, note)?;
    tries.count = count;
    Ok(())
}
