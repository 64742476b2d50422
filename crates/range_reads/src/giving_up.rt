//! Reads that are sent again.
ghost use Rattle.std.specs.Prelude.{◌≡◌, ◌≤◌, ◌-◌, ◌++◌, ◌∷◌, [], length, slice_get, option_map, map, flat_map, IfOk, OnOk, option_to_list};
ghost use Rattle.range_reads.specs.Lookups.{seen};
ghost use Rattle.range_reads.specs.ValueCache.{Values};
ghost use Rattle.range_reads.specs.Moving.{last_asked, last_moved};
ghost use Rattle.model_partition.specs.Getting.{gives_up_get};
ghost use Rattle.model_partition.specs.PlaceReads.{moved_on as moved_read};
ghost use Rattle.model_partition.specs.Range.{RangeState};

use crate::adding::push_some;
use crate::asking::{Asking, places_of};
use model_partition::{PlaceRead, PlaceReads, WaitingGet, moved_on, reads_place};
use std::alloc::{AllocError, Global};
use wire::Packet;

/// A Get whose last read goes to the next place, and the packet of that read, if its extent is known.
#[derive(Drop)]
pub(crate) struct Moved {
    pub(crate) get: WaitingGet,
    pub(crate) packet: Option<Packet>,
}

/// Gets whose last reads go to the next places, and the packets.
#[derive(Drop)]
pub(crate) struct MovedGets {
    pub(crate) gets: Vec<WaitingGet>,
    pub(crate) packets: Vec<Packet>,
}

/// Reads, of which the last has moved on, and that one, if there is one.
#[derive(Drop)]
struct MovedReads {
    reads: Vec<PlaceRead>,
    last: Option<PlaceRead>,
}

fn moved_reads(alloc: Global, reads: &PlaceReads) -> Result<MovedReads, AllocError>
    ensures reads { IfOk result (λ moved. moved.reads.items ≡ last_moved reads.now (slice_get reads.now (length reads.now - 1))) }
    ensures last { IfOk result (λ moved. moved.last ≡ option_map moved_read (slice_get reads.now (length reads.now - 1))) }
{
    let mut made = reads.items.to_vec(alloc)?;
    match reads.items.last() {
        None => Ok(MovedReads {
            reads: made,
            last: None,
        }),
        Some(last) => {
            let at = made.len() - 1;
            made[at] = moved_on(last);
            Ok(MovedReads {
                reads: made,
                last: Some(moved_on(last)),
            })
        }
    }
}

fn asks_again(asking: &Asking<'_>, last: &Option<PlaceRead>) -> Option<Packet>
    ensures { (held : Values) (r : RangeState) → option_to_list result ≡ last_asked asking.now.context.now (seen asking.now held r) last.now }
{
    match last {
        None => None,
        Some(read) => match places_of(asking, read.place.extent) {
            None => None,
            Some(places) => Some(reads_place(asking.context, &places, read)),
        },
    }
}

fn move_on(alloc: Global, asking: &Asking<'_>, get: &WaitingGet) -> Result<Moved, AllocError>
    ensures { IfOk result (λ moved. (held : Values) (r : RangeState)
        → gives_up_get asking.now.context.now (seen asking.now held r) get.now ≡ (moved.get, option_to_list moved.packet)) }
{
    let key = get.key.clone()?;
    let MovedReads { reads, last } = moved_reads(alloc, &get.reads)?;
    let packet = asks_again(asking, &last);
    let get = WaitingGet {
        from: get.from,
        request: get.request,
        key,
        reads: PlaceReads { items: reads },
    };
    Ok(Moved { get, packet })
}

/// No Get yet, with room for so many.
fn none_moved(alloc: Global, most: usize) -> Result<MovedGets, AllocError>
    ensures gets { IfOk result (λ moved. moved.gets.items ≡ []) }
    ensures packets { IfOk result (λ moved. moved.packets.items ≡ []) }
{
    Ok(MovedGets {
        gets: Vec::with_capacity(alloc, most)?,
        packets: Vec::with_capacity(alloc, most)?,
    })
}

/// The last read of each Get goes to the next place of its extent, with its number.
pub(crate) fn move_each(
    alloc: Global,
    asking: &Asking<'_>,
    gets: &[WaitingGet],
) -> Result<MovedGets, AllocError>
    ensures gets { IfOk result (λ moved. (held : Values) (r : RangeState)
        → moved.gets.items ≡ map (λ g. (gives_up_get asking.now.context.now (seen asking.now held r) g).0) gets.now) }
    ensures packets { IfOk result (λ moved. (held : Values) (r : RangeState)
        → moved.packets.items ≡ flat_map (λ g. (gives_up_get asking.now.context.now (seen asking.now held r) g).1) gets.now) }
    ensures count { IfOk result (λ moved. length moved.gets.items ≤ length gets.now) }
    ensures bound { IfOk result (λ moved. length moved.packets.items ≤ length gets.now) }
{
    let mut all = none_moved(alloc, gets.len())?;
    for get in gets {
        let moved = move_on(alloc, asking, get)?;
        add(&mut all, moved)?;
    }
    Ok(all)
}

fn add(all: &mut MovedGets, moved: Moved) -> Result<(), AllocError>
    ensures gets { OnOk result (all.new.gets.items ≡ all.old.gets.items ++ moved.get ∷ []) }
    ensures packets { OnOk result (all.new.packets.items ≡ all.old.packets.items ++ option_to_list moved.packet) }
{
    let Moved { get, packet } = moved;
    all.gets.push(get)?;
    push_some(&mut all.packets, packet)?;
    Ok(())
}
