//! The Gets that wait, and the pages and values that are held for them.
ghost use Rattle.std.specs.Prelude.{◌≡◌, ◌+◌, ◌<◌, ◌≤◌, ◌^◌, [], None, Some, length, map, flat_map, option_to_list, IfOk, OnErr, OnOk};
ghost use Rattle.std.specs.List.{list_any};
ghost use Rattle.range_reads.specs.ValueCache.{with_fresh};
ghost use Rattle.range_reads.specs.Lookups.{Sees, IsOf};
ghost use Rattle.model_partition.specs.Answering.{get_awaits};
ghost use Rattle.model_partition.specs.Getting.{bytes_rule, gets as gets_of, gives_up_get};
ghost use Rattle.model_partition.specs.PlaceReads.{place_of};
ghost use Rattle.model_partition.specs.Range.{RangeState, refuses as refuses_of};
ghost use Rattle.wire.specs.declared.refusal.Refusal.TheVariants as refusals;

use crate::adding::push_some;
use crate::asking::Asking;
use crate::awaited::{fresh_of, read_of, refusals_of, some_awaits};
use crate::cache_view::CacheView;
use crate::giving_up::{MovedGets, move_each};
use crate::kept::Kept;
use crate::key_lookup::newest_cell;
use crate::trying::{OneTry, Tries, one_try, try_each};
use crate::usage::{pages_used, promote_each, promote_some, value_used};
use crate::value_cache::{Fresh, ValueCache};
use bytes::Bytes;
use checkpoint::{Lookup, Pages};
use memtable::{Key, Place};
use model_partition::{PlaceReads, ServerContext, TableNote, WaitingGet};
use std::alloc::{AllocError, Global};
use std::marker::Model;
use wire::{ActorId, ExtentId, Packet, ReqNo};

/// How many Gets of a range wait at most.
pub const MAX_GETS: usize = 256;

/// What a step leaves: the number of the server's next request, the packets, and the observations.
#[derive(Drop)]
pub struct Tried {
    pub count: u64,
    pub packets: Vec<Packet>,
    pub notes: Vec<TableNote>,
}

/// The Gets of a range that wait, at most 256, and the pages and values that were read for Gets, the most recently used first.
pub struct Lookups {
    gets: Vec<WaitingGet>,
    held: ValueCache,
}

// Written out, so that a crate above that lets one go has no proof of what is in it.
impl Drop for Lookups {
    fn drop(self) {
        let Lookups { gets: _, held: _ } = self;
    }
}

impl Model for Lookups {
    ghost use Rattle.std.specs.Prelude.{◌≤◌, length};
    ghost use Rattle.range_reads.specs.ValueCache.{with_fresh};
    ghost use Rattle.range_reads.specs.Lookups.{LookupsState};

    ghost Value = { LookupsState };

    ghost view = { λ l. record { gets = l.gets.items; held = l.held } };

    ghost invariant = { λ l. length l.gets.items ≤ 256 };
}

/// What is held is at hand: a page that was read for a Get, or a value, by its place.
impl Pages for Lookups {
    ghost use Rattle.model_partition.specs.Getting.{held_at};

    ghost source = { λ l. held_at l.held };

    fn page(&self, place: &Place) -> Option<&Bytes> {
        match self.held.value(place) {
            None => None,
            Some(kept) => Some(kept.bytes()),
        }
    }

    fn find_at(&self, place: &Place, key: &[u8]) -> Result<Option<Lookup>, AllocError> {
        match self.held.value(place) {
            None => Ok(Some(Lookup::Need(*place))),
            Some(kept) => kept.find_at(place, key),
        }
    }
}

/// A list of what there may be.
fn list_of<T: Drop>(alloc: Global, item: Option<T>) -> Result<Vec<T>, AllocError>
    ensures { IfOk result (λ items. items.items ≡ option_to_list item) }
{
    let mut items = Vec::new(alloc);
    push_some(&mut items, item)?;
    Ok(items)
}

fn hold_some(held: &mut ValueCache, fresh: Option<Fresh>) -> Result<(), AllocError>
    ensures ok { OnOk result (held.new ≡ with_fresh held.old fresh) }
    ensures err { OnErr result (held.new ≡ held.old) }
{
    match fresh {
        None => Ok(()),
        Some(came) => held.put(came),
    }
}

impl Lookups {
    /// No Get waits and nothing is held. An error is out of memory (22).
    pub fn new(alloc: Global) -> Result<Lookups, AllocError>
        ensures { IfOk result (λ made. made ≡ record { gets = []; held = [] }) }
    {
        let held = ValueCache::new(alloc)?;
        Ok(Lookups {
            gets: Vec::new(alloc),
            held,
        })
    }

    /// How many Gets wait, at most 256.
    pub fn count(&self) -> usize
        ensures value { result ≡ length self.now.gets }
        ensures bound { result ≤ 256 }
    {
        self.gets.len()
    }

    /// Whether a Get waits for an answer of this number.
    pub fn awaits(&self, number: &ReqNo) -> bool
        ensures { result ≡ list_any (λ g. get_awaits g number.now) self.now.gets }
    {
        some_awaits(&self.gets, number)
    }

    /// A Get of a key that is not refused otherwise: it is refused where the range is paused or the lease has ended, else answered, or kept, with a read
    /// of what it needs. That there is room for it and a number for the read is the caller's condition. Where the memory table has
    /// no cell of the key, the pages that may have it become the most recently used, that of the oldest index last, and then the
    /// value that it finds. What is answered is shown. Where memory runs out (22) nothing has changed.
    pub fn get(
        &mut self,
        alloc: Global,
        asking: &Asking<'_>,
        from: ActorId,
        number: ReqNo,
        key: Bytes,
    ) -> Result<Tried, AllocError>
        requires room { length self.old.gets < 256 }
        requires numbers { asking.now.context.now.count + 1024 < 2 ^ 64 }
        ensures ok { IfOk result (λ tried. (r : RangeState) → Sees r asking.now → IsOf r self.old
            → gets_of asking.now.context.now r from number key None
            ≡ record { after = Some (record r { gets = self.new.gets; held = self.new.held }); count = tried.count; packets = tried.packets.items; notes = tried.notes.items }) }
        ensures bound { IfOk result (λ tried. length tried.packets.items ≤ 256) }
        ensures few { IfOk result (λ tried. length tried.notes.items ≤ 256) }
        ensures err { OnErr result (self.new ≡ self.old) }
    {
        let view = CacheView {
            held: &self.held,
            fresh: &None,
        };
        let key = Key::of(key);
        let cell = asking.table.get(&key);
        let found = newest_cell(asking, &view, &key, cell)?;
        let place = value_used(&found);
        let pages = pages_used(alloc, asking.indexes, &key, cell)?;
        let get = WaitingGet {
            from,
            request: number,
            key,
            reads: PlaceReads {
                items: Vec::new(alloc),
            },
        };
        let one = one_try(alloc, asking, &view, asking.context.count, get, &found)?;
        let OneTry {
            waiting,
            count,
            packet,
            note,
        } = one;
        let packets = list_of(alloc, packet)?;
        let notes = list_of(alloc, note)?;
        push_some(&mut self.gets, waiting)?;
        promote_each(&mut self.held, &pages);
        promote_some(&mut self.held, &place);
        Ok(Tried {
            count,
            packets,
            notes,
        })
    }

    /// The bytes of a read of this number have come: each Get is tried again, without that read. They are held only where a read
    /// of this number asked for just these. Where a page was asked for and the bytes spell none, nothing changes and nothing is
    /// sent. What is answered is shown. Where memory runs out (22) nothing has changed.
    pub fn bytes(
        &mut self,
        alloc: Global,
        asking: &Asking<'_>,
        number: &ReqNo,
        extent: ExtentId,
        offset: u32,
        bytes: &Bytes,
    ) -> Result<Tried, AllocError>
        requires { asking.now.context.now.count + 1024 < 2 ^ 64 }
        ensures ok { IfOk result (λ tried. (r : RangeState) → Sees r asking.now → IsOf r self.old
            → bytes_rule asking.now.context.now r number.now (place_of extent offset bytes.now) bytes.now
            ≡ record { after = Some (record r { gets = self.new.gets; held = self.new.held }); count = tried.count; packets = tried.packets.items; notes = tried.notes.items }) }
        ensures bound { IfOk result (λ tried. length tried.packets.items ≤ 256) }
        ensures few { IfOk result (λ tried. length tried.notes.items ≤ 256) }
        ensures err { OnErr result (self.new ≡ self.old) }
    {
        let asked = read_of(&self.gets, number);
        let kept = Kept::of(alloc, &asked, bytes)?;
        let Some(kept) = kept else {
            return Ok(Tried {
                count: asking.context.count,
                packets: Vec::new(alloc),
                notes: Vec::new(alloc),
            });
        };
        let fresh = fresh_of(&asked, extent, offset, kept);
        let view = CacheView {
            held: &self.held,
            fresh: &fresh,
        };
        let tries = try_each(alloc, asking, &view, number, &self.gets)?;
        hold_some(&mut self.held, fresh)?;
        let Tries {
            waiting,
            count,
            packets,
            notes,
        } = tries;
        self.gets = waiting;
        Ok(Tried {
            count,
            packets,
            notes,
        })
    }

    /// The last read of each Get goes to the next place of its extent, with its number. Where memory runs out (22) nothing has
    /// changed.
    pub fn give_up(&mut self, alloc: Global, asking: &Asking<'_>) -> Result<Vec<Packet>, AllocError>
        ensures gets { OnOk result ((r : RangeState) → Sees r asking.now
            → self.new ≡ record self.old { gets = map (λ g. (gives_up_get asking.now.context.now r g).0) self.old.gets }) }
        ensures packets { IfOk result (λ packets. (r : RangeState) → Sees r asking.now
            → packets.items ≡ flat_map (λ g. (gives_up_get asking.now.context.now r g).1) self.old.gets) }
        ensures bound { IfOk result (λ packets. length packets.items ≤ 256) }
        ensures err { OnErr result (self.new ≡ self.old) }
    {
        let moved = move_each(alloc, asking, &self.gets)?;
        let MovedGets { gets, packets } = moved;
        self.gets = gets;
        Ok(packets)
    }

    /// Each Get is told that this server does not hold the range. An error is out of memory (22).
    pub fn refusals(
        &self,
        alloc: Global,
        context: &ServerContext,
    ) -> Result<Vec<Packet>, AllocError>
        ensures packets { IfOk result (λ told. told.items
            ≡ map (λ g. refuses_of context.now g.from g.request refusals.NotOwner) self.now.gets) }
        ensures bound { IfOk result (λ told. length told.items ≤ 256) }
    {
        refusals_of(alloc, context, &self.gets)
    }
}
