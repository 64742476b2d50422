//! Streams that are built from the lists of others.
ghost use Rattle.std.specs.Prelude.{◌≡◌, ◌≢◌, ◌≤◌, None, Some, true, not, [], max, length, option_map, IfOk, IfErr, IsErrOf, OnOk, OnErr};
ghost use Rattle.std.specs.BTreeMap.{get};
ghost use Rattle.std.specs.List.{list_any};
ghost use Rattle.std.specs.Ordering.{nat_cmp};
ghost use Rattle.streams.specs.Faults.{refusal_of, refusal_in};
ghost use Rattle.streams.specs.Streams.{stream_of, is_there, are_sources, may_list, has_fence, is_open_at_the_end, build_fault, gone_of_first, extents_of, joined_extents, greatest_generation, with_extents, joined, built, modified, modify_fault};
ghost use Rattle.streams.specs.Table.{streams_of, streams_with};

use crate::entries::put_all;
use crate::fault::StreamFault;
use crate::listed::Listed;
use crate::table::StreamTable;
use std::alloc::{AllocError, Global};
use std::collections::BTreeMap;
use wire::{ExtentId, Fence, Modify, Source, StreamName};

/// How many streams are built at once at most, and from how many others each.
const MAX_JOINED: usize = 255;

// ---- the tests

fn are_sources(sources: &[Source]) -> bool
    ensures { result ≡ are_sources sources.now }
{
    0 < sources.len() && sources.len() <= MAX_JOINED
}

fn may_list(list: &[Modify]) -> bool
    ensures { result ≡ may_list list.now }
{
    list.len() <= MAX_JOINED && list.iter().all(|m| are_sources(&m.sources.items))
}

/// The stream of a name, among those that were built before those of the table.
fn find<'a>(table: &'a StreamTable, made: &'a StreamTable, name: &StreamName) -> Option<&'a Listed>
    ensures { option_map (λ x. x.now.stream) result ≡ stream_of (streams_with table.now made.now) name.now }
{
    match made.stream(name) {
        Some(listed) => Some(listed),
        None => table.stream(name),
    }
}

/// Whether one of the sources is not there.
fn is_missing(table: &StreamTable, made: &StreamTable, sources: &[Source]) -> bool
    ensures { result ≡ list_any (λ s. not (is_there (stream_of (streams_with table.now made.now) s.stream))) sources.now }
{
    for source in sources {
        if find(table, made, &source.stream).is_none() {
            return true;
        }
    }
    false
}

/// Whether there is the source, and its fence is the generation that is named.
fn has_fence(table: &StreamTable, made: &StreamTable, source: &Source) -> bool
    ensures { result ≡ has_fence source.now.generation (stream_of (streams_with table.now made.now) source.now.stream) }
{
    match find(table, made, &source.stream) {
        None => false,
        Some(listed) => listed.fence == source.generation,
    }
}

/// Whether the fence of one of the sources is not the generation that is named.
fn is_stale(table: &StreamTable, made: &StreamTable, sources: &[Source]) -> bool
    ensures { result ≡ list_any (λ s. not (has_fence s.generation (stream_of (streams_with table.now made.now) s.stream))) sources.now }
{
    for source in sources {
        if !has_fence(table, made, source) {
            return true;
        }
    }
    false
}

/// Whether there is the source, and its last extent is open.
fn ends_open(
    table: &StreamTable,
    made: &StreamTable,
    source: &Source,
    sealed: &BTreeMap<ExtentId, u32>,
) -> bool
    ensures { result ≡ is_open_at_the_end (get nat_cmp sealed.now) (stream_of (streams_with table.now made.now) source.now.stream) }
{
    match find(table, made, &source.stream) {
        None => false,
        Some(listed) => listed.is_open(sealed),
    }
}

/// Whether the last extent of one of the sources is open.
fn is_open(
    table: &StreamTable,
    made: &StreamTable,
    sources: &[Source],
    sealed: &BTreeMap<ExtentId, u32>,
) -> bool
    ensures { result ≡ list_any (λ s. is_open_at_the_end (get nat_cmp sealed.now) (stream_of (streams_with table.now made.now) s.stream)) sources.now }
{
    for source in sources {
        if ends_open(table, made, source, sealed) {
            return true;
        }
    }
    false
}

/// Why a stream is not built.
fn may_build(
    table: &StreamTable,
    made: &StreamTable,
    m: &Modify,
    sealed: &BTreeMap<ExtentId, u32>,
) -> Result<(), StreamFault>
    ensures { refusal_in result ≡ build_fault (get nat_cmp sealed.now) (streams_with table.now made.now) m.now }
{
    let sources = &m.sources.items;
    if find(table, made, &m.stream).is_some() {
        Err(StreamFault::NameTaken)
    } else if is_missing(table, made, sources) {
        Err(StreamFault::NoSuchStream)
    } else if is_stale(table, made, sources) {
        Err(StreamFault::Stale)
    } else if is_open(table, made, sources, sealed) {
        Err(StreamFault::LastOpen)
    } else {
        Ok(())
    }
}

// ---- the lists

fn greater(one: Fence, other: Fence) -> Fence
    ensures { result ≡ max one other }
{
    if one < other { other } else { one }
}

/// The greatest generation that is named.
fn greatest_generation(sources: &[Source]) -> Fence
    ensures { result ≡ greatest_generation sources.now }
{
    let mut greatest = Fence(0);
    for source in sources {
        greatest = greater(greatest, source.generation);
    }
    greatest
}

/// What has left the first of the sources.
fn gone_of_first<'a>(
    table: &'a StreamTable,
    made: &'a StreamTable,
    sources: &[Source],
) -> &'a [ExtentId]
    ensures { result.now ≡ gone_of_first (streams_with table.now made.now) sources.now }
{
    match sources {
        [] => &[],
        [first, ..] => match find(table, made, &first.stream) {
            None => &[],
            Some(listed) => listed.gone(),
        },
    }
}

/// The extents of a source.
fn extents_of<'a>(table: &'a StreamTable, made: &'a StreamTable, source: &Source) -> &'a [ExtentId]
    ensures { result.now ≡ extents_of (stream_of (streams_with table.now made.now) source.now.stream) }
{
    match find(table, made, &source.stream) {
        None => &[],
        Some(listed) => listed.extents(),
    }
}

/// The extents of the sources, one source after the other, at the end of a stream. Without memory some of them may be.
fn join_extents(
    table: &StreamTable,
    made: &StreamTable,
    sources: &[Source],
    listed: &mut Listed,
) -> Result<(), AllocError>
    ensures name { listed.new.name ≡ listed.old.name }
    ensures stream { OnOk result (listed.new.stream ≡ with_extents (joined_extents (streams_with table.now made.now) sources.now) listed.old.stream) }
{
    for source in sources {
        listed.join(extents_of(table, made, source))?;
    }
    Ok(())
}

/// The lists of the sources joined, under the name of the new stream. Err: no memory.
fn joined(
    alloc: Global,
    table: &StreamTable,
    made: &StreamTable,
    m: &Modify,
) -> Result<Listed, AllocError>
    ensures name { IfOk result (λ x. x.name ≡ m.now.stream) }
    ensures stream { IfOk result (λ x. x.stream ≡ joined (streams_with table.now made.now) m.now.sources) }
{
    let sources = &m.sources.items;
    let gone = gone_of_first(table, made, sources);
    let mut listed = Listed::after(alloc, m.stream, greatest_generation(sources), gone)?;
    join_extents(table, made, sources, &mut listed)?;
    Ok(listed)
}

/// One more stream is built beside a table. Err: no memory.
fn build_one(table: &StreamTable, made: &mut StreamTable, m: &Modify) -> Result<(), AllocError>
    ensures { OnOk result (streams_with table.now made.new ≡ built (streams_with table.now made.old) m.now) }
{
    let listed = joined(table.alloc, table, made, m)?;
    made.reserve()?;
    made.put_listed(listed);
    Ok(())
}

impl StreamTable {
    /// Builds streams from the lists of others, beside the table, with no test: a source that is not there has no extent. Err:
    /// no memory.
    pub fn build(&self, list: &[Modify]) -> Result<StreamTable, AllocError>
        ensures { IfOk result (λ made. streams_with self.now made ≡ modified (streams_of self.now) list.now) }
    {
        let mut made = StreamTable::new(self.alloc);
        for m in list {
            build_one(self, &mut made, m)?;
        }
        Ok(made)
    }

    /// Builds streams from the lists of others, beside the table, each with those before it among the others. `sealed` has the
    /// lengths of the extents that are sealed. 11, before all else: more than 255 streams, or one with no source or more than
    /// 255. Then, stream by stream: 12: there is a stream of its name. 11: a source is missing. 3: the fence of a source is not
    /// the generation that is named. 13: the last extent of a source is open. 22: no memory.
    pub fn modifying(
        &self,
        list: &[Modify],
        sealed: &BTreeMap<ExtentId, u32>,
    ) -> Result<StreamTable, StreamFault>
        ensures built { IfOk result (λ made. streams_with self.now made ≡ modified (streams_of self.now) list.now) }
        ensures free { OnOk result (modify_fault (get nat_cmp sealed.now) (streams_of self.now) list.now ≡ None) }
        ensures refused { IfErr result (λ e. e ≢ StreamFault.Memory
            → modify_fault (get nat_cmp sealed.now) (streams_of self.now) list.now ≡ Some (refusal_of e)) }
        ensures counted { IsErrOf result StreamFault.Memory → may_list list.now ≡ true }
    {
        if !may_list(list) {
            return Err(StreamFault::NoSuchStream);
        }
        let mut made = StreamTable::new(self.alloc);
        for m in list {
            if let Err(fault) = may_build(self, &made, m, sealed) {
                return Err(fault);
            }
            if let Err(_full) = build_one(self, &mut made, m) {
                return Err(StreamFault::Memory);
            }
        }
        Ok(made)
    }

    /// Makes room for the streams of another table. Without memory nothing has changed but room.
    pub fn reserve_built(&mut self, made: &StreamTable) -> Result<(), AllocError>
        ensures same { streams_of self.new ≡ streams_of self.old }
        ensures room { OnOk result (length made.now.entries ≤ self.new.room) }
    {
        self.entries.reserve(made.entries.len())
    }

    /// Moves the streams of another table over its own, into room that was made; the other is then empty.
    pub fn put_built(&mut self, made: &mut StreamTable)
        requires { length made.old.entries ≤ self.old.room }
        ensures streams { streams_of self.new ≡ streams_with self.old made.old }
        ensures empty { made.new.entries ≡ [] }
    {
        put_all(&mut self.entries, &mut made.entries);
    }

    /// Builds streams from the lists of others, each with those before it among the others; the others stay as they are.
    /// `sealed` has the lengths of the extents that are sealed. 11, before all else: more than 255 streams, or one with no
    /// source or more than 255. Then, stream by stream: 12: there is a stream of its name. 11: a source is missing. 3: the fence
    /// of a source is not the generation that is named. 13: the last extent of a source is open. 22: no memory. After all five
    /// nothing has changed.
    pub fn multi_modify(
        &mut self,
        list: &[Modify],
        sealed: &BTreeMap<ExtentId, u32>,
    ) -> Result<(), StreamFault>
        ensures ok { OnOk result (streams_of self.new ≡ modified (streams_of self.old) list.now) }
        ensures same { OnErr result (streams_of self.new ≡ streams_of self.old) }
        ensures free { OnOk result (modify_fault (get nat_cmp sealed.now) (streams_of self.old) list.now ≡ None) }
        ensures refused { IfErr result (λ e. e ≢ StreamFault.Memory
            → modify_fault (get nat_cmp sealed.now) (streams_of self.old) list.now ≡ Some (refusal_of e)) }
        ensures counted { IsErrOf result StreamFault.Memory → may_list list.now ≡ true }
    {
        match self.modifying(list, sealed) {
            Err(fault) => Err(fault),
            Ok(made) => {
                let mut made = made;
                if let Err(_full) = self.reserve_built(&made) {
                    return Err(StreamFault::Memory);
                }
                self.put_built(&mut made);
                Ok(())
            }
        }
    }
}
