//! What no clause says: that calls succeed where there is memory, and one value from the Get to the answer.
ghost use Rattle.std.specs.Prelude.{◌≡◌, ◌+◌, ◌<◌, ◌^◌};
ghost use Rattle.memtable.specs.Cell.{IsCell};

use crate::asking::{context, extent, number};
use crate::cases::{Case, Tested, holds};
use crate::records::{NO_PAGE, PAGE};
use bytes::Bytes;
use checkpoint::{InstalledIndex, InstalledIndexes};
use checkpoint_format::decode;
use memtable::{Cell, MemTable, Place};
use metadata::KeyRange;
use model_partition::{Pause, TableNote};
use range_reads::{Asking, Lookups, MAX_GETS, Tried};
use std::alloc::{AllocError, Global};
use std::test::Fail;
use wire::{
    ActorId, AppendBody, Body, ExtentId, Fence, Packet, RangeId, ReadBody, Refusal, ReqNo,
    TableBody,
};

/// What the Gets of a table are called for.
pub(crate) enum Call {
    /// A Get of this key comes.
    Get(&'static [u8]),
    /// The read of this number brings 5,000 bytes from 100 on.
    Bytes(u32),
    /// The read of this number brings these bytes from 0 on.
    Page(u32, &'static [u8]),
    /// The read of this number brings the page of `g` from 200 on.
    LongPage(u32),
    GiveUp,
}

/// What a call sends, one packet at most.
pub(crate) enum Sent {
    Nothing,
    /// A value of this length.
    Value(usize),
    /// That there is no value.
    NoValue,
    /// A read at this node and this offset.
    Read(u8, u32),
    Refusal(Refusal),
}

/// What is done, or what is known then.
pub(crate) enum Step {
    /// The lease ends at this moment, and no more at 9.
    LeaseEnds(u64),
    /// The range takes this from now on.
    Takes(Pause),
    /// It is called where the server's next request has the first number, which has the second then, and sends this.
    Does(u32, Call, u64, Sent),
    /// How many Gets wait.
    Waits(usize),
    /// Whether the request of this number is awaited.
    Awaits(u32, bool),
    /// So many are refused.
    Refuses(usize),
}

/// An index of two pages of the extent 7: one that begins with `c`, at 0, and one that begins with `g`, at 200.
const TWO_PAGES: &[u8] = &[
    0, 0, 0, 47, 0, 0, 0, 2, 0, 0, 1, b'c', 0, 0, 0, 0, 0, 0, 0, 7, 0, 0, 0, 0, 0, 0, 0, 11, 0, 1,
    b'g', 0, 0, 0, 0, 0, 0, 0, 7, 0, 0, 0, 200, 0, 0, 16, 10,
];

/// How a page begins that has a value of 4,096 bytes at `g`, and nothing else.
const LONG_PAGE: &[u8] = &[0, 1, 0, 1, b'g', 1, 0, 0, 16, 0];

/// A Get of `b` reads what stands elsewhere.
const READS: Step = Step::Does(4, Call::Get(b"b"), 5, Sent::Read(1, 100));

/// A Get of `c` reads the one page that may have it.
const READS_PAGE: Step = Step::Does(4, Call::Get(b"c"), 5, Sent::Read(1, 0));

const CASES: &[Case<Step>] = &[
    (
        "a page is read once, and has what the memory table does not have",
        &[&[
            READS_PAGE,
            Step::Does(20, Call::Page(4, PAGE), 20, Sent::Value(1)),
            Step::Waits(0),
            Step::Does(4, Call::Get(b"c"), 4, Sent::Value(1)),
            Step::Does(4, Call::Get(b"d"), 4, Sent::NoValue),
            Step::Does(4, Call::Get(b"a"), 4, Sent::Value(1)),
        ]],
    ),
    (
        "bytes that spell no page leave the read out",
        &[&[
            READS_PAGE,
            Step::Does(20, Call::Page(4, NO_PAGE), 20, Sent::Nothing),
            Step::Awaits(4, true),
            Step::Waits(1),
            Step::Does(20, Call::Page(4, PAGE), 20, Sent::Value(1)),
        ]],
    ),
    (
        "no page is read for a key below all pages",
        &[&[Step::Does(4, Call::Get(b"bb"), 4, Sent::NoValue)]],
    ),
    (
        "a small value is answered",
        &[&[
            Step::Does(4, Call::Get(b"a"), 4, Sent::Value(1)),
            Step::Waits(0),
        ]],
    ),
    (
        "a large value is read once",
        &[&[
            READS,
            Step::Awaits(4, true),
            Step::Awaits(5, false),
            Step::Does(20, Call::Bytes(4), 20, Sent::Value(5_000)),
            Step::Waits(0),
            Step::Does(4, Call::Get(b"b"), 4, Sent::Value(5_000)),
        ]],
    ),
    (
        "what was not asked for is not held",
        &[&[
            READS,
            Step::Does(20, Call::Bytes(6), 21, Sent::Read(1, 100)),
            Step::Waits(1),
        ]],
    ),
    (
        "a page that was read as a value is a page too",
        &[&[
            Step::Does(4, Call::Get(b"e"), 5, Sent::Read(1, 200)),
            Step::Does(20, Call::LongPage(4), 20, Sent::Value(4_106)),
            Step::Does(4, Call::Get(b"g"), 4, Sent::Value(4_096)),
            Step::Does(4, Call::Get(b"h"), 4, Sent::NoValue),
            Step::Does(4, Call::Get(b"e"), 4, Sent::Value(4_106)),
        ]],
    ),
    (
        "a page is also what is read as a value",
        &[&[
            Step::Does(4, Call::Get(b"g"), 5, Sent::Read(1, 200)),
            Step::Does(20, Call::LongPage(4), 20, Sent::Value(4_096)),
            Step::Does(4, Call::Get(b"e"), 4, Sent::Value(4_106)),
        ]],
    ),
    (
        "the next node is asked",
        &[&[
            READS,
            Step::Does(30, Call::GiveUp, 30, Sent::Read(2, 100)),
            Step::Refuses(1),
        ]],
    ),
    (
        "an ended lease refuses",
        &[&[
            Step::LeaseEnds(5),
            Step::Does(4, Call::Get(b"a"), 4, Sent::Refusal(Refusal::LeaseEnded)),
            Step::Waits(0),
        ]],
    ),
    (
        "a Get that waits for a page is refused once the lease has ended",
        &[&[
            READS_PAGE,
            Step::LeaseEnds(5),
            Step::Does(
                20,
                Call::Page(4, PAGE),
                20,
                Sent::Refusal(Refusal::LeaseEnded),
            ),
            Step::Waits(0),
        ]],
    ),
    (
        "a Get that waits for a value is refused once the lease has ended",
        &[&[
            READS,
            Step::LeaseEnds(5),
            Step::Does(20, Call::Bytes(4), 20, Sent::Refusal(Refusal::LeaseEnded)),
            Step::Waits(0),
        ]],
    ),
    (
        "a Get that waits is answered until the lease ends",
        &[&[
            READS,
            Step::LeaseEnds(6),
            Step::Does(20, Call::Bytes(4), 20, Sent::Value(5_000)),
        ]],
    ),
    (
        "a Get that waits for a page is refused while the range is paused",
        &[&[
            READS_PAGE,
            Step::Takes(Pause::On),
            Step::Does(20, Call::Page(4, PAGE), 20, Sent::Refusal(Refusal::Paused)),
            Step::Waits(0),
        ]],
    ),
    (
        "a Get that waits for a value is refused while the range is paused",
        &[&[
            READS,
            Step::Takes(Pause::On),
            Step::Does(20, Call::Bytes(4), 20, Sent::Refusal(Refusal::Paused)),
            Step::Waits(0),
        ]],
    ),
    (
        "a Get that waits is answered where transactions alone are refused, and where the range takes all again",
        &[&[
            READS_PAGE,
            Step::Takes(Pause::AfterQueue),
            Step::Does(20, Call::Page(4, PAGE), 20, Sent::Value(1)),
            READS,
            Step::Takes(Pause::On),
            Step::Takes(Pause::Off),
            Step::Does(20, Call::Bytes(4), 20, Sent::Value(5_000)),
        ]],
    ),
    (
        "a pause is told before the end of a lease",
        &[&[
            READS_PAGE,
            Step::LeaseEnds(5),
            Step::Takes(Pause::On),
            Step::Does(20, Call::Page(4, PAGE), 20, Sent::Refusal(Refusal::Paused)),
            Step::Does(4, Call::Get(b"a"), 4, Sent::Refusal(Refusal::Paused)),
        ]],
    ),
    (
        "bytes that spell no page have nobody refused",
        &[&[
            READS_PAGE,
            Step::LeaseEnds(5),
            Step::Takes(Pause::On),
            Step::Does(20, Call::Page(4, NO_PAGE), 20, Sent::Nothing),
            Step::Awaits(4, true),
            Step::Waits(1),
        ]],
    ),
];

/// The place of the value at `b`.
fn place() -> Place
    ensures { result.length ≡ 5000 }
{
    Place {
        extent: ExtentId(7),
        offset: 100,
        length: 5_000,
    }
}

/// The place of the value at `e`, which is that of a page too.
fn place_of_a_page() -> Place
    ensures { result.length ≡ 4106 }
{
    Place {
        extent: ExtentId(7),
        offset: 200,
        length: 4_106,
    }
}

/// A table under a lease, the index below it, and the Gets that wait for what is in them.
#[derive(Drop)]
struct Getting {
    table: MemTable,
    indexes: InstalledIndexes,
    lookups: Lookups,
    /// The moment when the lease ends.
    until: u64,
    pause: Pause,
}

fn put(alloc: Global, table: &mut MemTable, key: &'static [u8; 1], cell: Cell) -> Result<(), Fail>
    requires { IsCell cell }
{
    let mut changes = Vec::new(alloc);
    changes.push((Bytes::from_static(key), cell))?;
    table.apply(alloc, changes)?;
    Ok(())
}

fn fill(alloc: Global, table: &mut MemTable) -> Result<(), Fail> {
    put(alloc, table, b"a", Cell::Inline(Bytes::from_static(b"x")))?;
    put(alloc, table, b"b", Cell::Placed(place()))?;
    put(alloc, table, b"e", Cell::Placed(place_of_a_page()))
}

/// A table with a small value at `a` and large ones at `b` and `e`.
fn filled(alloc: Global) -> Result<MemTable, Fail> {
    let mut table = MemTable::new(alloc);
    let told = fill(alloc, &mut table);
    match told {
        Ok(()) => Ok(table),
        Err(fail) => {
            drop(table);
            Err(fail)
        }
    }
}

/// Installs the index of this text, for all keys.
pub(crate) fn install(
    alloc: Global,
    indexes: &mut InstalledIndexes,
    text: &'static [u8],
) -> Result<(), Fail> {
    let index = InstalledIndex {
        place: place(),
        keys: KeyRange {
            low: Bytes::from_static(b""),
            high: None,
        },
        index: decode(alloc, text)?,
    };
    indexes.install(index)?;
    Ok(())
}

/// The index of two pages.
fn indexed(alloc: Global) -> Result<InstalledIndexes, Fail> {
    let mut indexes = InstalledIndexes::of(Vec::new(alloc));
    let told = install(alloc, &mut indexes, TWO_PAGES);
    match told {
        Ok(()) => Ok(indexes),
        Err(fail) => {
            drop(indexes);
            Err(fail)
        }
    }
}

/// Such a table over such an index, for which no Get waits.
fn begun(alloc: Global) -> Result<Getting, Fail> {
    let indexes = indexed(alloc)?;
    let table = filled(alloc)?;
    let lookups = Lookups::new(alloc)?;
    Ok(Getting {
        table,
        indexes,
        lookups,
        until: 9,
        pause: Pause::Off,
    })
}

fn gets(
    alloc: Global,
    lookups: &mut Lookups,
    asking: &Asking<'_>,
    key: &'static [u8],
) -> Result<Option<Tried>, AllocError>
    requires { asking.now.context.now.count + 1024 < 2 ^ 64 }
{
    if lookups.count() >= MAX_GETS {
        return Ok(None);
    }
    let number = ReqNo::User { user: 9, ticket: 2 };
    let key = Bytes::from_static(key);
    Ok(Some(lookups.get(alloc, asking, ActorId::User(9), number, key)?))
}

/// What 5,000 bytes bring, as the answer of the read of this number.
fn brings(
    alloc: Global,
    lookups: &mut Lookups,
    asking: &Asking<'_>,
    count: u32,
) -> Result<Option<Tried>, AllocError>
    requires { asking.now.context.now.count + 1024 < 2 ^ 64 }
{
    let value = Bytes::from_vec(vec![in alloc; b'y'; 5_000]?)?;
    let extent = ExtentId(7);
    let tried = lookups.bytes(
        alloc,
        asking,
        &number(u64::from(count)),
        extent,
        100,
        &value,
    );
    drop(value);
    Ok(Some(tried?))
}

/// What a page brings that stands at this offset, as the answer of the read of this number.
fn brings_page(
    alloc: Global,
    lookups: &mut Lookups,
    asking: &Asking<'_>,
    count: u32,
    offset: u32,
    page: Bytes,
) -> Result<Option<Tried>, AllocError>
    requires { asking.now.context.now.count + 1024 < 2 ^ 64 }
{
    let tried = lookups.bytes(
        alloc,
        asking,
        &number(u64::from(count)),
        ExtentId(7),
        offset,
        &page,
    );
    drop(page);
    Ok(Some(tried?))
}

/// The page that has a value of 4,096 bytes.
fn long_page(alloc: Global) -> Result<Bytes, AllocError> {
    let mut text = LONG_PAGE.to_vec(alloc)?;
    text.resize(4_106, b'y')?;
    Ok(Bytes::from_vec(text)?)
}

fn gives_up(
    alloc: Global,
    lookups: &mut Lookups,
    asking: &Asking<'_>,
) -> Result<Option<Tried>, AllocError> {
    Ok(Some(Tried {
        count: asking.context.count,
        packets: lookups.give_up(alloc, asking)?,
        notes: Vec::new(alloc),
    }))
}

/// What a call leaves where the server's next request has this number; nothing where there is no room for a Get.
fn called(
    alloc: Global,
    getting: &mut Getting,
    count: u32,
    call: &Call,
) -> Result<Option<Tried>, AllocError> {
    let context = context(count, 5);
    let log = [extent(None)];
    let asking = Asking {
        context: &context,
        range: RangeId(4),
        generation: Fence(6),
        until: getting.until,
        pause: getting.pause,
        table: &getting.table,
        log: &log,
        blob: &[],
        rows: &[],
        indexes: &getting.indexes,
    };
    match call {
        Call::Get(key) => gets(alloc, &mut getting.lookups, &asking, key),
        Call::Bytes(count) => brings(alloc, &mut getting.lookups, &asking, *count),
        Call::Page(count, text) => {
            let page = Bytes::from_static(text);
            brings_page(alloc, &mut getting.lookups, &asking, *count, 0, page)
        }
        Call::LongPage(count) => {
            let page = long_page(alloc)?;
            brings_page(alloc, &mut getting.lookups, &asking, *count, 200, page)
        }
        Call::GiveUp => gives_up(alloc, &mut getting.lookups, &asking),
    }
}

fn is_sent(packet: &Packet, sent: &Sent) -> bool {
    match (&packet.body, sent) {
        (
            Body::Table(
                TableBody::Value {
                    value: Some(bytes),
                    ..
                },
            ),
            Sent::Value(length),
        ) => bytes.len() == *length,
        (Body::Table(TableBody::Value { value: None, .. }), Sent::NoValue) => true,
        (Body::Read(ReadBody::ReadAt { offset: at, .. }), Sent::Read(node, offset)) => {
            packet.to == ActorId::Node(*node) && *at == *offset
        }
        (Body::Append(AppendBody::Refused { refusal, .. }), Sent::Refusal(wanted)) => {
            *refusal == *wanted
        }
        _ => false,
    }
}

/// A value that is sent is shown, under the range and its generation, and nothing else is.
fn is_shown(notes: &[TableNote], sent: &Sent) -> bool {
    match (notes, sent) {
        (
            [
                TableNote::Got {
                    range,
                    generation,
                    value: Some(bytes),
                    ..
                },
            ],
            Sent::Value(length),
        ) => *range == RangeId(4) && *generation == Fence(6) && bytes.len() == *length,
        (
            [
                TableNote::Got {
                    range,
                    generation,
                    value: None,
                    ..
                },
            ],
            Sent::NoValue,
        ) => *range == RangeId(4) && *generation == Fence(6),
        ([], Sent::Value(_) | Sent::NoValue) => false,
        ([], _) => true,
        _ => false,
    }
}

fn comes_to(tried: &Option<Tried>, count: u64, sent: &Sent) -> bool {
    match tried {
        Some(tried) => match (tried.packets.as_slice(), sent) {
            ([], Sent::Nothing) => tried.count == count && is_shown(&tried.notes, sent),
            ([only], _) => {
                tried.count == count && is_sent(only, sent) && is_shown(&tried.notes, sent)
            }
            _ => false,
        },
        None => false,
    }
}

fn does(
    alloc: Global,
    getting: &mut Getting,
    count: u32,
    call: &Call,
    next: u64,
    sent: &Sent,
) -> Result<bool, Fail> {
    let tried = called(alloc, getting, count, call)?;
    let told = comes_to(&tried, next, sent);
    drop(tried);
    Ok(told)
}

fn refusal_count(alloc: Global, lookups: &Lookups) -> Result<usize, Fail> {
    Ok(lookups.refusals(alloc, &context(4, 5))?.len())
}

impl Tested for Getting {
    type Step = Step;

    fn takes(&mut self, alloc: Global, step: &Step) -> Result<bool, Fail> {
        match step {
            Step::LeaseEnds(until) => {
                self.until = *until;
                Ok(true)
            }
            Step::Takes(pause) => {
                self.pause = *pause;
                Ok(true)
            }
            Step::Does(count, call, next, sent) => does(alloc, self, *count, call, *next, sent),
            Step::Waits(count) => Ok(self.lookups.count() == *count),
            Step::Awaits(count, awaited) => Ok(
                self.lookups.awaits(&number(u64::from(*count))) == *awaited,
            ),
            Step::Refuses(count) => Ok(refusal_count(alloc, &self.lookups)? == *count),
        }
    }
}

#[test]
fn gets_go_as_their_cases_say(rt: HostRuntime) -> Result<(), Fail> {
    for (name, parts) in CASES {
        let getting = begun(rt.alloc())?;
        assert!(rt; holds(rt.alloc(), getting, *parts)?, "{name}");
    }
    Ok(())
}
