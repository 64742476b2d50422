//! Gets that wait at a server for a page or for a value, while a split or a merge pauses their range, its lease ends, or it goes: those
//! who asked are refused by what is so when they are tried again, and only what is answered is shown.
//!
//! A packet that is refused for want of memory comes once more. So with any one request for memory refused (`rt try --test
//! --fail-alloc N`) a case goes on as it says, unless the packet itself could not be made: nothing has changed by such a refusal.
use crate::asking::{PLACES, number, puts};
use crate::cases::{Case, Tested, holds};
use crate::records::{CHECKPOINT, INDEX, KEYS, NO_PAGE, PAGE};
use crate::{jobs, loads};
use Comes::{Answers, Assigns, Gets, Loads, Puts, Reads, Renews};
use Step::{Merges, Moment, Splits, Takes};
use Text::{NoPage, Page, PlacePage, Value};
use Told::{Asks, Commits, Has, Looks, Refuses};
use bytes::Bytes;
use jobs::Answer::{
    Appended, Created, Extended, MergeBegun, MergeDone, Modified, Refused, SealedIs, SplitBegun,
    SplitDone, Trimmed,
};
use loads::answers::Answer::{Confirmed, Group, Metadata, MetadataAndRows};
use model_partition::TableNote;
use range::{RangeFault, RangeServer, Sent};
use std::alloc::Global;
use std::test::Fail;
use wire::{
    ActorId, AppendBody, Body, ExtentId, Fence, MapBody, Packet, RangeId, ReadBody, Refusal, ReqNo,
    ServerNo, TableBody,
};

/// What a read brings.
#[derive(Clone, Copy)]
pub(crate) enum Text {
    /// The page of `c`, which is `x`.
    Page,
    /// As many bytes, which spell no page.
    NoPage,
    /// The page of `b`, whose value stands elsewhere.
    PlacePage,
    /// That value.
    Value,
}

/// What comes to the server, from one who gives such packets.
pub(crate) enum Comes {
    /// The range is assigned under this generation, up to the moment 100.
    Assigns(u64, u64),
    /// The lease of the range 1 under the generation 2 is renewed up to this moment.
    Renews(u64),
    /// The request of this number, of a load, is answered.
    Loads(u32, loads::answers::Answer),
    /// The request of this number is answered.
    Answers(u32, jobs::Answer),
    /// The read of this number is answered: this stands in the extent at the offset.
    Reads(u32, u64, u32, Text),
    /// A user puts so many bytes at a key of the range 1.
    Puts(&'static [u8], usize),
    /// A user asks with this ticket what the range has at a key.
    Gets(u64, &'static [u8], u64),
}

/// What is sent.
pub(crate) enum Told {
    /// A request, but for those of the next line.
    Asks,
    /// A ReadAt of the extent at the offset.
    Looks(u64, u32),
    /// A transaction is committed.
    Commits,
    /// The request of this ticket is refused.
    Refuses(u64, Refusal),
    /// A Get of this ticket is answered, and shown under the range and the generation: the key, and how many bytes it has.
    Has(u64, u64, u64, &'static [u8], usize),
}

/// What happens to a server, and what is sent of it, in order.
pub(crate) enum Step {
    Takes(Comes, &'static [Told]),
    /// The clock of leases shows this.
    Moment(u64),
    /// The range 1 is split at `m`.
    Splits,
    /// The ranges 1 and 2 are merged.
    Merges,
}

/// The page of `b`, whose value of 5,000 bytes stands at 24 of the extent 8.
const PLACE_PAGE: &[u8] = &[
    0, 1, 0, 1, b'b', 2, 0, 0, 0, 0, 0, 0, 0, 8, 0, 0, 0, 24, 0, 0, 19, 136,
];

/// A record of the metadata: the keys from `m` on.
const UPPER_KEYS: &[u8] = &[0, 0, 0, 0, 0, 0, 0, 1, 1, 0, 1, b'm', 0, 0, 0];

/// The range 1 is served under the generation 2, with an index of the page of `c`; `b` has 5,000 bytes, which stand in the extent 8.
/// The next request has the number 9.
const SERVED: &[Step] = &[
    Takes(Assigns(1, 2), &[Asks]),
    Takes(Loads(1, MetadataAndRows(46)), &[Asks]),
    Takes(Loads(2, Group(CHECKPOINT)), &[Looks(7, 11)]),
    Takes(Loads(3, loads::answers::Answer::Bytes(INDEX)), &[Asks]),
    Takes(Loads(4, Confirmed), &[]),
    Takes(Puts(b"b", 5_000), &[Asks]),
    Takes(Answers(6, Extended(8)), &[Asks]),
    Takes(Answers(7, Appended(8)), &[Commits]),
];

/// A Get waits for that page, and another one for that value. The next request has the number 11.
const BOTH_WAIT: &[Step] = &[
    Takes(Gets(1, b"c", 1), &[Looks(7, 0)]),
    Takes(Gets(1, b"b", 2), &[Looks(8, 24)]),
];

/// The range is split, and its checkpoint has trimmed the log: the range is paused, and the record of the split is out.
const SPLIT_PAUSES: &[Step] = &[
    Splits,
    Takes(Answers(11, SplitBegun), &[Asks]),
    Takes(Answers(12, Appended(7)), &[Asks]),
    Takes(Answers(13, Appended(7)), &[Asks]),
    Takes(Answers(14, Extended(9)), &[Asks]),
    Takes(Answers(15, Appended(9)), &[Asks]),
    Takes(Answers(16, Trimmed), &[Asks]),
];

/// The rest of the split, but for the answer that it is done.
const SPLIT_GOES_ON: &[Step] = &[
    Takes(Answers(17, Appended(9)), &[Asks]),
    Takes(Answers(19, SealedIs(9)), &[Asks]),
    Takes(Answers(20, SealedIs(8)), &[Asks]),
    Takes(Answers(21, SealedIs(7)), &[Asks]),
    Takes(Answers(22, Modified), &[Asks]),
    Takes(Answers(23, Extended(10)), &[Asks]),
    Takes(Answers(24, Appended(10)), &[Asks]),
    Takes(Answers(25, Extended(11)), &[Asks]),
    Takes(Answers(26, Appended(11)), &[Asks]),
];

/// A Get waits for the value, whose page was read for it once the split had written that. The Trim is out, under the number 14.
const PAGE_IS_READ: &[Step] = &[
    Splits,
    Takes(Answers(9, SplitBegun), &[Asks]),
    Takes(Answers(10, Appended(7)), &[Asks]),
    Takes(Answers(11, Appended(7)), &[Asks]),
    Takes(Answers(12, Extended(9)), &[Asks]),
    Takes(Answers(13, Appended(9)), &[Asks]),
    Takes(Gets(1, b"b", 1), &[Looks(7, 0)]),
    Takes(Reads(15, 7, 0, PlacePage), &[Looks(8, 24)]),
];

/// The range 1 has the keys below `m`, and the range 2 those from it on. At `b` there are 5,000 bytes, for which a Get waits. The next
/// request has the number 13.
const TWO_SERVED: &[Step] = &[
    Takes(Assigns(1, 2), &[Asks]),
    Takes(Loads(1, Metadata(15)), &[Asks]),
    Takes(Loads(2, Group(KEYS)), &[Asks]),
    Takes(Loads(3, Confirmed), &[]),
    Takes(Assigns(2, 2), &[Asks]),
    Takes(Loads(5, Metadata(15)), &[Asks]),
    Takes(Loads(6, Group(UPPER_KEYS)), &[Asks]),
    Takes(Loads(7, Confirmed), &[]),
    Takes(Puts(b"b", 5_000), &[Asks]),
    Takes(Answers(9, Extended(8)), &[Asks]),
    Takes(Answers(10, Appended(8)), &[Commits]),
    Takes(Gets(1, b"b", 1), &[Looks(8, 24)]),
];

/// The two are merged. Another Get waits for the page that the checkpoint of the left one has written. Then that of the right one is done
/// too: both ranges are paused, and the first extent is to be sealed.
const MERGE_PAUSES: &[Step] = &[
    Merges,
    Takes(Answers(13, MergeBegun), &[Asks]),
    Takes(Answers(14, Extended(20)), &[Asks]),
    Takes(Answers(15, Appended(20)), &[Asks]),
    Takes(Answers(16, Appended(20)), &[Asks]),
    Takes(Answers(17, Extended(21)), &[Asks]),
    Takes(Answers(18, Appended(21)), &[Asks]),
    Takes(Gets(1, b"b", 2), &[Looks(20, 0)]),
    Takes(Answers(19, Trimmed), &[Asks]),
    Takes(Answers(21, Extended(30)), &[Asks]),
    Takes(Answers(22, Appended(30)), &[Asks]),
    Takes(Answers(23, Extended(31)), &[Asks]),
    Takes(Answers(24, Appended(31)), &[Asks]),
    Takes(Answers(25, Trimmed), &[Asks]),
];

/// The rest of the merge, but for the answer that it is done.
const MERGE_GOES_ON: &[Step] = &[
    Takes(Answers(26, SealedIs(8)), &[Asks]),
    Takes(Answers(27, SealedIs(20)), &[Asks]),
    Takes(Answers(28, SealedIs(30)), &[Asks]),
    Takes(Answers(29, Modified), &[Asks]),
    Takes(Answers(30, Created), &[Asks]),
    Takes(Answers(31, Extended(40)), &[Asks]),
    Takes(Answers(32, Appended(40)), &[Asks]),
    Takes(Answers(33, Appended(40)), &[Asks]),
];

const BOTH_PAUSED: &[Told] = &[Refuses(1, Refusal::Paused), Refuses(2, Refusal::Paused)];

const BOTH_ENDED: &[Told] = &[
    Refuses(1, Refusal::LeaseEnded),
    Refuses(2, Refusal::LeaseEnded),
];

const BOTH_GONE: &[Told] = &[Refuses(1, Refusal::NotOwner), Refuses(2, Refusal::NotOwner)];

/// What was read for both Gets comes, and nobody waits for it any more.
const COMES_LATE: &[Step] = &[
    Takes(Reads(9, 7, 0, Page), &[]),
    Takes(Reads(10, 8, 24, Value), &[]),
];

/// Gets that are answered, and those that wait up to the end of a lease.
const ANSWERED: &[Case<Step>] = &[
    (
        "a small value is answered at once, one in a page once that is read, and a large one once it is read",
        &[
            SERVED,
            &[
                Takes(Puts(b"a", 1), &[Asks]),
                Takes(Answers(9, Appended(8)), &[Commits]),
                Takes(Gets(1, b"a", 1), &[Has(1, 1, 2, b"a", 1)]),
                Takes(Gets(1, b"c", 2), &[Looks(7, 0)]),
                Takes(Reads(11, 7, 0, Page), &[Has(2, 1, 2, b"c", 1)]),
                Takes(Gets(1, b"b", 3), &[Looks(8, 24)]),
                Takes(Reads(12, 8, 24, Value), &[Has(3, 1, 2, b"b", 5_000)]),
                Takes(Gets(1, b"b", 4), &[Has(4, 1, 2, b"b", 5_000)]),
            ],
        ],
    ),
    (
        "Gets that wait are answered up to the end of the lease, and then refused",
        &[
            SERVED,
            BOTH_WAIT,
            &[
                Moment(99),
                Takes(Reads(9, 7, 0, Page), &[Has(1, 1, 2, b"c", 1), Looks(8, 24)]),
                Moment(100),
                Takes(Reads(10, 8, 24, Value), &[Refuses(2, Refusal::LeaseEnded)]),
                Takes(Reads(11, 8, 24, Value), &[]),
            ],
        ],
    ),
    (
        "a page that comes at the end of the lease has all that wait refused",
        &[
            SERVED,
            BOTH_WAIT,
            &[
                Moment(100),
                Takes(Reads(9, 7, 0, NoPage), &[]),
                Takes(Reads(9, 7, 0, Page), BOTH_ENDED),
            ],
            COMES_LATE,
        ],
    ),
    (
        "a value that comes at the end of the lease has all that wait refused",
        &[
            SERVED,
            BOTH_WAIT,
            &[Moment(100), Takes(Reads(10, 8, 24, Value), BOTH_ENDED)],
            COMES_LATE,
        ],
    ),
    (
        "a Get whose page was read before the end of the lease is refused once its value comes",
        &[
            SERVED,
            PAGE_IS_READ,
            &[
                Moment(100),
                Takes(Reads(16, 8, 24, Value), &[Refuses(1, Refusal::LeaseEnded)]),
            ],
        ],
    ),
    (
        "Gets that wait are answered where the lease was renewed before the bytes come",
        &[
            SERVED,
            BOTH_WAIT,
            &[
                Moment(100),
                Takes(Renews(101), &[]),
                Takes(
                    Reads(10, 8, 24, Value),
                    &[Looks(7, 0), Has(2, 1, 2, b"b", 5_000)],
                ),
                Takes(Reads(11, 7, 0, Page), &[Has(1, 1, 2, b"c", 1)]),
            ],
        ],
    ),
];

/// Gets that wait while their range is split.
const SPLIT: &[Case<Step>] = &[
    (
        "Gets that wait while a split pauses their range are refused once a page comes",
        &[
            SERVED,
            BOTH_WAIT,
            SPLIT_PAUSES,
            &[Takes(Reads(9, 7, 0, Page), BOTH_PAUSED)],
            COMES_LATE,
            &[Takes(Gets(1, b"c", 3), &[Refuses(3, Refusal::Paused)])],
        ],
    ),
    (
        "Gets that wait while a split pauses their range are refused once a value comes",
        &[
            SERVED,
            BOTH_WAIT,
            SPLIT_PAUSES,
            &[Takes(Reads(10, 8, 24, Value), BOTH_PAUSED)],
            COMES_LATE,
        ],
    ),
    (
        "bytes that spell no page have nobody refused while a split pauses the range",
        &[
            SERVED,
            BOTH_WAIT,
            SPLIT_PAUSES,
            &[
                Takes(Reads(9, 7, 0, NoPage), &[]),
                Takes(Reads(9, 7, 0, Page), BOTH_PAUSED),
            ],
        ],
    ),
    (
        "a Get whose page was read before a pause is refused once its value comes",
        &[
            SERVED,
            PAGE_IS_READ,
            &[
                Takes(Answers(14, Trimmed), &[Asks]),
                Takes(Reads(16, 8, 24, Value), &[Refuses(1, Refusal::Paused)]),
            ],
        ],
    ),
    (
        "Gets that wait until their range is split are refused, and so are those of the two until they are loaded",
        &[
            SERVED,
            BOTH_WAIT,
            SPLIT_PAUSES,
            SPLIT_GOES_ON,
            &[Takes(Answers(27, SplitDone), BOTH_GONE)],
            COMES_LATE,
            &[
                Takes(Gets(1, b"c", 3), &[Refuses(3, Refusal::NotOwner)]),
                Takes(Gets(2, b"c", 4), &[Refuses(4, Refusal::NotOwner)]),
                Takes(Assigns(2, 3), &[Asks]),
                Takes(Gets(2, b"c", 5), &[Refuses(5, Refusal::Loading)]),
                Takes(Loads(29, MetadataAndRows(46)), &[Asks]),
                Takes(Loads(30, Group(CHECKPOINT)), &[Looks(7, 11)]),
                Takes(Loads(31, loads::answers::Answer::Bytes(INDEX)), &[Asks]),
                Takes(Gets(2, b"c", 6), &[Refuses(6, Refusal::Loading)]),
                Takes(Loads(32, Confirmed), &[]),
                Takes(Gets(2, b"c", 7), &[Looks(7, 0)]),
                Takes(Reads(34, 7, 0, Page), &[Has(7, 2, 3, b"c", 1)]),
                Takes(Gets(3, b"z", 8), &[Refuses(8, Refusal::NotOwner)]),
            ],
        ],
    ),
];

/// Gets that wait while their range is merged.
const MERGED: &[Case<Step>] = &[
    (
        "Gets that wait while a merge pauses their range are refused once a page comes",
        &[
            TWO_SERVED,
            MERGE_PAUSES,
            &[
                Takes(Reads(20, 20, 0, PlacePage), BOTH_PAUSED),
                Takes(Reads(12, 8, 24, Value), &[]),
                Takes(Gets(2, b"z", 3), &[Refuses(3, Refusal::Paused)]),
            ],
        ],
    ),
    (
        "Gets that wait while a merge pauses their range are refused once a value comes",
        &[
            TWO_SERVED,
            MERGE_PAUSES,
            &[
                Takes(Reads(12, 8, 24, Value), BOTH_PAUSED),
                Takes(Reads(20, 20, 0, PlacePage), &[]),
            ],
        ],
    ),
    (
        "Gets that wait until their range is merged are refused",
        &[
            TWO_SERVED,
            MERGE_PAUSES,
            MERGE_GOES_ON,
            &[
                Takes(Answers(34, MergeDone), BOTH_GONE),
                Takes(Reads(20, 20, 0, PlacePage), &[]),
                Takes(Reads(12, 8, 24, Value), &[]),
            ],
        ],
    ),
];

/// Gets that wait until their range goes.
const DROPPED: &[Case<Step>] = &[
    (
        "Gets that wait are refused where the read of a page is refused as one of an old generation",
        &[
            SERVED,
            BOTH_WAIT,
            &[Takes(Answers(9, Refused(Refusal::Stale)), BOTH_GONE)],
            COMES_LATE,
            &[Takes(Gets(1, b"c", 3), &[Refuses(3, Refusal::NotOwner)])],
        ],
    ),
    (
        "Gets that wait are refused where the read of a value is refused as one of an old generation",
        &[
            SERVED,
            BOTH_WAIT,
            &[Takes(Answers(10, Refused(Refusal::Stale)), BOTH_GONE)],
            COMES_LATE,
        ],
    ),
    (
        "Gets that wait are refused behind a transaction whose append is refused as one of an old generation",
        &[
            SERVED,
            BOTH_WAIT,
            &[
                Takes(Puts(b"a", 1), &[Asks]),
                Takes(
                    Answers(11, Refused(Refusal::Stale)),
                    &[
                        Refuses(0, Refusal::NotOwner),
                        Refuses(1, Refusal::NotOwner),
                        Refuses(2, Refusal::NotOwner),
                    ],
                ),
            ],
            COMES_LATE,
        ],
    ),
    (
        "Gets that wait are refused where the range is assigned anew, and others are answered under the new generation",
        &[
            SERVED,
            BOTH_WAIT,
            &[Takes(
                Assigns(1, 3),
                &[
                    Refuses(1, Refusal::NotOwner),
                    Refuses(2, Refusal::NotOwner),
                    Asks,
                ],
            )],
            COMES_LATE,
            &[
                Takes(Gets(1, b"c", 3), &[Refuses(3, Refusal::Loading)]),
                Takes(Loads(11, MetadataAndRows(46)), &[Asks]),
                Takes(Loads(12, Group(CHECKPOINT)), &[Looks(7, 11)]),
                Takes(Loads(13, loads::answers::Answer::Bytes(INDEX)), &[Asks]),
                Takes(Loads(14, Confirmed), &[]),
            ],
            COMES_LATE,
            &[
                Takes(Gets(1, b"c", 4), &[Looks(7, 0)]),
                Takes(Reads(16, 7, 0, Page), &[Has(4, 1, 3, b"c", 1)]),
            ],
        ],
    ),
];

const USER: ActorId = ActorId::User(7);

fn ticket_of(ticket: u64) -> ReqNo {
    ReqNo::User { user: 7, ticket }
}

/// Who gives such packets.
fn sender_of(body: &Body) -> ActorId {
    match body {
        Body::Map(_) => ActorId::Map,
        Body::Stream(_) | Body::Seal(_) => ActorId::Manager,
        Body::Table(_) => USER,
        _ => ActorId::Node(1),
    }
}

fn bytes_of(alloc: Global, text: Text) -> Result<Bytes, Fail> {
    match text {
        Text::Page => Ok(Bytes::from_static(PAGE)),
        Text::NoPage => Ok(Bytes::from_static(NO_PAGE)),
        Text::PlacePage => Ok(Bytes::from_static(PLACE_PAGE)),
        Text::Value => Ok(Bytes::from_vec(vec![in alloc; b'x'; 5_000]?)?),
    }
}

fn assigns(range: u64, generation: u64) -> MapBody {
    MapBody::Assign {
        range: RangeId(range),
        generation: Fence(generation),
        until: 100,
    }
}

fn renews(until: u64) -> MapBody {
    MapBody::Renew {
        range: RangeId(1),
        generation: Fence(2),
        until,
    }
}

fn brings(
    alloc: Global,
    asked: u32,
    extent: u64,
    offset: u32,
    text: Text,
) -> Result<ReadBody, Fail> {
    Ok(ReadBody::Bytes {
        request: number(u64::from(asked)),
        extent: ExtentId(extent),
        offset,
        bytes: bytes_of(alloc, text)?,
    })
}

fn transacts(alloc: Global, key: &'static [u8], length: usize) -> Result<TableBody, Fail> {
    Ok(TableBody::Transact {
        range: RangeId(1),
        changes: puts(alloc, key, length, 1)?,
        request: ticket_of(0),
    })
}

fn gets(range: u64, key: &'static [u8], ticket: u64) -> TableBody {
    TableBody::Get {
        range: RangeId(range),
        key: Bytes::from_static(key),
        request: ticket_of(ticket),
    }
}

fn body_of(alloc: Global, comes: &Comes) -> Result<Body, Fail> {
    match comes {
        Assigns(range, generation) => Ok(Body::Map(assigns(*range, *generation))),
        Renews(until) => Ok(Body::Map(renews(*until))),
        Loads(asked, answer) => loads::answers::body_of(alloc, *asked, answer),
        Answers(asked, answer) => Ok(jobs::body_of(number(u64::from(*asked)), answer)),
        Reads(asked, extent, offset, text) => Ok(Body::Read(brings(
            alloc, *asked, *extent, *offset, *text,
        )?)),
        Puts(key, length) => Ok(Body::Table(transacts(alloc, *key, *length)?)),
        Gets(range, key, ticket) => Ok(Body::Table(gets(*range, *key, *ticket))),
    }
}

/// What a server does with a packet, which comes once more where memory is refused.
fn taken(server: &mut RangeServer, alloc: Global, packet: &Packet) -> Result<Sent, Fail> {
    match server.handle(alloc, packet) {
        Ok(sent) => Ok(sent),
        Err(_full) => Ok(server.handle(alloc, packet)?),
    }
}

fn handled(server: &mut RangeServer, alloc: Global, comes: &Comes) -> Result<Sent, Fail> {
    let body = body_of(alloc, comes)?;
    let packet = Packet {
        from: sender_of(&body),
        to: ActorId::Server(ServerNo(1)),
        body,
    };
    let sent = taken(server, alloc, &packet);
    drop(packet);
    sent
}

fn is_request(packet: &Packet) -> bool {
    match packet.to {
        ActorId::User(_) => false,
        _ => !matches!(&packet.body, Body::Read(ReadBody::ReadAt { .. })),
    }
}

fn is_answer(body: &TableBody, told: &Told) -> bool {
    match (body, told) {
        (TableBody::Committed { .. }, Told::Commits) => true,
        (
            TableBody::Value {
                request,
                value: Some(value),
            },
            Told::Has(ticket, _, _, _, length),
        ) => *request == ticket_of(*ticket) && value.len() == *length,
        _ => false,
    }
}

fn is_told(packet: &Packet, told: &Told) -> bool {
    match (&packet.body, told) {
        (_, Told::Asks) => is_request(packet),
        (Body::Read(ReadBody::ReadAt { extent, offset, .. }), Told::Looks(wanted, at)) => {
            *extent == ExtentId(*wanted) && *offset == *at
        }
        (Body::Append(AppendBody::Refused { request, refusal }), Told::Refuses(ticket, wanted)) => {
            packet.to == USER && *request == ticket_of(*ticket) && *refusal == *wanted
        }
        (Body::Table(body), _) => packet.to == USER && is_answer(body, told),
        _ => false,
    }
}

fn are_told(packets: &[Packet], told: &[Told]) -> bool {
    packets.len() == told.len()
        && packets
            .iter()
            .zip(told)
            .all(|(packet, one)| is_told(packet, one))
}

fn shows(note: &TableNote, told: &Told) -> bool {
    match (note, told) {
        (
            TableNote::Got {
                range,
                generation,
                key,
                value: Some(value),
            },
            Told::Has(_, wanted, under, name, length),
        ) => {
            *range == RangeId(*wanted)
                && *generation == Fence(*under)
                && key.as_slice() == *name
                && value.len() == *length
        }
        _ => false,
    }
}

/// The Get that is answered, if one is.
fn answered(told: &[Told]) -> Option<&Told> {
    told.iter().find(|one| matches!(one, Told::Has(..)))
}

/// The one Get that is answered is shown, if one is, and else no Get.
fn are_shown(notes: &[TableNote], told: &[Told]) -> bool {
    match (answered(told), notes) {
        (Some(one), [note]) => shows(note, one),
        (Some(_), _) => false,
        (None, _) => !notes
            .iter()
            .any(|note| matches!(note, TableNote::Got { .. })),
    }
}

// What is sent is handed over whole: a local that lives on is dropped at each exit, and each costs the proof.
fn tells(sent: Sent, told: &[Told]) -> bool {
    are_told(&sent.packets, told) && are_shown(&sent.notes, told)
}

/// The first request of a split or of a merge is sent.
fn begins(begun: Result<Sent, RangeFault>) -> Result<bool, Fail> {
    match begun {
        Ok(sent) => Ok(tells(sent, &[Asks])),
        Err(RangeFault::Memory) => Err(Fail::from("no memory")),
        Err(_fault) => Ok(false),
    }
}

/// A server at the moment 1.
#[derive(Drop)]
struct Asked {
    server: RangeServer,
}

impl Tested for Asked {
    type Step = Step;

    fn takes(&mut self, alloc: Global, step: &Step) -> Result<bool, Fail> {
        match step {
            Takes(comes, told) => Ok(tells(handled(&mut self.server, alloc, comes)?, *told)),
            Moment(now) => {
                self.server.moment(*now);
                Ok(true)
            }
            Splits => {
                let key = Bytes::from_static(b"m");
                begins(self.server.split(alloc, RangeId(1), &key))
            }
            Merges => begins(self.server.merge(alloc, RangeId(1), RangeId(2))),
        }
    }
}

/// The name of the first case that does not go as it says, if there is one. The cases are a parameter, since a list that stands in a
/// function is in each of its proofs.
fn first_wrong(alloc: Global, cases: &[Case<Step>]) -> Result<Option<&'static str>, Fail> {
    for (name, parts) in cases {
        let start = Asked {
            server: RangeServer::start(alloc, ServerNo(1), 1, 1, PLACES, 2),
        };
        if !holds(alloc, start, *parts)? {
            return Ok(Some(*name));
        }
    }
    Ok(None)
}

#[test]
fn gets_wait_up_to_the_end_of_a_lease(rt: HostRuntime) -> Result<(), Fail> {
    let wrong = first_wrong(rt.alloc(), ANSWERED)?;
    assert!(rt; wrong.is_none(), "{}", wrong.unwrap_or("-"));
    Ok(())
}

#[test]
fn gets_wait_while_their_range_is_split(rt: HostRuntime) -> Result<(), Fail> {
    let wrong = first_wrong(rt.alloc(), SPLIT)?;
    assert!(rt; wrong.is_none(), "{}", wrong.unwrap_or("-"));
    Ok(())
}

#[test]
fn gets_wait_while_their_range_is_merged(rt: HostRuntime) -> Result<(), Fail> {
    let wrong = first_wrong(rt.alloc(), MERGED)?;
    assert!(rt; wrong.is_none(), "{}", wrong.unwrap_or("-"));
    Ok(())
}

#[test]
fn gets_wait_until_their_range_goes(rt: HostRuntime) -> Result<(), Fail> {
    let wrong = first_wrong(rt.alloc(), DROPPED)?;
    assert!(rt; wrong.is_none(), "{}", wrong.unwrap_or("-"));
    Ok(())
}
