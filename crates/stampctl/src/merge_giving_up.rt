//! The server gives up on either range of a merge, in each of its phases: what it waits for is asked again once, whichever was told.
use crate::drills::{
    Drill, NONE, assign, change, deliver_some, merge_of, settle_all, split, started, transact,
};
use crate::drives::step;
use Sends::{Appends, Begins, Builds, Completes, Creates, Extends, Nothing, Reads, Seals, Trims};
use block_types::Nodes;
use model_streams::Event;
use std::alloc::Global;
use std::test::Fail;
use wire::{
    ActorId, AppendBody, Body, ExtentId, MapBody, Packet, RangeId, ReadBody, SealBody, ServerNo,
    StreamBody,
};

/// Enough for all that comes between two packets of the server.
const MOST_DELIVERIES: usize = 200;

/// How many checkpoints a range makes, so that with the index of its split it has as many as the next one combines unasked.
const MANY_CHECKPOINTS: usize = 15;

const LEFT: u64 = 2;

const RIGHT: u64 = 3;

/// What the server sends.
#[derive(Clone, Copy, PartialEq, Eq)]
enum Sends {
    Nothing,
    Begins,
    Reads,
    Extends,
    Appends,
    Trims,
    Seals,
    Builds,
    Creates,
    Completes,
}

/// What the server waits for, what it has sent for that, and what it sends where it gives up.
type Stage = (&'static str, Sends, Sends);

/// Those of a merge, in their order.
const STAGES: &[Stage] = &[
    ("the number of the new range", Begins, Begins),
    ("an extent of the left row data", Extends, Extends),
    ("the left pages", Appends, Seals),
    ("the left index", Appends, Seals),
    ("the left record", Appends, Seals),
    ("the left Trim", Trims, Trims),
    ("an extent of the right row data", Extends, Extends),
    ("the right pages", Appends, Seals),
    ("the right index", Appends, Seals),
    ("the right record", Appends, Seals),
    ("the right Trim", Trims, Trims),
    ("the seal of the left log", Seals, Seals),
    ("the seal of the left row data", Seals, Seals),
    ("the seal of the right log", Seals, Seals),
    ("the seal of the right row data", Seals, Seals),
    ("the streams of the new range", Builds, Builds),
    ("its metadata", Creates, Creates),
    ("an extent of its metadata", Extends, Extends),
    ("the record of its keys", Appends, Seals),
    ("the record of its regions", Appends, Seals),
    ("the map", Completes, Completes),
];

/// The stage in which the right log is to be trimmed.
const RIGHT_TRIM: usize = 10;

/// A range that has many indexes, and the stage of the merge in which its checkpoint reads the first page of these.
const READS: &[(u64, usize)] = &[(LEFT, 1), (RIGHT, 6)];

fn stream_sends(body: &StreamBody) -> Sends {
    match body {
        StreamBody::Extend { .. } => Extends,
        StreamBody::Trim { .. } => Trims,
        StreamBody::MultiModify { .. } => Builds,
        StreamBody::CreateStream { .. } => Creates,
        _ => Nothing,
    }
}

fn map_sends(body: &MapBody) -> Sends {
    match body {
        MapBody::BeginMerge { .. } => Begins,
        MapBody::CompleteMerge { .. } => Completes,
        _ => Nothing,
    }
}

/// What a packet is of those that a server sends for a merge.
fn sends_of(packet: &Packet) -> Sends {
    match &packet.body {
        Body::Append(AppendBody::Append { .. }) => Appends,
        Body::Seal(SealBody::SealExtent { .. }) => Seals,
        Body::Read(ReadBody::ReadAt { .. }) => Reads,
        Body::Stream(body) => stream_sends(body),
        Body::Map(body) => map_sends(body),
        _ => Nothing,
    }
}

fn is_of_the_server(packet: &Packet) -> bool {
    packet.from == ActorId::Server(ServerNo(1))
}

/// What the server sent from this packet on.
fn sent_from(sent: &[Packet], from: usize, alloc: Global) -> Result<Vec<Sends>, Fail> {
    let mut all = Vec::new(alloc);
    for packet in sent.iter().skip(from) {
        if is_of_the_server(packet) {
            all.push(sends_of(packet))?;
        }
    }
    Ok(all)
}

/// The extent that was asked to be sealed last.
fn last_seal(sent: &[Packet]) -> Option<ExtentId> {
    for packet in sent.iter().rev() {
        if let Body::Seal(SealBody::SealExtent { extent, .. }) = &packet.body {
            return Some(*extent);
        }
    }
    None
}

/// The next packet comes; where there is none, the extent is sealed that was asked for last.
fn goes_on(drill: &mut Drill, alloc: Global) -> Result<(), Fail> {
    let sent = drill.drive.run.sent();
    if drill.drive.delivered < sent.len() {
        return deliver_some(&mut drill.drive, alloc, &NONE, 1);
    }
    match last_seal(sent) {
        None => Err(Fail::from("nothing comes")),
        Some(extent) => step(&mut drill.drive, alloc, Event::Decide { extent }),
    }
}

/// The run goes on until the server has sent so many packets from this one on.
fn goes_to(drill: &mut Drill, alloc: Global, from: usize, count: usize) -> Result<(), Fail> {
    for _ in 0..MOST_DELIVERIES.saturating_mul(count.saturating_add(1)) {
        let told = sent_from(drill.drive.run.sent(), from, alloc)?.len();
        if told >= count {
            return Ok(());
        }
        goes_on(drill, alloc)?;
    }
    Err(Fail::from("nothing is sent"))
}

fn puts(drill: &mut Drill, alloc: Global, range: u64, key: u8) -> Result<(), Fail> {
    let mut changes = Vec::new(alloc);
    changes.push(change(alloc, key, Some(b'1'))?)?;
    transact(&mut drill.drive, alloc, RangeId(range), changes)?;
    settle_all(drill, alloc, &NONE)
}

/// A key of the range.
fn key_in(range: u64) -> u8 {
    if range == LEFT { b'a' } else { b'z' }
}

/// The range 1 is split, both parts are served, and a transaction of each is done.
fn parts(drill: &mut Drill, alloc: Global) -> Result<(), Fail> {
    settle_all(drill, alloc, &NONE)?;
    split(&mut drill.drive, alloc)?;
    settle_all(drill, alloc, &NONE)?;
    assign(&mut drill.drive, alloc, RangeId(LEFT))?;
    assign(&mut drill.drive, alloc, RangeId(RIGHT))?;
    settle_all(drill, alloc, &NONE)?;
    puts(drill, alloc, LEFT, key_in(LEFT))?;
    puts(drill, alloc, RIGHT, key_in(RIGHT))
}

fn checkpoint(drill: &mut Drill, alloc: Global, range: u64) -> Result<(), Fail> {
    let event = Event::Checkpoint {
        server: ServerNo(1),
        range: RangeId(range),
        combine: false,
    };
    step(&mut drill.drive, alloc, event)?;
    settle_all(drill, alloc, &NONE)
}

/// The range makes so many checkpoints that the next one combines its indexes.
fn has_many_indexes(drill: &mut Drill, alloc: Global, range: u64) -> Result<(), Fail> {
    for _ in 0..MANY_CHECKPOINTS {
        checkpoint(drill, alloc, range)?;
        puts(drill, alloc, range, key_in(range))?;
    }
    Ok(())
}

fn gives_up(drill: &mut Drill, alloc: Global, range: u64) -> Result<(), Fail> {
    let event = Event::GiveUp {
        server: ServerNo(1),
        range: RangeId(range),
        pick: Nodes {
            primary: 1,
            second: 2,
            third: 3,
        },
    };
    step(&mut drill.drive, alloc, event)
}

/// The ranges are merged, up to a stage: what the server has sent for that.
fn merges_to(drill: &mut Drill, alloc: Global, number: usize) -> Result<Vec<Sends>, Fail> {
    let from = drill.drive.run.sent().len();
    step(&mut drill.drive, alloc, merge_of(LEFT, RIGHT))?;
    goes_to(drill, alloc, from, number.saturating_add(1))?;
    sent_from(drill.drive.run.sent(), from, alloc)
}

/// What the server sends where it gives up on a range.
fn sent_again(drill: &mut Drill, alloc: Global, range: u64) -> Result<Vec<Sends>, Fail> {
    let before = drill.drive.run.sent().len();
    gives_up(drill, alloc, range)?;
    sent_from(drill.drive.run.sent(), before, alloc)
}

/// Whether the server comes to a stage of the merge, and sends what it should where it gives up on a range, and nothing else.
fn asks_again(
    drill: &mut Drill,
    alloc: Global,
    range: u64,
    number: usize,
    stage: &Stage,
) -> Result<bool, Fail> {
    let (_, sends, again) = stage;
    let told = merges_to(drill, alloc, number)?;
    if told.last() != Some(sends) {
        return Ok(false);
    }
    let more = sent_again(drill, alloc, range)?;
    Ok(more.as_slice() == [*again].as_slice())
}

/// The same of a new run, in which a range may have many indexes.
fn is_asked_again(
    alloc: Global,
    combines: Option<u64>,
    range: u64,
    number: usize,
    stage: &Stage,
) -> Result<bool, Fail> {
    let mut drill = started(alloc)?;
    parts(&mut drill, alloc)?;
    if let Some(many) = combines {
        has_many_indexes(&mut drill, alloc, many)?;
    }
    asks_again(&mut drill, alloc, range, number, stage)
}

/// What the server sends where it gives up on a range while the merge waits for a transaction of the left one, whose group is appended.
fn sent_for_a_group(alloc: Global, range: u64) -> Result<Vec<Sends>, Fail> {
    let mut drill = started(alloc)?;
    parts(&mut drill, alloc)?;
    merges_to(&mut drill, alloc, RIGHT_TRIM)?;
    let mut changes = Vec::new(alloc);
    changes.push(change(alloc, key_in(LEFT), Some(b'2'))?)?;
    transact(&mut drill.drive, alloc, RangeId(LEFT), changes)?;
    // The Trim comes, then the transaction, then the answer to the Trim.
    deliver_some(&mut drill.drive, alloc, &NONE, 3)?;
    sent_again(&mut drill, alloc, range)
}

#[test]
fn a_merge_gives_up_once_with_either_range(rt: HostRuntime) -> Result<(), Fail> {
    for (number, stage) in STAGES.iter().enumerate() {
        let (waits, _, _) = stage;
        for range in [LEFT, RIGHT] {
            let is_asked = is_asked_again(rt.alloc(), None, range, number, stage)?;
            assert!(rt; is_asked, "{waits}, range {range}");
        }
    }
    Ok(())
}

#[test]
fn a_page_is_read_again_with_either_range(rt: HostRuntime) -> Result<(), Fail> {
    for (many, number) in READS {
        for range in [LEFT, RIGHT] {
            let stage = ("a page of an older index", Reads, Reads);
            let is_asked = is_asked_again(rt.alloc(), Some(*many), range, *number, &stage)?;
            assert!(rt; is_asked, "range {range} while {many} combines");
        }
    }
    Ok(())
}

#[test]
fn a_group_is_given_up_with_its_own_range(rt: HostRuntime) -> Result<(), Fail> {
    let own = sent_for_a_group(rt.alloc(), LEFT)?;
    assert!(rt; own.as_slice() == [Seals].as_slice(), "the left range");
    let other = sent_for_a_group(rt.alloc(), RIGHT)?;
    assert!(rt; other.is_empty(), "the right range");
    Ok(())
}
