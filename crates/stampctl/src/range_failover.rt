//! A range is split while a transaction goes on, or the two that a split made are merged while each takes one. The server, the manager
//! or the map stops after each packet of that and comes back, and each range that the map then has is assigned: each load has, within
//! its keys, what was done by then. And each of these packets is lost in turn, after which the server gives up: the split or the merge
//! ends, with the same tables.
use crate::drill_loads::{Tables, right_loads};
use crate::drills::{
    Blow, Drill, Fault, NONE, assign_all, assignments, change, deliver_some, drilled, end_all,
    merge_of, settle_all, split, started, transact,
};
use crate::drives::{Drive, step};
use std::alloc::Global;
use std::test::Fail;
use wire::{ActorId, Note, RangeId, ServerNo};

/// What is done with ranges while a blow falls.
#[derive(Clone, Copy)]
enum Job {
    /// The range 1 is split, and its second transaction is asked for meanwhile.
    Splits,
    /// The ranges 2 and 3 are merged, and the third transaction of either is asked for meanwhile.
    Merges,
}

/// What the transactions of either key make of it, in order.
const TABLES: Tables = Tables {
    low: &[None, Some(b'1'), Some(b'3'), Some(b'5')],
    high: &[None, Some(b'2'), None, Some(b'4')],
};

/// How many packets of a split come before a transaction: its checkpoint is in flight then.
const OF_SPLIT: usize = 2;

/// How many packets of a merge come before two: its second checkpoint is in flight then.
const OF_MERGE: usize = 27;

fn value_at(values: &[Option<u8>], number: usize) -> Result<Option<u8>, Fail> {
    match values.get(number) {
        Some(value) => Ok(*value),
        None => Err(Fail::from("no table")),
    }
}

/// The transaction of this number is asked of the range that has both keys.
fn transact_both(drive: &mut Drive, alloc: Global, number: usize) -> Result<(), Fail> {
    let mut changes = Vec::new(alloc);
    changes.push(change(alloc, b'a', value_at(TABLES.low, number)?)?)?;
    changes.push(change(alloc, b'z', value_at(TABLES.high, number)?)?)?;
    transact(drive, alloc, RangeId(1), changes)
}

fn transact_one(
    drive: &mut Drive,
    alloc: Global,
    range: RangeId,
    key: u8,
    value: Option<u8>,
) -> Result<(), Fail> {
    let mut changes = Vec::new(alloc);
    changes.push(change(alloc, key, value)?)?;
    transact(drive, alloc, range, changes)
}

/// The transaction of this number is asked of either of the two.
fn transact_each(drive: &mut Drive, alloc: Global, number: usize) -> Result<(), Fail> {
    let low = value_at(TABLES.low, number)?;
    let high = value_at(TABLES.high, number)?;
    transact_one(drive, alloc, RangeId(2), b'a', low)?;
    transact_one(drive, alloc, RangeId(3), b'z', high)
}

/// The range is split, and each of the two is loaded and has a transaction.
fn split_first(drill: &mut Drill, alloc: Global, fault: &Fault) -> Result<(), Fail> {
    split(&mut drill.drive, alloc)?;
    settle_all(drill, alloc, fault)?;
    assign_all(&mut drill.drive, alloc)?;
    settle_all(drill, alloc, fault)?;
    transact_each(&mut drill.drive, alloc, 2)?;
    settle_all(drill, alloc, fault)
}

/// The range is loaded, and has a transaction. Before a merge it is split.
fn open_all(drill: &mut Drill, alloc: Global, job: Job, fault: &Fault) -> Result<(), Fail> {
    settle_all(drill, alloc, fault)?;
    transact_both(&mut drill.drive, alloc, 1)?;
    settle_all(drill, alloc, fault)?;
    match job {
        Job::Splits => Ok(()),
        Job::Merges => split_first(drill, alloc, fault),
    }
}

fn begin_job(drive: &mut Drive, alloc: Global, job: Job, fault: &Fault) -> Result<(), Fail> {
    match job {
        Job::Splits => {
            split(drive, alloc)?;
            deliver_some(drive, alloc, fault, OF_SPLIT)?;
            transact_both(drive, alloc, 2)
        }
        Job::Merges => {
            step(drive, alloc, merge_of(2, 3))?;
            deliver_some(drive, alloc, fault, OF_MERGE)?;
            transact_each(drive, alloc, 3)
        }
    }
}

fn play_all(drill: &mut Drill, alloc: Global, job: Job, fault: &Fault) -> Result<(), Fail> {
    open_all(drill, alloc, job, fault)?;
    begin_job(&mut drill.drive, alloc, job, fault)?;
    settle_all(drill, alloc, fault)?;
    match fault.blow {
        Blow::Stops(_) => Ok(()),
        Blow::Loses => end_all(drill, alloc, fault),
    }
}

/// The whole run.
fn played(alloc: Global, job: Job, fault: &Fault) -> Result<Drive, Fail> {
    let mut drill = started(alloc)?;
    let done = play_all(&mut drill, alloc, job, fault);
    drilled(drill, done)
}

/// How many packets are delivered before the split or the merge.
fn first_deliveries(alloc: Global, job: Job) -> Result<usize, Fail> {
    let mut drill = started(alloc)?;
    let done = open_all(&mut drill, alloc, job, &NONE);
    let drive = drilled(drill, done)?;
    let delivered = drive.delivered;
    drop(drive);
    Ok(delivered)
}

/// How many packets are delivered where no blow falls.
fn all_deliveries(alloc: Global, job: Job) -> Result<usize, Fail> {
    let drive = played(alloc, job, &NONE)?;
    let delivered = drive.delivered;
    drop(drive);
    Ok(delivered)
}

/// Whether the map shows that it has ended.
fn is_end(job: Job, note: &Note) -> bool {
    match (job, note) {
        (Job::Splits, Note::Split { .. }) => true,
        (Job::Merges, Note::Merged { .. }) => true,
        _ => false,
    }
}

/// Whether the run was right: each range that was assigned was loaded, with the right table, and where no actor stopped the split or
/// the merge has ended.
fn is_well(drive: &Drive, job: Job, blow: &Blow) -> bool {
    let notes = drive.run.observations();
    let loaded = right_loads(notes, &TABLES) == Some(assignments(drive.run.sent()));
    match blow {
        Blow::Stops(_) => loaded,
        Blow::Loses => loaded && notes.iter().any(|note| is_end(job, note)),
    }
}

fn is_well_after(alloc: Global, job: Job, fault: &Fault) -> Result<bool, Fail> {
    let drive = played(alloc, job, fault)?;
    let well = is_well(&drive, job, &fault.blow);
    drop(drive);
    Ok(well)
}

/// At which packets a blow falls: a merge sends so many that no test has all.
#[derive(Clone, Copy)]
enum Share {
    All,
    Even,
    Odd,
}

fn is_in(share: Share, number: usize) -> bool {
    match share {
        Share::All => true,
        Share::Even => number % 2 == 0,
        Share::Odd => number % 2 == 1,
    }
}

/// Up to which packet of this share of the split's or the merge's the blow falls in a run that is not right, if there is one.
fn wrong_after(alloc: Global, job: Job, blow: Blow, share: Share) -> Result<Option<usize>, Fail> {
    let first = first_deliveries(alloc, job)?;
    let whole = all_deliveries(alloc, job)?;
    for after in first.saturating_add(1)..=whole {
        let fault = Fault { blow, after };
        if is_in(share, after) && !is_well_after(alloc, job, &fault)? {
            return Ok(Some(after));
        }
    }
    Ok(None)
}

const SERVER: Blow = Blow::Stops(ActorId::Server(ServerNo(1)));

const MANAGER: Blow = Blow::Stops(ActorId::Manager);

const MAP: Blow = Blow::Stops(ActorId::Map);

#[test]
fn the_split_sends_132_packets(rt: HostRuntime) -> Result<(), Fail> {
    assert_eq!(rt; first_deliveries(rt.alloc(), Job::Splits)?, 18);
    assert_eq!(rt; all_deliveries(rt.alloc(), Job::Splits)?, 150);
    Ok(())
}

#[test]
fn the_merge_sends_171_packets(rt: HostRuntime) -> Result<(), Fail> {
    assert_eq!(rt; first_deliveries(rt.alloc(), Job::Merges)?, 212);
    assert_eq!(rt; all_deliveries(rt.alloc(), Job::Merges)?, 383);
    Ok(())
}

#[test]
fn loads_are_right_where_the_server_stops_in_a_split(rt: HostRuntime) -> Result<(), Fail> {
    let wrong = wrong_after(rt.alloc(), Job::Splits, SERVER, Share::All)?;
    assert!(rt; wrong == None, "at packet {wrong:?}");
    Ok(())
}

#[test]
fn loads_are_right_where_the_manager_stops_in_a_split(rt: HostRuntime) -> Result<(), Fail> {
    let wrong = wrong_after(rt.alloc(), Job::Splits, MANAGER, Share::All)?;
    assert!(rt; wrong == None, "at packet {wrong:?}");
    Ok(())
}

#[test]
fn loads_are_right_where_the_map_stops_in_a_split(rt: HostRuntime) -> Result<(), Fail> {
    let wrong = wrong_after(rt.alloc(), Job::Splits, MAP, Share::All)?;
    assert!(rt; wrong == None, "at packet {wrong:?}");
    Ok(())
}

#[test]
fn the_split_ends_where_a_packet_is_lost(rt: HostRuntime) -> Result<(), Fail> {
    let wrong = wrong_after(rt.alloc(), Job::Splits, Blow::Loses, Share::All)?;
    assert!(rt; wrong == None, "at packet {wrong:?}");
    Ok(())
}

#[test]
fn loads_are_right_where_the_server_stops_in_a_merge(rt: HostRuntime) -> Result<(), Fail> {
    let wrong = wrong_after(rt.alloc(), Job::Merges, SERVER, Share::Even)?;
    assert!(rt; wrong == None, "at packet {wrong:?}");
    Ok(())
}

#[test]
fn loads_are_right_where_the_server_stops_in_a_merge_between(rt: HostRuntime) -> Result<(), Fail> {
    let wrong = wrong_after(rt.alloc(), Job::Merges, SERVER, Share::Odd)?;
    assert!(rt; wrong == None, "at packet {wrong:?}");
    Ok(())
}

#[test]
fn loads_are_right_where_the_manager_stops_in_a_merge(rt: HostRuntime) -> Result<(), Fail> {
    let wrong = wrong_after(rt.alloc(), Job::Merges, MANAGER, Share::Even)?;
    assert!(rt; wrong == None, "at packet {wrong:?}");
    Ok(())
}

#[test]
fn loads_are_right_where_the_manager_stops_in_a_merge_between(rt: HostRuntime) -> Result<(), Fail> {
    let wrong = wrong_after(rt.alloc(), Job::Merges, MANAGER, Share::Odd)?;
    assert!(rt; wrong == None, "at packet {wrong:?}");
    Ok(())
}

#[test]
fn loads_are_right_where_the_map_stops_in_a_merge(rt: HostRuntime) -> Result<(), Fail> {
    let wrong = wrong_after(rt.alloc(), Job::Merges, MAP, Share::Even)?;
    assert!(rt; wrong == None, "at packet {wrong:?}");
    Ok(())
}

#[test]
fn loads_are_right_where_the_map_stops_in_a_merge_between(rt: HostRuntime) -> Result<(), Fail> {
    let wrong = wrong_after(rt.alloc(), Job::Merges, MAP, Share::Odd)?;
    assert!(rt; wrong == None, "at packet {wrong:?}");
    Ok(())
}

#[test]
fn the_merge_ends_where_a_packet_is_lost(rt: HostRuntime) -> Result<(), Fail> {
    let wrong = wrong_after(rt.alloc(), Job::Merges, Blow::Loses, Share::Even)?;
    assert!(rt; wrong == None, "at packet {wrong:?}");
    Ok(())
}

#[test]
fn the_merge_ends_where_a_packet_between_is_lost(rt: HostRuntime) -> Result<(), Fail> {
    let wrong = wrong_after(rt.alloc(), Job::Merges, Blow::Loses, Share::Odd)?;
    assert!(rt; wrong == None, "at packet {wrong:?}");
    Ok(())
}
