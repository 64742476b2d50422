//! A server, a node or the manager stops after each delivery of a run with transactions, or with a checkpoint among them, comes back,
//! and the range is assigned again: each load ends, and has what was done by then.
use crate::drives::{
    Drive, Fault, begun, changes_of, checkpoint_of, seal_of, settle, step, transaction,
    unless_failed,
};
use std::alloc::Global;
use std::test::Fail;
use wire::{ActorId, Body, Fence, MapBody, Note, Packet, Row, ServerNo};
use world::Setup;

/// What happens in a run, after which all that is sent comes.
#[derive(Clone, Copy)]
enum Act {
    /// A transaction puts a key, to so many bytes that are the key.
    Puts(u8, usize),
    /// The manager seals the extent 1.
    Seals,
    /// The server makes a checkpoint.
    Checkpoints,
}

const TRANSACTIONS: &[Act] = &[Act::Puts(b'a', 1), Act::Puts(b'b', 1), Act::Puts(b'c', 1)];

/// A value that stands in the log by its place, and an extent of the log that is sealed.
const BEFORE_CHECKPOINT: &[Act] = &[Act::Puts(b'a', 5000), Act::Puts(b'b', 1), Act::Seals];

/// The same, a checkpoint, with which that extent leaves the log, and what comes after that.
const CHECKPOINT: &[Act] = &[
    Act::Puts(b'a', 5000),
    Act::Puts(b'b', 1),
    Act::Seals,
    Act::Checkpoints,
    Act::Puts(b'c', 1),
];

/// A key, and how long its value is.
#[derive(Clone, Copy)]
struct Begun {
    key: u8,
    length: usize,
}

/// How many there were, of loads that ended or of assignments, and the generation of the last of them.
#[derive(Clone, Copy)]
struct Generations {
    count: usize,
    last: Fence,
}

const NONE: Generations = Generations {
    count: 0,
    last: Fence(0),
};

/// What was observed of the range up to some observation: what each number puts, the highest number that is done, and the loads.
#[derive(Clone, Copy)]
struct Seen {
    begun: [Begun; 8],
    done: u64,
    loads: Generations,
}

fn count_one(generations: &mut Generations, last: Fence) {
    *generations = Generations {
        count: generations.count.saturating_add(1),
        last,
    };
}

fn make_act(drive: &mut Drive, alloc: Global, act: Act) -> Result<(), Fail> {
    match act {
        Act::Puts(key, length) => {
            let changes = changes_of(alloc, &[key], key, length)?;
            step(drive, alloc, transaction(changes, u64::from(key)))
        }
        Act::Seals => step(drive, alloc, seal_of()),
        Act::Checkpoints => step(drive, alloc, checkpoint_of()),
    }
}

/// Whether the row is what a number puts.
fn is_of(row: &Row, begun: &Begun) -> bool {
    row.key.as_slice() == [begun.key].as_slice()
        && row.value.len() == begun.length
        && row.value.as_slice().iter().all(|byte| *byte == begun.key)
}

/// Whether the rows are what the first numbers put, in order.
fn are_of(rows: &[Row], begun: &[Begun]) -> bool {
    rows.len() == begun.len()
        && rows
            .iter()
            .zip(begun.iter())
            .all(|(row, of)| is_of(row, of))
}

/// Takes an observation, and answers whether a load has just what it may have.
fn is_right(seen: &mut Seen, note: &Note) -> bool {
    match note {
        Note::Began {
            number,
            changes,
            ..
        } => {
            if let Some(change) = changes.as_slice().first()
                && let Some(place) = seen.begun.get_mut((*number).saturating_sub(1) as usize)
                && let Some(key) = change.key.as_slice().first()
                && let Some(value) = &change.value
            {
                *place = Begun {
                    key: *key,
                    length: value.len(),
                };
            }
            true
        }
        Note::Done { number, .. } => {
            seen.done = seen.done.max(*number);
            true
        }
        Note::Loaded {
            generation,
            rows,
            next,
            ..
        } => {
            count_one(&mut seen.loads, *generation);
            match seen.begun.get(..(*next).saturating_sub(1) as usize) {
                Some(begun) => seen.done < *next && are_of(&rows.items, begun),
                None => false,
            }
        }
        _ => true,
    }
}

/// The loads that ended, where each is right.
fn right_loads(notes: &[Note]) -> Option<Generations> {
    let mut seen = Seen {
        begun: [Begun { key: 0, length: 0 }; 8],
        done: 0,
        loads: NONE,
    };
    for note in notes {
        if !is_right(&mut seen, note) {
            return None;
        }
    }
    Some(seen.loads)
}

/// The assignments that the map told the server.
fn assignments(sent: &[Packet]) -> Generations {
    let mut all = NONE;
    for packet in sent {
        if let Body::Map(MapBody::Assign { generation, .. }) = &packet.body {
            count_one(&mut all, *generation);
        }
    }
    all
}

fn act_all(drive: &mut Drive, alloc: Global, acts: &[Act], fault: &Fault) -> Result<(), Fail> {
    settle(drive, alloc, fault)?;
    for next in acts {
        make_act(drive, alloc, *next)?;
        settle(drive, alloc, fault)?;
    }
    Ok(())
}

/// The whole run, and how many packets it delivered.
fn driven(alloc: Global, setup: &Setup, acts: &[Act], fault: &Fault) -> Result<Drive, Fail> {
    let mut drive = begun(alloc, setup)?;
    let done = act_all(&mut drive, alloc, acts, fault);
    unless_failed(drive, done)
}

/// Whether the load of each assignment has ended and is right. The fault may cut off the first one, where it was under way.
fn is_well(drive: &Drive, is_under_way: bool) -> bool {
    let assigned = assignments(drive.run.sent());
    match right_loads(drive.run.observations()) {
        Some(loads) => {
            loads.last == assigned.last && (loads.count == assigned.count || is_under_way)
        }
        None => false,
    }
}

/// Whether a run with this fault is well. The first load takes so many deliveries.
fn is_well_after(
    alloc: Global,
    setup: &Setup,
    acts: &[Act],
    opening: usize,
    fault: &Fault,
) -> Result<bool, Fail> {
    let drive = driven(alloc, setup, acts, fault)?;
    let well = is_well(&drive, fault.after < opening);
    drop(drive);
    Ok(well)
}

/// How many packets a run without a fault delivers.
fn deliveries(alloc: Global, setup: &Setup, acts: &[Act]) -> Result<usize, Fail> {
    let none = Fault {
        actor: ActorId::Manager,
        after: 0,
    };
    let drive = driven(alloc, setup, acts, &none)?;
    let delivered = drive.delivered;
    drop(drive);
    Ok(delivered)
}

/// After how many deliveries, above so many, a stop of the actor leaves a load that is not right or does not end, if any.
fn wrong_after(
    alloc: Global,
    setup: &Setup,
    acts: &[Act],
    first: usize,
    actor: ActorId,
) -> Result<Option<usize>, Fail> {
    let opening = deliveries(alloc, setup, &[])?;
    let whole = deliveries(alloc, setup, acts)?;
    for after in first..=whole {
        let fault = Fault { actor, after };
        if !is_well_after(alloc, setup, acts, opening, &fault)? {
            return Ok(Some(after));
        }
    }
    Ok(None)
}

/// All whose stops are tried.
const ACTORS: [ActorId; 5] = [
    ActorId::Server(ServerNo(1)),
    ActorId::Node(1),
    ActorId::Node(2),
    ActorId::Node(3),
    ActorId::Manager,
];

#[test]
fn each_load_ends_with_what_was_done(rt: HostRuntime) -> Result<(), Fail> {
    let Some(setup) = Setup::new(3, 1, 4096, 1) else {
        return Err(Fail::from("no setup"));
    };
    assert!(rt; deliveries(rt.alloc(), &setup, TRANSACTIONS)? > 20);
    for actor in ACTORS {
        assert!(rt; wrong_after(rt.alloc(), &setup, TRANSACTIONS, 1, actor)? == None);
    }
    Ok(())
}

#[test]
fn each_load_ends_with_what_was_done_through_a_checkpoint(rt: HostRuntime) -> Result<(), Fail> {
    let Some(setup) = Setup::new(3, 1, 4096, 1) else {
        return Err(Fail::from("no setup"));
    };
    let before = deliveries(rt.alloc(), &setup, BEFORE_CHECKPOINT)?;
    assert!(rt; deliveries(rt.alloc(), &setup, CHECKPOINT)? > before.saturating_add(20));
    for actor in ACTORS {
        assert!(rt; wrong_after(rt.alloc(), &setup, CHECKPOINT, before, actor)? == None);
    }
    Ok(())
}
