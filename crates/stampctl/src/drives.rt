//! Whole runs that are driven: all that is sent comes in its order, and an actor may stop after some delivery and come back.
use bytes::Bytes;
use model_streams::Event;
use std::alloc::Global;
use std::test::Fail;
use wire::{ActorId, Body, Change, Changes, ExtentId, RangeId, ReqNo, ServerNo, TableBody};
use world::{Run, Setup};

/// Enough for all that is sent.
const MOST_DELIVERIES: usize = 2_000;

/// Who stops, and after how many deliveries.
#[derive(Clone, Copy)]
pub(crate) struct Fault {
    pub(crate) actor: ActorId,
    pub(crate) after: usize,
}

/// A run, and how many packets were delivered, the lowest number first.
#[derive(Drop)]
pub(crate) struct Drive {
    pub(crate) run: Run,
    pub(crate) delivered: usize,
}

/// Whether there was memory for the event, which is handed over whole: one that lives on is dropped at each exit.
fn is_had(drive: &mut Drive, alloc: Global, event: Event) -> bool {
    let is_had = drive.run.step(alloc, &event).is_ok();
    drop(event);
    is_had
}

pub(crate) fn step(drive: &mut Drive, alloc: Global, event: Event) -> Result<(), Fail> {
    if is_had(drive, alloc, event) {
        Ok(())
    } else {
        Err(Fail::from("no memory"))
    }
}

fn assignment() -> Event {
    Event::Assign {
        range: RangeId(1),
        server: ServerNo(1),
        until: 100,
    }
}

fn assign(drive: &mut Drive, alloc: Global) -> Result<(), Fail> {
    step(drive, alloc, assignment())
}

pub(crate) fn stop_of(actor: &ActorId) -> Event {
    Event::Stop {
        actor: *actor,
        call: 0,
        keep: false,
    }
}

fn delivery_of(number: usize) -> Event {
    Event::Deliver { number }
}

pub(crate) fn restart_of(actor: &ActorId) -> Event {
    Event::Restart { actor: *actor }
}

fn fails(drive: &mut Drive, alloc: Global, actor: &ActorId) -> Result<(), Fail> {
    step(drive, alloc, stop_of(actor))?;
    step(drive, alloc, restart_of(actor))?;
    assign(drive, alloc)
}

/// Delivers the next packet, with the fault where it is due, and answers whether there was one.
fn deliver_next(drive: &mut Drive, alloc: Global, fault: &Fault) -> Result<bool, Fail> {
    let number = drive.delivered;
    if number >= drive.run.sent().len() {
        return Ok(false);
    }
    step(drive, alloc, delivery_of(number))?;
    drive.delivered = number.saturating_add(1);
    if drive.delivered == fault.after {
        fails(drive, alloc, &fault.actor)?;
    }
    Ok(true)
}

/// Delivers all that was sent and is sent by that.
pub(crate) fn settle(drive: &mut Drive, alloc: Global, fault: &Fault) -> Result<(), Fail> {
    for _ in 0..MOST_DELIVERIES {
        let more = deliver_next(drive, alloc, fault)?;
        if !more {
            return Ok(());
        }
    }
    Ok(())
}

/// So many bytes of a letter.
pub(crate) fn value_of(alloc: Global, letter: u8, length: usize) -> Result<Bytes, Fail> {
    let mut bytes = Vec::new(alloc);
    bytes.resize(length, letter)?;
    Ok(Bytes::from_vec(bytes)?)
}

/// One change, which puts a key to so many bytes of a letter.
pub(crate) fn changes_of(
    alloc: Global,
    key: &[u8],
    letter: u8,
    length: usize,
) -> Result<Changes, Fail> {
    let name = Bytes::copy_from_slice(alloc, key)?;
    let value = Some(value_of(alloc, letter, length)?);
    let mut changes = Vec::new(alloc);
    changes.push(Change { key: name, value })?;
    Ok(Changes::of(changes)?)
}

/// A user's request, which comes to the server.
pub(crate) fn asked(body: TableBody) -> Event {
    Event::Submit {
        user: 1,
        to: ActorId::Server(ServerNo(1)),
        body: Body::Table(body),
    }
}

pub(crate) fn transaction_in(range: RangeId, changes: Changes, ticket: u64) -> Event {
    asked(TableBody::Transact {
        range,
        changes,
        request: ReqNo::User { user: 1, ticket },
    })
}

pub(crate) fn transaction(changes: Changes, ticket: u64) -> Event {
    transaction_in(RangeId(1), changes, ticket)
}

pub(crate) fn checkpoint_of() -> Event {
    Event::Checkpoint {
        server: ServerNo(1),
        range: RangeId(1),
        combine: false,
    }
}

pub(crate) fn seal_of() -> Event {
    Event::Decide {
        extent: ExtentId(1),
    }
}

fn started(alloc: Global, setup: &Setup) -> Result<Drive, Fail> {
    match Run::start(alloc, setup) {
        Ok(run) => Ok(Drive { run, delivered: 0 }),
        Err(_) => Err(Fail::from("no memory")),
    }
}

/// The run, unless a step of it failed.
pub(crate) fn unless_failed(drive: Drive, stepped: Result<(), Fail>) -> Result<Drive, Fail> {
    match stepped {
        Ok(()) => Ok(drive),
        Err(fail) => {
            drop(drive);
            Err(fail)
        }
    }
}

fn assign_at_moment_1(drive: &mut Drive, alloc: Global) -> Result<(), Fail> {
    step(drive, alloc, Event::Moment { now: 1 })?;
    assign(drive, alloc)
}

/// A run at the moment 1, whose range is assigned.
pub(crate) fn begun(alloc: Global, setup: &Setup) -> Result<Drive, Fail> {
    let mut drive = started(alloc, setup)?;
    let assigned = assign_at_moment_1(&mut drive, alloc);
    unless_failed(drive, assigned)
}
