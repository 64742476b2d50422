//! A table of many large values, of which a checkpoint is made: each is read twice, in the order of the keys.
use crate::drives::{
    Drive, Fault, asked, begun, changes_of, checkpoint_of, settle, step, transaction, unless_failed,
};
use bytes::Bytes;
use std::alloc::Global;
use std::test::Fail;
use wire::{ActorId, Body, Packet, RangeId, ReqNo, TableBody};
use world::Setup;

/// More values than a server's cache of reads holds.
const KEYS: u16 = 1_100;

/// Above what a memory table keeps in itself.
const LENGTH: usize = 5_000;

fn letter_of(number: u16) -> u8 {
    (number % 251) as u8
}

/// Delivers all, while nobody stops.
fn deliver_all(drive: &mut Drive, alloc: Global) -> Result<(), Fail> {
    let none = Fault {
        actor: ActorId::Manager,
        after: 0,
    };
    settle(drive, alloc, &none)
}

fn put(drive: &mut Drive, alloc: Global, number: u16) -> Result<(), Fail> {
    let changes = changes_of(alloc, &number.to_be_bytes(), letter_of(number), LENGTH)?;
    step(drive, alloc, transaction(changes, u64::from(number)))?;
    deliver_all(drive, alloc)
}

fn get(drive: &mut Drive, alloc: Global, number: u16) -> Result<(), Fail> {
    let body = TableBody::Get {
        range: RangeId(1),
        key: Bytes::copy_from_slice(alloc, &number.to_be_bytes())?,
        request: ReqNo::User {
            user: 1,
            ticket: u64::from(number),
        },
    };
    step(drive, alloc, asked(body))?;
    deliver_all(drive, alloc)
}

fn put_all(drive: &mut Drive, alloc: Global) -> Result<(), Fail> {
    deliver_all(drive, alloc)?;
    for number in 0..KEYS {
        put(drive, alloc, number)?;
    }
    step(drive, alloc, checkpoint_of())?;
    deliver_all(drive, alloc)
}

fn get_all(drive: &mut Drive, alloc: Global) -> Result<(), Fail> {
    for number in 0..KEYS {
        get(drive, alloc, number)?;
    }
    Ok(())
}

/// Whether the packet answers a user with the value of the key that has the ticket's number.
fn is_right(packet: &Packet) -> bool {
    match &packet.body {
        Body::Table(
            TableBody::Value {
                request: ReqNo::User { ticket, .. },
                value: Some(value),
            },
        ) => {
            let letter = (*ticket % 251) as u8;
            value.len() == LENGTH && value.as_slice().iter().all(|byte| *byte == letter)
        }
        _ => false,
    }
}

/// Reads each value twice.
fn read_twice(drive: &mut Drive, alloc: Global) -> Result<(), Fail> {
    put_all(drive, alloc)?;
    get_all(drive, alloc)?;
    get_all(drive, alloc)
}

#[test]
fn each_value_is_read_after_a_checkpoint(rt: HostRuntime) -> Result<(), Fail> {
    let Some(setup) = Setup::new(3, 1, 16_777_216, 1) else {
        return Err(Fail::from("no setup"));
    };
    let mut drive = begun(rt.alloc(), &setup)?;
    let read = read_twice(&mut drive, rt.alloc());
    let drive = unless_failed(drive, read)?;
    let right = drive
        .run
        .sent()
        .iter()
        .filter(|packet| is_right(packet))
        .count();
    drop(drive);
    assert_eq!(rt; right, 2_200);
    Ok(())
}
