//! Appends to a node over a disk in memory.
use crate::error::Failure;
use block_types::Nodes;
use bytes::Bytes;
use disk::{MemDisk, RecordFile};
use enode::{Node, NodeFault};
use std::alloc::Global;
use std::rt::Clock;
use std::time::Instant;
use wire::{ActorId, AppendBody, Blocks, Body, ExtentId, Fence, Packet, ReqNo, SealBody, Step};

/// So many appends wait at a primary for its secondaries, and no more.
const WAITING: u64 = 256;

fn make(extent: ExtentId) -> Packet {
    let places = Nodes {
        primary: 1,
        second: 2,
        third: 3,
    };
    Packet {
        from: ActorId::Manager,
        to: ActorId::Node(1),
        body: Body::Seal(SealBody::Make {
            extent,
            fence: Fence(0),
            target: 16_777_216,
            places,
        }),
    }
}

fn append(alloc: Global, extent: ExtentId, ticket: u64) -> Result<Packet, Failure> {
    let mut blocks = Vec::new(alloc);
    blocks.push(Bytes::copy_from_slice(alloc, &[b'a'; 1024])?)?;
    Ok(Packet {
        from: ActorId::User(1),
        to: ActorId::Node(1),
        body: Body::Append(AppendBody::Append {
            extent,
            generation: Fence(0),
            blocks: Blocks::of(blocks)?,
            request: ReqNo::User { user: 1, ticket },
        }),
    })
}

/// How many packets the node sends for this one, which is handed over whole: a local that lives on is dropped at each exit.
fn given(node: &mut Node<MemDisk>, alloc: Global, packet: Packet) -> Result<usize, NodeFault> {
    Ok(packets_of(node.handle(alloc, &packet)?))
}

fn packets_of(step: Step) -> usize {
    step.packets.items.len()
}

/// A new node to which groups of 1 KiB were appended, and how many were taken: so many sent their Puts.
fn filled(alloc: Global, count: u64) -> Result<(Node<MemDisk>, u64), Failure> {
    let disk = RecordFile::format(MemDisk::new(alloc))?.into_disk();
    let mut node = Node::restart(alloc, 1, disk)?;
    let mut taken = 0u64;
    for ticket in 0..count {
        let extent = ExtentId(ticket / WAITING);
        if ticket % WAITING == 0 {
            given(&mut node, alloc, make(extent))?;
        }
        if given(&mut node, alloc, append(alloc, extent, ticket)?)? == 2 {
            taken = taken.saturating_add(1);
        }
    }
    Ok((node, taken))
}

/// Appends groups of 1 KiB to a new node, and answers how many were taken.
pub fn appended(alloc: Global, count: u64) -> Result<u64, Failure> {
    let (_node, taken) = filled(alloc, count)?;
    Ok(taken)
}

/// Prints how many appends were taken, and how long the node takes to come back with them.
pub fn measure_restart<R: AllocGlobal + Clock + Print>(rt: &R, count: u64) -> Result<(), Failure> {
    let (node, taken) = filled(rt.alloc(), count)?;
    let disk = node.into_disk();
    let start = Instant::now(rt)?;
    let _restarted = Node::restart(rt.alloc(), 1, disk)?;
    let micros = start.elapsed(rt)?.as_micros();
    rt.println(format_args!("taken {taken} micros {micros}"))?;
    Ok(())
}

/// Prints how many appends were taken and how long they took.
pub fn measure<R: AllocGlobal + Clock + Print>(rt: &R, count: u64) -> Result<(), Failure> {
    let start = Instant::now(rt)?;
    let taken = appended(rt.alloc(), count)?;
    let micros = start.elapsed(rt)?.as_micros();
    rt.println(format_args!("taken {taken} micros {micros}"))?;
    Ok(())
}
