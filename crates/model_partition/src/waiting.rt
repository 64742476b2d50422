//! What waits at a server.

use client::Place as Replica;
use memtable::{Key, Place};
use std::marker::Model;
use wire::{ActorId, Changes, ReqNo};

/// A transaction that waits to be appended, or is being appended.
pub struct WaitingTransaction {
    pub from: ActorId,
    pub request: ReqNo,
    pub changes: Changes,
}

// Written out, so that a crate above that lets one go has no proof of what is in it.
impl Drop for WaitingTransaction {
    fn drop(self) {
        let WaitingTransaction {
            from: _,
            request: _,
            changes: _,
        } = self;
    }
}

/// A read of an index, of a page or of a value: its number, the place, whether a page is wanted, and the replica that was asked
/// last.
#[derive(Clone, Copy)]
pub struct PlaceRead {
    pub request: ReqNo,
    pub place: Place,
    pub page: bool,
    pub replica: Replica,
}

/// Reads, in the order in which they were sent.
pub struct PlaceReads {
    pub items: Vec<PlaceRead>,
}

// Written out, so that a crate above that lets one go has no proof of what is in it.
impl Drop for PlaceReads {
    fn drop(self) {
        let PlaceReads { items: _ } = self;
    }
}

impl Model for PlaceReads {
    ghost use Rattle.std.specs.Prelude.{List};
    ghost use Rattle.model_partition.specs.declared.waiting.PlaceRead.{PlaceRead};

    ghost Value = { List PlaceRead };

    ghost view = { λ list. list.items.items };
}

/// A Get that waits for the bytes of a page or of a value.
#[derive(Drop)]
pub struct WaitingGet {
    pub from: ActorId,
    pub request: ReqNo,
    pub key: Key,
    pub reads: PlaceReads,
}
