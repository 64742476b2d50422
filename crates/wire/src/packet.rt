//! Packets, and what an actor's step gives.
ghost use Rattle.std.specs.Prelude.{◌≡◌, [], ◌∷◌, ◌++◌, OnOk, OnErr};

use crate::actor::ActorId;
use crate::body::Body;
use crate::note::Notes;
use std::alloc::{AllocError, Global};
use std::marker::Model;

/// A packet, which may be delivered any number of times.
#[derive(Drop)]
pub struct Packet {
    pub from: ActorId,
    pub to: ActorId,
    pub body: Body,
}

/// Packets in the order in which they are sent.
pub struct Packets {
    pub items: Vec<Packet>,
}

// Written out, so that a crate above that lets one go has no proof of what is in it.
impl Drop for Packets {
    fn drop(self) {
        let Packets { items: _ } = self;
    }
}

impl Model for Packets {
    ghost use Rattle.std.specs.Prelude.{List};
    ghost use Rattle.wire.specs.declared.packet.Packet.{Packet};

    ghost Value = { List Packet };

    ghost view = { λ list. list.items.items };
}

impl Packets {
    /// None yet; takes no memory.
    pub fn new(alloc: Global) -> Packets
        ensures { result ≡ [] }
    {
        Packets {
            items: Vec::new(alloc),
        }
    }

    /// Adds one at the end. Without memory nothing has changed.
    pub fn push(&mut self, added: Packet) -> Result<(), AllocError>
        ensures ok { OnOk result (self.new ≡ self.old ++ added ∷ []) }
        ensures err { OnErr result (self.new ≡ self.old) }
    {
        self.items.push(added)?;
        Ok(())
    }

    /// Adds these at the end. Without memory nothing has changed.
    pub fn append(&mut self, more: Packets) -> Result<(), AllocError>
        ensures ok { OnOk result (self.new ≡ self.old ++ more) }
        ensures err { OnErr result (self.new ≡ self.old) }
    {
        let Packets { mut items } = more;
        self.items.append(&mut items)
    }

    /// The vector of them.
    pub fn into_vec(self) -> Vec<Packet>
        ensures { result.items ≡ self }
    {
        let Packets { items } = self;
        items
    }
}

/// What one step of an actor sends and shows.
#[derive(Drop)]
pub struct Step {
    pub packets: Packets,
    pub notes: Notes,
}

impl Step {
    /// A step that sends nothing and shows nothing; takes no memory.
    pub fn silent(alloc: Global) -> Step
        ensures packets { result.packets ≡ [] }
        ensures notes { result.notes ≡ [] }
    {
        Step {
            packets: Packets::new(alloc),
            notes: Notes::new(alloc),
        }
    }
}
