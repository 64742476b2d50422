//! What a server's call leaves.
ghost use Rattle.std.specs.Prelude.{◌≡◌, []};

use model_partition::TableNote;
use std::alloc::Global;
use std::marker::Model;
use wire::Packet;

/// What a server sends and shows in one step, in order.
#[derive(Drop)]
pub struct Sent {
    pub packets: Vec<Packet>,
    pub notes: Vec<TableNote>,
}

impl Model for Sent {
    ghost use Rattle.range.specs.ServerStep as specs;

    ghost Value = { specs.Sent };

    ghost view = { λ s. record { packets = s.packets.items; notes = s.notes.items } };
}

impl Sent {
    /// Nothing.
    pub fn nothing(alloc: Global) -> Sent
        ensures { result ≡ record { packets = []; notes = [] } }
    {
        Sent {
            packets: Vec::new(alloc),
            notes: Vec::new(alloc),
        }
    }
}
