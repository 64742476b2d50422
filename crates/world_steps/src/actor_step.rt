//! What one step of an actor comes to.
ghost use Rattle.std.specs.Prelude.{◌≡◌};
ghost use Rattle.world_steps.specs.ActorStep.{nothing, refusal_alone, packets_alone, stream_step, table_step};

use model_partition::TableNote;
use std::alloc::Global;
use std::marker::Model;
use wire::{Notes, Packet, Packets, Refusal, Step};

/// What an actor sends and shows in one step, in order, or why it refuses the call: then it sends and shows nothing.
#[derive(Drop)]
pub struct ActorStep {
    pub packets: Packets,
    pub notes: Notes,
    pub tables: Vec<TableNote>,
    pub refusal: Option<Refusal>,
}

impl Model for ActorStep {
    ghost use Rattle.world_steps.specs.ActorStep as specs;

    ghost Value = { specs.ActorStep };

    ghost view = { λ s. record { packets = s.packets; notes = s.notes; tables = s.tables.items; refusal = s.refusal } };
}

impl ActorStep {
    /// A step that sends nothing and shows nothing; takes no memory.
    pub fn silent(alloc: Global) -> ActorStep
        ensures { result ≡ nothing }
    {
        ActorStep {
            packets: Packets::new(alloc),
            notes: Notes::new(alloc),
            tables: Vec::new(alloc),
            refusal: None,
        }
    }

    /// The step of a call that is refused; takes no memory.
    pub fn refused(alloc: Global, refusal: Refusal) -> ActorStep
        ensures { result ≡ refusal_alone refusal }
    {
        ActorStep {
            packets: Packets::new(alloc),
            notes: Notes::new(alloc),
            tables: Vec::new(alloc),
            refusal: Some(refusal),
        }
    }

    /// A step that sends these and shows nothing; takes no memory.
    pub fn of_packets(alloc: Global, packets: Packets) -> ActorStep
        ensures { result ≡ packets_alone packets }
    {
        ActorStep {
            packets,
            notes: Notes::new(alloc),
            tables: Vec::new(alloc),
            refusal: None,
        }
    }

    /// A step of a node or of the manager; takes no memory.
    pub fn of_streams(alloc: Global, step: Step) -> ActorStep
        ensures { result ≡ stream_step step }
    {
        let Step { packets, notes } = step;
        ActorStep {
            packets,
            notes,
            tables: Vec::new(alloc),
            refusal: None,
        }
    }

    /// A step of a server; takes no memory.
    pub fn of_tables(alloc: Global, packets: Vec<Packet>, tables: Vec<TableNote>) -> ActorStep
        ensures { result ≡ table_step packets.items tables.items }
    {
        ActorStep {
            packets: Packets { items: packets },
            notes: Notes::new(alloc),
            tables,
            refusal: None,
        }
    }
}
