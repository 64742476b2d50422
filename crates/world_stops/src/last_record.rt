//! What is left of a record that an actor stops in.
ghost use Rattle.std.specs.Prelude.{◌≡◌, []};
ghost use Rattle.world_stops.specs.LastRecord.{stands_told};

use disk::Stop;
use std::alloc::Global;
use wire::{Notes, Packets, Step};

/// Whether a record that is being written stands, where the disk stops in it by this plan.
pub fn stands(told: Option<Stop>) -> bool
    ensures { result ≡ stands_told told }
{
    match told {
        None => false,
        Some(stop) => stop.keep && stop.calls >= 3,
    }
}

/// A step that sends nothing, and shows these; takes no memory.
pub fn unsent(alloc: Global, notes: Notes) -> Step
    ensures { (result.packets ≡ []) × (result.notes ≡ notes) }
{
    Step {
        packets: Packets::new(alloc),
        notes,
    }
}
