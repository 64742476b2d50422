//! What a call is about to do.
ghost use Rattle.std.specs.Prelude.{◌≡◌, [], ◌∷◌, None, IfOk};
ghost use Rattle.wire.specs.declared.actor.ActorId.TheVariants.{Map};
ghost use Rattle.wire.specs.declared.body.Body.TheVariants as bodies;
ghost use Rattle.model_streams.specs.Outcome.{packet};

use model_partition::MapRecord;
use std::alloc::{AllocError, Global};
use wire::{ActorId, Body, MapBody, Note, Notes, Packet, Packets, Step};

/// What a call sends and shows, and what it writes and does to the table before that.
#[derive(Drop)]
pub(crate) struct Plan {
    pub step: Step,
    pub new_record: Option<MapRecord>,
}

impl Plan {
    /// Nothing is done.
    pub(crate) fn nothing(alloc: Global) -> Plan
        ensures { result ≡ record { step = record { packets = []; notes = [] }; new_record = None } }
    {
        Plan {
            step: Step::silent(alloc),
            new_record: None,
        }
    }

    /// What is shown.
    pub(crate) fn into_notes(self) -> Notes
        ensures { result ≡ self.step.notes }
    {
        let Plan {
            step,
            new_record: _,
        } = self;
        let Step { packets: _, notes } = step;
        notes
    }

    /// Somebody is told this, and nothing else is done. An error is out of memory.
    pub(crate) fn answer(alloc: Global, to: ActorId, told: MapBody) -> Result<Plan, AllocError>
        ensures { IfOk result (λ plan. plan ≡ record { step = record { packets = packet Map to (bodies.Map told) ∷ []; notes = [] }; new_record = None }) }
    {
        Ok(Plan {
            step: tell(alloc, to, Body::Map(told))?,
            new_record: None,
        })
    }
}

/// A step that tells somebody this. An error is out of memory.
pub(crate) fn tell(alloc: Global, to: ActorId, told: Body) -> Result<Step, AllocError>
    ensures { IfOk result (λ step. step ≡ record { packets = packet Map to told ∷ []; notes = [] }) }
{
    let mut packets = Packets::new(alloc);
    packets.push(Packet {
        from: ActorId::Map,
        to,
        body: told,
    })?;
    Ok(Step {
        packets,
        notes: Notes::new(alloc),
    })
}

/// A step that tells somebody this and shows that. An error is out of memory.
pub(crate) fn tell_and_show(
    alloc: Global,
    to: ActorId,
    told: Body,
    shown: Note,
) -> Result<Step, AllocError>
    ensures { IfOk result (λ step. step ≡ record { packets = packet Map to told ∷ []; notes = shown ∷ [] }) }
{
    let mut step = tell(alloc, to, told)?;
    step.notes.push(shown)?;
    Ok(step)
}
