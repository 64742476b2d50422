//! What a rule sends.
ghost use Rattle.std.specs.Prelude.{◌≡◌, [], ◌∷◌, ◌++◌, IfOk, IfErr, OnOk};
ghost use Rattle.block_types.specs.Limits.{IsGroup};
ghost use Rattle.disk.specs.declared.device.DiskFault.TheVariants as faults;
ghost use Rattle.wire.specs.declared.actor.ActorId.TheVariants.{Node};
ghost use Rattle.wire.specs.declared.body.AppendBody.TheVariants.{Have, Refused, Put};
ghost use Rattle.wire.specs.declared.body.Body.TheVariants as bodies;
ghost use Rattle.model_streams.specs.Outcome.{packet as sent};
ghost use Rattle.model_streams.specs.Node.{acked, answers, puts, to_manager};
ghost use Rattle.enode_rules.specs.KeptStep.{empty_step, told};

use block_types::{Group, Nodes};
use disk::DiskFault;
use model_streams::WaitingAppend;
use std::alloc::Global;
use wire::{ActorId, AppendBody, Body, ExtentId, Note, Packet, Refusal, ReqNo, SealBody, Step};

/// Fills a step that is kept with one that was made. Without one it stays as it was.
pub fn fill(step: &mut Step, made: Result<Step, DiskFault>) -> Result<(), DiskFault>
    ensures { told result step.new ≡ made }
{
    match made {
        Ok(made) => {
            *step = made;
            Ok(())
        }
        Err(fault) => Err(fault),
    }
}

/// One packet of a node and no observation.
pub(crate) fn one(alloc: Global, from: u8, to: ActorId, body: Body) -> Result<Step, DiskFault>
    ensures packets { IfOk result (λ step. step.packets ≡ sent (Node from) to body ∷ []) }
    ensures notes { IfOk result (λ step. step.notes ≡ []) }
    ensures fault { IfErr result (λ e. e ≡ faults.Memory) }
{
    let mut step = Step::silent(alloc);
    step.packets.push(Packet {
        from: ActorId::Node(from),
        to,
        body,
    })?;
    Ok(step)
}

/// One packet of a node and one observation.
pub(crate) fn one_and_a_note(
    alloc: Global,
    from: u8,
    to: ActorId,
    body: Body,
    note: Note,
) -> Result<Step, DiskFault>
    ensures packets { IfOk result (λ step. step.packets ≡ sent (Node from) to body ∷ []) }
    ensures notes { IfOk result (λ step. step.notes ≡ note ∷ []) }
    ensures fault { IfErr result (λ e. e ≡ faults.Memory) }
{
    let mut step = one(alloc, from, to, body)?;
    step.notes.push(note)?;
    Ok(step)
}

/// Tells how long a secondary is.
pub(crate) fn tell_length(
    from: u8,
    primary: u8,
    extent: ExtentId,
    length: u32,
    step: &mut Step,
) -> Result<(), DiskFault>
    requires empty { step.old ≡ empty_step }
    ensures packets { OnOk result (step.new.packets ≡ sent (Node from) (Node primary) (bodies.Append (Have extent length)) ∷ []) }
    ensures notes { OnOk result (step.new.notes ≡ []) }
    ensures fault { IfErr result (λ e. e ≡ faults.Memory) }
{
    step.packets.push(Packet {
        from: ActorId::Node(from),
        to: ActorId::Node(primary),
        body: Body::Append(AppendBody::Have { extent, length }),
    })?;
    Ok(())
}

/// Adds the answer to an append, and that it is acknowledged.
pub(crate) fn answer(
    alloc: Global,
    step: &mut Step,
    node: u8,
    extent: ExtentId,
    waiting: &WaitingAppend,
) -> Result<(), DiskFault>
    ensures packets { OnOk result (step.new.packets ≡ step.old.packets ++ answers node extent (waiting.now ∷ [])) }
    ensures notes { OnOk result (step.new.notes ≡ step.old.notes ++ acked extent (waiting.now ∷ [])) }
    ensures fault { IfErr result (λ e. e ≡ faults.Memory) }
{
    let body = Body::Append(AppendBody::Appended {
        request: waiting.request,
        extent,
        offset: waiting.offset,
    });
    step.packets.push(Packet {
        from: ActorId::Node(node),
        to: waiting.asker,
        body,
    })?;
    step.notes.push(Note::Acked {
        extent,
        offset: waiting.offset,
        group: waiting.group.copy()?,
    })?;
    Ok(())
}

/// A packet to the manager and no observation.
pub(crate) fn tell_manager(alloc: Global, node: u8, body: SealBody) -> Result<Step, DiskFault>
    ensures packets { IfOk result (λ step. step.packets ≡ to_manager node body) }
    ensures notes { IfOk result (λ step. step.notes ≡ []) }
    ensures fault { IfErr result (λ e. e ≡ faults.Memory) }
{
    one(alloc, node, ActorId::Manager, Body::Seal(body))
}

/// The refusal of a request, from this node to who asked. An error is out of memory (22).
pub fn refuse(
    alloc: Global,
    from: u8,
    to: ActorId,
    request: ReqNo,
    refusal: Refusal,
) -> Result<Step, DiskFault>
    ensures packets { IfOk result (λ step. step.packets ≡ sent (Node from) to (bodies.Append (Refused request refusal)) ∷ []) }
    ensures notes { IfOk result (λ step. step.notes ≡ []) }
    ensures fault { IfErr result (λ e. e ≡ faults.Memory) }
{
    let body = Body::Append(AppendBody::Refused { request, refusal });
    one(alloc, from, to, body)
}

/// A Put of a group, whose list it shares.
fn put_of(extent: ExtentId, offset: u32, group: &Group) -> Result<Body, DiskFault>
    ensures body { IfOk result (λ body. body ≡ bodies.Append (Put extent offset group.now)) }
    ensures fault { IfErr result (λ e. e ≡ faults.Memory) }
{
    let group = group.copy()?;
    Ok(Body::Append(AppendBody::Put {
        extent,
        offset,
        group,
    }))
}

/// Adds a Put to a secondary.
fn add_put(
    step: &mut Step,
    node: u8,
    to: u8,
    extent: ExtentId,
    offset: u32,
    group: &Group,
) -> Result<(), DiskFault>
    ensures packets { OnOk result (step.new.packets ≡ step.old.packets ++ sent (Node node) (Node to) (bodies.Append (Put extent offset group.now)) ∷ []) }
    ensures notes { OnOk result (step.new.notes ≡ step.old.notes) }
    ensures fault { IfErr result (λ e. e ≡ faults.Memory) }
{
    let body = put_of(extent, offset, group)?;
    step.packets.push(Packet {
        from: ActorId::Node(node),
        to: ActorId::Node(to),
        body,
    })?;
    Ok(())
}

/// A Put to each secondary.
pub(crate) fn add_puts(
    node: u8,
    places: Nodes,
    extent: ExtentId,
    offset: u32,
    group: &Group,
    step: &mut Step,
) -> Result<(), DiskFault>
    requires { step.old ≡ empty_step }
    ensures packets { OnOk result (step.new.packets ≡ puts node places extent offset group.now) }
    ensures notes { OnOk result (step.new.notes ≡ []) }
    ensures fault { IfErr result (λ e. e ≡ faults.Memory) }
{
    add_put(step, node, places.second, extent, offset, group)?;
    add_put(step, node, places.third, extent, offset, group)?;
    Ok(())
}
