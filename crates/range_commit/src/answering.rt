//! What is answered to those who wait.
ghost use Rattle.std.specs.Prelude.{◌≡◌, ◌+◌, ◌<◌, ◌^◌, length, map, IfOk};
ghost use Rattle.model_partition.specs.Range.{refuses};
ghost use Rattle.model_partition.specs.Serving.{committed, dones};
ghost use Rattle.wire.specs.declared.refusal.Refusal.TheVariants as refusals;

use model_partition::{ServerContext, TableNote, WaitingTransaction};
use std::alloc::{AllocError, Global};
use wire::{ActorId, AppendBody, Body, Fence, Packet, RangeId, Refusal, TableBody};

/// Each is told its number, from `first` on.
pub(crate) fn committed_of(
    alloc: Global,
    context: &ServerContext,
    first: u64,
    group: &[WaitingTransaction],
) -> Result<Vec<Packet>, AllocError>
    requires { first + length group.now < 2 ^ 64 }
    ensures { IfOk result (λ packets. packets.items ≡ committed context.now first group.now) }
{
    let mut packets = Vec::with_capacity(alloc, group.len())?;
    let mut number = first;
    for transaction in group {
        let told = TableBody::Committed {
            request: transaction.request,
            number,
        };
        packets.push(Packet {
            from: ActorId::Server(context.server),
            to: transaction.from,
            body: Body::Table(told),
        })?;
        number += 1;
    }
    Ok(packets)
}

/// That each was answered.
pub(crate) fn dones_of(
    alloc: Global,
    range: RangeId,
    generation: Fence,
    first: u64,
    group: &[WaitingTransaction],
) -> Result<Vec<TableNote>, AllocError>
    requires { first + length group.now < 2 ^ 64 }
    ensures { IfOk result (λ notes. notes.items ≡ dones range generation first group.now) }
{
    let mut notes = Vec::with_capacity(alloc, group.len())?;
    let mut number = first;
    for _transaction in group {
        notes.push(TableNote::Done {
            range,
            generation,
            number,
        })?;
        number += 1;
    }
    Ok(notes)
}

/// Each is told that this server does not hold the range.
pub(crate) fn refusals_of(
    alloc: Global,
    context: &ServerContext,
    all: &[WaitingTransaction],
) -> Result<Vec<Packet>, AllocError>
    ensures { IfOk result (λ packets. packets.items
        ≡ map (λ t. refuses context.now t.from t.request refusals.NotOwner) all.now) }
{
    let mut packets = Vec::with_capacity(alloc, all.len())?;
    for transaction in all {
        let told = AppendBody::Refused {
            request: transaction.request,
            refusal: Refusal::NotOwner,
        };
        packets.push(Packet {
            from: ActorId::Server(context.server),
            to: transaction.from,
            body: Body::Append(told),
        })?;
    }
    Ok(packets)
}
