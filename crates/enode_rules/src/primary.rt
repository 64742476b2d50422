//! A replica at its primary: what the secondaries have, and the appends that are answered then.
ghost use Rattle.std.specs.Prelude.{◌≡◌, ◌≤◌, take, OnOk, IfErr, length};
ghost use Rattle.disk.specs.declared.device.DiskFault.TheVariants as faults;
ghost use Rattle.model_streams.specs.Node.{acked, answered, answers, greater, lesser, have_rule};
ghost use Rattle.enode_rules.specs.KeptStep.{empty_step, told};
ghost use Rattle.enode_rules.specs.Performs.{ReplicaPerformsInMemory};

use crate::actors::is_node;
use crate::sending::answer;
use disk::DiskFault;
use enode_replica::{NodeReplica, Waiting, is_open};
use std::alloc::Global;
use wire::{ExtentId, Packet, Step};

/// The answers to the first waiting appends, and that they are acknowledged.
fn add_answers(
    alloc: Global,
    node: u8,
    extent: ExtentId,
    waiting: &Waiting,
    count: usize,
    step: &mut Step,
) -> Result<(), DiskFault>
    requires count { count ≤ length waiting.now }
    requires empty { step.old ≡ empty_step }
    ensures packets { OnOk result (step.new.packets ≡ answers node extent (take count waiting.now)) }
    ensures notes { OnOk result (step.new.notes ≡ acked extent (take count waiting.now)) }
    ensures fault { IfErr result (λ e. e ≡ faults.Memory) }
{
    for index in 0..count {
        answer(alloc, step, node, extent, waiting.get(index))?;
    }
    Ok(())
}

/// The longer of two lengths.
fn greater(old: u32, new: u32) -> u32
    ensures { result ≡ greater old new }
{
    old.max(new)
}

/// The shorter of two lengths.
fn lesser(one: u32, other: u32) -> u32
    ensures { result ≡ lesser one other }
{
    one.min(other)
}

/// What a secondary tells of its length. The appends that both have now are answered and wait no more.
pub(crate) fn have(
    hosted: &mut NodeReplica,
    alloc: Global,
    node: u8,
    packet: &Packet,
    extent: ExtentId,
    length: u32,
    step: &mut Step,
) -> Result<(), DiskFault>
    requires { step.old ≡ empty_step }
    ensures { ReplicaPerformsInMemory hosted.old hosted.new (have_rule node hosted.old packet.now extent length) (told result step.new) }
{
    let places = hosted.replica().places();
    if node != places.primary {
        return Ok(());
    }
    if !is_open(hosted.replica().state()) {
        return Ok(());
    }
    if is_node(places.second, packet.from) {
        return told(
            hosted,
            alloc,
            node,
            extent,
            greater(hosted.second_has, length),
            hosted.third_has,
            step,
        );
    }
    if is_node(places.third, packet.from) {
        return told(
            hosted,
            alloc,
            node,
            extent,
            hosted.second_has,
            greater(hosted.third_has, length),
            step,
        );
    }
    Ok(())
}

/// Answers what both secondaries have, where they have so much.
fn told(
    hosted: &mut NodeReplica,
    alloc: Global,
    node: u8,
    extent: ExtentId,
    second_has: u32,
    third_has: u32,
    step: &mut Step,
) -> Result<(), DiskFault>
    requires { step.old ≡ empty_step }
    ensures { ReplicaPerformsInMemory hosted.old hosted.new (answered node (record hosted.old { second_has = second_has; third_has = third_has }) extent) (told result step.new) }
{
    // Counted from 0, so that no more than those that are answered and one is looked at.
    let mut looks = 0;
    let waiting = hosted.waiting();
    let count = waiting.covered(lesser(second_has, third_has), &mut looks);
    add_answers(alloc, node, extent, waiting, count, step)?;
    hosted.answer(second_has, third_has, count);
    Ok(())
}
