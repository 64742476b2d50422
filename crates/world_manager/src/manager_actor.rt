//! The manager on a disk in memory.
ghost use Rattle.std.specs.Prelude.{◌≡◌, ◌≤◌, [], None, Some, IfOk, OnOk, OnErr};
ghost use Rattle.block_types.specs.Limits.{IsTarget};
ghost use Rattle.wire.specs.declared.actor.ActorId.TheVariants as actors;
ghost use Rattle.wire.specs.declared.note.Note.TheVariants as notes;
ghost use Rattle.model_streams.specs.StreamSystem.{manager_decides, manager_takes, restart as restarted_in, stop as stopped_in};
ghost use Rattle.manager.specs.Performs.{sealing_notes};
ghost use Rattle.world_steps.specs.ActorStep.{IsFew, nothing};
ghost use Rattle.world_manager.specs.Seen.{ManagerSimulates, decision_refusal, new_manager, seen_of};
ghost use Rattle.world_stops.specs.LastRecord.{shown_if};

use disk::{DiskFault, FileFault, MemDisk};
use manager::{Manager, ManagerFault};
use std::alloc::{AllocError, Global};
use std::marker::Model;
use wire::{ExtentId, Note, Notes, Packet, Refusal};
use world_steps::ActorStep;
use world_stops::{stands, unsent};

/// The stream manager, on a disk in memory.
pub struct ManagerActor {
    manager: Manager<MemDisk>,
}

// Written out, so that a crate above that lets one go has no proof of what is in it.
impl Drop for ManagerActor {
    fn drop(self) {
        let ManagerActor { manager: _ } = self;
    }
}

impl Model for ManagerActor {
    ghost use Rattle.world_manager.specs.Seen.{ManagerSeen, seen_of};

    ghost Value = { ManagerSeen };

    ghost view = { λ actor. seen_of actor.manager };
}

/// What is shown of a decision that the manager stops in: its seal, where the record of it stands.
fn shown(
    alloc: Global,
    extent: ExtentId,
    sealing: Option<u32>,
    stands: bool,
) -> Result<Notes, AllocError>
    ensures { IfOk result (λ shown. shown ≡ shown_if stands (sealing_notes extent sealing)) }
{
    let mut shown = Notes::new(alloc);
    if stands {
        if let Some(length) = sealing {
            shown.push(Note::SealedAt { extent, length })?;
        }
    }
    Ok(shown)
}

/// Gives a packet to a manager. One that stops in the step sends nothing.
fn give(
    manager: &mut Manager<MemDisk>,
    alloc: Global,
    packet: &Packet,
) -> Result<ActorStep, AllocError>
    ensures ok { IfOk result (λ step. ManagerSimulates (seen_of manager.old) (seen_of manager.new) (λ w. manager_takes w packet.now) step) }
    ensures plain { IfOk result (λ step. (step.tables ≡ []) × (step.refusal ≡ None)) }
    ensures err { OnErr result (seen_of manager.new ≡ seen_of manager.old) }
    ensures few { IfOk result IsFew }
{
    if manager.is_stopped() {
        return Ok(ActorStep::silent(alloc));
    }
    match manager.handle(alloc, packet) {
        Ok(step) => Ok(ActorStep::of_streams(alloc, step)),
        Err(DiskFault::Failed) => Ok(ActorStep::silent(alloc)),
        Err(DiskFault::Memory) => Err(AllocError),
    }
}

// What is shown where it stops in the decision is known before the call, and so is the memory for it.
fn decide(
    manager: &mut Manager<MemDisk>,
    alloc: Global,
    extent: ExtentId,
) -> Result<ActorStep, AllocError>
    ensures ok { IfOk result (λ step. ManagerSimulates (seen_of manager.old) (seen_of manager.new) (λ w. manager_decides w extent) step) }
    ensures tables { IfOk result (λ step. step.tables ≡ []) }
    ensures refusal { IfOk result (λ step. step.refusal ≡ decision_refusal (seen_of manager.old) extent) }
    ensures err { OnErr result (seen_of manager.new ≡ seen_of manager.old) }
    ensures few { IfOk result IsFew }
{
    if manager.is_stopped() {
        return Ok(ActorStep::silent(alloc));
    }
    let stands = stands(manager.file().told());
    let notes = match shown(alloc, extent, manager.sealing(extent), stands) {
        Ok(notes) => notes,
        Err(full) => return Err(full),
    };
    match manager.decide(alloc, extent) {
        Ok(step) => Ok(ActorStep::of_streams(alloc, step)),
        Err(ManagerFault::NoSuchExtent) => Ok(ActorStep::refused(alloc, Refusal::NoSuchExtent)),
        Err(ManagerFault::NoReply) => Ok(ActorStep::refused(alloc, Refusal::NoReply)),
        Err(ManagerFault::DiskFailed) => Ok(ActorStep::of_streams(alloc, unsent(alloc, notes))),
        Err(ManagerFault::Memory) => Err(AllocError),
    }
}

/// Stops a manager at once, or in one of its next device calls. Nothing comes of it where it has stopped.
fn stop(manager: &mut Manager<MemDisk>, call: u64, keep: bool)
    ensures { ManagerSimulates (seen_of manager.old) (seen_of manager.new) (λ w. stopped_in w actors.Manager call keep) nothing }
{
    if manager.is_stopped() {
        return;
    }
    if call == 0 {
        manager.stop_now();
    } else {
        manager.stop_at(call, keep);
    }
}

/// Brings a manager back that has stopped, with what is on its disk. Nothing comes of it where it runs.
fn restart(manager: &mut Manager<MemDisk>, alloc: Global) -> Result<(), AllocError>
    ensures ok { OnOk result (ManagerSimulates (seen_of manager.old) (seen_of manager.new) (λ w. restarted_in w actors.Manager) nothing) }
    ensures err { OnErr result (seen_of manager.new ≡ seen_of manager.old) }
{
    if !manager.is_stopped() {
        return Ok(());
    }
    let disk = match manager.file().copy_disk(alloc) {
        Ok(disk) => disk,
        Err(full) => return Err(full),
    };
    match Manager::restart(alloc, disk) {
        Ok(started) => {
            *manager = started;
            Ok(())
        }
        Err((FileFault::Memory, _disk)) => Err(AllocError),
        Err(_) => unreachable!(),
    }
}

/// A manager on a new disk.
fn on_new_disk(alloc: Global, nodes: u8, target: u32) -> Result<Manager<MemDisk>, AllocError>
    requires nodes { (3 ≤ nodes) × (nodes ≤ 12) }
    requires target { IsTarget target }
    ensures { IfOk result (λ manager. seen_of manager ≡ new_manager nodes target) }
{
    match Manager::create(alloc, nodes, target, MemDisk::new(alloc)) {
        Ok(manager) => Ok(manager),
        Err((DiskFault::Memory, _disk)) => Err(AllocError),
        Err(_) => unreachable!(),
    }
}

impl ManagerActor {
    /// The manager of so many nodes, whose extents have this target, with one record on its disk. An error is out of memory
    /// (22).
    pub fn start(alloc: Global, nodes: u8, target: u32) -> Result<ManagerActor, AllocError>
        requires nodes { (3 ≤ nodes) × (nodes ≤ 12) }
        requires target { IsTarget target }
        ensures { IfOk result (λ actor. actor ≡ new_manager nodes target) }
    {
        match on_new_disk(alloc, nodes, target) {
            Ok(manager) => Ok(ManagerActor { manager }),
            Err(full) => Err(full),
        }
    }

    /// Gives it a packet, and answers what it sends and shows. An error is out of memory (22), and nothing has changed.
    pub fn give(&mut self, alloc: Global, packet: &Packet) -> Result<ActorStep, AllocError>
        ensures ok { IfOk result (λ step. ManagerSimulates self.old self.new (λ w. manager_takes w packet.now) step) }
        ensures plain { IfOk result (λ step. (step.tables ≡ []) × (step.refusal ≡ None)) }
        ensures err { OnErr result (self.new ≡ self.old) }
        ensures few { IfOk result IsFew }
    {
        give(&mut self.manager, alloc, packet)
    }

    /// Has it seal an extent, and answers what it sends and shows, or why it refuses: there is no such extent (1), or no place
    /// has answered with its length (10). An error is out of memory (22), and nothing has changed.
    pub fn decide(&mut self, alloc: Global, extent: ExtentId) -> Result<ActorStep, AllocError>
        ensures ok { IfOk result (λ step. ManagerSimulates self.old self.new (λ w. manager_decides w extent) step) }
        ensures tables { IfOk result (λ step. step.tables ≡ []) }
        ensures refusal { IfOk result (λ step. step.refusal ≡ decision_refusal self.old extent) }
        ensures err { OnErr result (self.new ≡ self.old) }
        ensures few { IfOk result IsFew }
    {
        decide(&mut self.manager, alloc, extent)
    }

    /// Stops it at once, or in one of its next device calls. Nothing comes of it where it has stopped.
    pub fn stop(&mut self, call: u64, keep: bool)
        ensures { ManagerSimulates self.old self.new (λ w. stopped_in w actors.Manager call keep) nothing }
    {
        stop(&mut self.manager, call, keep)
    }

    /// Brings it back, with what is on its disk. Nothing comes of it where it runs. An error is out of memory (22), and
    /// nothing has changed.
    pub fn restart(&mut self, alloc: Global) -> Result<(), AllocError>
        ensures ok { OnOk result (ManagerSimulates self.old self.new (λ w. restarted_in w actors.Manager) nothing) }
        ensures err { OnErr result (self.new ≡ self.old) }
    {
        restart(&mut self.manager, alloc)
    }

    /// Whether it has stopped. Then nothing comes of a packet or a decision until it is restarted.
    pub fn is_stopped(&self) -> bool
        ensures { result ≡ self.now.stopped }
    {
        self.manager.is_stopped()
    }
}
