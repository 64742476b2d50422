//! The map on a disk in memory.
ghost use Rattle.std.specs.Prelude.{◌≡◌, ◌≢◌, [], Err, None, IfOk, OnOk, OnErr};
ghost use Rattle.model_partition.specs.Cluster.{assigns, renews, map_takes, map_stops, map_starts};
ghost use Rattle.model_partition.specs.MapRules.{map_rule};
ghost use Rattle.pmap.specs.MapWithFile.{map_of};
ghost use Rattle.world_map.specs.Outcome.{packets_of, refusal_of};
ghost use Rattle.world_map.specs.Seen.{MapSimulates, assign_refusal, moment_shown, new_map, renew_refusal};
ghost use Rattle.world_steps.specs.ActorStep.{IsFew, packets_alone};
ghost use Rattle.world_stops.specs.LastRecord.{shown_if};

use disk::{DiskFault, FileFault, MemDisk, RecordFile};
use pmap::{MapFault, PartitionMap};
use std::alloc::{AllocError, Global};
use std::marker::Model;
use wire::{Notes, Packet, RangeId, Refusal, ServerNo, Step};
use world_steps::ActorStep;
use world_stops::{stands, unsent};

/// The map, on a disk in memory, and the last moment of the clock.
pub struct MapActor {
    map: PartitionMap<MemDisk>,
    moment: u64,
}

// Written out, so that a crate above that lets one go has no proof of what is in it.
impl Drop for MapActor {
    fn drop(self) {
        let MapActor { map: _, moment: _ } = self;
    }
}

impl Model for MapActor {
    ghost use Rattle.world_map.specs.Seen.{MapSeen, seen_of};

    ghost Value = { MapSeen };

    ghost view = { λ actor. seen_of actor.moment actor.map };
}

/// What the map sends in a call; no call shows anything.
fn performed(alloc: Global, step: Step) -> ActorStep
    ensures { result ≡ packets_alone step.packets }
{
    ActorStep::of_packets(alloc, step.packets)
}

/// What a call of the map comes to. A map that stops in it sends nothing.
fn outcome(alloc: Global, done: Result<Step, MapFault>) -> Result<ActorStep, AllocError>
    ensures packets { IfOk result (λ step. step.packets ≡ packets_of done) }
    ensures plain { IfOk result (λ step. (step.notes ≡ []) × (step.tables ≡ [])) }
    ensures refusal { IfOk result (λ step. step.refusal ≡ refusal_of done) }
    ensures ok { OnOk result (done ≢ Err MapFault.Memory) }
    ensures err { OnErr result (done ≡ Err MapFault.Memory) }
{
    match done {
        Ok(step) => Ok(performed(alloc, step)),
        Err(MapFault::NotOwner) => Ok(ActorStep::refused(alloc, Refusal::NotOwner)),
        Err(MapFault::LeaseHeld) => Ok(ActorStep::refused(alloc, Refusal::LeaseHeld)),
        Err(MapFault::BadSplitKey) => Ok(ActorStep::refused(alloc, Refusal::BadSplitKey)),
        Err(MapFault::NotAdjacent) => Ok(ActorStep::refused(alloc, Refusal::NotAdjacent)),
        Err(MapFault::GenerationChanged) => {
            Ok(ActorStep::refused(alloc, Refusal::GenerationChanged))
        }
        Err(MapFault::DiskFailed) => Ok(ActorStep::silent(alloc)),
        Err(MapFault::Memory) => Err(AllocError),
    }
}

/// What is shown of a packet that the map stops in: what the packet's rule shows, where the record of it stands. An error is
/// out of memory.
fn shown(
    alloc: Global,
    map: &PartitionMap<MemDisk>,
    packet: &Packet,
    stands: bool,
) -> Result<Notes, AllocError>
    ensures { IfOk result (λ shown. shown ≡ shown_if stands (map_rule (map_of map.now) packet.now packet.now.body).notes) }
{
    if stands {
        map.shown_by(alloc, packet)
    } else {
        Ok(Notes::new(alloc))
    }
}

impl MapActor {
    /// A map with nothing on its disk: range 1 has all keys, nobody holds it, and the moment is 0. An error is out of memory (22).
    pub fn start(alloc: Global) -> Result<MapActor, AllocError>
        ensures { IfOk result (λ map. map ≡ new_map) }
    {
        let file = match RecordFile::format(MemDisk::new(alloc)) {
            Ok(file) => file,
            Err((DiskFault::Memory, _disk)) => return Err(AllocError),
            Err(_) => unreachable!(),
        };
        match PartitionMap::restart(alloc, file.into_disk()) {
            Ok(map) => Ok(MapActor { map, moment: 0 }),
            Err((FileFault::Memory, _disk)) => Err(AllocError),
            Err(_) => unreachable!(),
        }
    }

    /// Gives it a packet, and answers what it sends and shows: a map that stops in the record of a split or a merge shows it
    /// where the record stands. An error is out of memory (22), and nothing has changed.
    pub fn give(&mut self, alloc: Global, packet: &Packet) -> Result<ActorStep, AllocError>
        ensures ok { IfOk result (λ step. MapSimulates self.old self.new (λ c. map_takes c packet.now) step.packets step.notes) }
        ensures moment { self.new.moment ≡ self.old.moment }
        ensures plain { IfOk result (λ step. (step.tables ≡ []) × (step.refusal ≡ None)) }
        ensures err { OnErr result (self.new ≡ self.old) }
        ensures few { IfOk result IsFew }
    {
        if self.map.is_stopped() {
            return Ok(ActorStep::silent(alloc));
        }
        // What is shown where it stops in the record is known before the call, and so is the memory for it.
        let stands = stands(self.map.file().told());
        let notes = match shown(alloc, &self.map, packet, stands) {
            Ok(notes) => notes,
            Err(full) => return Err(full),
        };
        match self.map.handle(alloc, packet) {
            Ok(step) => Ok(ActorStep::of_streams(alloc, step)),
            Err(DiskFault::Failed) => Ok(ActorStep::of_streams(alloc, unsent(alloc, notes))),
            Err(DiskFault::Memory) => Err(AllocError),
        }
    }

    /// Has it assign a range, and answers what it sends, or why it refuses: the range is unknown (30), or another server holds
    /// it at this moment (31). An error is out of memory (22), and nothing has changed.
    pub fn assign(
        &mut self,
        alloc: Global,
        range: RangeId,
        server: ServerNo,
        until: u64,
    ) -> Result<ActorStep, AllocError>
        ensures ok { IfOk result (λ step. MapSimulates self.old self.new (λ c. assigns c range server until) step.packets []) }
        ensures moment { self.new.moment ≡ self.old.moment }
        ensures plain { IfOk result (λ step. (step.notes ≡ []) × (step.tables ≡ [])) }
        ensures refusal { IfOk result (λ step. step.refusal ≡ assign_refusal self.old self.old.moment range server) }
        ensures err { OnErr result (self.new ≡ self.old) }
        ensures few { IfOk result IsFew }
    {
        if self.map.is_stopped() {
            return Ok(ActorStep::silent(alloc));
        }
        let done = self.map.assign(alloc, range, server, self.moment, until);
        outcome(alloc, done)
    }

    /// Has it renew the lease of a range, and answers what it sends, or why it refuses: the server does not hold the range
    /// (30). An error is out of memory (22), and nothing has changed.
    pub fn renew(
        &mut self,
        alloc: Global,
        range: RangeId,
        server: ServerNo,
        until: u64,
    ) -> Result<ActorStep, AllocError>
        ensures ok { IfOk result (λ step. MapSimulates self.old self.new (λ c. renews c range server until) step.packets []) }
        ensures moment { self.new.moment ≡ self.old.moment }
        ensures plain { IfOk result (λ step. (step.notes ≡ []) × (step.tables ≡ [])) }
        ensures refusal { IfOk result (λ step. step.refusal ≡ renew_refusal self.old range server) }
        ensures err { OnErr result (self.new ≡ self.old) }
        ensures few { IfOk result IsFew }
    {
        if self.map.is_stopped() {
            return Ok(ActorStep::silent(alloc));
        }
        let done = self.map.renew(alloc, range, server, until);
        outcome(alloc, done)
    }

    /// Stops it at once, or in one of its next device calls. Nothing comes of it where it has stopped.
    pub fn stop(&mut self, call: u64, keep: bool)
        ensures stops { MapSimulates self.old self.new (λ c. map_stops c call keep) [] [] }
        ensures moment { self.new.moment ≡ self.old.moment }
    {
        if self.map.is_stopped() {
            return;
        }
        if call == 0 {
            self.map.stop_now();
        } else {
            self.map.stop_at(call, keep);
        }
    }

    /// Brings it back, with what is on its disk. Nothing comes of it where it runs. An error is out of memory (22), and
    /// nothing has changed.
    pub fn restart(&mut self, alloc: Global) -> Result<(), AllocError>
        ensures ok { OnOk result (MapSimulates self.old self.new map_starts [] []) }
        ensures moment { self.new.moment ≡ self.old.moment }
        ensures err { OnErr result (self.new ≡ self.old) }
    {
        if !self.map.is_stopped() {
            return Ok(());
        }
        let disk = match self.map.file().copy_disk(alloc) {
            Ok(disk) => disk,
            Err(refused) => return Err(refused),
        };
        match PartitionMap::restart(alloc, disk) {
            Ok(started) => {
                self.map = started;
                Ok(())
            }
            Err((FileFault::Memory, _disk)) => Err(AllocError),
            Err(_) => unreachable!(),
        }
    }

    /// Whether it has stopped. Then nothing comes of a packet, an assignment or a renewal until it is restarted.
    pub fn is_stopped(&self) -> bool
        ensures { result ≡ self.now.stopped }
    {
        self.map.is_stopped()
    }

    /// The clock of leases shows this. A moment that goes back changes nothing.
    pub fn moment(&mut self, now: u64)
        ensures { self.new ≡ moment_shown now self.old }
    {
        if now >= self.moment {
            self.moment = now;
        }
    }
}
