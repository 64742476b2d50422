//! The servers of a run.
ghost use Rattle.std.specs.Prelude.{◌≡◌, ◌<◌, ℕ, suc, [], None, length, map, option_map, IfOk, OnErr, IfSome, IfNone};
ghost use Rattle.model_streams.specs.Maps.{entry_at};
ghost use Rattle.model_partition.specs.Servers.{checkpoint_refusal_at, first_servers, give_up_refusal, merge_refusal_at, server_checkpoints, server_gives_up, server_loads, server_merges, server_splits, server_stops, server_starts, server_takes, split_refusal_at, table_of_view};
ghost use Rattle.world_server.specs.Seen.{moment_shown};
ghost use Rattle.world_steps.specs.ActorStep.{IsFew};
ghost use Rattle.world_servers.specs.Servers.{AreServers, StayServers, all_shown, cells_of, new_servers, outcome};

use block_types::Nodes;
use bytes::Bytes;
use model_partition::TableView;
use std::alloc::{AllocError, Global};
use std::marker::Model;
use wire::{Body, Packet, RangeId, ServerNo};
use world_server::ServerActor;
use world_steps::ActorStep;

/// The servers, numbered from 1, the last moment that they saw, and how many transactions a group of their logs may hold. What a
/// server holds goes with a stop.
pub struct Servers {
    actors: Vec<ServerActor>,
    moment: u64,
    batch: u16,
}

// Written out, so that a crate above that lets one go has no proof of what is in it.
impl Drop for Servers {
    fn drop(self) {
        let Servers {
            actors: _,
            moment: _,
            batch: _,
        } = self;
    }
}

impl Model for Servers {
    ghost use Rattle.world_servers.specs.Servers.{AreServers, ServersSeen, cells_of};

    ghost Value = { ServersSeen };

    ghost view = { λ s. record { cells = cells_of s.actors.items; moment = s.moment; batch = s.batch } };

    ghost invariant = { λ s. AreServers s.moment s.batch 1 s.actors.items };
}

#[tactic(auto, using(crate::proofs::ServerList::one_started, crate::proofs::ServerList::all_started))]
fn started(alloc: Global, count: u8, batch: u16) -> Result<Vec<ServerActor>, AllocError>
    ensures { IfOk result (λ actors. actors.items ≡ new_servers batch 1 count) }
{
    let mut actors = Vec::with_capacity(alloc, usize::from(count))?;
    for before in 0..count {
        actors.push(ServerActor::start(alloc, ServerNo(before + 1), batch))?;
    }
    Ok(actors)
}

/// The place of the server of a number; none where there is none.
#[tactic(auto, using(crate::proofs::ServerList::nobody_there))]
fn place(actors: &[ServerActor], server: ServerNo) -> Option<usize>
    ensures some { IfSome result (λ at. (server ≡ suc at) × (at < length actors.now)) }
    ensures none { IfNone result (entry_at (cells_of actors.now) server ≡ None) }
{
    let number = usize::from(server.0);
    if number == 0 {
        return None;
    }
    if number - 1 >= actors.len() {
        return None;
    }
    Some(number - 1)
}

#[tactic(auto, using(crate::proofs::ServerList::one_stepped, crate::proofs::ServerList::one_stays, crate::proofs::ServerList::set_same))]
fn give_at(
    actors: &mut Vec<ServerActor>,
    at: usize,
    alloc: Global,
    packet: &Packet,
) -> Result<ActorStep, AllocError>
    requires { at < length actors.old.items }
    ensures ok { IfOk result (λ step. server_takes (cells_of actors.old.items) (suc at) packet.now ≡ outcome (cells_of actors.new.items) step) }
    ensures stay { StayServers actors.old.items actors.new.items }
    ensures plain { IfOk result (λ step. (step.notes ≡ []) × (step.refusal ≡ None)) }
    ensures err { OnErr result (actors.new.items ≡ actors.old.items) }
    ensures few { IfOk result IsFew }
{
    match actors[at].give(alloc, packet) {
        Ok(step) => Ok(step),
        Err(full) => Err(full),
    }
}

#[tactic(auto, using(crate::proofs::ServerList::one_stepped, crate::proofs::ServerList::one_stays, crate::proofs::ServerList::set_same))]
fn give_up_at(
    actors: &mut Vec<ServerActor>,
    at: usize,
    alloc: Global,
    range: RangeId,
    pick: &Nodes,
) -> Result<ActorStep, AllocError>
    requires { at < length actors.old.items }
    ensures ok { IfOk result (λ step. server_gives_up (cells_of actors.old.items) (suc at) range pick.now ≡ outcome (cells_of actors.new.items) step) }
    ensures stay { StayServers actors.old.items actors.new.items }
    ensures plain { IfOk result (λ step. step.notes ≡ []) }
    ensures refusal { IfOk result (λ step. step.refusal ≡ give_up_refusal range pick.now (entry_at (cells_of actors.old.items) (suc at))) }
    ensures err { OnErr result (actors.new.items ≡ actors.old.items) }
    ensures few { IfOk result IsFew }
{
    match actors[at].give_up(alloc, range, pick) {
        Ok(step) => Ok(step),
        Err(full) => Err(full),
    }
}

#[tactic(auto, using(crate::proofs::ServerList::one_stepped, crate::proofs::ServerList::one_stays, crate::proofs::ServerList::set_same))]
fn checkpoint_at(
    actors: &mut Vec<ServerActor>,
    at: usize,
    alloc: Global,
    range: RangeId,
    combine: bool,
) -> Result<ActorStep, AllocError>
    requires { at < length actors.old.items }
    ensures ok { IfOk result (λ step. server_checkpoints (cells_of actors.old.items) (suc at) range combine ≡ outcome (cells_of actors.new.items) step) }
    ensures stay { StayServers actors.old.items actors.new.items }
    ensures plain { IfOk result (λ step. step.notes ≡ []) }
    ensures refusal { IfOk result (λ step. step.refusal ≡ checkpoint_refusal_at range (entry_at (cells_of actors.old.items) (suc at))) }
    ensures err { OnErr result (actors.new.items ≡ actors.old.items) }
    ensures few { IfOk result IsFew }
{
    match actors[at].checkpoint(alloc, range, combine) {
        Ok(step) => Ok(step),
        Err(full) => Err(full),
    }
}

#[tactic(auto, using(crate::proofs::ServerList::one_stepped, crate::proofs::ServerList::one_stays, crate::proofs::ServerList::set_same))]
fn split_at(
    actors: &mut Vec<ServerActor>,
    at: usize,
    alloc: Global,
    range: RangeId,
    key: &Bytes,
) -> Result<ActorStep, AllocError>
    requires { at < length actors.old.items }
    ensures ok { IfOk result (λ step. server_splits (cells_of actors.old.items) (suc at) range key.now ≡ outcome (cells_of actors.new.items) step) }
    ensures stay { StayServers actors.old.items actors.new.items }
    ensures plain { IfOk result (λ step. step.notes ≡ []) }
    ensures refusal { IfOk result (λ step. step.refusal ≡ split_refusal_at range key.now (entry_at (cells_of actors.old.items) (suc at))) }
    ensures err { OnErr result (actors.new.items ≡ actors.old.items) }
    ensures few { IfOk result IsFew }
{
    match actors[at].split(alloc, range, key) {
        Ok(step) => Ok(step),
        Err(full) => Err(full),
    }
}

#[tactic(auto, using(crate::proofs::ServerList::one_stepped, crate::proofs::ServerList::one_stays, crate::proofs::ServerList::set_same))]
fn merge_at(
    actors: &mut Vec<ServerActor>,
    at: usize,
    alloc: Global,
    left: RangeId,
    right: RangeId,
) -> Result<ActorStep, AllocError>
    requires { at < length actors.old.items }
    ensures ok { IfOk result (λ step. server_merges (cells_of actors.old.items) (suc at) left right ≡ outcome (cells_of actors.new.items) step) }
    ensures stay { StayServers actors.old.items actors.new.items }
    ensures plain { IfOk result (λ step. step.notes ≡ []) }
    ensures refusal { IfOk result (λ step. step.refusal ≡ merge_refusal_at left right (entry_at (cells_of actors.old.items) (suc at))) }
    ensures err { OnErr result (actors.new.items ≡ actors.old.items) }
    ensures few { IfOk result IsFew }
{
    match actors[at].merge(alloc, left, right) {
        Ok(step) => Ok(step),
        Err(full) => Err(full),
    }
}

#[tactic(auto, using(crate::proofs::ServerList::one_stopped, crate::proofs::ServerList::one_stays))]
fn stop_at(actors: &mut Vec<ServerActor>, at: usize, call: u64)
    requires { at < length actors.old.items }
    ensures stops { server_stops (cells_of actors.old.items) (suc at) call ≡ record { servers = cells_of actors.new.items; packets = []; notes = [] } }
    ensures stay { StayServers actors.old.items actors.new.items }
{
    actors[at].stop(call);
}

#[tactic(auto, using(crate::proofs::ServerList::one_restarted, crate::proofs::ServerList::one_stays))]
fn restart_at(actors: &mut Vec<ServerActor>, at: usize, alloc: Global)
    requires { at < length actors.old.items }
    ensures starts { (moment batch : ℕ) → AreServers moment batch 1 actors.old.items →
        server_starts (cells_of actors.old.items) (suc at) moment batch ≡ record { servers = cells_of actors.new.items; packets = []; notes = [] } }
    ensures stay { StayServers actors.old.items actors.new.items }
{
    actors[at].restart(alloc);
}

#[tactic(auto, using(crate::proofs::ServerList::shown_one, crate::proofs::ServerList::all_are_shown, crate::proofs::ServerList::length_shown))]
fn show_all(actors: &mut Vec<ServerActor>, now: u64)
    ensures { actors.new.items ≡ map (moment_shown now) actors.old.items }
{
    for at in 0..actors.len() {
        actors[at].moment(now);
    }
}

impl Servers {
    /// So many servers, which run, at moment 0. An error is out of memory (22).
    #[tactic(auto, using(crate::proofs::ServerList::new_cells, crate::proofs::ServerList::new_are))]
    pub fn start(alloc: Global, count: u8, batch: u16) -> Result<Servers, AllocError>
        ensures { IfOk result (λ servers. servers ≡ record { cells = first_servers batch 1 count; moment = 0; batch = batch }) }
    {
        match started(alloc, count, batch) {
            Ok(actors) => Ok(Servers {
                actors,
                moment: 0,
                batch,
            }),
            Err(full) => Err(full),
        }
    }

    /// The table that an answer to the server of a number is about to show.
    pub fn loading(&self, server: ServerNo, body: &Body) -> Option<TableView<'_>>
        ensures { option_map table_of_view result ≡ server_loads (entry_at self.now.cells server) body.now }
    {
        match place(self.actors.as_slice(), server) {
            None => None,
            Some(at) => self.actors[at].loading(body),
        }
    }

    /// Gives a packet to the server of a number. Nothing comes of one to an absent server, or to one that has stopped. An error
    /// is out of memory (22), and nothing has changed.
    pub fn give(
        &mut self,
        alloc: Global,
        server: ServerNo,
        packet: &Packet,
    ) -> Result<ActorStep, AllocError>
        ensures ok { IfOk result (λ step. server_takes self.old.cells server packet.now ≡ outcome self.new.cells step) }
        ensures same { (self.new.moment ≡ self.old.moment) × (self.new.batch ≡ self.old.batch) }
        ensures plain { IfOk result (λ step. (step.notes ≡ []) × (step.refusal ≡ None)) }
        ensures err { OnErr result (self.new ≡ self.old) }
        ensures few { IfOk result IsFew }
    {
        match place(self.actors.as_slice(), server) {
            None => Ok(ActorStep::silent(alloc)),
            Some(at) => give_at(&mut self.actors, at, alloc, packet),
        }
    }

    /// Has the server of a number give up on what a range waits for. It answers why it does not (30). An error is out of memory
    /// (22), and nothing has changed.
    pub fn give_up(
        &mut self,
        alloc: Global,
        server: ServerNo,
        range: RangeId,
        pick: &Nodes,
    ) -> Result<ActorStep, AllocError>
        ensures ok { IfOk result (λ step. server_gives_up self.old.cells server range pick.now ≡ outcome self.new.cells step) }
        ensures same { (self.new.moment ≡ self.old.moment) × (self.new.batch ≡ self.old.batch) }
        ensures plain { IfOk result (λ step. step.notes ≡ []) }
        ensures refusal { IfOk result (λ step. step.refusal ≡ give_up_refusal range pick.now (entry_at self.old.cells server)) }
        ensures err { OnErr result (self.new ≡ self.old) }
        ensures few { IfOk result IsFew }
    {
        match place(self.actors.as_slice(), server) {
            None => Ok(ActorStep::silent(alloc)),
            Some(at) => give_up_at(&mut self.actors, at, alloc, range, pick),
        }
    }

    /// Has the server of a number begin a checkpoint of a range, which combines the range's indexes where that is asked. It answers
    /// why it does not (30, 38, 34, 35). Nothing comes of it where the server is absent or has stopped. An error is out of memory
    /// (22), and nothing has changed.
    pub fn checkpoint(
        &mut self,
        alloc: Global,
        server: ServerNo,
        range: RangeId,
        combine: bool,
    ) -> Result<ActorStep, AllocError>
        ensures ok { IfOk result (λ step. server_checkpoints self.old.cells server range combine ≡ outcome self.new.cells step) }
        ensures same { (self.new.moment ≡ self.old.moment) × (self.new.batch ≡ self.old.batch) }
        ensures plain { IfOk result (λ step. step.notes ≡ []) }
        ensures refusal { IfOk result (λ step. step.refusal ≡ checkpoint_refusal_at range (entry_at self.old.cells server)) }
        ensures err { OnErr result (self.new ≡ self.old) }
        ensures few { IfOk result IsFew }
    {
        match place(self.actors.as_slice(), server) {
            None => Ok(ActorStep::silent(alloc)),
            Some(at) => checkpoint_at(&mut self.actors, at, alloc, range, combine),
        }
    }

    /// Has the server of a number begin a split of a range at a key. It answers why it does not (30, 38, 34, 35, 39). Nothing comes
    /// of it where the server is absent or has stopped. An error is out of memory (22), and nothing has changed.
    pub fn split(
        &mut self,
        alloc: Global,
        server: ServerNo,
        range: RangeId,
        key: &Bytes,
    ) -> Result<ActorStep, AllocError>
        ensures ok { IfOk result (λ step. server_splits self.old.cells server range key.now ≡ outcome self.new.cells step) }
        ensures same { (self.new.moment ≡ self.old.moment) × (self.new.batch ≡ self.old.batch) }
        ensures plain { IfOk result (λ step. step.notes ≡ []) }
        ensures refusal { IfOk result (λ step. step.refusal ≡ split_refusal_at range key.now (entry_at self.old.cells server)) }
        ensures err { OnErr result (self.new ≡ self.old) }
        ensures few { IfOk result IsFew }
    {
        match place(self.actors.as_slice(), server) {
            None => Ok(ActorStep::silent(alloc)),
            Some(at) => split_at(&mut self.actors, at, alloc, range, key),
        }
    }

    /// Has the server of a number begin a merge of two ranges. It answers why it does not (30, 38, 34, 35, 40, 37). Nothing comes of
    /// it where the server is absent or has stopped. An error is out of memory (22), and nothing has changed.
    pub fn merge(
        &mut self,
        alloc: Global,
        server: ServerNo,
        left: RangeId,
        right: RangeId,
    ) -> Result<ActorStep, AllocError>
        ensures ok { IfOk result (λ step. server_merges self.old.cells server left right ≡ outcome self.new.cells step) }
        ensures same { (self.new.moment ≡ self.old.moment) × (self.new.batch ≡ self.old.batch) }
        ensures plain { IfOk result (λ step. step.notes ≡ []) }
        ensures refusal { IfOk result (λ step. step.refusal ≡ merge_refusal_at left right (entry_at self.old.cells server)) }
        ensures err { OnErr result (self.new ≡ self.old) }
        ensures few { IfOk result IsFew }
    {
        match place(self.actors.as_slice(), server) {
            None => Ok(ActorStep::silent(alloc)),
            Some(at) => merge_at(&mut self.actors, at, alloc, left, right),
        }
    }

    /// Stops the server of a number, where the call is 0. A server has no device, so that at any other call nothing happens.
    pub fn stop(&mut self, server: ServerNo, call: u64)
        ensures stops { server_stops self.old.cells server call ≡ record { servers = self.new.cells; packets = []; notes = [] } }
        ensures same { (self.new.moment ≡ self.old.moment) × (self.new.batch ≡ self.old.batch) }
    {
        if let Some(at) = place(self.actors.as_slice(), server) {
            stop_at(&mut self.actors, at, call);
        }
    }

    /// Starts the server of a number, if it has stopped.
    pub fn restart(&mut self, alloc: Global, server: ServerNo)
        ensures starts { server_starts self.old.cells server self.old.moment self.old.batch ≡ record { servers = self.new.cells; packets = []; notes = [] } }
        ensures same { (self.new.moment ≡ self.old.moment) × (self.new.batch ≡ self.old.batch) }
    {
        if let Some(at) = place(self.actors.as_slice(), server) {
            restart_at(&mut self.actors, at, alloc);
        }
    }

    /// The clock of leases shows this to all servers. A moment that goes back changes nothing.
    #[tactic(auto, using(crate::proofs::ServerList::shown_to_all, crate::proofs::ServerList::are_shown))]
    pub fn moment(&mut self, now: u64)
        ensures { self.new ≡ all_shown now self.old }
    {
        if now < self.moment {
            return;
        }
        self.moment = now;
        show_all(&mut self.actors, now);
    }
}
