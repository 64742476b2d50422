//! One server, over its starts and stops.
ghost use Rattle.std.specs.Prelude.{◌≡◌, [], None, is_none, option_map, IfOk, OnErr};
ghost use Rattle.model_partition.specs.Servers.{cell_checkpoints, cell_gives_up, cell_merges, cell_splits, cell_stops, cell_starts, cell_takes, checkpoint_fault_of, give_up_fault, cell_loads, merge_fault_of, split_fault_of, table_of_view};
ghost use Rattle.world_server.specs.Seen.{cell_outcome, moment_shown, new_server};
ghost use Rattle.world_steps.specs.ActorStep.{IsFew, table_step};

use block_types::Nodes;
use bytes::Bytes;
use model_partition::TableView;
use range::{RangeServer, Sent};
use std::alloc::{AllocError, Global};
use std::marker::Model;
use wire::{Body, Packet, RangeId, ServerNo};
use world_steps::ActorStep;

/// The nodes that a server's new extents are made on, until a give-up names others.
const FIRST_PICK: Nodes = Nodes {
    primary: 1,
    second: 2,
    third: 3,
};

/// A server: its number, how many transactions a group of its log may hold, the last moment of the clock, how often it was
/// started, and itself while it runs. It keeps nothing else over a stop.
pub struct ServerActor {
    number: ServerNo,
    batch: u16,
    moment: u64,
    session: u64,
    server: Option<RangeServer>,
}

// Written out, so that a crate above that lets one go has no proof of what is in it.
impl Drop for ServerActor {
    fn drop(self) {
        let ServerActor {
            number: _,
            batch: _,
            moment: _,
            session: _,
            server: _,
        } = self;
    }
}

impl Model for ServerActor {
    ghost use Rattle.world_server.specs.Seen.{ServerSeen};

    ghost Value = { ServerSeen };

    ghost view = { λ a. record { number = a.number; batch = a.batch; moment = a.moment; cell = record { session = a.session; state = a.server } } };
}

/// What a running server sends and shows.
fn performed(alloc: Global, sent: Sent) -> ActorStep
    ensures { result ≡ table_step sent.packets sent.notes }
{
    let Sent { packets, notes } = sent;
    ActorStep::of_tables(alloc, packets, notes)
}

impl ServerActor {
    /// The server of a number, which runs, at its first start.
    pub fn start(alloc: Global, number: ServerNo, batch: u16) -> ServerActor
        ensures { result ≡ new_server batch number }
    {
        ServerActor {
            number,
            batch,
            moment: 0,
            session: 1,
            server: Some(RangeServer::start(alloc, number, 1, 0, FIRST_PICK, batch)),
        }
    }

    /// The table that an answer is about to show.
    pub fn loading(&self, body: &Body) -> Option<TableView<'_>>
        ensures { option_map table_of_view result ≡ cell_loads self.now.cell.state body.now }
    {
        match &self.server {
            None => None,
            Some(server) => server.loading(body),
        }
    }

    /// Gives it a packet. Nothing comes of it where it has stopped. An error is out of memory (22), and nothing has changed.
    pub fn give(&mut self, alloc: Global, packet: &Packet) -> Result<ActorStep, AllocError>
        ensures ok { IfOk result (λ step. cell_takes self.old.cell packet.now self.old.cell.state ≡ cell_outcome self.new.cell step) }
        ensures same { self.new ≡ record self.old { cell = self.new.cell } }
        ensures plain { IfOk result (λ step. (step.notes ≡ []) × (step.refusal ≡ None)) }
        ensures err { OnErr result (self.new ≡ self.old) }
        ensures few { IfOk result IsFew }
    {
        match &mut self.server {
            None => Ok(ActorStep::silent(alloc)),
            Some(server) => match server.handle(alloc, packet) {
                Ok(sent) => Ok(performed(alloc, sent)),
                Err(_full) => Err(AllocError),
            },
        }
    }

    /// Has it give up on what a range waits for. It answers why it does not: it does not hold the range (30). An error is out of
    /// memory (22), and nothing has changed.
    pub fn give_up(
        &mut self,
        alloc: Global,
        range: RangeId,
        pick: &Nodes,
    ) -> Result<ActorStep, AllocError>
        ensures ok { IfOk result (λ step. cell_gives_up self.old.cell range pick.now self.old.cell.state ≡ cell_outcome self.new.cell step) }
        ensures same { self.new ≡ record self.old { cell = self.new.cell } }
        ensures plain { IfOk result (λ step. step.notes ≡ []) }
        ensures refusal { IfOk result (λ step. step.refusal ≡ give_up_fault range pick.now self.old.cell.state) }
        ensures err { OnErr result (self.new ≡ self.old) }
        ensures few { IfOk result IsFew }
    {
        match &mut self.server {
            None => Ok(ActorStep::silent(alloc)),
            Some(server) => match server.give_up(alloc, range, pick) {
                Ok(sent) => Ok(performed(alloc, sent)),
                Err(fault) => match fault.refusal() {
                    None => Err(AllocError),
                    Some(refusal) => Ok(ActorStep::refused(alloc, refusal)),
                },
            },
        }
    }

    /// Has it begin a checkpoint of a range, which combines the range's indexes where that is asked. It answers why it does not:
    /// it does not hold the range (30), the range is not served yet (38) or is paused (34), or a checkpoint, a split or a merge of
    /// it is under way (35). Nothing comes of it where it has stopped. An error is out of memory (22), and nothing has changed.
    pub fn checkpoint(
        &mut self,
        alloc: Global,
        range: RangeId,
        combine: bool,
    ) -> Result<ActorStep, AllocError>
        ensures ok { IfOk result (λ step. cell_checkpoints self.old.cell range combine self.old.cell.state ≡ cell_outcome self.new.cell step) }
        ensures same { self.new ≡ record self.old { cell = self.new.cell } }
        ensures plain { IfOk result (λ step. step.notes ≡ []) }
        ensures refusal { IfOk result (λ step. step.refusal ≡ checkpoint_fault_of range self.old.cell.state) }
        ensures err { OnErr result (self.new ≡ self.old) }
        ensures few { IfOk result IsFew }
    {
        match &mut self.server {
            None => Ok(ActorStep::silent(alloc)),
            Some(server) => match server.checkpoint(alloc, range, combine) {
                Ok(sent) => Ok(performed(alloc, sent)),
                Err(fault) => match fault.refusal() {
                    None => Err(AllocError),
                    Some(why) => Ok(ActorStep::refused(alloc, why)),
                },
            },
        }
    }

    /// Has it begin a split of a range at a key. It answers why it does not: it does not hold the range (30), the range is not
    /// served yet (38) or is paused (34), a checkpoint, a split or a merge of it is under way (35), or the key does not split its
    /// keys (39). Nothing comes of it where it has stopped. An error is out of memory (22), and nothing has changed.
    pub fn split(
        &mut self,
        alloc: Global,
        range: RangeId,
        key: &Bytes,
    ) -> Result<ActorStep, AllocError>
        ensures ok { IfOk result (λ step. cell_splits self.old.cell range key.now self.old.cell.state ≡ cell_outcome self.new.cell step) }
        ensures same { self.new ≡ record self.old { cell = self.new.cell } }
        ensures plain { IfOk result (λ step. step.notes ≡ []) }
        ensures refusal { IfOk result (λ step. step.refusal ≡ split_fault_of range key.now self.old.cell.state) }
        ensures err { OnErr result (self.new ≡ self.old) }
        ensures few { IfOk result IsFew }
    {
        match &mut self.server {
            None => Ok(ActorStep::silent(alloc)),
            Some(server) => match server.split(alloc, range, key) {
                Ok(sent) => Ok(performed(alloc, sent)),
                Err(fault) => match fault.refusal() {
                    None => Err(AllocError),
                    Some(reason) => Ok(ActorStep::refused(alloc, reason)),
                },
            },
        }
    }

    /// Has it begin a merge of two ranges. It answers why it does not: it does not hold both (30), one is not served yet (38) or is
    /// paused (34), a checkpoint, a split or a merge of one is under way (35), the left one does not end where the right one begins
    /// (40), or they have too many indexes together (37). Nothing comes of it where it has stopped. An error is out of memory (22),
    /// and nothing has changed.
    pub fn merge(
        &mut self,
        alloc: Global,
        left: RangeId,
        right: RangeId,
    ) -> Result<ActorStep, AllocError>
        ensures ok { IfOk result (λ step. cell_merges self.old.cell left right self.old.cell.state ≡ cell_outcome self.new.cell step) }
        ensures same { self.new ≡ record self.old { cell = self.new.cell } }
        ensures plain { IfOk result (λ step. step.notes ≡ []) }
        ensures refusal { IfOk result (λ step. step.refusal ≡ merge_fault_of left right self.old.cell.state) }
        ensures err { OnErr result (self.new ≡ self.old) }
        ensures few { IfOk result IsFew }
    {
        match &mut self.server {
            None => Ok(ActorStep::silent(alloc)),
            Some(server) => match server.merge(alloc, left, right) {
                Ok(sent) => Ok(performed(alloc, sent)),
                Err(fault) => match fault.refusal() {
                    None => Err(AllocError),
                    Some(cause) => Ok(ActorStep::refused(alloc, cause)),
                },
            },
        }
    }

    /// Stops it at once, where the call is 0. It has no device in whose calls it might stop.
    pub fn stop(&mut self, call: u64)
        ensures { self.new ≡ record self.old { cell = cell_stops call self.old.cell } }
    {
        if call == 0 {
            self.server = None;
        }
    }

    /// Starts it, if it has stopped, under a session of its own.
    pub fn restart(&mut self, alloc: Global)
        ensures { self.new ≡ record self.old { cell = cell_starts self.old.number self.old.moment self.old.batch self.old.cell self.old.cell.state } }
    {
        if self.server.is_some() {
            return;
        }
        if let Some(session) = self.session.checked_add(1) {
            self.session = session;
            self.server = Some(RangeServer::start(
                alloc,
                self.number,
                session,
                self.moment,
                FIRST_PICK,
                self.batch,
            ));
        }
    }

    /// Whether it has stopped. Then nothing comes of a packet or of what it is told to do until it is restarted.
    pub fn is_stopped(&self) -> bool
        ensures { result ≡ is_none self.now.cell.state }
    {
        self.server.is_none()
    }

    /// The clock of leases shows this. A moment that goes back changes nothing.
    pub fn moment(&mut self, now: u64)
        ensures { self.new ≡ moment_shown now self.old }
    {
        if now < self.moment {
            return;
        }
        self.moment = now;
        if let Some(server) = &mut self.server {
            server.moment(now);
        }
    }
}
