//! The opening of a range's streams for a load, and its confirmation.
ghost use Rattle.std.specs.Prelude.{◌≡◌, Some, None, true, false};
ghost use Rattle.client.specs.Load.{opening, open_packet, confirm_packet, is_open, load_awaits, opened_phase, confirmed_phase, stale_phase, refused_phase, append_phase, stream_phase, reply_phase, again};
ghost use Rattle.client.specs.declared.load.LoadPhase.TheVariants as phases;

use crate::client::StreamClient;
use crate::sending::sent;
use std::marker::Model;
use wire::{
    ActorId, AppendBody, Body, Fence, Packet, RangeId, Refusal, ReqNo, ServerNo, StreamBody,
};

/// How far a load is, beside the reading of its streams.
#[derive(Clone, Copy, PartialEq, Eq)]
pub enum LoadPhase {
    /// The streams are asked for.
    Opening { request: ReqNo },
    /// The streams are opened for the generation, and are read.
    Opened,
    /// All is read, and the manager is asked whether the generation is still the fence.
    Confirming { request: ReqNo },
    /// The load counts.
    Confirmed,
    /// A higher generation has opened the streams, and the load never counts.
    Fenced,
}

/// The load of a range under a generation (after Calder et al., SOSP 2011, section 5.3). How far it is changes by its own
/// calls alone: a load counts only by an answer to what `confirm` sent.
pub struct RangeLoad {
    server: ServerNo,
    pub range: RangeId,
    pub generation: Fence,
    phase: LoadPhase,
}

// Written out, so that a crate above that lets one go has no proof of what is in it.
impl Drop for RangeLoad {
    fn drop(self) {
        let RangeLoad {
            server: _,
            range: _,
            generation: _,
            phase: _,
        } = self;
    }
}

impl Model for RangeLoad {
    ghost use Rattle.client.specs.Load.{LoadState};

    ghost Value = { LoadState };

    ghost view = { λ l. record { server = l.server; range = l.range; generation = l.generation; phase = l.phase } };
}

/// Whether an answer of this number is waited for.
pub(crate) fn load_awaits(phase: &LoadPhase, answered: &ReqNo) -> bool
    ensures { result ≡ load_awaits phase.now answered.now }
{
    match phase {
        LoadPhase::Opening { request } => request == answered,
        LoadPhase::Confirming { request } => request == answered,
        _ => false,
    }
}

fn opening_packet(server: ServerNo, range: RangeId, generation: Fence, request: &ReqNo) -> Packet
    ensures { result ≡ open_packet server range generation request.now }
{
    let body = Body::Stream(StreamBody::OpenStreams {
        range,
        generation,
        request: *request,
    });
    sent(server, ActorId::Manager, body)
}

fn opened(answered: &ReqNo, phase: &LoadPhase) -> LoadPhase
    ensures { result ≡ opened_phase answered.now phase.now }
{
    match phase {
        LoadPhase::Opening { request } => {
            if request == answered {
                LoadPhase::Opened
            } else {
                *phase
            }
        }
        _ => *phase,
    }
}

fn confirmed(answered: &ReqNo, phase: &LoadPhase) -> LoadPhase
    ensures { result ≡ confirmed_phase answered.now phase.now }
{
    match phase {
        LoadPhase::Confirming { request } => {
            if request == answered {
                LoadPhase::Confirmed
            } else {
                *phase
            }
        }
        _ => *phase,
    }
}

fn stale(answered: &ReqNo, phase: &LoadPhase) -> LoadPhase
    ensures { result ≡ stale_phase answered.now phase.now }
{
    match phase {
        LoadPhase::Opening { request } => {
            if request == answered {
                LoadPhase::Fenced
            } else {
                *phase
            }
        }
        LoadPhase::Confirming { request } => {
            if request == answered {
                LoadPhase::Fenced
            } else {
                *phase
            }
        }
        _ => *phase,
    }
}

fn refused(answered: &ReqNo, refusal: Refusal, phase: &LoadPhase) -> LoadPhase
    ensures { result ≡ refused_phase answered.now refusal phase.now }
{
    match refusal {
        Refusal::Stale => stale(answered, phase),
        _ => *phase,
    }
}

fn append_reply(body: &AppendBody, phase: &LoadPhase) -> LoadPhase
    ensures { result ≡ append_phase body.now phase.now }
{
    match body {
        AppendBody::Refused { request, refusal } => refused(request, *refusal, phase),
        _ => *phase,
    }
}

fn stream_reply(body: &StreamBody, phase: &LoadPhase) -> LoadPhase
    ensures { result ≡ stream_phase body.now phase.now }
{
    match body {
        StreamBody::Opened { request, .. } => opened(request, phase),
        StreamBody::Confirmed { request } => confirmed(request, phase),
        _ => *phase,
    }
}

fn reply(body: &Body, phase: &LoadPhase) -> LoadPhase
    ensures { result ≡ reply_phase body.now phase.now }
{
    match body {
        Body::Append(body) => append_reply(body, phase),
        Body::Stream(body) => stream_reply(body, phase),
        _ => *phase,
    }
}

impl StreamClient {
    /// Begins a load of a range under a generation: its four streams are opened. The packet, to the manager, bears this
    /// number. No client of a stream is there before, since the answer tells the streams.
    pub fn open_for_load(
        server: ServerNo,
        range: RangeId,
        generation: Fence,
        request: &ReqNo,
    ) -> (RangeLoad, Packet)
        ensures load { result.0 ≡ opening server range generation request.now }
        ensures packet { result.1 ≡ open_packet server range generation request.now }
    {
        let load = RangeLoad {
            server,
            range,
            generation,
            phase: LoadPhase::Opening { request: *request },
        };
        (load, opening_packet(server, range, generation, request))
    }
}

impl RangeLoad {
    /// How far it is.
    pub fn phase(&self) -> LoadPhase
        ensures { result ≡ self.now.phase }
    {
        self.phase
    }

    /// Asks the manager whether the generation is still the fence of the four streams, once all that the load needs was
    /// read. The packet bears this number. None where the streams are not opened, or the load is over; nothing has changed
    /// then.
    pub fn confirm(&mut self, request: &ReqNo) -> Option<Packet>
        ensures asked { is_open self.old.phase ≡ true → (result ≡ Some (confirm_packet self.old request.now))
            × (self.new ≡ record self.old { phase = phases.Confirming request.now }) }
        ensures none { is_open self.old.phase ≡ false → (result ≡ None) × (self.new ≡ self.old) }
    {
        match self.phase {
            LoadPhase::Opened => {
                self.phase = LoadPhase::Confirming { request: *request };
                Some(self.confirming(request))
            }
            _ => None,
        }
    }

    fn confirming(&self, request: &ReqNo) -> Packet
        ensures { result ≡ confirm_packet self.now request.now }
    {
        let body = Body::Stream(StreamBody::Confirm {
            range: self.range,
            generation: self.generation,
            request: *request,
        });
        sent(self.server, ActorId::Manager, body)
    }

    /// What is done with a packet that has come, and how far the load is then. A packet that repeats another number than
    /// that of the request that is out changes nothing. The lists of the streams are in the packet that opens them.
    pub fn on_reply(&mut self, packet: &Packet) -> LoadPhase
        ensures phase { result ≡ reply_phase packet.now.body self.old.phase }
        ensures state { self.new ≡ record self.old { phase = result } }
    {
        let before = self.phase;
        self.phase = reply(&packet.body, &before);
        self.phase
    }

    /// What is sent again where no answer comes, with the number that it had; none where nothing is out.
    pub fn give_up(&self) -> Option<Packet>
        ensures { result ≡ again self.now self.now.phase }
    {
        match &self.phase {
            LoadPhase::Opening { request } => Some(opening_packet(
                self.server,
                self.range,
                self.generation,
                request,
            )),
            LoadPhase::Confirming { request } => Some(self.confirming(request)),
            _ => None,
        }
    }

    /// Whether an answer of this number is waited for.
    pub fn awaits(&self, request: &ReqNo) -> bool
        ensures { result ≡ load_awaits self.now.phase request.now }
    {
        load_awaits(&self.phase, request)
    }
}
