//! The trace of a run.
ghost use Rattle.std.specs.Prelude.{◌≡◌, ◌≢◌, ◌+◌, ◌≤◌, ◌<◌, ℕ, [], Some, IfNone, IfOk, IfSome, MatchBool, length, slice_get};
ghost use Rattle.stamp_traces.specs.Shown.{BookingState};
ghost use Rattle.world_actors.specs.Numbers.{numbers_of};
ghost use Rattle.laws_traces.specs.Traces.{sent_by};
ghost use Rattle.stamp_run.specs.Traces.{HasRoomFor, IsFullFor};

use crate::log_entry::LogEntry;
use crate::run_pass::Pass;
use stamp_answers::FirstAnswers;
use stamp_marks::Identity;
use stamp_traces::{Journal, Timed, TraceFault};
use std::alloc::{AllocError, Global};
use std::marker::Model;
use wire::Packet;
use world_actors::{ActorInput, count};
use world_setup::Setup;
use world_steps::ActorStep;

/// The most packets of one step.
pub(crate) const MOST_PACKETS: usize = 2048;

/// What happened in a run, in order, with all packets that were sent, what the log has of each entry, and the number of the first packet
/// that was delivered as the answer to each request. There is room for the entry of each event that is booked, and for all packets of
/// its step.
#[derive(Drop)]
pub struct TraceOf<A: Timed<ActorInput, ActorStep>, K: Identity> {
    pub(crate) journal: Journal<A, ActorInput, ActorStep, K>,
    pub(crate) packets: Vec<Packet>,
    pub(crate) log: Vec<LogEntry>,
    pub(crate) answers: FirstAnswers,
    pub(crate) next: usize,
    pub(crate) events: usize,
    pub(crate) room: usize,
}

impl<A: Timed<ActorInput, ActorStep>, K: Identity> Model for TraceOf<A, K> {
    ghost use Rattle.std.specs.Prelude.{◌≡◌, ◌+◌, ◌*◌, ◌≤◌, vec_len, vec_capacity};
    ghost use Rattle.stamp_run.specs.Traces.{IsRunTrace, TraceState};

    ghost Value = { TraceState };

    ghost view = { λ t. record { journal = t.journal; next = t.next; room = t.room } };

    ghost invariant = { λ t. IsRunTrace K.numbers t.journal t.packets.items t.log.items t.answers × (vec_len t.packets + 2048 * t.journal.booked ≤ t.room) × (t.room ≤ vec_capacity t.packets) × (t.events ≡ t.journal.room) × (vec_len t.log + t.journal.booked ≤ t.events) × (t.events ≤ vec_capacity t.log) };
}

impl<A: Timed<ActorInput, ActorStep>, K: Identity> TraceOf<A, K> {
    /// A trace of the actors of a setup, in which nothing has happened, with room for so many entries and packets. An error is out of
    /// memory (22).
    pub fn new(
        alloc: Global,
        setup: &Setup,
        events: usize,
        packets: usize,
    ) -> Result<TraceOf<A, K>, AllocError>
        requires numbers { numbers_of setup.now ≡ K.numbers }
        ensures empty { IfOk result (λ t. (t.journal.entries ≡ []) × (t.journal.booked ≡ 0) × (t.journal.room ≡ events) × (t.next ≡ 0) × (t.room ≡ packets)) }
        ensures unbooked { IfOk result (λ t. (n : ℕ) (b : BookingState _) → slice_get t.journal.bookings n ≢ Some (Some b)) }
    {
        let journal = Journal::new(alloc, count(setup), events)?;
        let sent = Vec::with_capacity(alloc, packets)?;
        let log = Vec::with_capacity(alloc, events)?;
        Ok(TraceOf {
            journal,
            packets: sent,
            log,
            answers: FirstAnswers::new(alloc),
            next: 0,
            events,
            room: packets,
        })
    }

    /// A pass that has seen nothing and was answered nothing. 22 where there was no memory for one more, 50 where no user has a number
    /// left.
    pub fn admit(&mut self) -> Result<Pass<K>, TraceFault>
        ensures pass { IfOk result (λ p. (p.sight.seen ≡ []) × (p.answered ≡ [])) }
        ensures same { self.new ≡ record self.old { journal = record self.old.journal { passes = self.new.journal.passes } } }
    {
        let pass = self.journal.admit()?;
        let Some(user) = (pass.number() as u64).checked_add(1) else {
            return Err(TraceFault::Full);
        };
        Ok(Pass {
            pass,
            user,
            answered: None,
        })
    }

    /// Whether there is room for one more entry, and for so many more packets, beside those that are booked.
    pub(crate) fn has_room(&self, more: usize) -> bool
        ensures { MatchBool result (HasRoomFor more self.now) (IsFullFor more self.now) }
    {
        let booked = self.journal.booked();
        self.log.len() + booked < self.events
            && more <= self.room - self.packets.len() - MOST_PACKETS * booked
    }

    /// How many entries there are.
    pub fn len(&self) -> usize
        ensures { result ≡ length self.now.journal.entries }
    {
        self.journal.len()
    }

    /// The lowest number of a packet that no worker was given; none where all were given.
    pub fn take_number(&mut self) -> Option<usize>
        ensures lowest { IfSome result (λ k. (k ≡ self.old.next) × (self.new.next ≡ k + 1) × (k < length (sent_by self.old.journal.entries))) }
        ensures none { IfNone result ((length (sent_by self.old.journal.entries) ≤ self.old.next) × (self.new ≡ self.old)) }
        ensures rest { self.new ≡ record self.old { next = self.new.next } }
    {
        let number = self.next;
        if number >= self.packets.len() {
            return None;
        }
        self.next = number + 1;
        Some(number)
    }
}
