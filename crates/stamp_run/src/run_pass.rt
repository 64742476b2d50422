//! What one thread knows of the trace of a run.
ghost use Rattle.std.specs.Prelude.{◌≡◌, ◌+◌, [], ◌∷◌, ◌++◌, Some};
ghost use Rattle.stamp_run.specs.Answers.{answer_in};
ghost use Rattle.stamp_run.specs.Passes.{answers_kept};

use stamp_answers::{Answer, Ticket};
use stamp_marks::{History, Identity, with_event};
use stamp_traces::Pass as TracePass;
use std::marker::Model;
use std::snapshot::Snapshot;
use world_actors::ActorInput;
use world_steps::ActorStep;

/// What one thread, which is one user, knows of the trace of a run: the prefix of it that it has seen, and what it was answered. Its
/// answers exist in proofs alone, and have no bytes.
#[derive(Drop)]
pub struct Pass<K: Identity> {
    pub(crate) pass: TracePass<ActorInput, ActorStep, K>,
    pub(crate) user: u64,
    pub(crate) answered: Option<Snapshot<History<Ticket, Answer>>>,
}

impl<K: Identity> Model for Pass<K> {
    ghost use Rattle.std.specs.Prelude.{◌≡◌, ◌+◌};
    ghost use Rattle.stamp_run.specs.Passes.{AreAnswers, RunPass, answers_kept};

    ghost Value = { RunPass };

    ghost view = { λ p. record { sight = p.pass; answered = answers_kept p.answered } };

    ghost invariant = { λ p. (p.user ≡ p.pass.number + 1) × AreAnswers p.pass.seen (answers_kept p.answered) };
}

/// The answers, and one more; takes no memory.
fn with_answer(
    answered: &Option<Snapshot<History<Ticket, Answer>>>,
    ticket: &Ticket,
    answer: &Answer,
) -> Snapshot<History<Ticket, Answer>>
    ensures { result.value ≡ answers_kept answered.now ++ (ticket.now, answer.now) ∷ [] }
{
    let earlier = match answered {
        None => None,
        Some(history) => Some(history),
    };
    with_event(earlier, ticket, answer)
}

impl<K: Identity> Pass<K> {
    /// Its number among all passes, from 0 on.
    pub fn number(&self) -> usize
        ensures { result ≡ self.now.sight.number }
    {
        self.pass.number()
    }

    /// The number of its user, from 1 on.
    pub fn user(&self) -> u64
        ensures { result ≡ self.now.sight.number + 1 }
    {
        self.user
    }

    /// It was answered this; takes no memory.
    pub(crate) fn keep_answer(&mut self, ticket: &Ticket, answer: &Answer)
        requires { answer_in ticket.now self.old.sight.seen ≡ Some answer.now }
        ensures { self.new ≡ record self.old { answered = self.old.answered ++ (ticket.now, answer.now) ∷ [] } }
    {
        self.answered = Some(with_answer(&self.answered, ticket, answer));
    }
}
