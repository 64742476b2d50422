//! With what an answer is asked for.
ghost use Rattle.std.specs.Prelude.{◌≡◌};
ghost use Rattle.stamp_answers.specs.Tickets.{ticket_for, ticket_of};

use crate::asked::request_key;
use crate::key::AnswerKey;
use model_streams::Event;

/// What a pass asks for an answer with, once its event stands in the trace.
#[derive(Clone, Copy, Debug, PartialEq, Eq)]
pub enum Ticket {
    /// An event that is no request, by the place where its entry stands in the trace: it is answered whether it was taken.
    Event { place: usize },
    /// A request: it is answered by the first packet that was delivered as its answer. One under a ticket that its user gave
    /// before shares the first answer.
    Request { key: AnswerKey },
    /// A body that was sent and is no request of this user: no answer comes.
    Unanswered,
}

/// The ticket of a body that a user sent.
fn ticket_for(key: Option<AnswerKey>) -> Ticket
    ensures { result ≡ ticket_for key }
{
    match key {
        Some(key) => Ticket::Request { key },
        None => Ticket::Unanswered,
    }
}

/// The ticket with which this user asks for the answer to an event, whose entry stands at this place of the trace: of a `Submit` the
/// key of its request, if it has one of this user, and of any other event the place.
pub fn ticket_of(user: u64, event: &Event, place: usize) -> Ticket
    ensures { result ≡ ticket_of user event.now place }
{
    match event {
        Event::Submit { body, .. } => ticket_for(request_key(user, body)),
        _ => Ticket::Event { place },
    }
}
