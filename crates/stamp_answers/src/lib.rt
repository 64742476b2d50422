//! What the users of a stamp are answered: which packet answers which request, with what a pass asks for an answer, and a
//! look-up of the first packet that was delivered as the answer to a request.
//!
//! This crate touches memory only, takes no lock and starts no thread. Who shares a look-up guards it.
//!
//! A request is known by its user and the ticket that the user gave it ([`AnswerKey`]), and by nothing else: a request of a user
//! under a ticket that was used before shares the first answer.
#![tactic(auto)]

mod answer;
mod answered;
mod asked;
mod first_answers;
mod key;
mod ticket;

pub use answer::{Answer, outcome_of};
pub use answered::answer_key;
pub use asked::request_key;
pub use first_answers::FirstAnswers;
pub use key::AnswerKey;
pub use ticket::{Ticket, ticket_of};
