//! What is answered.
ghost use Rattle.std.specs.Prelude.{◌≡◌};
ghost use Rattle.stamp_answers.specs.Answers.{outcome_of};

use wire::{Body, Refusal};

/// What a user is answered.
pub enum Answer {
    /// To a request: what the first packet says that was delivered as its answer.
    Body(Body),
    /// To an event: it was taken.
    Taken,
    /// To an event: it was refused, for this.
    Refused(Refusal),
}

// Written out, so that a crate above that lets one go has no proof of what is in it.
impl Drop for Answer {
    fn drop(self) {
        match self {
            Answer::Body(_) => {}
            Answer::Taken => {}
            Answer::Refused(_) => {}
        }
    }
}

/// The answer to an event: why it was refused, or that it was taken.
pub fn outcome_of(refusal: Option<Refusal>) -> Answer
    ensures { result ≡ outcome_of refusal }
{
    match refusal {
        Some(refusal) => Answer::Refused(refusal),
        None => Answer::Taken,
    }
}
