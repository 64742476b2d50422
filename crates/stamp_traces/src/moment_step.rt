//! A step of one actor by an event of several.
use stamp_marks::{History, Token};
use std::snapshot::Snapshot;

/// A step that an actor took by the event of a moment, with the tokens of its history before and after it.
#[derive(Drop)]
pub struct MomentStep<S, E> {
    pub number: usize,
    pub before: Option<Token<E, History<E, S>>>,
    pub after: Token<E, History<E, S>>,
    pub state: Snapshot<S>,
}
