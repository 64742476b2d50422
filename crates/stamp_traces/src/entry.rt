//! An entry of the trace.
use crate::takers::Takers;
use std::marker::Model;
use std::snapshot::Snapshot;

/// An event, who took it, the reply, and the pass that put it into the trace. Event and reply are for clauses alone.
#[derive(Drop)]
pub struct Entry<E, R> {
    pub pass: usize,
    pub takers: Takers,
    pub event: Snapshot<E>,
    pub reply: Snapshot<R>,
}

impl<E, R> Model for Entry<E, R> {
    ghost use Rattle.stamp_traces.specs.Traces as specs;

    ghost Value = { specs.Entry E R };

    ghost view = { λ x. record { pass = x.pass; takers = x.takers; event = x.event.value; reply = x.reply.value } };
}
