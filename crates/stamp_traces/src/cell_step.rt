//! A step on its way from a cell to the trace.
use crate::actor::Actor;
use stamp_marks::{History, Identity, Token};
use std::marker::{Model, PhantomData};
use std::snapshot::Snapshot;

/// A step that an actor took, with the tokens of its history before and after it. It is not `Drop`: it is to be given to the trace.
pub struct CellStep<A: Actor<E, R>, E: Drop, R: Drop, K: Identity> {
    pub(crate) number: usize,
    pub(crate) event: E,
    pub(crate) reply: R,
    pub(crate) before: Option<Token<E, History<E, A>>>,
    pub(crate) after: Token<E, History<E, A>>,
    pub(crate) state: Snapshot<A>,
    pub(crate) of: PhantomData<K>,
}

impl<A: Actor<E, R>, E: Drop, R: Drop, K: Identity> Model for CellStep<A, E, R, K> {
    ghost use Rattle.std.specs.Prelude.{◌≡◌, ◌∷◌, [], ◌++◌};
    ghost use Rattle.boxcar.specs.Table.{Shows};
    ghost use Rattle.stamp_marks.specs.Tokens.{index_of, IsOf};
    ghost use Rattle.stamp_marks.specs.Histories.{state_after};
    ghost use Rattle.stamp_traces.specs.Shown.{shown_by};
    ghost use Rattle.stamp_traces.specs.Cells as specs;

    ghost Value = { specs.CellStep A E R };

    ghost view = { λ s. record { number = s.number; event = s.event; reply = s.reply; before = shown_by s.before; index = index_of s.before; was = state_after (A.first K.numbers s.number) (shown_by s.before); state = s.state.value; mark = s.after.mark.index } };

    ghost invariant = { λ s. IsOf s.before K.events × Shows K.events s.after.mark × (s.after.value ≡ shown_by s.before ++ (s.event, s.state.value) ∷ []) × A.goes (state_after (A.first K.numbers s.number) (shown_by s.before)) s.event s.state.value s.reply × (s.after.mark.value.subject.value ≡ s.event) };
}
