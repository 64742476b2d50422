//! What one thread knows of the trace.
ghost use Rattle.std.specs.Prelude.{◌≡◌};

use crate::entry::Entry;
use stamp_marks::{Identity, Prefix, Token};
use std::marker::{Model, PhantomData};

/// What one thread knows of the trace: the prefix of it that it has seen.
#[derive(Drop)]
pub struct Pass<E, R, K: Identity> {
    pub(crate) number: usize,
    pub(crate) token: Option<Token<usize, Prefix<Entry<E, R>>>>,
    pub(crate) of: PhantomData<K>,
}

impl<E, R, K: Identity> Model for Pass<E, R, K> {
    ghost use Rattle.stamp_marks.specs.Tokens.{IsOf, index_of};
    ghost use Rattle.stamp_traces.specs.Passes.{PassState};
    ghost use Rattle.stamp_traces.specs.Shown.{shown_by};

    ghost Value = { PassState E R };

    ghost view = { λ p. record { number = p.number; seen = shown_by p.token; index = index_of p.token } };

    ghost invariant = { λ p. IsOf p.token K.prefixes };
}

impl<E, R, K: Identity> Pass<E, R, K> {
    /// Its number, from 0 on.
    pub fn number(&self) -> usize
        ensures { result ≡ self.now.number }
    {
        self.number
    }
}
