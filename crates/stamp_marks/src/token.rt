//! A mark with its value.
ghost use Rattle.std.specs.Prelude.{◌≡◌};

use crate::mark::Mark;
use boxcar::Pushed;
use boxcar::slot::Written;
use std::marker::Model;
use std::snapshot::Snapshot;

/// A mark, and what shows the value in its slot.
#[derive(Drop)]
pub struct Token<D, V> {
    pub(crate) mark: Pushed<Mark<D, V>>,
    pub(crate) written: Written<Snapshot<V>>,
}

impl<D, V> Model for Token<D, V> {
    ghost use Rattle.std.specs.Prelude.{◌≡◌};
    ghost use Rattle.stamp_marks.specs.Tokens as specs;

    ghost Value = { specs.Token D V };

    ghost view = { λ t. record { mark = t.mark; value = t.written.value.value } };

    ghost invariant = { λ t. t.written.of ≡ t.mark.value.slot.id };
}

impl<D, V> Token<D, V> {
    /// The same token; takes no memory.
    pub fn again(&self) -> Token<D, V>
        ensures { result ≡ self.now }
    {
        Token {
            mark: self.mark.again(),
            written: self.written.again(),
        }
    }
}

/// The same token, if there is one; takes no memory.
pub fn copy_of<D, V>(token: &Option<Token<D, V>>) -> Option<Token<D, V>>
    ensures { result ≡ token.now }
{
    match token {
        None => None,
        Some(token) => Some(token.again()),
    }
}
