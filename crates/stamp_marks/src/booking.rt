//! A mark without a value.
ghost use Rattle.std.specs.Prelude.{◌≡◌};

use crate::mark::Mark;
use boxcar::Pushed;
use std::marker::Model;

/// A mark that has no value yet. Whoever holds it may fix one, once.
#[derive(Drop)]
pub struct Booking<D, V> {
    pub(crate) mark: Pushed<Mark<D, V>>,
}

impl<D, V> Model for Booking<D, V> {
    ghost use Rattle.boxcar.specs.Table.{Where};
    ghost use Rattle.stamp_marks.specs.declared.mark.Mark.{Mark};

    ghost Value = { Where (Mark D V) };

    ghost view = { λ b. b.mark };
}

impl<D, V> Booking<D, V> {
    /// Where the mark lies, to be kept for a later comparison; takes no memory.
    pub fn place(&self) -> Pushed<Mark<D, V>>
        ensures { result ≡ self.now }
    {
        self.mark.again()
    }
}
