//! Marks of which the type says that they are those that are meant.
ghost use Rattle.std.specs.Prelude.{◌≡◌};

use stamp_marks::{Identity, Marks};
use stamp_traces::Entry;
use std::marker::{Model, PhantomData};

/// The marks that an identity names.
#[derive(Drop)]
pub struct NamedMarks<S, K: Identity> {
    marks: Marks<u64, S, Entry<u64, u64>>,
    of: PhantomData<K>,
}

impl<S, K: Identity> Model for NamedMarks<S, K> {
    ghost use Rattle.std.specs.Prelude.{◌≡◌, ⊤};

    ghost Value = { ⊤ };

    ghost view = { λ m. tt };

    ghost invariant = { λ m. (m.marks.events ≡ K.events) × (m.marks.prefixes ≡ K.prefixes) };
}

impl<S, K: Identity> NamedMarks<S, K> {
    /// These marks.
    pub fn new(marks: Marks<u64, S, Entry<u64, u64>>) -> NamedMarks<S, K>
        requires named { (marks.events ≡ K.events) × (marks.prefixes ≡ K.prefixes) }
    {
        NamedMarks {
            marks,
            of: PhantomData,
        }
    }

    /// All of them.
    pub fn all(&self) -> &Marks<u64, S, Entry<u64, u64>>
        ensures named { (result.now.events ≡ K.events) × (result.now.prefixes ≡ K.prefixes) }
    {
        &self.marks
    }
}
