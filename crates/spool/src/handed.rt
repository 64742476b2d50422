//! What was handed on, for clauses alone. It takes no memory, and its methods do nothing when they run.
ghost use Rattle.std.specs.Prelude.{◌≡◌, ℕ, List, [], ◌++◌};
ghost use Rattle.std.specs.Borrow.{ftrue};

use std::marker::{Model, PhantomData};

/// Bytes, in the order in which they were noted.
#[derive(Drop)]
pub struct Handed {
    marker: PhantomData<u8>,
    pub ghost bytes: { List ℕ },
}

impl Model for Handed {
    ghost also_owns = { λ _. ftrue };
}

impl Handed {
    pub(crate) fn new() -> Handed
        ensures { result.bytes ≡ [] }
    {
        Handed {
            marker: PhantomData,
        }
    }

    /// Notes these bytes after those before.
    pub(crate) fn note(&mut self, _bytes: &[u8])
        ensures { self.new.bytes ≡ self.old.bytes ++ _bytes.now }
    {}
}
