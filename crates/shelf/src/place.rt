//! Where a published text stands.
ghost use Rattle.std.specs.Prelude.{◌≡◌, length};

use boxcar::Pushed;
use std::marker::Model;

/// Where a published text stands, and how long it is. Threads may share it; it has none of the text's bytes.
#[derive(Drop)]
pub struct Place {
    pub(crate) token: Pushed<Vec<u8>>,
    pub(crate) len: usize,
}

impl Model for Place {
    ghost use Rattle.std.specs.Prelude.{◌≡◌, vec_len};
    ghost use Rattle.shelf.specs.Place.{place_of};
    ghost use Rattle.shelf.specs.Place as specs;

    ghost Value = { specs.Place };

    ghost view = { λ p. place_of p.token };

    ghost invariant = { λ p. p.len ≡ vec_len p.token.value };
}

impl Place {
    /// How many bytes the text has; takes no memory.
    pub fn len(&self) -> usize
        ensures { result ≡ length self.now.text }
    {
        self.len
    }
}
