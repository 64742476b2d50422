//! The pages that are at hand.
ghost use Rattle.std.specs.Prelude.{◌≡◌, IfOk};
ghost use Rattle.std.specs.Option.{option_copied};
ghost use Rattle.checkpoint.specs.Lookup.{PageSource, in_bytes};

use crate::page_lookup::Lookup;
use bytes::Bytes;
use memtable::Place;
use std::alloc::AllocError;

/// The pages that are at hand, by their places. `source` is what they are.
pub trait Pages {
    ghost source: { Self → PageSource };

    /// The bytes of the page at a place, where they are at hand. They may spell no page.
    fn page(&self, place: &Place) -> Option<&Bytes>
        ensures { option_copied result ≡ source self.now place.now };

    /// What the page at a place says of the key, if it has the key, is no page or is not at hand. As it stands it walks through
    /// the page; a source whose pages are kept to be searched does better.
    ///
    /// An error is out of memory (22), and says nothing of the key.
    fn find_at(&self, place: &Place, key: &[u8]) -> Result<Option<Lookup>, AllocError>
        ensures { IfOk result (λ found. found ≡ in_bytes place.now key.now (source self.now place.now)) }
    {
        Lookup::in_bytes(place, self.page(place), key)
    }
}
