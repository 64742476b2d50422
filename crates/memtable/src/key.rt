//! Keys of a layer, in the order of their bytes.
ghost use Rattle.std.specs.Prelude.{◌≡◌, ◌+◌, ◌<◌, ◌≤◌, length, nat_eq, refl, Some};
ghost use Rattle.std.specs.Ordering.{nat_cmp};
ghost use Rattle.std.specs.Cmp.{partial_equiv_from_equiv};
ghost use Rattle.std.specs.Cmp.Lexicographic.{pointwise, slice_cmp, nat_list_eq_equiv, nat_list_cmp_total, texts_ties, texts_po};

use crate::compared::compare;
use bytes::Bytes;
use std::alloc::AllocError;
use std::cmp::Ordering;
use std::marker::Model;
use std::ops::DerefSlice;

/// A key of a row, by whose bytes it is ordered. Its value is its bytes.
pub struct Key {
    bytes: Bytes,
}

impl Model for Key {
    ghost use Rattle.std.specs.Prelude.{ℕ, List};

    ghost Value = { List ℕ };

    ghost view = { λ k. k.bytes };
}

// Written out, so that a crate above that lets one go has no proof of what is in it.
impl Drop for Key {
    fn drop(self) {
        let Key { bytes: _ } = self;
    }
}

impl Key {
    /// The key of these bytes, which it shares.
    pub fn of(bytes: Bytes) -> Key
        ensures { result ≡ bytes }
    {
        Key { bytes }
    }

    /// Its bytes, which it holds no more.
    pub fn into_bytes(self) -> Bytes
        ensures { result ≡ self }
    {
        let Key { bytes } = self;
        bytes
    }

    pub fn bytes(&self) -> &Bytes
        ensures { result.now ≡ self.now }
    {
        &self.bytes
    }
}

/// The same key again, which shares its bytes.
impl Clone for Key {
    ghost is_clone = { λ key copy. copy ≡ key };

    fn clone(&self) -> Result<Key, AllocError> {
        let bytes = self.bytes.clone()?;
        Ok(Key { bytes })
    }
}

impl DerefSlice for Key {
    type Elem = u8;

    ghost deref_gives = { λ key bytes. bytes ≡ key };

    fn deref(&self) -> &[u8] {
        self.bytes.as_slice()
    }
}

impl PartialEq for Key {
    ghost eq = { pointwise nat_eq };

    ghost laws = { partial_equiv_from_equiv nat_list_eq_equiv };

    fn eq(&self, other: &Key) -> bool {
        self.bytes == other.bytes
    }
}

impl Eq for Key {
    ghost laws = { nat_list_eq_equiv };
}

impl PartialOrd for Key {
    ghost partial_cmp = { λ x y. Some (slice_cmp nat_cmp x y) };

    ghost laws = { texts_po };

    fn partial_cmp(&self, other: &Key) -> Option<Ordering> {
        Some(self.cmp(other))
    }
}

impl Ord for Key {
    ghost cmp = { slice_cmp nat_cmp };

    ghost total = { nat_list_cmp_total };

    ghost matches_partial_cmp = { λ x y. refl };

    ghost matches_eq = { texts_ties };

    fn cmp(&self, other: &Key) -> Ordering {
        compare(&self.bytes, &other.bytes)
    }
}
