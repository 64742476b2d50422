//! The digests of blocks, where they are known.
ghost use Rattle.std.specs.Prelude.{◌≡◌, ◌<◌, ℕ, List, [], length, map, get_or, None, Some, IfOk, is_some};
ghost use Rattle.sha2.specs.Sha256.{sha256};
ghost use Rattle.block_types.specs.Digests.{AreDigests, IsDigestAt};

use bytes::Bytes;
use sha2::{Digest, Sha256};
use std::alloc::{AllocError, Global};
use std::marker::Model;
use std::sync::ArcSlice;

/// What is known of the digests of some blocks.
pub(crate) enum Known {
    Nothing,
    /// That of the one block, which takes no memory of its own.
    One([u8; 32]),
    /// That of each block, in order.
    All(ArcSlice<[u8; 32]>),
}

// Written out, so that a crate above that lets one go has no proof of what is in it.
impl Drop for Known {
    fn drop(self) {
        match self {
            Known::Nothing => {}
            Known::One(_) => {}
            Known::All(_) => {}
        }
    }
}

/// The SHA-256 digest of each block of a group, in order, or nothing where they were not computed yet. Copies share the
/// list.
pub(crate) struct Digests {
    known: Known,
}

// Written out, so that a crate above that lets one go has no proof of what is in it.
impl Drop for Digests {
    fn drop(self) {
        let Digests { known: _ } = self;
    }
}

impl Model for Digests {
    ghost use Rattle.std.specs.Prelude.{ℕ, List, Option};
    ghost use Rattle.block_types.specs.Digests.{digests_in};

    ghost Value = { Option (List (List ℕ)) };

    ghost view = { λ d. digests_in d.known };
}

impl Digests {
    /// None is known. Takes no memory.
    pub(crate) fn unknown() -> Digests
        ensures { result ≡ None }
    {
        Digests {
            known: Known::Nothing,
        }
    }

    /// These are known. An error is out of memory (22).
    pub(crate) fn of(digests: Vec<[u8; 32]>) -> Result<Digests, AllocError>
        ensures { IfOk result (λ d. d ≡ Some digests.items) }
    {
        if let [digest] = digests.as_slice() {
            return Ok(Digests {
                known: Known::One(*digest),
            });
        }
        Ok(Digests {
            known: Known::All(ArcSlice::from_vec(digests)?),
        })
    }

    /// Those of these blocks. An error is out of memory (22).
    pub(crate) fn computed(alloc: Global, blocks: &[Bytes]) -> Result<Digests, AllocError>
        ensures { IfOk result (λ d. d ≡ Some (map sha256 blocks.now)) }
    {
        if let [block] = blocks {
            return Ok(Digests {
                known: Known::One(Sha256::digest(block.as_slice())),
            });
        }
        Digests::of(digests_of(alloc, blocks)?)
    }

    /// The same again. An error is out of memory (22).
    pub(crate) fn copy(&self) -> Result<Digests, AllocError>
        ensures { IfOk result (λ copy. copy ≡ self.now) }
    {
        match &self.known {
            Known::Nothing => Ok(Digests::unknown()),
            Known::One(digest) => Ok(Digests {
                known: Known::One(*digest),
            }),
            Known::All(digests) => Ok(Digests {
                known: Known::All(digests.clone()?),
            }),
        }
    }

    /// Whether they are known.
    pub(crate) fn are_known(&self) -> bool
        ensures { result ≡ is_some self.now }
    {
        !matches!(self.known, Known::Nothing)
    }

    /// The digest at an index, where it is known.
    pub(crate) fn get(&self, index: usize) -> Option<[u8; 32]>
        ensures { (blocks : List (List ℕ)) → AreDigests blocks self.now → index < length blocks → IsDigestAt blocks index result }
    {
        match &self.known {
            Known::Nothing => None,
            Known::One(digest) if index == 0 => Some(*digest),
            Known::One(_) => None,
            Known::All(digests) => match digests.get(index) {
                None => None,
                Some(digest) => Some(*digest),
            },
        }
    }
}

/// The digests of blocks, in order. An error is out of memory (22).
fn digests_of(alloc: Global, blocks: &[Bytes]) -> Result<Vec<[u8; 32]>, AllocError>
    ensures { IfOk result (λ made. made.items ≡ map sha256 blocks.now) }
{
    let mut made = Vec::with_capacity(alloc, blocks.len())?;
    for block in blocks {
        made.push(Sha256::digest(block.as_slice()))?;
    }
    Ok(made)
}
