//! The blocks that a client is to append.
ghost use Rattle.std.specs.Prelude.{◌≡◌, [], IfOk};

use std::alloc::{AllocError, Global};
use std::marker::Model;
use wire::Blocks;

/// The blocks that a client is to append, or none. Its value is the list of their bytes.
pub(crate) struct PendingBlocks {
    blocks: Option<Blocks>,
}

// Written out, so that a crate above that lets one go has no proof of what is in it.
impl Drop for PendingBlocks {
    fn drop(self) {
        let PendingBlocks { blocks: _ } = self;
    }
}

impl Model for PendingBlocks {
    ghost use Rattle.std.specs.Prelude.{ℕ, List, [], unwrap_or};

    ghost Value = { List (List ℕ) };

    ghost view = { λ pending. unwrap_or pending.blocks [] };
}

impl PendingBlocks {
    /// None; takes no memory.
    pub(crate) fn none() -> PendingBlocks
        ensures { result ≡ [] }
    {
        PendingBlocks { blocks: None }
    }

    /// These; takes no memory.
    pub(crate) fn of(blocks: Blocks) -> PendingBlocks
        ensures { result ≡ blocks }
    {
        PendingBlocks {
            blocks: Some(blocks),
        }
    }

    /// The same blocks again, which share the list. An error is out of memory (22).
    pub(crate) fn copy(&self, alloc: Global) -> Result<Blocks, AllocError>
        ensures { IfOk result (λ copy. copy ≡ self.now) }
    {
        match &self.blocks {
            None => Blocks::of(Vec::new(alloc)),
            Some(blocks) => blocks.copy(),
        }
    }
}
