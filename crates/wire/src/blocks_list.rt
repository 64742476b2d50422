//! The blocks of an append that nobody has looked at yet.
ghost use Rattle.std.specs.Prelude.{◌≡◌, false, IfOk};
ghost use Rattle.std.specs.List.{AllByRecursion};
ghost use Rattle.block_types.specs.Limits.{IsBlock, IsGroup};
ghost use Rattle.wire.specs.Blocks.{has_bad_block};

use block_types::{Group, MAX_BLOCK};
use bytes::Bytes;
use std::alloc::AllocError;
use std::marker::Model;
use std::sync::ArcSlice;

/// Byte strings of any number and size, as an append carries them before they are known to be a group. Its value is the
/// list of their bytes. Copies, and the group of them, share the list.
pub struct Blocks {
    items: ArcSlice<Bytes>,
}

// Written out, so that a crate above that lets one go has no proof of what is in it.
impl Drop for Blocks {
    fn drop(self) {
        let Blocks { items: _ } = self;
    }
}

impl Model for Blocks {
    ghost use Rattle.std.specs.Prelude.{ℕ, List};

    ghost Value = { List (List ℕ) };

    ghost use Rattle.std.specs.Arc.{arc_slice_items};

    ghost view = { λ blocks. arc_slice_items blocks.items };
}

impl Blocks {
    /// The blocks of these buffers, which it keeps and does not copy. An error is out of memory (22).
    pub fn of(items: Vec<Bytes>) -> Result<Blocks, AllocError>
        ensures { IfOk result (λ blocks. blocks ≡ items.items) }
    {
        Ok(Blocks {
            items: ArcSlice::from_vec(items)?,
        })
    }

    /// The blocks of a group, whose list it shares. An error is out of memory (22).
    pub fn of_group(group: &Group) -> Result<Blocks, AllocError>
        ensures { IfOk result (λ blocks. blocks ≡ group.now) }
    {
        Ok(Blocks {
            items: group.share()?,
        })
    }

    /// The blocks in order.
    pub fn as_slice(&self) -> &[Bytes]
        ensures { result.now ≡ self.now }
    {
        self.items.as_slice()
    }

    /// The same blocks again, which share the list: it costs the same for each append. An error is out of memory (22).
    pub fn copy(&self) -> Result<Blocks, AllocError>
        ensures { IfOk result (λ copy. copy ≡ self.now) }
    {
        Ok(Blocks {
            items: self.items.clone()?,
        })
    }

    /// The group of these blocks, which shares the list. An error is out of memory (22).
    pub fn group(&self) -> Result<Group, AllocError>
        requires { IsGroup self.now }
        ensures { IfOk result (λ group. group ≡ self.now) }
    {
        Group::shared(&self.items)
    }

    /// Whether some block has no byte, or more than 65,536.
    pub fn has_bad_block(&self) -> bool
        ensures value { result ≡ has_bad_block self.now }
        ensures good { result ≡ false → AllByRecursion IsBlock self.now }
    {
        some_bad(self.as_slice())
    }
}

fn some_bad(blocks: &[Bytes]) -> bool
    ensures value { result ≡ has_bad_block blocks.now }
    ensures good { result ≡ false → AllByRecursion IsBlock blocks.now }
{
    for block in blocks {
        if block.is_empty() || block.len() > MAX_BLOCK as usize {
            return true;
        }
    }
    false
}
