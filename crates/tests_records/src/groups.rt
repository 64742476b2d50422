//! Groups of blocks, which the tests of records read and spell.
use block_types::{BlockFault, Group};
use std::alloc::Global;

/// A group of these texts, which is good: an error is taken where memory runs out.
pub(crate) fn group_of(alloc: Global, texts: &[&[u8]]) -> Result<Group, BlockFault> {
    let mut owned = Vec::new(alloc);
    for text in texts {
        owned.push(text.to_vec(alloc)?)?;
    }
    match Group::new(alloc, owned) {
        Ok(group) => Ok(group),
        Err(_fault) => Err(BlockFault::Memory),
    }
}

/// Whether the blocks of a group, which is let go, are just these, one or two.
pub(crate) fn has_blocks(group: Group, texts: &[&[u8]]) -> bool {
    let told = are_blocks(&group, texts);
    drop(group);
    told
}

fn are_blocks(group: &Group, texts: &[&[u8]]) -> bool {
    match (group.blocks(), texts) {
        ([only], [text]) => only.as_slice() == *text,
        ([first, second], [text, value]) => {
            first.as_slice() == *text && second.as_slice() == *value
        }
        _ => false,
    }
}
