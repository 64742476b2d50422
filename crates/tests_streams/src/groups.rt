//! Groups of blocks, which the tests put, spell and look at.
use block_types::{Group, GroupFault, Groups};
use std::alloc::Global;

/// A group of these texts, a block each.
pub(crate) fn group_of(alloc: Global, texts: &[&[u8]]) -> Result<Group, GroupFault> {
    let mut owned = Vec::new(alloc);
    for text in texts {
        owned.push(text.to_vec(alloc)?)?;
    }
    Group::new(alloc, owned)
}

/// Groups of one block each, of these texts.
pub(crate) fn groups_of(alloc: Global, texts: &[&[u8]]) -> Result<Groups, GroupFault> {
    let mut groups = Vec::new(alloc);
    for text in texts {
        groups.push(group_of(alloc, &[*text])?)?;
    }
    Ok(Groups { items: groups })
}
