//! How many bytes payloads have together. A sum that 64 bits cannot hold, which no memory has bytes for, stays at the greatest.
use block_types::Group;
use bytes::Bytes;
use wire::Change;

pub(crate) fn size_of_blocks(blocks: &[Bytes]) -> u64 {
    let mut size: u64 = 0;
    for block in blocks {
        size = size.saturating_add(block.len() as u64);
    }
    size
}

pub(crate) fn size_of_groups(groups: &[Group]) -> u64 {
    let mut size: u64 = 0;
    for group in groups {
        size = size.saturating_add(u64::from(group.size()));
    }
    size
}

/// Keys and values together.
pub(crate) fn size_of_changes(changes: &[Change]) -> u64 {
    let mut size: u64 = 0;
    for change in changes {
        let value = change.value.as_ref().map_or(0, Bytes::len);
        size = size
            .saturating_add(change.key.len() as u64)
            .saturating_add(value as u64);
    }
    size
}
