//! Records that are read, and groups of them.
use block_types::Group;
use std::alloc::Global;
use std::test::Fail;

/// A record of the metadata: the keys below `m`.
pub(crate) const KEYS: &[u8] = &[0, 0, 0, 0, 0, 0, 0, 1, 1, 0, 0, 1, 0, 1, b'm'];

/// A record of the log, of the transaction of number 1, which puts `x` at `a`.
pub(crate) const FIRST: &[u8] = &[
    0, 0, 0, 24, 0, 0, 0, 0, 0, 0, 0, 1, 0, 1, 1, 0, 1, b'a', 1, 0, 0, 0, 1, b'x',
];

/// A record of the log, of the transaction of number 4.
pub(crate) const GAP: &[u8] = &[
    0, 0, 0, 24, 0, 0, 0, 0, 0, 0, 0, 4, 0, 1, 1, 0, 1, b'a', 1, 0, 0, 0, 1, b'y',
];

/// A record of the metadata: a checkpoint whose index stands at 11 of the extent 7 and has 28 bytes. It noted the position 24 of
/// the log's first extent, and the number 2.
pub(crate) const CHECKPOINT: &[u8] = &[
    0, 0, 0, 0, 0, 0, 0, 1, 2, 0, 0, 0, 0, 0, 0, 0, 0, 7, 0, 0, 0, 11, 0, 0, 0, 28, 0, 0, 0, 0, 0,
    0, 0, 0, 0, 0, 0, 24, 0, 0, 0, 0, 0, 0, 0, 2,
];

/// An index of one page, which begins with `c` and stands at 0 of the extent 7.
pub(crate) const INDEX: &[u8] = &[
    0, 0, 0, 28, 0, 0, 0, 1, 0, 0, 1, b'c', 0, 0, 0, 0, 0, 0, 0, 7, 0, 0, 0, 0, 0, 0, 0, 11,
];

/// As many bytes as that index has, which spell none.
pub(crate) const NO_INDEX: &[u8] = &[
    0, 0, 0, 28, 0, 0, 0, 2, 0, 0, 1, b'c', 0, 0, 0, 0, 0, 0, 0, 7, 0, 0, 0, 0, 0, 0, 0, 11,
];

/// A page: `c` has the value `x`.
pub(crate) const PAGE: &[u8] = &[0, 1, 0, 1, b'c', 1, 0, 0, 0, 1, b'x'];

/// As many bytes as that page has, which spell none.
pub(crate) const NO_PAGE: &[u8] = &[0, 2, 0, 1, b'c', 1, 0, 0, 0, 1, b'x'];

/// One group: a block of this text, and after it a block of each of these sizes.
pub(crate) fn groups(alloc: Global, text: &[u8], sizes: &[usize]) -> Result<Vec<Group>, Fail> {
    let mut texts = Vec::new(alloc);
    texts.push(text.to_vec(alloc)?)?;
    for size in sizes {
        texts.push(vec![in alloc; b'z'; *size]?)?;
    }
    let mut groups = Vec::new(alloc);
    groups.push(Group::new(alloc, texts)?)?;
    Ok(groups)
}
