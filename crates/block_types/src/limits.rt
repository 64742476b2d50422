//! How large things may be. specs/Limits.antt says the same of values.

/// The most bytes of a block. The fewest is 1.
pub const MAX_BLOCK: u32 = 65_536;

/// The most blocks of a group. The fewest is 1.
pub const MAX_BLOCKS: u8 = 64;

/// The most bytes of a group.
pub const MAX_GROUP: u32 = 4_194_304;

/// The highest number of a node. The lowest is 1.
pub const MAX_NODE: u8 = 12;

/// The lowest target of an extent, in bytes.
pub const MIN_TARGET: u32 = 4_096;

/// The highest target of an extent, in bytes.
pub const MAX_TARGET: u32 = 16_777_216;
