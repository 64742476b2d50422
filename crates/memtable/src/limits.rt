//! How large things may be. specs/Limits.antt says the same for clauses.
ghost use Rattle.std.specs.Prelude.{◌≡◌};
ghost use Rattle.memtable.specs.Limits as limits;

/// The most bytes of a key. The fewest is 1.
pub const MAX_KEY: usize = 256;

/// The most bytes of a value. It may have none.
pub const MAX_VALUE: usize = 65_536;

/// The most bytes of a value that a row keeps beside its key. A larger one stands in a block of its own.
pub const MAX_INLINE: usize = 4_096;

/// The most changes of a transaction. The fewest is 1.
pub const MAX_CHANGES: usize = 32;

/// The most transactions of one group of the commit log. The fewest is 1.
pub const MAX_BATCH: usize = 1_024;

/// Whether the value is large, and so kept by its place: more than 4,096 bytes.
pub fn is_large(value: &[u8]) -> bool
    ensures { result ≡ limits.is_large value.now }
{
    value.len() > MAX_INLINE
}
