//! Which range of the table.

use std::marker::Model;

/// The number of a range, from 1; 0 stands for the streams that users work on. The partition map gives each number once.
#[derive(Clone, Copy, PartialEq, Eq, PartialOrd, Ord)]
pub struct RangeId(pub u64);

impl Model for RangeId {
    ghost use Rattle.std.specs.Prelude.{ℕ};

    ghost Value = { ℕ };

    ghost view = { λ id. id.0 };

    ghost inverse = { λ n. record { 0 = n } };
}
