//! Which extent.

use std::marker::Model;

/// The number of an extent, from 1. The stream manager gives each number once (after Calder et al., SOSP 2011, section 4).
#[derive(Clone, Copy, PartialEq, Eq, PartialOrd, Ord)]
pub struct ExtentId(pub u64);

impl Model for ExtentId {
    ghost use Rattle.std.specs.Prelude.{ℕ};

    ghost Value = { ℕ };

    ghost view = { λ id. id.0 };

    ghost inverse = { λ n. record { 0 = n } };
}
