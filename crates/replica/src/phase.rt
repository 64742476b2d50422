//! The states of a replica.

/// What a replica takes: groups at its end while it is open, nothing but what seals it while it is frozen, and nothing
/// once it is sealed (after Calder et al., SOSP 2011, section 4.3).
#[derive(Clone, Copy, PartialEq, Eq)]
pub enum Phase {
    Open,
    Frozen,
    Sealed,
}
