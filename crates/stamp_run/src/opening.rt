//! How a delivery begins.

/// What the first look at a delivery gives.
#[derive(Clone, Copy, Debug, PartialEq, Eq)]
pub enum Opening {
    /// It is done: there was no such packet, or no actor takes it.
    Done,
    /// The actor of this number takes the packet.
    At(usize),
}
