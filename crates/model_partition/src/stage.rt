//! How far a range is at its server.
use wire::StreamKind;

/// What is under way with a range. A load goes through its stages in this order, the metadata before the log.
#[derive(Clone, Copy, PartialEq, Eq)]
pub enum Stage {
    /// The four streams are asked for.
    Opening,
    /// The length of this stream's last extent is being checked, or that extent is being sealed.
    Checking { kind: StreamKind },
    /// The extent at this position of the stream, from 0, is being read.
    Reading { kind: StreamKind, position: u64 },
    /// The index at this position is being read, from 0 for the oldest.
    Indexing { position: u64 },
    /// All is read, and the manager is asked whether the generation is still the fence.
    Confirming,
    /// Transactions are taken.
    Serving,
}
