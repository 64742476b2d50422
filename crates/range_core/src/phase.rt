//! How far a range is, as those who use it see it.

/// How far a range is at its server.
#[derive(Clone, Copy, Debug, PartialEq, Eq)]
pub enum Phase {
    /// Its streams are opened and read, and its generation is confirmed. Transactions and Gets are refused (38).
    Loading,
    /// Transactions and Gets are taken, and a checkpoint may begin.
    Serving,
    /// Transactions and Gets are taken, and a checkpoint is under way.
    Checkpointing,
    /// Transactions and Gets are refused (34), and no checkpoint begins.
    Paused,
}
