//! Why nothing was appended.

use thiserror::Error;

/// Why an event was not appended to the trace.
#[derive(Clone, Copy, Debug, PartialEq, Eq, Error)]
pub enum TraceFault {
    /// 22: no memory was left.
    #[error("no memory was left")]
    Memory,
    /// 50: the trace has no room for one more event.
    #[error("the trace is full")]
    Full,
    /// 52: the cell is stopped for good, or two tokens differ.
    #[error("the cell is stopped")]
    Stopped,
    /// 52: a mark that was booked has a value already, which nothing makes happen.
    #[error("the mark is spent")]
    Spent,
}
