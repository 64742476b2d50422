//! Why nothing was published.

use thiserror::Error;

/// Why a text was not published.
#[derive(Clone, Copy, Debug, PartialEq, Eq, Error)]
pub enum ShelfFault {
    /// 22: there was no memory for one more text.
    #[error("no memory was left")]
    Memory,
}
