//! Why the map did not do what a call asks.
use thiserror::Error;

/// Why a call did not come about.
#[derive(Clone, Copy, Debug, PartialEq, Eq, Error)]
pub enum MapFault {
    /// 30: there is no range of this number to assign or renew, or the server that a lease is renewed for does not hold it,
    /// or the holders of two ranges differ. Nothing has changed.
    #[error("there is no such range, or the server does not hold it, or the holders differ")]
    NotOwner,
    /// 31: another server holds the range, and its lease has not ended. Nothing has changed.
    #[error("another server holds the range")]
    LeaseHeld,
    /// 39: the key does not split the range: it has not 1 to 256 bytes, or it is not above the first key of the range and
    /// below its end. Nothing has changed.
    #[error("the key does not split the range")]
    BadSplitKey,
    /// 40: the right range does not begin where the left one ends. Nothing has changed.
    #[error("the ranges are not side by side")]
    NotAdjacent,
    /// 41: a range that is named is not there or has another generation, or what is to be done was not begun. Nothing has
    /// changed.
    #[error("the range has another generation, or it was not begun")]
    GenerationChanged,
    /// 20: the device failed in this call, and the map is stopped until it is restarted.
    #[error("the disk failed")]
    DiskFailed,
    /// 22: no memory was left. Nothing has changed.
    #[error("no memory was left")]
    Memory,
}
