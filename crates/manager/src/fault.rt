//! Why the manager did not decide a seal.
use thiserror::Error;

/// Why a decision did not come about.
#[derive(Clone, Copy, Debug, PartialEq, Eq, Error)]
pub enum ManagerFault {
    /// 1: the manager has no extent of this number. Nothing has changed.
    #[error("there is no extent of this number")]
    NoSuchExtent,
    /// 10: no place has told a length. Nothing has changed.
    #[error("no place has told a length")]
    NoReply,
    /// 20: the device failed in this call, and the manager is stopped until it is restarted.
    #[error("the disk failed")]
    DiskFailed,
    /// 22: no memory was left. Nothing has changed.
    #[error("no memory was left")]
    Memory,
}
