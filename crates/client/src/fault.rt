//! Why a client does not begin what it is asked for.
use thiserror::Error;

/// Why nothing was begun. Nothing has changed then.
#[derive(Clone, Copy, Debug, PartialEq, Eq, Error)]
pub enum ClientFault {
    /// 1: the stream has no such extent.
    #[error("the stream has no such extent")]
    NoSuchExtent,
    /// 4: the extent is sealed, where one that is open is asked for.
    #[error("the extent is sealed")]
    NotOpen,
    /// 9: the extent is not known to be sealed, and none of it was checked.
    #[error("the extent is not sealed")]
    NotSealed,
    /// 35: another request is out.
    #[error("another request is out")]
    Busy,
}
