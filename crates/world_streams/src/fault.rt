//! Why an event did not happen.
use std::alloc::AllocError;

/// Why an event did not happen: no memory was left (22). Nothing has changed then.
pub type WorldFault = AllocError;
