//! The checker: whether observations of a run agree with one another, and keep what was acknowledged.
//!
//! This crate reads what it is given and touches nothing else but memory.
//! - `check` is the test of the two laws of honest runs, exactly: it finds nothing where they hold of a list of observations, and
//!   else the first one that breaks them. It takes no memory.
//! - `check_indexed` answers the same, and takes memory for an index so that long lists are tested fast.
//! - `acknowledged` makes the observations of a long run of appends, for those who measure the check.
#![tactic(auto)]

mod compare;
mod example;
mod index;
mod search;
mod starts;
mod telling;
mod texts;
mod told;

pub use example::acknowledged;
pub use search::{check, check_indexed};
