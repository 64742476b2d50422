//! A writer that keeps what it is given for a while, and hands on whole lines to another one.
//!
//! `LineSpool` (`line_spool`) writes to the writer below it, and touches nothing else but memory: 64 KiB, or what one longer line needs. Its
//! value is all that it was given; what it handed on since is kept for clauses alone (`handed`). What is promised, each a clause of
//! `write` or `flush`: what is handed on is what the writer below took, in order, and whole lines; after a flush all whole lines are
//! handed on; once the writer below has failed it is given nothing more; and a write is refused for that or for want of memory alone.
#![tactic(auto)]

mod handed;
mod line_spool;

pub use line_spool::LineSpool;
