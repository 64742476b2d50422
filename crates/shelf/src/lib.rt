//! A shelf: texts that are published once, and then read by any thread, for good, without a lock.
//!
//! This crate touches memory only, and has no lock of its own: its texts lie in a vector that only grows (`boxcar`). It promises
//! one thing: a place shows what was published. [`Shelf::publish`] answers a [`Place`], at which exactly these bytes stand for as
//! long as the shelf does, whatever other threads publish meanwhile. It may wait for another thread, as a push does, so that its
//! promise holds if it returns. [`Shelf::read_into`] takes no handle, no allocator and no lock: it waits for nobody, wants no
//! memory and never fails, within the two conditions that its caller keeps.
#![tactic(auto)]

mod fault;
mod place;
mod shelf;

pub use fault::ShelfFault;
pub use place::Place;
pub use shelf::Shelf;

#[cfg(test)]
mod tests;
