//! What the stream manager does with packets and decisions, before it does it: what is sent and shown, and the one change of
//! its table that comes with it.
//!
//! This crate touches memory only, and leaves the table as it is. It offers plans that are exactly the rules of the manager's
//! table of rules: what a plan sends and shows, the record that is written first, and what it makes of the table. A record
//! of a plan fits the table, and its bytes are read as they were written. A refusal is out of memory.
#![tactic(auto)]

mod actors;
mod calls;
mod modifying;
mod plan;
mod sealing;
mod sending;
mod trimming;

pub use plan::{Change, Plan, plan_for};
pub use sealing::decide;
