//! A partition server: the ranges that it holds, from one start to the next stop (Calder et al., SOSP 2011, section 5).
//!
//! This crate touches memory only. `RangeServer` is the table of a server over all its ranges, their splits and their merges
//! (model_partition/specs/Server), and each call is a rule of it exactly. What the layers above may build on, each a clause here:
//! - `start` holds no range; `moment` shows the clock of leases.
//! - `handle` is the rule of a packet: an answer goes to the range that waits for its number, or to the split or the merge that does,
//!   what a user asks to the range that it names, or it is refused (30); what the map tells assigns a range or renews its lease.
//! - `give_up` has the jobs of a range give up on what they wait for, its split or its merge behind them.
//! - `checkpoint` begins a checkpoint of a range that is served, is not paused and has none, no split and no merge under way, or says
//!   why it does not; it goes on by the answers that `handle` takes. It combines the indexes of the range, by reading their pages,
//!   where that is asked or the range has 16.
//! - `split` begins a split of such a range at a key, or says why it does not; it goes on by the answers that `handle` takes, and
//!   behind each step of the range, in the same call. Where the range goes, or is assigned again, its split goes with it.
//! - `merge` begins a merge of two such ranges that lie side by side, or says why it does not; it goes on in the same way, behind each
//!   step of either. The end of the left range's checkpoint is a step of the merge, in which that of the right one begins. Where one
//!   of the two goes, or is assigned again, the merge goes with it, and the other is served on unless it is paused.
//! - `loading` is the table that a confirmation is about to show.
//! - A step sends and shows at most 2,048 each.
//!
//! Where memory runs out (22) nothing has changed. It comes only of an assignment, of what a user asks, of an answer, and of giving up,
//! a checkpoint, a split or a merge of ranges that are held; no clause says more of when it comes.
#![tactic(auto)]

mod answers;
mod both_ranges;
mod fault;
mod merge_jobs;
mod merge_settlement;
mod merges;
mod rooms;
mod sent;
mod server;
mod settlement;
mod splits;
mod steps;

pub use fault::RangeFault;
pub use sent::Sent;
pub use server::RangeServer;
