//! What the users of a table are promised, what its servers and the partition map do, and what whole runs are, as definitions.
//!
//! This crate has no code but the plain values that states are made of, the number of a server's next request, the packets of
//! reads, and what a client makes of an answer; it touches nothing. Its definitions stand in specs/:
//! - Past: what a table that is loaded again must be, said of observations alone (`Replays`).
//! - Range, PlaceReads, Loading, Serving, Getting, Checkpoints, Answering, ControlJobs, Splits, Merges, JoinedRanges and Server: the table of a
//!   server, as functions of its state.
//! - Servers: the servers of a run, and what a loaded table shows.
//! - Map: the partition map, its ranges in the order of their keys, and what changes them: assignments, renewals, splits and
//!   merges. MapRules: what the map does with each call and packet.
//! - Partition: ranges that lie side by side, have each key once, and have numbers of their own, as they do at first and after
//!   each record that fits.
//! - RecordBytes and Replay: the bytes of the map's records, written and read; the map that records make, and which records fit.
//! - Cluster: whole runs: the stream layer, the servers above it, the map, and the clock of leases; what each event makes of all
//!   actors, stops and restarts of the map inside its records among them.
//!
//! The laws of `laws_tables`, `laws_servers` and `laws_clusters` are proved of these functions and of what `model_histories` makes of
//! them alone, and the laws in proofs/ of the map's; the crates of servers and of the map prove that their calls are them, and `world` that its runs are these.
#![tactic(auto)]

mod checkpoint_job;
mod client_answers;
mod map_record;
mod merge_job;
mod pause;
mod pending;
mod place_reads;
mod progress;
mod range_content;
mod range_entry;
mod requests;
mod server_context;
mod shown_table;
mod split_job;
mod stage;
mod table_note;
mod waiting;

pub use checkpoint_job::{CheckpointJob, CheckpointPhase};
pub use client_answers::take_answer;
pub use map_record::MapRecord;
pub use merge_job::{MergeJob, MergePhase, MergeRecord, MergeSide};
pub use pause::Pause;
pub use pending::Pending;
pub use place_reads::{is_at, moved_on, places_of, reads_page, reads_place};
pub use progress::{Progress, Service};
pub use range_content::RangeContent;
pub use range_entry::RangeEntry;
pub use requests::next_request;
pub use server_context::ServerContext;
pub use shown_table::{Entries, ShownTable, TableView};
pub use split_job::{Side, SplitJob, SplitPhase};
pub use stage::Stage;
pub use table_note::TableNote;
pub use waiting::{PlaceRead, PlaceReads, WaitingGet, WaitingTransaction};
