//! What comes of an answer.
ghost use Rattle.std.specs.Prelude.{◌<◌};

use crate::table_note::TableNote;
use streams::Position;
use wire::Packet;

/// What an answer leaves of a range that is loaded.
#[derive(Drop)]
pub enum Progress {
    /// Nothing has changed, and no number was used.
    Rests,
    /// The number of the next request was used, and this is sent.
    Goes(Option<Packet>),
    /// The range cannot be served, and what is known of it is of no use any more.
    Dropped,
    /// The range is served.
    Serves(Service),
}

/// What a range begins to serve with: the number of its next transaction, from 1, the end of what was read of its log, and
/// what is shown of it.
#[derive(Drop)]
pub struct Service {
    pub next: u64,
    pub position: Position,
    pub note: TableNote,
    ghost numbered: { 0 < next },
}
