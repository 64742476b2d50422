//! A checkpoint that is under way.
use checkpoint::{CheckpointPages, PageMerge};
use memtable::Place;
use std::marker::Model;
use streams::Position;
use wire::ReqNo;

/// What a checkpoint waits for. It goes through its phases in this order.
#[derive(Clone, Copy)]
pub enum CheckpointPhase {
    /// The pages of older indexes are being read, one at a time, to be combined.
    Combining,
    /// A group of its pages is being appended to row data.
    Pages,
    /// Its index is being appended to row data. One that fits no group is not, and the checkpoint rests.
    Index,
    /// Its record is being appended to the metadata, and its index stands at this place.
    Record {
        index: Place,
    },
    /// The log is being trimmed below this index, under this number; whether its extents go to the blob stream.
    Trim {
        before: u64,
        to_blob: bool,
        request: ReqNo,
    },
}

/// A checkpoint of a range: where a load that begins with it reads the log from, the number that is then to be applied next,
/// whether its index stands for all older ones, the merge of these where it does, its pages until its record stands, and what it
/// waits for.
pub struct CheckpointJob {
    pub position: Position,
    pub next: u64,
    pub combine: bool,
    pub merge: PageMerge,
    pub pages: CheckpointPages,
    pub phase: CheckpointPhase,
}

// Written out, so that a crate above that lets one go has no proof of what is in it.
impl Drop for CheckpointJob {
    fn drop(self) {
        let CheckpointJob {
            position: _,
            next: _,
            combine: _,
            merge: _,
            pages: _,
            phase: _,
        } = self;
    }
}

impl Model for CheckpointJob {
    ghost use Rattle.std.specs.Prelude.{◌≡◌, true};
    ghost use Rattle.checkpoint_format.specs.Index.{fits_a_group};
    ghost use Rattle.model_partition.specs.CheckpointStates as specs;

    ghost Value = { specs.CheckpointState };

    ghost view = { λ j. record { position = j.position; next = j.next; combine = j.combine; merge = j.merge; pages = j.pages; phase = j.phase } };

    // An index that stands can be installed.
    ghost invariant = { λ j. specs.is_recording j.phase ≡ true → fits_a_group j.pages.index ≡ true };
}
