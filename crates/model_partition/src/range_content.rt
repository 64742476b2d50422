//! What a load makes of a range.
ghost use Rattle.std.specs.Prelude.{◌≡◌, true};
ghost use Rattle.client.specs.Load.{is_open};
ghost use Rattle.model_partition.specs.LoadStages.{is_reading};

use crate::checkpoint_job::CheckpointJob;
use crate::stage::Stage;
use crate::waiting::PlaceRead;
use checkpoint::InstalledIndexes;
use client::{RangeLoad, StreamClient};
use memtable::MemTable;
use metadata::{Metadata, Region};
use wire::StreamList;

/// What a server knows of a range beside its transactions and Gets: how far its load is, its streams, what its metadata says,
/// the regions of its log with the numbers that are to be applied next, its table, the indexes below it, the index or the page that
/// is being read, and the checkpoint that is under way.
pub struct RangeContent {
    pub load: RangeLoad,
    pub stage: Stage,
    pub metadata: StreamClient,
    pub log: StreamClient,
    pub rows: StreamClient,
    pub blob_data: StreamList,
    pub said: Metadata,
    pub regions: Vec<Region>,
    pub table: MemTable,
    /// The newest first.
    pub indexes: InstalledIndexes,
    pub reading: Option<PlaceRead>,
    /// The checkpoint that is under way.
    pub control: Option<CheckpointJob>,
    // Streams are read only once they are opened, and no more once the generation is to be confirmed.
    pub ghost opened: { is_reading stage ≡ true → is_open load.phase ≡ true },
}

// Written out, so that a crate above that lets one go has no proof of what is in it.
impl Drop for RangeContent {
    fn drop(self) {
        let RangeContent {
            load: _,
            stage: _,
            metadata: _,
            log: _,
            rows: _,
            blob_data: _,
            said: _,
            regions: _,
            table: _,
            indexes: _,
            reading: _,
            control: _,
        } = self;
    }
}
