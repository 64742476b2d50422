//! Reading a record whose blocks come one by one.
ghost use Rattle.std.specs.Prelude.{◌≡◌, ◌≤◌, ◌++◌, ◌∷◌, [], length, IfOk, OnOk, OnErr, MatchResult};
ghost use Rattle.blocks.specs.Format.{Gives};
ghost use Rattle.commitlog.specs.declared.log_record.LogRecord.{LogRecord};
ghost use Rattle.commitlog.specs.Record.{spelling, Fits};
ghost use Rattle.commitlog.specs.Reading.{record_at};

use crate::log_record::LogRecord;
use crate::reading::record_of;
use block_types::{Block, BlockFault, MAX_BLOCKS};
use bytes::Bytes;
use std::alloc::{AllocError, Global};
use std::marker::Model;

/// The blocks of a group as they come, whose bytes it shares. Its value is the list of the blocks that were fed.
#[derive(Drop)]
pub struct LogReader {
    blocks: Vec<Bytes>,
}

impl Model for LogReader {
    ghost use Rattle.std.specs.Prelude.{ℕ, List};

    ghost Value = { List (List ℕ) };

    ghost view = { λ reader. reader.blocks.items };
}

impl LogReader {
    /// Of no block. Takes no memory.
    pub fn new(alloc: Global) -> LogReader
        ensures { result ≡ [] }
    {
        LogReader {
            blocks: Vec::new(alloc),
        }
    }

    /// Takes the next block, whose bytes it shares. An error is out of memory (22), and nothing has changed then.
    pub fn feed(&mut self, block: &Block) -> Result<(), AllocError>
        ensures ok { OnOk result (self.new ≡ self.old ++ block.now ∷ []) }
        ensures err { OnErr result (self.new ≡ self.old) }
    {
        self.blocks.push(block.share()?)?;
        Ok(())
    }

    /// The record that the blocks spell. Large values share their buffers; keys and small values are copied.
    ///
    /// It is refused `Damaged` (21) only where no record that fits has this spelling, as more than 64 blocks are of none.
    /// `Memory` (22) says nothing of the blocks.
    pub fn end(self, alloc: Global) -> Result<LogRecord, BlockFault>
        ensures found { IfOk result (λ r. Fits r × (spelling r ≡ self)) }

        // So it is what reading the blocks of a group from left to right gives.
        ensures read { length self ≤ 64 → Gives (λ r. r) result (record_at self) }

        // Where the blocks are a record's spelling that record is found, unless memory ran out.
        ensures only { (r : LogRecord) → Fits r → spelling r ≡ self
            → MatchResult result (λ x. x ≡ r) (λ e. e ≡ BlockFault.Memory) }
    {
        if self.blocks.len() > MAX_BLOCKS as usize {
            return Err(BlockFault::Damaged);
        }
        record_of(alloc, &self.blocks)
    }
}
