//! Dumping bytes that may be a record file.
ghost use Rattle.std.specs.Prelude.{◌≡◌, IfOk, IsErrOf, List, OnOk, ℕ};
ghost use Rattle.std.specs.Io.KnownBytes.{Appends, Keeps};
ghost use Rattle.block_types.specs.declared.record.Record.{Record};
ghost use Rattle.block_types.specs.declared.record.Version.{Version};
ghost use Rattle.disk.specs.File.{IsFileOf};
ghost use Rattle.record_dump.specs.Dump.{IsDumpOf};

use crate::dumping::{DumpFault, write_lines};
use block_types::{BlockFault, Record};
use disk::{FileFault, MemDisk, RecordFile};
use std::alloc::Global;
use std::io::{self, Write};
use thiserror::Error;

/// Why bytes were not dumped.
#[derive(Debug, Drop, Error)]
pub enum BytesFault {
    /// The bytes are no file of records (21).
    #[error("the bytes are no file of records")]
    Damaged,
    /// No memory was left (22).
    #[error("no memory was left")]
    Memory,
    /// The writer failed, so nothing more can be told.
    #[error("{0}")]
    Output(io::Error),
}

impl From<BlockFault> for BytesFault {
    ghost use Rattle.std.specs.Prelude.{◌≡◌};
    ghost use Rattle.record_dump.specs.Faults.{of_block};

    ghost from_gives = { λ fault e. e ≡ of_block fault };

    fn from(fault: BlockFault) -> BytesFault {
        match fault {
            BlockFault::Damaged => BytesFault::Damaged,
            BlockFault::Memory => BytesFault::Memory,
        }
    }
}

impl From<DumpFault> for BytesFault {
    ghost use Rattle.std.specs.Prelude.{◌≡◌};
    ghost use Rattle.record_dump.specs.Faults.{of_dump};

    ghost from_gives = { λ fault e. e ≡ of_dump fault };

    fn from(fault: DumpFault) -> BytesFault {
        match fault {
            DumpFault::Memory => BytesFault::Memory,
            DumpFault::Output(error) => BytesFault::Output(error),
        }
    }
}

/// The records of the file that these bytes are, each read once. An error is bytes that are none (21), or out of memory (22).
fn records_of(alloc: Global, bytes: Vec<u8>) -> Result<Vec<Record>, BlockFault>
    ensures ok { IfOk result (λ rs. (v : Version) × IsFileOf v rs.items bytes.items) }
    ensures damaged { IsErrOf result BlockFault.Damaged
        → (v : Version) (rs : List Record) → IsFileOf v rs bytes.items → ⊥ }
{
    match RecordFile::open_with_records(alloc, MemDisk::from_bytes(alloc, bytes)) {
        Ok((_file, records)) => Ok(records),
        Err((FileFault::Damaged, _disk)) => Err(BlockFault::Damaged),
        Err((FileFault::Memory, _disk)) => Err(BlockFault::Memory),
        Err((FileFault::Failed, _disk)) => unreachable!(),
    }
}

/// Writes a line for each record of the file that these bytes are, in either version. All of the file is read before the first
/// line is written.
pub fn dump_bytes<W: Write>(alloc: Global, bytes: Vec<u8>, writer: &mut W) -> Result<(), BytesFault>
    // The bytes are a file of records, and what was written is the lines of these.
    ensures written { OnOk result ((text : List ℕ) × IsDumpOf bytes.items text
        × Appends (W.contents writer.old) (W.contents writer.new) text) }
    // Bytes that are a file of records are not refused as none (21).
    ensures damaged { IsErrOf result BytesFault.Damaged → (text : List ℕ) → IsDumpOf bytes.items text → ⊥ }
    // Of bytes that are none nothing is written, and out of memory (22) comes before the first line.
    ensures checked_first { IsErrOf result BytesFault.Damaged → Keeps (W.contents writer.old) (W.contents writer.new) }
    ensures read_first { IsErrOf result BytesFault.Memory → Keeps (W.contents writer.old) (W.contents writer.new) }
{
    let records = records_of(alloc, bytes)?;
    write_lines(&records, writer)?;
    Ok(())
}
