//! Dumping a record file.
ghost use Rattle.std.specs.Prelude.{◌≡◌, ◌++◌, ◌∷◌, [], IsErrOf, OnOk};
ghost use Rattle.std.specs.Io.KnownBytes.{Appends, Keeps};
ghost use Rattle.record_dump.specs.Dump.{line_of, lines_of};

use crate::record_line::RecordLine;
use block_types::{BlockFault, Record};
use disk::{Disk, RecordFile};
use std::alloc::Global;
use std::io::{self, Write};
use thiserror::Error;

/// Why the records of a file were not told.
#[derive(Debug, Drop, Error)]
pub enum DumpFault {
    /// No memory was left (22).
    #[error("no memory was left")]
    Memory,
    /// The writer failed, so nothing more can be told.
    #[error("{0}")]
    Output(io::Error),
}

/// Writes the line of a record, and the newline.
fn write_line<W: Write>(shown: &Record, writer: &mut W) -> Result<(), DumpFault>
    ensures written { OnOk result (Appends (W.contents writer.old) (W.contents writer.new) (line_of shown.now ++ 10 ∷ [])) }
    ensures read_first { IsErrOf result DumpFault.Memory → ⊥ }
{
    writeln!(writer, "{}", RecordLine(shown)).map_err(DumpFault::Output)
}

/// Writes the lines of these records.
pub(crate) fn write_lines<W: Write>(records: &[Record], writer: &mut W) -> Result<(), DumpFault>
    ensures written { OnOk result (Appends (W.contents writer.old) (W.contents writer.new) (lines_of records.now)) }
    ensures read_first { IsErrOf result DumpFault.Memory → ⊥ }
{
    for shown in records {
        write_line(shown, writer)?;
    }
    Ok(())
}

/// Writes a line for each record of a file, in order. All are read before the first is written.
pub fn dump<D: Disk, W: Write>(
    alloc: Global,
    file: &RecordFile<D>,
    writer: &mut W,
) -> Result<(), DumpFault>
    // What was written is the lines of the file's records.
    ensures written { OnOk result (Appends (W.contents writer.old) (W.contents writer.new) (lines_of file.now.records)) }
    // Out of memory (22) comes before the first line.
    ensures read_first { IsErrOf result DumpFault.Memory → Keeps (W.contents writer.old) (W.contents writer.new) }
{
    match file.records(alloc) {
        Ok(records) => write_lines(records.as_slice(), writer),
        Err(BlockFault::Memory) => Err(DumpFault::Memory),
        Err(BlockFault::Damaged) => unreachable!(),
    }
}
