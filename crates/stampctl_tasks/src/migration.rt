//! Migrating a record file.
ghost use Rattle.std.specs.Prelude.{◌≡◌, ◌<◌, [], IfErr, IfOk, IsErrOf, IsTrue, List, false, length, true};
ghost use Rattle.std.specs.List.{AllByRecursion, list_any};
ghost use Rattle.std.specs.Process.{exit_status};
ghost use Rattle.block_types.specs.declared.record.Record.{Record};
ghost use Rattle.block_types.specs.declared.record.Version.{Version};
ghost use Rattle.blocks.specs.Record.{Fits};
ghost use Rattle.blocks.specs.Sizes.{is_long_fill};
ghost use Rattle.disk.specs.Disk.{Only};
ghost use Rattle.disk.specs.File.{IsFileOf};
ghost use Rattle.spool.specs.Spool.{given};
ghost use Rattle.stampctl_tasks.specs.Printed.{IsPrinted, migrated_line};

use crate::ending::{finish, refused, unread};
use crate::input::text_of;
use block_types::{BlockFault, Record, Version};
use blocks::fits_all;
use disk::{Disk, DiskFault, FileDisk, FileFault, MemDisk, RecordFile};
use spool::LineSpool;
use std::alloc::Global;
use std::fs;
use std::io::{self, Eprint, Print, Write};
use std::process::ExitCode;
use std::rt::Files;
use wire::Refusal;

/// Whether none of these is a Fill longer than any extent, so that version 2 has a spelling for each.
fn have_no_long_fill(records: &[Record]) -> bool
    requires { (v : Version) × AllByRecursion (Fits v) records.now }
    ensures fit { IsTrue result → AllByRecursion (Fits Version.V2) records.now }
    ensures long { result ≡ false → list_any is_long_fill records.now ≡ true }
{
    for written in records {
        if !fits_all(written) {
            return false;
        }
    }
    true
}

/// The record file that these bytes are, over a disk in memory, and how many records it has. An error is bytes that are none, or
/// have a Fill longer than any extent (21), or out of memory (22).
fn source_of(alloc: Global, bytes: Vec<u8>) -> Result<(RecordFile<MemDisk>, usize), BlockFault>
    ensures ok { IfOk result (λ x. IsFileOf x.0.version x.0.records bytes.items × (x.1 ≡ length x.0.records)) }
    ensures fit { IfOk result (λ x. AllByRecursion (Fits Version.V2) x.0.records) }
    ensures damaged { IsErrOf result BlockFault.Damaged → (v : Version) (rs : List Record) → IsFileOf v rs bytes.items
        → list_any is_long_fill rs ≡ true }
{
    match RecordFile::open_with_records(alloc, MemDisk::from_bytes(alloc, bytes)) {
        Ok((file, records)) => {
            if have_no_long_fill(&records) {
                Ok((file, records.len()))
            } else {
                Err(BlockFault::Damaged)
            }
        }
        Err((FileFault::Damaged, _disk)) => Err(BlockFault::Damaged),
        Err((FileFault::Memory, _disk)) => Err(BlockFault::Memory),
        Err((FileFault::Failed, _disk)) => unreachable!(),
    }
}

/// Tells how many records were migrated.
fn tell_count<R: Print, W: Write + Drop>(rt: &R, count: usize, spool: &mut LineSpool<W>) -> ExitCode
    ensures told { exit_status result < 2 }
    ensures printed { exit_status result ≡ 0 → IsPrinted (λ text. text ≡ migrated_line count) spool.old spool.new }
{
    match writeln!(spool, "migrated {count}") {
        Ok(()) => finish(rt, Ok(()), spool),
        Err(_) => ExitCode::FAILURE,
    }
}

/// Makes a file of version 2 with the records of another, which are so many, on an empty disk, and then tells their count. Where the
/// line cannot be printed the file stands. A refusal hands the disk back.
fn print_migration<R: Print, N: Disk + Drop, W: Write + Drop>(
    rt: &R,
    alloc: Global,
    old: &RecordFile<MemDisk>,
    count: usize,
    new: N,
    spool: &mut LineSpool<W>,
) -> Result<ExitCode, (DiskFault, N)>
    requires empty { (N.state new).seen ≡ [] }
    requires durable { Only (N.state new).seen (N.state new).may_leave }
    requires fit { AllByRecursion (Fits Version.V2) old.now.records }
    requires counted { count ≡ length old.now.records }
    // A disk was made with the file of these records, and no crash leaves it otherwise.
    ensures moved { IfOk result (λ _. (disk : N) × IsFileOf Version.V2 old.now.records (N.state disk).seen
        × Only (N.state disk).seen (N.state disk).may_leave) }
    ensures told { IfOk result (λ status. exit_status status < 2) }
    ensures printed { IfOk result (λ status. exit_status status ≡ 0
        → IsPrinted (λ text. text ≡ migrated_line (length old.now.records)) spool.old spool.new) }
    ensures moved_first { IfErr result (λ _. given spool.new ≡ given spool.old) }
{
    match disk::migrate(alloc, old, new) {
        Ok(file) => {
            // The new file is closed first: it would be written to where it took the number of a closed standard output.
            drop(file.into_disk());
            Ok(tell_count(rt, count, spool))
        }
        Err(refused) => Err(refused),
    }
}

/// The refusal that is told of bytes that are not migrated.
fn source_refusal(fault: BlockFault) -> Refusal
    ensures damaged { fault ≡ BlockFault.Damaged → result ≡ Refusal.Damaged }
    ensures memory { fault ≡ BlockFault.Memory → result ≡ Refusal.Memory }
{
    match fault {
        BlockFault::Damaged => Refusal::Damaged,
        BlockFault::Memory => Refusal::Memory,
    }
}

/// The refusal that is told of a new file that could not be written.
fn disk_refusal(fault: DiskFault) -> Refusal
    ensures failed { fault ≡ DiskFault.Failed → result ≡ Refusal.DiskFailed }
    ensures memory { fault ≡ DiskFault.Memory → result ≡ Refusal.Memory }
{
    match fault {
        DiskFault::Failed => Refusal::DiskFailed,
        DiskFault::Memory => Refusal::Memory,
    }
}

/// Makes the new file, where there is none, and writes the records into it. A refusal leaves none there.
fn fill_new<R: AllocGlobal + Eprint + Files<File = fs::File> + Print>(
    rt: &R,
    alloc: Global,
    old: &RecordFile<MemDisk>,
    count: usize,
    new: &str,
) -> ExitCode
    requires fit { AllByRecursion (Fits Version.V2) old.now.records }
    requires counted { count ≡ length old.now.records }
    ensures { exit_status result < 2 }
{
    let mut spool = match LineSpool::new(alloc, io::writer(rt)) {
        Ok(spool) => spool,
        Err(_) => return refused(rt, Refusal::Memory),
    };
    let disk = match FileDisk::create(rt, new) {
        Ok(disk) => disk,
        Err(error) => return unread(rt, Some(new), error),
    };
    match print_migration(rt, alloc, old, count, disk, &mut spool) {
        Ok(status) => status,
        Err((fault, disk)) => {
            drop(disk);
            let _ = fs::remove_file(rt, new);
            refused(rt, disk_refusal(fault))
        }
    }
}

/// Makes a record file of version 2 with the records of another, which is opened for reading alone and read as a whole first.
pub(crate) fn migrate<R: AllocGlobal + Eprint + Files<File = fs::File> + Input + Print>(
    rt: &R,
    alloc: Global,
    path: &str,
    new: &str,
) -> ExitCode
    ensures { exit_status result < 2 }
{
    let bytes = match text_of(rt, alloc, Some(path)) {
        Ok(bytes) => bytes,
        Err(error) => return unread(rt, Some(path), error),
    };
    match source_of(alloc, bytes) {
        Ok((old, count)) => fill_new(rt, alloc, &old, count, new),
        Err(fault) => refused(rt, source_refusal(fault)),
    }
}
