//! A file of records: four letters, and then each record after a gate. A gate of 1 is open. Any other byte is
//! closed, and there the file ends for its reader (docs/FORMATS.md).
ghost use Rattle.std.specs.Prelude.{◌≡◌, ◌≢◌, ◌<◌, ◌≤◌, [], List, IsErrOf, IfOk, IfErr, MatchResult, None, Some, false, true, option_map};
ghost use Rattle.std.specs.List.{AllByRecursion};
ghost use Rattle.blocks.specs.Record.{Fits};
ghost use Rattle.disk.specs.Appends.{Appends};
ghost use Rattle.disk.specs.Disk.{LeavesOnly, IsUntouched, IsSteady, Only};
ghost use Rattle.disk.specs.Memory.{memory_state};
ghost use Rattle.disk.specs.File.{IsFileOf, IsBeforeOrAfter, IsNoneOrAll, HasNoRecord};

use crate::device::{Disk, DiskFault};
use crate::fault::FileFault;
use crate::memory::{MemDisk, Stop};
use crate::opening::find;
use crate::scan::read_file;
use crate::text::{kept, spelled};
use crate::writing::{put_woven, write_file, write_header};
use block_types::{BlockFault, Record, Version};
use blocks::Woven;
use std::alloc::{AllocError, Global};
use std::marker::Model;

/// The version that a new file has.
const NEW_VERSION: Version = Version::V2;

/// A list of records on a disk, to which records are added one by one. In a clause its value shows the disk, the
/// version, the records and whether it is stopped; in memory it holds none of the records, but the buffers that the last
/// one was spelled in. An append makes four device
/// calls: it writes the record after the last gate, which is still closed, and a closed gate after that; syncs; opens
/// the gate; and syncs. After Calder et al., SOSP 2011, section 4.
pub struct RecordFile<D: Disk> {
    disk: D,
    version: Version,
    // the place of the gate after the last record
    end: usize,
    // a device call of an append has failed, so that the gate may be open or closed
    stopped: bool,
    // what the last record was spelled in, to be used again
    text: Option<Woven>,
}

// Written out, so that a crate above that lets one go has no proof of what is in it.
impl<D: Disk + Drop> Drop for RecordFile<D> {
    fn drop(self) {
        let RecordFile {
            disk: _,
            version: _,
            end: _,
            stopped: _,
            text: _,
        } = self;
    }
}

impl<D: Disk> Model for RecordFile<D> {
    ghost use Rattle.disk.specs.Filed.{Filed};
    ghost use Rattle.disk.specs.File.{IsKept, records_in};

    ghost Value = { Filed D };

    ghost view = { λ f. record { disk = f.disk; version = f.version; records = records_in f.version (D.state f.disk).seen; stopped = f.stopped } };

    ghost invariant = { λ f. IsKept (D.state f.disk) f.version f.end f.stopped (records_in f.version (D.state f.disk).seen) };
}

impl<D: Disk> RecordFile<D> {
    /// Adds a record to a running file. At `Ok` it stands: from then on each crash leaves it. `Failed` (20) comes only
    /// where the disk's count of failures rose. Then the record stands or it does not, and the file is stopped until it
    /// is opened again. `Memory` (22) changes nothing, since all growth comes before the first device call.
    pub fn append(&mut self, alloc: Global, added: &Record) -> Result<(), DiskFault>
        requires running { self.old.stopped ≡ false }
        requires fits { Fits self.old.version added.now }
        ensures appends { Appends D.state self.old self.new added.now result }
        // A crash at any moment of the call leaves the records from before it, with the new one or without.
        ensures any_moment { LeavesOnly (D.state self.old.disk) (D.state self.new.disk)
            (IsBeforeOrAfter self.old.version self.old.records added.now) }
    {
        let mut text = spelled(&mut self.text, alloc, self.version, added)?;
        // Read for its bound: so few bytes are there that the places below fit.
        let _size = self.disk.len();
        let next = self.end + text.len();
        self.disk.reserve(next + 1)?;
        self.stopped = true;
        put_woven(self.end, &mut text, &mut self.disk)?;
        self.end = next;
        self.stopped = false;
        self.text = kept(text);
        Ok(())
    }

    /// Makes a file with no record on an empty disk, of version 2: five bytes, the version's letters and a closed
    /// gate. A refusal hands the disk back. `Failed` (20) comes only where the disk's count of failures rose, and leaves
    /// no record; `Memory` (22) changes nothing.
    pub fn format(disk: D) -> Result<RecordFile<D>, (DiskFault, D)>
        requires empty { (D.state disk).seen ≡ [] }
        requires durable { Only (D.state disk).seen (D.state disk).may_leave }
        ensures ok { IfOk result (λ file. (file.stopped ≡ false) × (file.version ≡ Version.V2) × (file.records ≡ [])) }
        ensures steady { IsSteady (D.state disk) → MatchResult result
            (λ file. IsSteady (D.state file.disk))
            (λ e. (e.0 ≢ DiskFault.Failed) × IsSteady (D.state e.1)) }
        ensures any_moment { MatchResult result
            (λ file. LeavesOnly (D.state disk) (D.state file.disk) HasNoRecord)
            (λ e. LeavesOnly (D.state disk) (D.state e.1) HasNoRecord) }
        ensures memory { IfErr result (λ e. e.0 ≡ DiskFault.Memory → IsUntouched (D.state disk) (D.state e.1)) }
        ensures failed { MatchResult result
            (λ file. (D.state disk).failures ≤ (D.state file.disk).failures)
            (λ e. e.0 ≡ DiskFault.Failed → (D.state disk).failures < (D.state e.1).failures) }
    {
        let mut disk = disk;
        match write_header(NEW_VERSION, &mut disk) {
            Ok(()) => Ok(RecordFile {
                disk,
                version: NEW_VERSION,
                end: 4,
                stopped: false,
                text: None,
            }),
            Err(fault) => Err((fault, disk)),
        }
    }

    /// Makes a file of these records on an empty disk, of version 2. With records it makes six device calls: it writes
    /// the header and a closed gate, and syncs; writes all behind the gate, and syncs; opens the gate, and syncs. Without any
    /// it is made after two. A refusal hands the disk back. `Failed` (20) comes only where the disk's count of failures rose,
    /// and leaves no record or all of them; `Memory` (22) changes nothing, since all growth comes before the first write.
    pub fn with_records(
        alloc: Global,
        disk: D,
        records: &[Record],
    ) -> Result<RecordFile<D>, (DiskFault, D)>
        requires empty { (D.state disk).seen ≡ [] }
        requires durable { Only (D.state disk).seen (D.state disk).may_leave }
        requires fit { AllByRecursion (Fits Version.V2) records.now }
        ensures ok { IfOk result (λ file. (file.stopped ≡ false) × (file.version ≡ Version.V2) × (file.records ≡ records.now)
            × Only (D.state file.disk).seen (D.state file.disk).may_leave) }
        ensures steady { IsSteady (D.state disk) → MatchResult result
            (λ file. IsSteady (D.state file.disk))
            (λ e. (e.0 ≢ DiskFault.Failed) × IsSteady (D.state e.1)) }
        // A crash at any moment of the call leaves no record, or all of them.
        ensures any_moment { MatchResult result
            (λ file. LeavesOnly (D.state disk) (D.state file.disk) (IsNoneOrAll Version.V2 records.now))
            (λ e. LeavesOnly (D.state disk) (D.state e.1) (IsNoneOrAll Version.V2 records.now)) }
        ensures memory { IfErr result (λ e. e.0 ≡ DiskFault.Memory → IsUntouched (D.state disk) (D.state e.1)) }
        ensures failed { MatchResult result
            (λ file. (D.state disk).failures ≤ (D.state file.disk).failures)
            (λ e. e.0 ≡ DiskFault.Failed → (D.state disk).failures < (D.state e.1).failures) }
    {
        RecordFile::with_records_as(alloc, NEW_VERSION, disk, records)
    }

    /// As `with_records`, in a version.
    pub(crate) fn with_records_as(
        alloc: Global,
        version: Version,
        disk: D,
        records: &[Record],
    ) -> Result<RecordFile<D>, (DiskFault, D)>
        requires empty { (D.state disk).seen ≡ [] }
        requires durable { Only (D.state disk).seen (D.state disk).may_leave }
        requires fit { AllByRecursion (Fits version) records.now }
        ensures ok { IfOk result (λ file. (file.stopped ≡ false) × (file.version ≡ version) × (file.records ≡ records.now)
            × Only (D.state file.disk).seen (D.state file.disk).may_leave) }
        ensures steady { IsSteady (D.state disk) → MatchResult result
            (λ file. IsSteady (D.state file.disk))
            (λ e. (e.0 ≢ DiskFault.Failed) × IsSteady (D.state e.1)) }
        // A crash at any moment of the call leaves no record, or all of them.
        ensures any_moment { MatchResult result
            (λ file. LeavesOnly (D.state disk) (D.state file.disk) (IsNoneOrAll version records.now))
            (λ e. LeavesOnly (D.state disk) (D.state e.1) (IsNoneOrAll version records.now)) }
        ensures memory { IfErr result (λ e. e.0 ≡ DiskFault.Memory → IsUntouched (D.state disk) (D.state e.1)) }
        ensures failed { MatchResult result
            (λ file. (D.state disk).failures ≤ (D.state file.disk).failures)
            (λ e. e.0 ≡ DiskFault.Failed → (D.state disk).failures < (D.state e.1).failures) }
    {
        let mut disk = disk;
        match write_file(alloc, version, records, &mut disk) {
            Ok(end) => Ok(RecordFile {
                disk,
                version,
                end,
                stopped: false,
                text: None,
            }),
            Err(fault) => Err((fault, disk)),
        }
    }

    /// Opens the file on a disk, as a crash may have left it. It syncs first, so that what it finds is all on the disk.
    /// A refusal hands the disk back. `Failed` (20) comes only where the disk's count of failures rose; `Damaged` (21)
    /// only where the bytes are no file of records: fewer than five of them, other letters, or an open gate with no
    /// whole record and gate after it; `Memory` (22) after the sync.
    pub fn open(alloc: Global, disk: D) -> Result<RecordFile<D>, (FileFault, D)>
        ensures ok { IfOk result (λ file. (file.stopped ≡ false) × ((D.state file.disk).seen ≡ (D.state disk).seen)
            × IsFileOf file.version file.records (D.state disk).seen) }

        // Damaged only where the bytes are no file of records.
        ensures only { (v : Version) (rs : List Record) → IsFileOf v rs (D.state disk).seen
            → MatchResult result (λ file. (file.version ≡ v) × (file.records ≡ rs)) (λ e. e.0 ≢ FileFault.Damaged) }

        // No file is opened where the bytes are none.
        ensures no_file { ((v : Version) (rs : List Record) → IsFileOf v rs (D.state disk).seen → ⊥) → IfOk result (λ _. ⊥) }

        // A crash at any moment leaves what one before it might have left.
        ensures any_moment { MatchResult result
            (λ file. LeavesOnly (D.state disk) (D.state file.disk) (D.state disk).may_leave)
            (λ e. LeavesOnly (D.state disk) (D.state e.1) (D.state disk).may_leave) }
        ensures failed { MatchResult result
            (λ file. (D.state disk).failures ≤ (D.state file.disk).failures)
            (λ e. e.0 ≡ FileFault.Failed → (D.state disk).failures < (D.state e.1).failures) }
        ensures steady { IsSteady (D.state disk) → MatchResult result
            (λ file. IsSteady (D.state file.disk))
            (λ e. (e.0 ≢ FileFault.Failed) × IsSteady (D.state e.1)) }
    {
        match RecordFile::open_with_records(alloc, disk) {
            Ok((file, _)) => Ok(file),
            Err(refused) => Err(refused),
        }
    }

    /// As `open`, with the records of the file. They share its bytes as they were read, and keep all of these in memory for as
    /// long as a block or a text of one lives.
    pub fn open_with_records(
        alloc: Global,
        disk: D,
    ) -> Result<(RecordFile<D>, Vec<Record>), (FileFault, D)>
        ensures records { IfOk result (λ x. x.1.items ≡ x.0.records) }
        ensures ok { IfOk result (λ x. (x.0.stopped ≡ false) × ((D.state x.0.disk).seen ≡ (D.state disk).seen)
            × IsFileOf x.0.version x.0.records (D.state disk).seen) }

        // Damaged only where the bytes are no file of records.
        ensures only { (v : Version) (rs : List Record) → IsFileOf v rs (D.state disk).seen
            → MatchResult result (λ x. (x.0.version ≡ v) × (x.0.records ≡ rs)) (λ e. e.0 ≢ FileFault.Damaged) }

        // No file is opened where the bytes are none.
        ensures no_file { ((v : Version) (rs : List Record) → IsFileOf v rs (D.state disk).seen → ⊥) → IfOk result (λ _. ⊥) }

        // A crash at any moment leaves what one before it might have left.
        ensures any_moment { MatchResult result
            (λ x. LeavesOnly (D.state disk) (D.state x.0.disk) (D.state disk).may_leave)
            (λ e. LeavesOnly (D.state disk) (D.state e.1) (D.state disk).may_leave) }
        ensures failed { MatchResult result
            (λ x. (D.state disk).failures ≤ (D.state x.0.disk).failures)
            (λ e. e.0 ≡ FileFault.Failed → (D.state disk).failures < (D.state e.1).failures) }
        ensures steady { IsSteady (D.state disk) → MatchResult result
            (λ x. IsSteady (D.state x.0.disk))
            (λ e. (e.0 ≢ FileFault.Failed) × IsSteady (D.state e.1)) }
    {
        let mut disk = disk;
        match find(alloc, &mut disk) {
            Ok((version, end, records)) => {
                let file = RecordFile {
                    disk,
                    version,
                    end,
                    stopped: false,
                    text: None,
                };
                Ok((file, records))
            }
            Err(fault) => Err((fault, disk)),
        }
    }

    /// The file again, from its disk, whether it has stopped or not. A refusal hands the disk back. `Failed` (20) comes only
    /// where the disk's count of failures rose, and `Memory` (22) after the sync; `Damaged` (21) does not come.
    pub fn reopened(self, alloc: Global) -> Result<RecordFile<D>, (FileFault, D)>
        ensures same { IfOk result (λ file. (file.stopped ≡ false) × (file.version ≡ self.version) × (file.records ≡ self.records)) }
        ensures undamaged { IfErr result (λ e. e.0 ≢ FileFault.Damaged) }
        // A crash at any moment leaves what one before it might have left.
        ensures any_moment { MatchResult result
            (λ file. LeavesOnly (D.state self.disk) (D.state file.disk) (D.state self.disk).may_leave)
            (λ e. LeavesOnly (D.state self.disk) (D.state e.1) (D.state self.disk).may_leave) }
        ensures failed { MatchResult result
            (λ file. (D.state self.disk).failures ≤ (D.state file.disk).failures)
            (λ e. e.0 ≡ FileFault.Failed → (D.state self.disk).failures < (D.state e.1).failures) }
        ensures steady { IsSteady (D.state self.disk) → MatchResult result
            (λ file. IsSteady (D.state file.disk))
            (λ e. (e.0 ≢ FileFault.Failed) × IsSteady (D.state e.1)) }
    {
        RecordFile::open(alloc, self.into_disk())
    }

    /// All its records, read again, which share the bytes that were read as those of `open_with_records` do. An error is out
    /// of memory (22): `Damaged` (21) does not come.
    pub fn records(&self, alloc: Global) -> Result<Vec<Record>, BlockFault>
        ensures ok { IfOk result (λ rs. rs.items ≡ self.now.records) }
        ensures damaged { IsErrOf result BlockFault.Damaged → ⊥ }
    {
        let bytes = self.disk.read(alloc)?;
        let (_, records, _) = read_file(alloc, bytes)?;
        Ok(records)
    }

    /// How its records are spelled.
    pub fn version(&self) -> Version
        ensures { result ≡ self.now.version }
    {
        self.version
    }

    /// Whether it takes no record until it is opened again.
    pub fn is_stopped(&self) -> bool
        ensures { result ≡ self.now.stopped }
    {
        self.stopped
    }

    /// Stops it: it takes no record until it is opened again.
    pub fn halt(&mut self)
        ensures { self.new ≡ record self.old { stopped = true } }
    {
        self.stopped = true;
    }

    /// The disk, whether the file is stopped or not. Its bytes are a file of the records that the file had.
    pub fn into_disk(self) -> D
        ensures disk { result ≡ self.disk }
        ensures stands { IsFileOf self.version self.records (D.state result).seen }
    {
        let RecordFile {
            disk,
            version: _,
            end: _,
            stopped: _,
            text: _,
        } = self;
        disk
    }
}

impl RecordFile<MemDisk> {
    /// Tells the disk to stop at the `calls`-th `write_at` or `sync` from now on, in place of what it was told before:
    /// an append makes four of them. Bytes, records and all else stay.
    pub fn stop_at(&mut self, calls: u64, keep: bool)
        ensures told { (memory_state self.new.disk).stop ≡ Some (calls, keep) }
        ensures disk { self.new.disk ≡ record self.old.disk { stop = Some (record { calls = calls; keep = keep }) } }
        ensures same { (self.new.stopped ≡ self.old.stopped) × (self.new.version ≡ self.old.version)
            × (self.new.records ≡ self.old.records) }
    {
        self.disk.stop_at(calls, keep);
    }

    /// What its disk was told last and has not come to.
    pub fn told(&self) -> Option<Stop>
        ensures { option_map (λ s. (s.calls, s.keep)) result ≡ (memory_state self.now.disk).stop }
    {
        self.disk.told()
    }

    /// Another disk with the bytes of this one, as a restart finds it: all made sure of, and not told to stop. An error
    /// is out of memory (22).
    pub fn copy_disk(&self, alloc: Global) -> Result<MemDisk, AllocError>
        ensures stands { IfOk result (λ disk. IsFileOf self.now.version self.now.records (memory_state disk).seen) }
        ensures durable { IfOk result (λ disk. Only (memory_state disk).seen (memory_state disk).may_leave) }
        ensures steady { IfOk result (λ disk. IsSteady (memory_state disk)) }
    {
        self.disk.copy(alloc)
    }

    /// Its disk goes on, whatever it was told before. Bytes, records and all else stay.
    pub fn cancel_stop(&mut self)
        ensures steady { IsSteady (memory_state self.new.disk) }
        ensures disk { self.new.disk ≡ record self.old.disk { stop = None } }
        ensures same { (self.new.stopped ≡ self.old.stopped) × (self.new.version ≡ self.old.version)
            × (self.new.records ≡ self.old.records) }
    {
        self.disk.cancel_stop();
    }
}
