//! The manager.
ghost use Rattle.std.specs.Prelude.{◌≡◌, ◌≢◌, ◌<◌, ◌≤◌, ◌⊎◌, List, [], ◌∷◌, Ok, Err, Some, None, false, true, IfOk, IfErr, IsErrOf, MatchResult};
ghost use Rattle.block_types.specs.Limits.{IsTarget};
ghost use Rattle.block_types.specs.declared.record.Record.{Record};
ghost use Rattle.block_types.specs.declared.record.Version.{Version};
ghost use Rattle.disk.specs.Disk.{IsSteady, IsUntouched, LeavesOnly, Only};
ghost use Rattle.disk.specs.File.{IsFileOf, HoldsAtMost};
ghost use Rattle.disk.specs.Memory.{memory_state};
ghost use Rattle.wire.specs.declared.refusal.Refusal.{Refusal};
ghost use Rattle.model_streams.specs.Bounds.{AreFew};
ghost use Rattle.model_streams.specs.Maps.{entry_at};
ghost use Rattle.model_streams.specs.Manager.{Catalog, first_catalog, manager_rule, decide_rule, decide_refusal};
ghost use Rattle.model_streams.specs.Replay.{catalog_fits};
ghost use Rattle.manager_state.specs.Table.{plain, first_table};
ghost use Rattle.manager.specs.Manager.{ShowsCatalog, ManagerIsReplay, AreOfManager, HoldsTable, first_record, forgotten_state, state_of, table_of};
ghost use Rattle.manager.specs.Performs.{ManagerPerforms, as_rule, fault_of, sealing_at};

use crate::fault::ManagerFault;
use crate::performing::{decide_on, handle_on};
use crate::sealing::{answer, refusal, sealing_of};
use block_types::Record;
use disk::{Disk, DiskFault, FileFault, MemDisk, RecordFile};
use manager_state::{ManagerTable, encode};
use model_streams::ManagerRecord;
use std::alloc::Global;
use std::marker::Model;
use wire::{ExtentId, Packet, Step};

/// The stream manager: which nodes there are, the streams of all ranges, the extents in the order of their numbers from 1
/// on, and the file of records that they come from (after Calder et al., SOSP 2011, section 4).
pub struct Manager<D: Disk> {
    table: ManagerTable,
    file: RecordFile<D>,
}

// Written out, so that a crate above that lets one go has no proof of what is in it.
impl<D: Disk + Drop> Drop for Manager<D> {
    fn drop(self) {
        let Manager { table: _, file: _ } = self;
    }
}

/// Its table is what its records make of it, but for what a stop drops. Once it has stopped, the last record may be one that
/// its table is without: the one at whose write the disk failed.
impl<D: Disk> Model for Manager<D> {
    ghost use Rattle.manager_state.specs.Table.{plain};
    ghost use Rattle.manager.specs.Manager.{ManagerState, HoldsTable, state_of};

    ghost Value = { ManagerState D };

    ghost view = { λ m. state_of m.table m.file };

    ghost invariant = { λ m. HoldsTable (plain m.table) m.file.stopped m.file.records };
}

/// The manager that the records of a file make.
fn recovered<D: Disk>(
    alloc: Global,
    opened: RecordFile<D>,
    records: Vec<Record>,
) -> Result<Manager<D>, (FileFault, D)>
    requires { records.items ≡ opened.records }
    ensures replays { IfOk result (λ m. ManagerIsReplay m opened.records) }
    ensures fresh { IfOk result (λ m. m ≡ forgotten_state m) }
    ensures damaged { opened.records ≢ [] → catalog_fits opened.records ≡ true → IfErr result (λ e. e.0 ≢ FileFault.Damaged) }
    ensures failed { IfErr result (λ e. e.0 ≢ FileFault.Failed) }
    ensures file { IfOk result (λ m. m.file ≡ opened) }
    ensures disk { IfErr result (λ e. e.1 ≡ opened.disk) }
{
    match ManagerTable::replayed(alloc, records) {
        Ok(table) => Ok(Manager {
            table,
            file: opened,
        }),
        Err(fault) => Err((fault.into(), opened.into_disk())),
    }
}

impl<D: Disk> Manager<D> {
    /// A manager on an empty disk, with no extent, and with the four streams of range 1. It knows the nodes from 1 to
    /// `nodes`, 3 to 12 of them, and makes extents with this target, from 4,096 to 16,777,216 bytes. Both are in its first
    /// record. A refusal hands the disk back: 20 (a device call failed; it comes only where the disk's count of failures rose),
    /// 22 (no memory).
    pub fn create(
        alloc: Global,
        nodes: u8,
        target: u32,
        disk: D,
    ) -> Result<Manager<D>, (DiskFault, D)>
        requires nodes { (3 ≤ nodes) × (nodes ≤ 12) }
        requires target { IsTarget target }
        requires empty { (D.state disk).seen ≡ [] }
        requires durable { Only (D.state disk).seen (D.state disk).may_leave }
        ensures running { IfOk result (λ m. m.file.stopped ≡ false) }
        ensures shows { IfOk result (λ m. ShowsCatalog m (first_catalog nodes target)) }
        ensures records { IfOk result (λ m. m.file.records ≡ first_record nodes target ∷ []) }
        ensures version { IfOk result (λ m. m.file.version ≡ Version.V2) }
        ensures replays { IfOk result (λ m. ManagerIsReplay m m.file.records) }
        ensures failed { IfErr result (λ e. e.0 ≡ DiskFault.Failed → (D.state disk).failures < (D.state e.1).failures) }
        ensures steady { IsSteady (D.state disk) → MatchResult result
            (λ m. IsSteady (D.state m.file.disk))
            (λ e. (e.0 ≢ DiskFault.Failed) × IsSteady (D.state e.1)) }

        // Memory (22) leaves the disk as it was: all growth comes before the first write.
        ensures memory { IfErr result (λ e. e.0 ≡ DiskFault.Memory → IsUntouched (D.state disk) (D.state e.1)) }

        // A crash at any moment leaves a file with no record, or with the first alone, also where it is refused.
        ensures any_moment { MatchResult result
            (λ m. LeavesOnly (D.state disk) (D.state m.file.disk) (HoldsAtMost Version.V2 (first_record nodes target)))
            (λ e. LeavesOnly (D.state disk) (D.state e.1) (HoldsAtMost Version.V2 (first_record nodes target))) }
    {
        let Ok(table) = ManagerTable::new(alloc, nodes, target) else {
            return Err((DiskFault::Memory, disk));
        };
        let Ok(text) = encode(alloc, &ManagerRecord::First { nodes, target }) else {
            return Err((DiskFault::Memory, disk));
        };
        match RecordFile::with_records(alloc, disk, &[Record::Manage { text }]) {
            Ok(file) => Ok(Manager { table, file }),
            Err(refused) => Err(refused),
        }
    }

    /// The manager that the records on a disk make, with nothing of what a stop drops. The file is synced, and then read.
    /// A refusal hands the disk back: 20 (a device call failed), 21 (the bytes are no file of records, there is no first
    /// record, or a record does not fit what those before it make), 22 (no memory).
    pub fn restart(alloc: Global, disk: D) -> Result<Manager<D>, (FileFault, D)>
        ensures running { IfOk result (λ m. m.file.stopped ≡ false) }
        ensures file { IfOk result (λ m. IsFileOf m.file.version m.file.records (D.state disk).seen) }
        ensures replays { IfOk result (λ m. ManagerIsReplay m m.file.records) }
        ensures fresh { IfOk result (λ m. m ≡ forgotten_state m) }

        // 21 only where the bytes are no file of records that fit, the first of them among them.
        ensures damaged { (v : Version) (rs : List Record) → IsFileOf v rs (D.state disk).seen → rs ≢ [] → catalog_fits rs ≡ true
            → IfErr result (λ e. e.0 ≢ FileFault.Damaged) }

        // No manager comes of records without a first one or that do not fit, or of bytes that are no file of records.
        ensures unfit { (v : Version) (rs : List Record) → IsFileOf v rs (D.state disk).seen → (AreOfManager rs → ⊥)
            → IfOk result (λ m. ⊥) }
        ensures no_file { ((v : Version) (rs : List Record) → IsFileOf v rs (D.state disk).seen → ⊥) → IfOk result (λ m. ⊥) }
        ensures failed { IfErr result (λ e. e.0 ≡ FileFault.Failed → (D.state disk).failures < (D.state e.1).failures) }

        // No other records make the manager than those that the bytes are a file of.
        ensures only { (v : Version) (rs : List Record) → IsFileOf v rs (D.state disk).seen
            → IfOk result (λ m. (m.file.version ≡ v) × (m.file.records ≡ rs)) }

        // A disk that cannot fail does not, and stays one that cannot.
        ensures steady { IsSteady (D.state disk) → MatchResult result
            (λ m. IsSteady (D.state m.file.disk))
            (λ e. (e.0 ≢ FileFault.Failed) × IsSteady (D.state e.1)) }

        // A crash at any moment leaves what one before it might have left, also where it is refused.
        ensures any_moment { MatchResult result
            (λ m. LeavesOnly (D.state disk) (D.state m.file.disk) (D.state disk).may_leave)
            (λ e. LeavesOnly (D.state disk) (D.state e.1) (D.state disk).may_leave) }
    {
        match RecordFile::open_with_records(alloc, disk) {
            Ok((file, records)) => recovered(alloc, file, records),
            Err(refused) => Err(refused),
        }
    }

    /// What the manager does with a packet: the rule of its table, exactly. The record, if there is one, is on the disk
    /// before the packets are handed out. A stopped manager does nothing. 20: the disk failed, and the manager is stopped
    /// until it is restarted; its records are the old ones, with the new one or without. 22: nothing has changed.
    pub fn handle(&mut self, alloc: Global, packet: &Packet) -> Result<Step, DiskFault>
        ensures performed { self.old.file.stopped ≡ false → (b : Catalog) → ShowsCatalog self.old b
            → ManagerPerforms D.state self.old self.new (manager_rule b packet.now packet.now.body) result }
        ensures stopped { self.old.file.stopped ≡ true → (self.new ≡ self.old) × (result ≡ Ok (record { packets = []; notes = [] })) }

        ensures failed { IsErrOf result DiskFault.Failed → (D.state self.old.file.disk).failures < (D.state self.new.file.disk).failures }

        // A step sends no more than a caller can make room for beforehand.
        ensures few { IfOk result (λ step. AreFew step.packets step.notes) }

        // While the manager runs, its state is what its records make of it.
        ensures replays { self.old.file.stopped ≡ false → ManagerIsReplay self.old self.old.file.records }
    {
        if self.file.is_stopped() {
            return Ok(Step::silent(alloc));
        }
        handle_on(&mut self.table, &mut self.file, alloc, packet)
    }

    /// Has an extent sealed at the least length that a place has told, or has its places told again where it is sealed: the
    /// rule of the table, exactly. The manager has to run (`is_stopped`). 1: there is no such extent. 10: it is not sealed, and no
    /// place has told a length. 20: the disk failed, and the manager is stopped until it is restarted; its records are the
    /// old ones, with the new one or without. 22: no memory. After 1, 10 and 22 nothing has changed.
    pub fn decide(&mut self, alloc: Global, extent: ExtentId) -> Result<Step, ManagerFault>
        requires running { self.old.file.stopped ≡ false }
        ensures refused { (r : Refusal) → decide_refusal (entry_at self.old.extents extent) ≡ Some r
            → (self.new ≡ self.old) × (result ≡ Err (fault_of r)) }
        ensures performed { decide_refusal (entry_at self.old.extents extent) ≡ None
            → (b : Catalog) → ShowsCatalog self.old b → ManagerPerforms D.state self.old self.new (decide_rule b extent (b.extent extent)) (as_rule result) }
        ensures taken { decide_refusal (entry_at self.old.extents extent) ≡ None
            → IfErr result (λ e. (e ≢ ManagerFault.NoSuchExtent) × (e ≢ ManagerFault.NoReply)) }
        ensures failed { IsErrOf result ManagerFault.DiskFailed → (D.state self.old.file.disk).failures < (D.state self.new.file.disk).failures }
        ensures few { IfOk result (λ step. AreFew step.packets step.notes) }
        ensures replays { ManagerIsReplay self.old self.old.file.records }
    {
        match refusal(&self.table, extent.0) {
            Some(fault) => Err(fault),
            None => {
                let done = decide_on(&mut self.table, &mut self.file, alloc, extent.0);
                answer(done)
            }
        }
    }

    /// The length at which `decide` would seal an extent now, in bytes; none where there is no such extent, where it is
    /// sealed, or where no place has told a length.
    pub fn sealing(&self, extent: ExtentId) -> Option<u32>
        ensures { result ≡ sealing_at (entry_at self.now.extents extent) }
    {
        match self.table.entry(extent.0) {
            None => None,
            Some(entry) => sealing_of(&entry),
        }
    }

    /// What its records make of it, to look at: how many nodes there are, the target of each extent that it makes, the
    /// streams and the extents.
    pub fn table(&self) -> &ManagerTable
        ensures { state_of result.now self.now.file ≡ self.now }
    {
        &self.table
    }

    /// Whether it has stopped. Then it does nothing until it is restarted from its disk.
    pub fn is_stopped(&self) -> bool
        ensures { result ≡ self.now.file.stopped }
    {
        self.file.is_stopped()
    }

    /// The file of its records, to look at: it tells what its disk was told, and copies the disk. Its table is what its
    /// records make of it, but for what a stop drops; once it has stopped, all its records or all but the last.
    pub fn file(&self) -> &RecordFile<D>
        ensures value { result.now ≡ self.now.file }
        ensures holds { HoldsTable (table_of self.now) self.now.file.stopped self.now.file.records }
    {
        &self.file
    }

    /// Its disk, whether it has stopped or not. Its bytes are a file of the records that the manager had, and these fit: a
    /// restart finds no damage (21).
    pub fn into_disk(self) -> D
        ensures disk { result ≡ self.file.disk }
        ensures stands { IsFileOf self.file.version self.file.records (D.state result).seen }
        ensures fits { AreOfManager self.file.records }
    {
        let Manager { table: _, file } = self;
        file.into_disk()
    }
}

impl Manager<MemDisk> {
    /// Tells its disk to stop at the `calls`-th `write_at` or `sync` from now on, in place of what it was told before: a
    /// record makes four of them. All else stays.
    pub fn stop_at(&mut self, calls: u64, keep: bool)
        ensures told { (memory_state self.new.file.disk).stop ≡ Some (calls, keep) }
        ensures disk { self.new.file.disk ≡ record self.old.file.disk { stop = Some (record { calls = calls; keep = keep }) } }
        ensures file { (self.new.file.stopped ≡ self.old.file.stopped) × (self.new.file.version ≡ self.old.file.version)
            × (self.new.file.records ≡ self.old.file.records) }
        ensures same { self.new ≡ record self.old { file = self.new.file } }
    {
        self.file.stop_at(calls, keep);
    }

    /// Stops it: it does nothing until it is restarted from its disk, which goes on. All else stays.
    pub fn stop_now(&mut self)
        ensures stopped { self.new.file.stopped ≡ true }
        ensures steady { IsSteady (memory_state self.new.file.disk) }
        ensures disk { self.new.file.disk ≡ record self.old.file.disk { stop = None } }
        ensures file { (self.new.file.version ≡ self.old.file.version) × (self.new.file.records ≡ self.old.file.records) }
        ensures same { self.new ≡ record self.old { file = self.new.file } }
        ensures replays { self.old.file.stopped ≡ false → ManagerIsReplay self.old self.old.file.records }
    {
        self.file.cancel_stop();
        self.file.halt();
    }
}
