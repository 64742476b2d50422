//! A disk in memory, which can be told to stop at a call.
ghost use Rattle.std.specs.Prelude.{◌≡◌, [], Some, None, IfOk, option_map};
ghost use Rattle.disk.specs.Disk.{IsSteady, Only};
ghost use Rattle.disk.specs.Stopping.{IsDue};

use crate::device::{Disk, DiskFault};
use crate::history::History;
use crate::image::Image;
use blocks::Woven;
use std::alloc::{AllocError, Global};

/// A plan: a disk stops at one of its next calls.
#[derive(Clone, Copy, PartialEq, Eq)]
pub struct Stop {
    /// How many `write_at` and `sync` there are up to the one that fails, which counts too. 0 is as 1.
    pub calls: u64,
    /// Whether the failing call's bytes are kept. Where they are not, the disk goes back to its last sync.
    pub keep: bool,
}

/// A disk in memory, for tests and simulations. A write and a sync cost what was written, and its memory is linear
/// in its length. Long pieces that are written at its end by `write_woven` are shared, and not copied. A crash leaves what is there, or
/// what the last sync has made sure of.
pub struct MemDisk {
    image: Image,
    stop: Option<Stop>,
    history: History,
}

// Written out, so that a crate above that lets one go has no proof of what is in it.
impl Drop for MemDisk {
    fn drop(self) {
        let MemDisk {
            image: _,
            stop: _,
            history: _,
        } = self;
    }
}

// Counts a call. At the one that is to fail it says whether that call's bytes are kept.
fn due(stop: &mut Option<Stop>) -> Option<bool>
    ensures { IsDue stop.old stop.new result }
{
    match *stop {
        None => None,
        Some(plan) => {
            if plan.calls <= 1 {
                *stop = None;
                Some(plan.keep)
            } else {
                *stop = Some(Stop {
                    calls: plan.calls - 1,
                    keep: plan.keep,
                });
                None
            }
        }
    }
}

impl MemDisk {
    ghost use Rattle.disk.specs.Memory.{memory_state};

    /// An empty disk, which is not told to stop.
    pub fn new(alloc: Global) -> MemDisk
        ensures seen { (memory_state result).seen ≡ [] }
        ensures durable { Only (memory_state result).seen (memory_state result).may_leave }
        ensures steady { IsSteady (memory_state result) }
    {
        MemDisk {
            image: Image::new(alloc),
            stop: None,
            history: History::new(),
        }
    }

    /// A disk with these bytes, all of them made sure of, that is not told to stop. The bytes are not copied.
    pub fn from_bytes(alloc: Global, bytes: Vec<u8>) -> MemDisk
        ensures seen { (memory_state result).seen ≡ bytes.items }
        ensures durable { Only (memory_state result).seen (memory_state result).may_leave }
        ensures steady { IsSteady (memory_state result) }
    {
        let mut image = Image::of(alloc, bytes);
        image.sync();
        MemDisk {
            image,
            stop: None,
            history: History::new(),
        }
    }

    /// Tells the disk to stop at the `calls`-th `write_at` or `sync` from now on, in place of what it was told before.
    /// That call answers `Failed`; after it the disk goes on, with its bytes kept or as the last sync left it. A `FaultDisk`
    /// that does not keep them loses those of the failing call alone, and what was written before it stays.
    pub fn stop_at(&mut self, calls: u64, keep: bool)
        ensures told { (memory_state self.new).stop ≡ Some (calls, keep) }
        ensures same { self.new ≡ record self.old { stop = Some (record { calls = calls; keep = keep }) } }
    {
        self.stop = Some(Stop { calls, keep });
    }

    /// What it was told last and has not come to.
    pub fn told(&self) -> Option<Stop>
        ensures { option_map (λ s. (s.calls, s.keep)) result ≡ (memory_state self.now).stop }
    {
        self.stop.as_ref().copied()
    }

    /// Another disk with the same bytes, all of them made sure of, that is not told to stop. An error is out of memory
    /// (22).
    pub fn copy(&self, alloc: Global) -> Result<MemDisk, AllocError>
        ensures seen { IfOk result (λ disk. (memory_state disk).seen ≡ (memory_state self.now).seen) }
        ensures durable { IfOk result (λ disk. Only (memory_state disk).seen (memory_state disk).may_leave) }
        ensures steady { IfOk result (λ disk. IsSteady (memory_state disk)) }
    {
        Ok(MemDisk::from_bytes(alloc, self.image.read(alloc)?))
    }

    /// It goes on, whatever it was told before.
    pub fn cancel_stop(&mut self)
        ensures steady { IsSteady (memory_state self.new) }
        ensures same { self.new ≡ record self.old { stop = None } }
    {
        self.stop = None;
    }
}

impl Disk for MemDisk {
    ghost use Rattle.std.proofs.Common.{inl, inr, refl};
    ghost use Rattle.disk.specs.Memory.{memory_state};
    ghost use Rattle.disk.specs.Laws.{memory_counts_now, memory_only_now};

    ghost state = { memory_state };

    ghost counts_now = { memory_counts_now };

    ghost only_now = { memory_only_now };

    ghost seen_is_there = { λ m. inl refl };

    ghost synced_is_there = { λ m n keep told. inr refl };

    fn len(&self) -> usize {
        self.image.len()
    }

    fn read(&self, alloc: Global) -> Result<Vec<u8>, AllocError> {
        self.image.read(alloc)
    }

    fn reserve(&mut self, end: usize) -> Result<(), AllocError> {
        self.image.reserve(end)
    }

    fn write_at(&mut self, at: usize, bytes: &[u8]) -> Result<(), DiskFault> {
        match due(&mut self.stop) {
            None => {
                self.history.note_seen(&[0], &self.image);
                Ok(self.image.overwrite(at, bytes)?)
            }
            Some(true) => {
                self.history.note_seen(&[1], &self.image);
                self.image.overwrite(at, bytes)?;
                Err(DiskFault::Failed)
            }
            Some(false) => {
                self.history.note_seen(&[1], &self.image);
                self.image.forget();
                Err(DiskFault::Failed)
            }
        }
    }

    fn write_woven(&mut self, at: usize, bytes: &mut Woven) -> Result<(), DiskFault> {
        match due(&mut self.stop) {
            None => {
                self.history.note_seen(&[0], &self.image);
                Ok(self.image.put_woven(at, bytes)?)
            }
            Some(true) => {
                self.history.note_seen(&[1], &self.image);
                self.image.put_woven(at, bytes)?;
                Err(DiskFault::Failed)
            }
            Some(false) => {
                self.history.note_seen(&[1], &self.image);
                self.image.forget();
                Err(DiskFault::Failed)
            }
        }
    }

    fn sync(&mut self) -> Result<(), DiskFault> {
        match due(&mut self.stop) {
            None => {
                self.history.note_synced(&self.image);
                self.image.sync();
                Ok(())
            }
            Some(true) => {
                self.history.note_seen(&[1], &self.image);
                Err(DiskFault::Failed)
            }
            Some(false) => {
                self.history.note_seen(&[1], &self.image);
                self.image.forget();
                Err(DiskFault::Failed)
            }
        }
    }
}
