//! A disk over a file of the operating system.
ghost use Rattle.std.specs.Prelude.{◌≡◌, ◌≤◌, ◌<◌, ◌+◌, ◌^◌, [], IsTrue, IfOk, true, false, not, length, max};
ghost use Rattle.disk.specs.Disk.{Only};
ghost use Rattle.disk.specs.RealFile.{file_state, IsNew, IsExact};

use crate::device::{Disk, DiskFault};
use crate::flat::FlatImage;
use crate::history::History;
use std::alloc::{AllocError, Global};
use std::fs::OpenFile;
use std::io::Read;
use std::os::unix::fs::FileExt;
use std::path::Path;
use std::rt::Files;
use std::{fs, io};

// The file grows to multiples of so many bytes.
const STEP: usize = 65_536;

// What it grows by.
static ZEROS: [u8; STEP] = [0; STEP];

/// A disk over a file of the operating system. It keeps the file's bytes in memory too, in an image that is read when it
/// is made: `read` gives the image, and `write_at` and `sync` change the file first and then the image. The clauses
/// speak of the image, as no contract can say what a system's file holds: that the file begins with the same bytes, and
/// that a sync puts them on the device, is tested and not proved. Each call may fail (20). After a write or a sync has
/// failed, what the file holds is unknown, so that each later one fails too; make a new disk of the file to go on.
///
/// A file that grows makes a sync write its new size too. So the file grows ahead: a write that ends past the file's end
/// first puts zeros there, up to the next multiple of 65,536 bytes. After the image's bytes the file has only such
/// zeros, and a disk that is made of the file again has them in its image. A zero is a closed gate, so that a record file
/// ends before them. Under a disk from `create` the file grows by what is written alone, and has no such zeros.
#[derive(Drop)]
pub struct FileDisk<F = fs::File> {
    image: FlatImage,
    file: F,
    // so many bytes the file has, unless it is broken
    size: usize,
    // whether it grows ahead of what is written
    ahead: bool,
    // a write or a sync of the file has failed
    broken: bool,
    history: History,
}

// Syncs the folder of a file, so that a crash leaves a file that was made.
fn sync_folder<R: Files<File = fs::File>>(rt: &R, path: &str) -> io::Result<()> {
    let folder = match Path::new(path).parent() {
        Some(folder) if !folder.as_str().is_empty() => folder,
        _ => Path::new("."),
    };
    fs::open(rt, folder)?.sync_all()
}

// Opens a file for reading and writing, which is made where there is none.
fn open_file<R: Files<File = fs::File>>(rt: &R, path: &str) -> io::Result<fs::File> {
    let mut options = fs::OpenOptions::new();
    options.read(true);
    options.write(true);
    options.create(true);
    let file = options.open(rt, path)?;
    sync_folder(rt, path)?;
    Ok(file)
}

// Makes a file, for reading and writing, where there is none. It is removed again where its folder cannot be synced.
fn new_file<R: Files<File = fs::File>>(rt: &R, path: &str) -> io::Result<fs::File> {
    let mut options = fs::OpenOptions::new();
    options.read(true);
    options.write(true);
    options.create_new(true);
    let file = options.open(rt, path)?;
    match sync_folder(rt, path) {
        Ok(()) => Ok(file),
        Err(error) => {
            let _ = fs::remove_file(rt, path);
            Err(error)
        }
    }
}

// Puts zeros into a file from one place up to another.
fn fill<F: FileExt>(file: &F, from: usize, to: usize) -> io::Result<()> {
    for at in (from..to).step_by(STEP) {
        let size = to.saturating_sub(at).min(STEP);
        file.write_all_at(&ZEROS[..size], at as u64)?;
    }
    Ok(())
}

impl FileDisk {
    /// Opens the file at a path, and makes an empty one where there is none. It makes sure of the file's name too.
    /// `Failed` (20) where the file could not be opened or read, and `Memory` (22) where there was none for its bytes.
    pub fn open<R: Files<File = fs::File> + AllocGlobal>(
        rt: &R,
        path: &str,
    ) -> Result<FileDisk, DiskFault>
        ensures { IfOk result (λ disk. IsNew disk) }
    {
        match open_file(rt, path) {
            Ok(file) => FileDisk::new(rt.alloc(), file),
            Err(_) => Err(DiskFault::Failed),
        }
    }

    /// Makes an empty file at a path and a disk over it, whose file ends where the bytes that were written end. It makes sure of
    /// the file's name too. An error is the system's, and leaves no new file: there is one already, or it could not be made.
    pub fn create<R: Files<File = fs::File> + AllocGlobal>(
        rt: &R,
        path: &str,
    ) -> io::Result<FileDisk>
        ensures new { IfOk result (λ disk. IsNew disk) }
        ensures empty { IfOk result (λ disk. (file_state disk).seen ≡ []) }
        ensures durable { IfOk result (λ disk. Only (file_state disk).seen (file_state disk).may_leave) }
        ensures exact { IfOk result (λ disk. IsExact disk) }
    {
        let file = new_file(rt, path)?;
        Ok(FileDisk {
            image: FlatImage::new(rt.alloc()),
            file,
            size: 0,
            ahead: false,
            broken: false,
            history: History::new(),
        })
    }
}

impl<F: FileExt + OpenFile> FileDisk<F> {
    /// Reads a file that is open for reading and writing. `Failed` (20) where a read failed, and `Memory` (22) where
    /// there was none for the bytes; the file is closed then.
    pub fn new(alloc: Global, file: F) -> Result<FileDisk<F>, DiskFault>
    where
        F: Read + Drop,
        ensures { IfOk result (λ disk. IsNew disk) }
    {
        let mut file = file;
        let mut bytes = Vec::new(alloc);
        match file.read_to_end(&mut bytes) {
            Ok(_) => {}
            Err(error) => {
                return Err(match error.kind() {
                    io::ErrorKind::OutOfMemory => DiskFault::Memory,
                    _ => DiskFault::Failed,
                });
            }
        }
        let size = bytes.len();
        Ok(FileDisk {
            image: FlatImage::of(alloc, bytes),
            file,
            size,
            ahead: true,
            broken: false,
            history: History::new(),
        })
    }

    /// The file, as the last write left it.
    pub fn into_file(self) -> F
        ensures { result ≡ self.file }
    {
        self.file
    }

    // Grows the file so that it reaches `end`, or will with a write that ends there, and says whether it does.
    fn grow(&mut self, end: usize) -> bool
        ensures same { (self.new.image ≡ self.old.image) × (self.new.history ≡ self.old.history) }
        ensures broken { self.new.broken ≡ self.old.broken }
        ensures reaches { IsTrue result → end ≤ self.new.size }
        ensures no_shorter { self.old.size ≤ self.new.size }
        ensures ahead { self.new.ahead ≡ self.old.ahead }
        ensures exact { IsTrue result → self.old.ahead ≡ false → self.new.size ≡ max self.old.size end }
    {
        if end <= self.size {
            return true;
        }
        if !self.ahead {
            self.size = end;
            return true;
        }
        match end.checked_next_multiple_of(STEP) {
            Some(size) => {
                if fill(&self.file, self.size, size).is_err() {
                    return false;
                }
                self.size = size;
                true
            }
            None => false,
        }
    }

    // Writes to the file, which grows first. It answers whether the file took all bytes, and none before failed.
    fn put(&mut self, at: usize, bytes: &[u8]) -> bool
        requires { at + length bytes.now < 2 ^ 64 }
        ensures same { (self.new.image ≡ self.old.image) × (self.new.history ≡ self.old.history) }
        ensures answer { result ≡ not self.new.broken }
        ensures stays { self.old.broken ≡ true → result ≡ false }
        ensures reaches { IsTrue result → at + length bytes.now ≤ self.new.size }
        ensures no_shorter { self.old.size ≤ self.new.size }
        ensures ahead { self.new.ahead ≡ self.old.ahead }
        ensures exact { IsTrue result → self.old.ahead ≡ false → self.new.size ≡ max self.old.size (at + length bytes.now) }
    {
        if self.broken {
            return false;
        }
        if !self.grow(at + bytes.len()) || self.file.write_all_at(bytes, at as u64).is_err() {
            self.broken = true;
            return false;
        }
        true
    }

    // Syncs the file, with the same answer.
    fn flush(&mut self) -> bool
        ensures same { (self.new.image ≡ self.old.image) × (self.new.history ≡ self.old.history) }
        ensures answer { result ≡ not self.new.broken }
        ensures stays { self.old.broken ≡ true → result ≡ false }
        ensures size { self.new.size ≡ self.old.size }
        ensures ahead { self.new.ahead ≡ self.old.ahead }
    {
        if self.broken {
            return false;
        }
        if self.file.sync_data().is_err() {
            self.broken = true;
            return false;
        }
        true
    }
}

impl<F: FileExt + OpenFile> Disk for FileDisk<F> {
    ghost use Rattle.std.specs.Prelude.{None, false};
    ghost use Rattle.std.proofs.Common.{inl, inr, refl};
    ghost use Rattle.disk.specs.Disk.{Writes, Syncs};
    ghost use Rattle.disk.specs.RealFile.{file_state, IsWhole, IsExact, StaysBroken};
    ghost use Rattle.disk.specs.Laws.{file_counts_now, file_only_now};

    ghost state = { file_state };

    ghost counts_now = { file_counts_now };

    ghost only_now = { file_only_now };

    ghost seen_is_there = { λ d. inl refl };

    ghost synced_is_there = { λ d n keep told. inr refl };

    fn len(&self) -> usize {
        self.image.len()
    }

    fn read(&self, alloc: Global) -> Result<Vec<u8>, AllocError> {
        self.image.read(alloc)
    }

    fn reserve(&mut self, end: usize) -> Result<(), AllocError> {
        self.image.reserve(end)
    }

    fn write_at(&mut self, at: usize, bytes: &[u8]) -> Result<(), DiskFault>
        requires { at ≤ length (file_state self.old).seen }
        ensures writes { Writes (file_state self.old) (file_state self.new) at bytes.now result }
        ensures broken { StaysBroken self.old self.new result }
        ensures whole { IsWhole self.old → IsWhole self.new }
        ensures exact { IsExact self.old → IsExact self.new }
    {
        // Read for its bound: so few bytes are there that the end of these fits.
        let _size = self.image.len();
        self.image.reserve(at + bytes.len())?;
        if !self.put(at, bytes) {
            self.history.note(&[1], self.image.bytes());
            return Err(DiskFault::Failed);
        }
        self.history.note(&[0], self.image.bytes());
        Ok(self.image.overwrite(at, bytes)?)
    }

    fn sync(&mut self) -> Result<(), DiskFault>
        ensures syncs { Syncs (file_state self.old) (file_state self.new) result }
        ensures broken { StaysBroken self.old self.new result }
        ensures whole { IsWhole self.old → IsWhole self.new }
        ensures exact { IsExact self.old → IsExact self.new }
    {
        if !self.flush() {
            self.history.note(&[1], self.image.bytes());
            return Err(DiskFault::Failed);
        }
        let (front, middle, back) = self.image.synced();
        self.history.note_parts(front, middle, back);
        self.image.sync();
        Ok(())
    }
}
