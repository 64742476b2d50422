//! Extents that leave the front of a range's log.
ghost use Rattle.std.specs.Prelude.{◌≡◌, ◌≢◌, Ok, Err, true, IfOk, IfErr, IsErrOf, OnOk};
ghost use Rattle.streams.specs.Faults.{refusal_of, with_refusal};
ghost use Rattle.streams.specs.Streams.{trimming, trimmed};
ghost use Rattle.streams.specs.Table.{streams_of, HasRoomToTrim, IsGarbage};

use crate::entries::{cut, reserve_trim};
use crate::fault::StreamFault;
use crate::garbage::garbage;
use crate::table::StreamTable;
use std::alloc::AllocError;
use wire::{ExtentId, Fence, RangeId, StreamKind, StreamName};

impl StreamTable {
    /// Whether a generation may trim the log of a range below an index, so that extents leave it; takes no memory. False: the
    /// log begins there or later. 11: there is no log or no blob stream of the range. 3: the generation is not the log's
    /// fence. 13: the last extent would leave.
    pub fn trimming(
        &self,
        range: RangeId,
        generation: Fence,
        before: u64,
    ) -> Result<bool, StreamFault>
        ensures { with_refusal result ≡ trimming (streams_of self.now) range generation before }
    {
        let kind = StreamKind::Log;
        match self.stream(&StreamName { range, kind }) {
            None => Err(StreamFault::NoSuchStream),
            Some(log) => {
                let kind = StreamKind::BlobData;
                match self.stream(&StreamName { range, kind }) {
                    None => Err(StreamFault::NoSuchStream),
                    Some(_) => log.trimming(generation, before),
                }
            }
        }
    }

    /// Makes room for the extents of a range's log below an index at the end of its blob stream, where they are to be kept
    /// there and there are both. Without memory nothing has changed but room.
    pub fn reserve_trim(
        &mut self,
        range: RangeId,
        before: u64,
        to_blob: bool,
    ) -> Result<(), AllocError>
        ensures same { streams_of self.new ≡ streams_of self.old }
        ensures room { OnOk result (HasRoomToTrim self.new range before to_blob) }
    {
        if !to_blob {
            return Ok(());
        }
        reserve_trim(&mut self.entries, range, before)
    }

    /// Lets the extents of a range's log below an index leave it, where there are the log and the blob stream. If they are to
    /// be kept they then stand at the end of the blob stream, in room that was made.
    pub fn cut(&mut self, range: RangeId, before: u64, to_blob: bool)
        requires { HasRoomToTrim self.old range before to_blob }
        ensures { streams_of self.new ≡ trimmed (streams_of self.old) range before to_blob }
    {
        cut(&mut self.entries, range, before, to_blob);
    }

    /// Lets the extents of a range's log below an index leave it, for a generation. If they are to be kept they then stand at
    /// the end of the blob stream. False: the log begins there or later, and nothing has changed. 11: there is no log or no
    /// blob stream of the range. 3: the generation is not the log's fence. 13: the last extent would leave. 22: no memory.
    /// After all four nothing has changed.
    pub fn trim(
        &mut self,
        range: RangeId,
        generation: Fence,
        before: u64,
        to_blob: bool,
    ) -> Result<bool, StreamFault>
        ensures answer { IfOk result (λ leaves. trimming (streams_of self.old) range generation before ≡ Ok leaves) }
        ensures cut { result ≡ Ok true → streams_of self.new ≡ trimmed (streams_of self.old) range before to_blob }
        ensures same { result ≢ Ok true → streams_of self.new ≡ streams_of self.old }
        ensures refused { IfErr result (λ e. e ≢ StreamFault.Memory
            → trimming (streams_of self.old) range generation before ≡ Err (refusal_of e)) }
        ensures memory { IsErrOf result StreamFault.Memory
            → trimming (streams_of self.old) range generation before ≡ Ok true }
    {
        match self.trimming(range, generation, before) {
            Err(fault) => Err(fault),
            Ok(false) => Ok(false),
            Ok(true) => {
                if let Err(_full) = self.reserve_trim(range, before, to_blob) {
                    return Err(StreamFault::Memory);
                }
                self.cut(range, before, to_blob);
                Ok(true)
            }
        }
    }

    /// All extents that once stood in a stream and stand in none now, in ascending order. Err: no memory.
    pub fn garbage(&self) -> Result<Vec<ExtentId>, AllocError>
        ensures { IfOk result (λ extents. IsGarbage self.now.entries extents.items) }
    {
        garbage(self.alloc, &self.entries)
    }
}
