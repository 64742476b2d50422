//! What the table tells of the streams of a range.
ghost use Rattle.std.specs.Prelude.{◌≡◌, ◌++◌, [], OnOk, IfOk};
ghost use Rattle.streams.specs.Streams.{kind_number};
ghost use Rattle.model_streams.specs.Maps.{entry_at};
ghost use Rattle.model_streams.specs.Manager.{told_before, told_extents, told_stream};
ghost use Rattle.manager_state.specs.Table.{plain, told_lists};

use crate::table::ManagerTable;
use std::alloc::{AllocError, Global};
use wire::{
    ExtentId, RangeId, StreamExtent, StreamExtents, StreamKind, StreamList, StreamLists, StreamName,
};

impl ManagerTable {
    /// Tells an extent, its places and its length, where there is one.
    fn tell_extent(&self, out: &mut Vec<StreamExtent>, extent: ExtentId) -> Result<(), AllocError>
        ensures { OnOk result (out.new.items ≡ out.old.items ++ told_before extent (entry_at self.now.extents extent) []) }
    {
        match self.entry(extent.0) {
            None => Ok(()),
            Some(entry) => {
                let told = StreamExtent {
                    extent,
                    places: entry.places,
                    length: entry.sealed,
                };
                out.push(told)?;
                Ok(())
            }
        }
    }

    /// Tells extents, in order.
    fn tell_extents(&self, alloc: Global, extents: &[ExtentId]) -> Result<StreamExtents, AllocError>
        ensures { IfOk result (λ told. told ≡ told_extents (entry_at self.now.extents) extents.now) }
    {
        let mut out = Vec::new(alloc);
        for extent in extents {
            self.tell_extent(&mut out, *extent)?;
        }
        Ok(StreamExtents { items: out })
    }

    /// Tells a stream; without one, nothing.
    fn tell_stream(
        &self,
        alloc: Global,
        range: RangeId,
        kind: StreamKind,
    ) -> Result<StreamList, AllocError>
        ensures { IfOk result (λ told. told ≡ told_stream (entry_at self.now.extents) ((plain self.now).streams range (kind_number kind))) }
    {
        match self.streams().stream(&StreamName { range, kind }) {
            None => Ok(StreamList {
                base: 0,
                extents: StreamExtents {
                    items: Vec::new(alloc),
                },
            }),
            Some(listed) => {
                let extents = self.tell_extents(alloc, listed.extents())?;
                Ok(StreamList {
                    base: listed.base(),
                    extents,
                })
            }
        }
    }

    /// The four streams of a range with their extents; a stream that there is not has none. An error is out of memory.
    pub fn tell_streams(&self, alloc: Global, range: RangeId) -> Result<StreamLists, AllocError>
        ensures { IfOk result (λ told. told ≡ told_lists (plain self.now) range) }
    {
        let metadata = self.tell_stream(alloc, range, StreamKind::Metadata)?;
        let log = self.tell_stream(alloc, range, StreamKind::Log)?;
        let row_data = self.tell_stream(alloc, range, StreamKind::RowData)?;
        let blob_data = self.tell_stream(alloc, range, StreamKind::BlobData)?;
        Ok(StreamLists {
            metadata,
            log,
            row_data,
            blob_data,
        })
    }
}
