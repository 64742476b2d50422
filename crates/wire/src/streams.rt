//! Streams by name, and what the stream manager tells of them.
ghost use Rattle.std.specs.Prelude.{◌≡◌, IfOk};

use crate::extent_id::ExtentId;
use crate::fence::Fence;
use crate::range_id::RangeId;
use block_types::Nodes;
use std::alloc::{AllocError, Global};
use std::marker::Model;

/// What a stream of a range is for (after Calder et al., SOSP 2011, section 5.2).
#[derive(Clone, Copy, PartialEq, Eq)]
pub enum StreamKind {
    Metadata,
    Log,
    RowData,
    BlobData,
}

/// The name of a stream: the range that it belongs to, and what it is for.
#[derive(Clone, Copy, PartialEq, Eq)]
pub struct StreamName {
    pub range: RangeId,
    pub kind: StreamKind,
}

/// An extent of a stream, its three places (the primary first), and its length in bytes once it is sealed.
#[derive(Clone, Copy, PartialEq, Eq)]
pub struct StreamExtent {
    pub extent: ExtentId,
    pub places: Nodes,
    pub length: Option<u32>,
}

/// The extents of a stream, in order.
pub struct StreamExtents {
    pub items: Vec<StreamExtent>,
}

// Written out, so that a crate above that lets one go has no proof of what is in it.
impl Drop for StreamExtents {
    fn drop(self) {
        let StreamExtents { items: _ } = self;
    }
}

impl Model for StreamExtents {
    ghost use Rattle.std.specs.Prelude.{List};
    ghost use Rattle.wire.specs.declared.streams.StreamExtent.{StreamExtent};

    ghost Value = { List StreamExtent };

    ghost view = { λ list. list.items.items };
}

/// A stream: the index of its first extent, and its extents.
pub struct StreamList {
    pub base: u64,
    pub extents: StreamExtents,
}

// Written out, so that a crate above that lets one go has no proof of what is in it.
impl Drop for StreamList {
    fn drop(self) {
        let StreamList {
            base: _,
            extents: _,
        } = self;
    }
}

/// The four streams of a range.
pub struct StreamLists {
    pub metadata: StreamList,
    pub log: StreamList,
    pub row_data: StreamList,
    pub blob_data: StreamList,
}

// Written out, so that a crate above that lets one go has no proof of what is in it.
impl Drop for StreamLists {
    fn drop(self) {
        let StreamLists {
            metadata: _,
            log: _,
            row_data: _,
            blob_data: _,
        } = self;
    }
}

/// The four streams of a range as an answer tells them: behind one pointer, so that the answer is no wider than other
/// packets. Its value is the lists.
pub struct OpenedStreams {
    lists: Box<StreamLists>,
}

// Written out, so that a crate above that lets one go has no proof of what is in it.
impl Drop for OpenedStreams {
    fn drop(self) {
        let OpenedStreams { lists: _ } = self;
    }
}

impl Model for OpenedStreams {
    ghost use Rattle.wire.specs.declared.streams.StreamLists.{StreamLists};

    ghost Value = { StreamLists };

    ghost view = { λ opened. opened.lists.value };
}

impl OpenedStreams {
    /// The streams of these lists. An error is out of memory (22), and the lists are let go then.
    pub fn of(alloc: Global, lists: StreamLists) -> Result<OpenedStreams, AllocError>
        ensures { IfOk result (λ opened. opened ≡ lists) }
    {
        match Box::new(alloc, lists) {
            Ok(lists) => Ok(OpenedStreams { lists }),
            Err(_full) => Err(AllocError),
        }
    }

    /// The lists.
    pub fn lists(&self) -> &StreamLists
        ensures { result.now ≡ self.now }
    {
        &self.lists
    }
}

/// A stream that another is built from, and the generation that its fence is to have.
#[derive(Clone, Copy)]
pub struct Source {
    pub stream: StreamName,
    pub generation: Fence,
}

/// Streams whose lists are joined, in order.
pub struct Sources {
    pub items: Vec<Source>,
}

// Written out, so that a crate above that lets one go has no proof of what is in it.
impl Drop for Sources {
    fn drop(self) {
        let Sources { items: _ } = self;
    }
}

impl Model for Sources {
    ghost use Rattle.std.specs.Prelude.{List};
    ghost use Rattle.wire.specs.declared.streams.Source.{Source};

    ghost Value = { List Source };

    ghost view = { λ list. list.items.items };
}

/// A stream to be built from the lists of others.
pub struct Modify {
    pub stream: StreamName,
    pub sources: Sources,
}

// Written out, so that a crate above that lets one go has no proof of what is in it.
impl Drop for Modify {
    fn drop(self) {
        let Modify {
            stream: _,
            sources: _,
        } = self;
    }
}

/// Streams to be built, in order.
pub struct Modifies {
    pub items: Vec<Modify>,
}

// Written out, so that a crate above that lets one go has no proof of what is in it.
impl Drop for Modifies {
    fn drop(self) {
        let Modifies { items: _ } = self;
    }
}

impl Model for Modifies {
    ghost use Rattle.std.specs.Prelude.{List};
    ghost use Rattle.wire.specs.declared.streams.Modify.{Modify};

    ghost Value = { List Modify };

    ghost view = { λ list. list.items.items };
}
