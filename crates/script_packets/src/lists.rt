//! Streams by name, and lists of extents and of streams, each as one word.
use std::fmt;
use wire::{Modifies, Sources, StreamExtent, StreamExtents, StreamKind, StreamName};

fn word_of(kind: StreamKind) -> &'static str {
    match kind {
        StreamKind::Metadata => "metadata",
        StreamKind::Log => "log",
        StreamKind::RowData => "row_data",
        StreamKind::BlobData => "blob_data",
    }
}

/// A stream by its range and its kind: `1/log`.
#[derive(Clone, Copy)]
pub(crate) struct StreamWord<'a>(pub(crate) &'a StreamName);

impl fmt::Display for StreamWord<'_> {
    fn fmt<W: fmt::Write>(&self, f: &mut fmt::Formatter<W>) -> fmt::Result {
        let name = self.0;
        write!(f, "{}/{}", name.range.0, word_of(name.kind))
    }
}

/// An extent by its number, and where it is sealed `@` and its length: `5@4096`.
fn write_extent<W: fmt::Write>(f: &mut fmt::Formatter<W>, extent: &StreamExtent) -> fmt::Result {
    match extent.length {
        Some(length) => write!(f, "{}@{length}", extent.extent.0),
        None => write!(f, "{}", extent.extent.0),
    }
}

/// Extents in order, with commas between them, and a dash for none.
#[derive(Clone, Copy)]
pub(crate) struct Extents<'a>(pub(crate) &'a StreamExtents);

impl fmt::Display for Extents<'_> {
    fn fmt<W: fmt::Write>(&self, f: &mut fmt::Formatter<W>) -> fmt::Result {
        let extents = self.0;
        if extents.items.is_empty() {
            return f.write_str("-");
        }
        let mut comma = "";
        for extent in &extents.items {
            f.write_str(comma)?;
            write_extent(f, extent)?;
            comma = ",";
        }
        Ok(())
    }
}

/// Streams with the generations that are named of them, with commas between them, and a dash for none: `1/log:3,4/log:5`.
#[derive(Clone, Copy)]
struct SourceList<'a>(&'a Sources);

impl fmt::Display for SourceList<'_> {
    fn fmt<W: fmt::Write>(&self, f: &mut fmt::Formatter<W>) -> fmt::Result {
        let sources = self.0;
        if sources.items.is_empty() {
            return f.write_str("-");
        }
        let mut comma = "";
        for source in &sources.items {
            write!(
                f,
                "{comma}{}:{}",
                StreamWord(&source.stream),
                source.generation.0
            )?;
            comma = ",";
        }
        Ok(())
    }
}

/// Writes each stream that is to be built with its sources, as a field with a blank before it: ` 2/log=1/log:3`.
pub(crate) fn write_built<W: fmt::Write>(
    f: &mut fmt::Formatter<W>,
    list: &Modifies,
) -> fmt::Result {
    for modify in &list.items {
        write!(
            f,
            " {}={}",
            StreamWord(&modify.stream),
            SourceList(&modify.sources)
        )?;
    }
    Ok(())
}
