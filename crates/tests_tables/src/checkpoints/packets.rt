//! What a checkpoint sends.
use crate::asking::number;
use bytes::Bytes;
use model_partition::Progress;
use wire::{AppendBody, Body, ExtentId, Packet, ReadBody, SealBody, StreamBody};

/// What is sent, or what else comes of an answer.
pub(crate) enum Comes {
    /// Nothing has changed, or what is known has, and nothing is sent.
    Rests,
    Silence,
    Dropped,
    /// An append to the extent 7 of these blocks.
    Appends(&'static [&'static [u8]]),
    /// An append to the extent 7 of so many blocks.
    AppendsMany(usize),
    /// So many bytes of the extent 7 are to be read from this offset on.
    Reads(u32, u32),
    /// A new extent is asked for.
    Extends,
    /// The extent 7 is to be sealed.
    Seals,
    /// The log is to be trimmed below this index; whether its extents go to the blob stream, and the number of the request.
    Trims(u64, bool, u32),
}

fn are_blocks(blocks: &[Bytes], texts: &[&[u8]]) -> bool {
    if blocks.len() != texts.len() {
        return false;
    }
    for (block, text) in blocks.iter().zip(texts.iter()) {
        if block.as_slice() != *text {
            return false;
        }
    }
    true
}

fn is_append(body: &AppendBody, comes: &Comes) -> bool {
    match body {
        AppendBody::Append { extent, blocks, .. } => match comes {
            Comes::Appends(texts) => {
                *extent == ExtentId(7) && are_blocks(blocks.as_slice(), *texts)
            }
            Comes::AppendsMany(count) => *extent == ExtentId(7)
                && blocks.as_slice().len() == *count,
            _ => false,
        },
        _ => false,
    }
}

fn is_trim(body: &StreamBody, below: u64, blob: bool, count: u32) -> bool {
    match body {
        StreamBody::Trim {
            before,
            to_blob,
            request,
            ..
        } => *before == below && *to_blob == blob && *request == number(u64::from(count)),
        _ => false,
    }
}

fn is_read(body: &ReadBody, from: u32, count: u32) -> bool {
    match body {
        ReadBody::ReadAt {
            extent,
            offset,
            length,
            ..
        } => *extent == ExtentId(7) && *offset == from && *length == count,
        _ => false,
    }
}

/// Whether a packet is what is to be sent.
pub(crate) fn is_sent(packet: &Packet, comes: &Comes) -> bool {
    match (&packet.body, comes) {
        (Body::Append(body), _) => is_append(body, comes),
        (Body::Read(body), Comes::Reads(from, count)) => is_read(body, *from, *count),
        (Body::Stream(StreamBody::Extend { .. }), Comes::Extends) => true,
        (Body::Seal(SealBody::SealExtent { extent, .. }), Comes::Seals) => *extent == ExtentId(7),
        (Body::Stream(body), Comes::Trims(below, blob, count)) => {
            is_trim(body, *below, *blob, *count)
        }
        _ => false,
    }
}

/// Whether that is sent, or nothing where that is silence.
pub(crate) fn are_sent(packet: Option<&Packet>, comes: &Comes) -> bool {
    match packet {
        None => matches!(comes, Comes::Silence),
        Some(packet) => is_sent(packet, comes),
    }
}

/// Whether this comes of an answer.
pub(crate) fn comes_to(progress: &Progress, comes: &Comes) -> bool {
    match progress {
        Progress::Rests => matches!(comes, Comes::Rests),
        Progress::Dropped => matches!(comes, Comes::Dropped),
        Progress::Goes(packet) => are_sent(packet.as_ref(), comes),
        Progress::Serves(_) => false,
    }
}
