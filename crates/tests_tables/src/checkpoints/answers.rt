//! The answers that a checkpoint gets.
use crate::asking::{PLACES, number};
use bytes::Bytes;
use wire::{AppendBody, Body, ExtentId, ReadBody, Refusal, SealBody, StreamBody};

/// An answer, but for the number that it bears.
pub(crate) enum Answer {
    /// The group stands at this offset of the extent 7.
    Appended(u32),
    /// The extent 7 was made.
    Extended,
    /// The extent 7 is sealed at this length.
    Sealed(u32),
    Trimmed,
    /// These bytes stand at this offset of the extent 7.
    Bytes(u32, &'static [u8]),
    Refused(Refusal),
}

/// The body of an answer to the request of this number.
pub(crate) fn body_of(asked: u32, answer: &Answer) -> Body {
    let request = number(u64::from(asked));
    match answer {
        Answer::Appended(offset) => Body::Append(AppendBody::Appended {
            request,
            extent: ExtentId(7),
            offset: *offset,
        }),
        Answer::Extended => Body::Stream(StreamBody::Extended {
            request,
            extent: ExtentId(7),
            places: PLACES,
        }),
        Answer::Sealed(length) => Body::Seal(SealBody::SealedIs {
            request,
            extent: ExtentId(7),
            length: *length,
        }),
        Answer::Trimmed => Body::Stream(StreamBody::Trimmed { request }),
        Answer::Bytes(offset, bytes) => Body::Read(ReadBody::Bytes {
            request,
            extent: ExtentId(7),
            offset: *offset,
            bytes: Bytes::from_static(*bytes),
        }),
        Answer::Refused(refusal) => Body::Append(AppendBody::Refused {
            request,
            refusal: *refusal,
        }),
    }
}
