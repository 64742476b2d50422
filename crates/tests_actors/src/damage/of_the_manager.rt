//! Of the stream manager.
use super::{ASSIGN, Case, FIRST, MAKE, UNKNOWN, Who, is_told_apart};
use Who::Manager;

// Two nodes; the row data of range 0; range 1 is opened for 5, and for 6; its log has one more extent, for 5, at nodes that are known, and
// at one that is not; extent 1 ends at 30; the log of range 1 loses its first extent.
const TWO_NODES: &[u8] = b"\x07\x01\x02\0\0\x10\0";

const CREATE: &[u8] = b"\x07\x02\0\0\0\0\0\0\0\0\x02\0\0\0\0\0\0\0\0";

const OPEN_5: &[u8] = b"\x07\x03\0\0\0\0\0\0\0\x01\0\0\0\0\0\0\0\x05";

const OPEN_6: &[u8] = b"\x07\x03\0\0\0\0\0\0\0\x01\0\0\0\0\0\0\0\x06";

const EXTEND: &[u8] = b"\x07\x04\0\0\0\0\0\0\0\x01\x01\0\0\0\0\0\0\0\x05\x01\x02\x03";

const EXTEND_AT_5: &[u8] = b"\x07\x04\0\0\0\0\0\0\0\x01\x01\0\0\0\0\0\0\0\x05\x01\x02\x05";

const SEAL: &[u8] = b"\x07\x05\0\0\0\0\0\0\0\x01\0\0\0\x1e";

const TRIM: &[u8] = b"\x07\x06\0\0\0\0\0\0\0\x01\0\0\0\0\0\0\0\x01\0";

// The log of range 2 is built from that of range 1, for generation 0; and so is that of range 1 itself.
const MODIFY: &[u8] =
    b"\x07\x07\x01\0\0\0\0\0\0\0\x02\x01\x01\0\0\0\0\0\0\0\x01\x01\0\0\0\0\0\0\0\0";

const MODIFY_ITSELF: &[u8] =
    b"\x07\x07\x01\0\0\0\0\0\0\0\x01\x01\x01\0\0\0\0\0\0\0\x01\x01\0\0\0\0\0\0\0\0";

// It has no source; it is one of two; it is of no kind of stream; and there is a byte behind it.
const MODIFY_OF_NONE: &[u8] = b"\x07\x07\x01\0\0\0\0\0\0\0\x02\x01\0";

const MODIFY_OF_TWO: &[u8] =
    b"\x07\x07\x02\0\0\0\0\0\0\0\x02\x01\x01\0\0\0\0\0\0\0\x01\x01\0\0\0\0\0\0\0\0";

const MODIFY_OF_NO_KIND: &[u8] =
    b"\x07\x07\x01\0\0\0\0\0\0\0\x02\x04\x01\0\0\0\0\0\0\0\x01\x01\0\0\0\0\0\0\0\0";

const LONG_MODIFY: &[u8] =
    b"\x07\x07\x01\0\0\0\0\0\0\0\x02\x01\x01\0\0\0\0\0\0\0\x01\x01\0\0\0\0\0\0\0\0\0";

const CASES: &[Case] = &[
    ("it has a first record", Manager, &[FIRST], &[]),
    ("it has three nodes", Manager, &[FIRST], &[TWO_NODES]),
    (
        "its first record is of the first kind",
        Manager,
        &[FIRST, CREATE],
        &[CREATE],
    ),
    (
        "its first record stands there alone",
        Manager,
        &[FIRST],
        &[FIRST, FIRST],
    ),
    (
        "a stream is made once",
        Manager,
        &[FIRST, CREATE],
        &[FIRST, CREATE, CREATE],
    ),
    (
        "streams are opened for a generation above the last",
        Manager,
        &[FIRST, OPEN_5, OPEN_6],
        &[FIRST, OPEN_5, OPEN_5],
    ),
    (
        "a stream is extended for its generation",
        Manager,
        &[FIRST, OPEN_5, EXTEND],
        &[FIRST, EXTEND],
    ),
    (
        "a stream is extended behind a sealed extent",
        Manager,
        &[FIRST, OPEN_5, EXTEND, SEAL, EXTEND],
        &[FIRST, OPEN_5, EXTEND, EXTEND],
    ),
    (
        "a stream is extended at nodes that are known",
        Manager,
        &[FIRST, OPEN_5, EXTEND],
        &[FIRST, OPEN_5, EXTEND_AT_5],
    ),
    (
        "an extent is sealed that is there",
        Manager,
        &[FIRST, OPEN_5, EXTEND, SEAL],
        &[FIRST, OPEN_5, SEAL],
    ),
    (
        "an extent is sealed once",
        Manager,
        &[FIRST, OPEN_5, EXTEND, SEAL],
        &[FIRST, OPEN_5, EXTEND, SEAL, SEAL],
    ),
    (
        "the last extent of a log does not leave it",
        Manager,
        &[FIRST, OPEN_5, EXTEND, SEAL, EXTEND, TRIM],
        &[FIRST, OPEN_5, EXTEND, SEAL, TRIM],
    ),
    (
        "an extent leaves a log once",
        Manager,
        &[FIRST, OPEN_5, EXTEND, SEAL, EXTEND, TRIM],
        &[FIRST, OPEN_5, EXTEND, SEAL, EXTEND, TRIM, TRIM],
    ),
    (
        "a stream is built for its source's generation",
        Manager,
        &[FIRST, MODIFY],
        &[FIRST, OPEN_5, MODIFY],
    ),
    (
        "a stream is built once",
        Manager,
        &[FIRST, MODIFY],
        &[FIRST, MODIFY, MODIFY],
    ),
    (
        "a stream is built that is not there",
        Manager,
        &[FIRST, MODIFY],
        &[FIRST, MODIFY_ITSELF],
    ),
    (
        "a stream is built of one that is there",
        Manager,
        &[FIRST, MODIFY],
        &[FIRST, MODIFY_OF_NONE],
    ),
    (
        "all streams that are built are told",
        Manager,
        &[FIRST, MODIFY],
        &[FIRST, MODIFY_OF_TWO],
    ),
    (
        "a stream is of a kind",
        Manager,
        &[FIRST, MODIFY],
        &[FIRST, MODIFY_OF_NO_KIND],
    ),
    (
        "a source is the last of a record",
        Manager,
        &[FIRST, MODIFY],
        &[FIRST, LONG_MODIFY],
    ),
    (
        "the manager has no record of a node",
        Manager,
        &[FIRST],
        &[FIRST, MAKE],
    ),
    (
        "the manager has no record of the map",
        Manager,
        &[FIRST],
        &[FIRST, ASSIGN],
    ),
    (
        "the manager knows no other kind",
        Manager,
        &[FIRST],
        &[FIRST, UNKNOWN],
    ),
];

#[test]
fn the_manager_starts_from_records_that_fit(rt: HostRuntime) {
    for (shows, who, fit, unfit) in CASES {
        assert!(rt; is_told_apart(rt.alloc(), *who, fit, unfit), "{shows}");
    }
}
