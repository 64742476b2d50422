//! Of the partition map.
use super::{ASSIGN, Case, FIRST, MAKE, UNKNOWN, Who, is_told_apart};
use Who::Map;

const ASSIGN_2: &[u8] = b"\x07\x10\0\0\0\0\0\0\0\x02\x02\0\0\0\0\0\0\0\x32";

const RENEW: &[u8] = b"\x07\x11\0\0\0\0\0\0\0\x01\0\0\0\0\0\0\0\x46";

const BEGIN_SPLIT: &[u8] = b"\x07\x12\0\0\0\0\0\0\0\x01\0\x01m";

const COMPLETE_SPLIT: &[u8] = b"\x07\x13\0\0\0\0\0\0\0\x01";

const BEGIN_MERGE: &[u8] = b"\x07\x14\0\0\0\0\0\0\0\x02\0\0\0\0\0\0\0\x03";

const BEGIN_BACKWARDS: &[u8] = b"\x07\x14\0\0\0\0\0\0\0\x03\0\0\0\0\0\0\0\x02";

const COMPLETE_MERGE: &[u8] = b"\x07\x15\0\0\0\0\0\0\0\x02\0\0\0\0\0\0\0\x03";

// The same with a byte too few or too many, with a key of no byte, and with one that is longer than what is left.
const SHORT_ASSIGN: &[u8] = b"\x07\x10\0\0\0\0\0\0\0\x01\x02\0\0\0\0\0\0\0";

const LONG_RENEW: &[u8] = b"\x07\x11\0\0\0\0\0\0\0\x01\0\0\0\0\0\0\0\x46\0";

const LONG_BEGIN: &[u8] = b"\x07\x12\0\0\0\0\0\0\0\x01\0\x01m\0";

const NO_KEY: &[u8] = b"\x07\x12\0\0\0\0\0\0\0\x01\0\0";

const LONG_KEY: &[u8] = b"\x07\x12\0\0\0\0\0\0\0\x01\0\x02m";

const LONG_COMPLETE: &[u8] = b"\x07\x13\0\0\0\0\0\0\0\x01\0";

const CASES: &[Case] = &[
    (
        "a range is assigned that is there",
        Map,
        &[ASSIGN, ASSIGN],
        &[ASSIGN, ASSIGN_2],
    ),
    (
        "a lease is renewed that is held",
        Map,
        &[ASSIGN, RENEW],
        &[RENEW],
    ),
    (
        "a split is begun once at a key",
        Map,
        &[ASSIGN, BEGIN_SPLIT],
        &[ASSIGN, BEGIN_SPLIT, BEGIN_SPLIT],
    ),
    (
        "a split is begun of a range that is there",
        Map,
        &[BEGIN_SPLIT, COMPLETE_SPLIT],
        &[BEGIN_SPLIT, COMPLETE_SPLIT, BEGIN_SPLIT],
    ),
    (
        "a split is done that was begun",
        Map,
        &[BEGIN_SPLIT, COMPLETE_SPLIT],
        &[COMPLETE_SPLIT],
    ),
    (
        "an assignment drops a split",
        Map,
        &[ASSIGN, BEGIN_SPLIT, COMPLETE_SPLIT],
        &[BEGIN_SPLIT, ASSIGN, COMPLETE_SPLIT],
    ),
    (
        "a merge is begun of ranges that are there",
        Map,
        &[BEGIN_SPLIT, COMPLETE_SPLIT, BEGIN_MERGE],
        &[BEGIN_SPLIT, BEGIN_MERGE],
    ),
    (
        "a merge is begun of the left range with the right",
        Map,
        &[BEGIN_SPLIT, COMPLETE_SPLIT, BEGIN_MERGE],
        &[BEGIN_SPLIT, COMPLETE_SPLIT, BEGIN_BACKWARDS],
    ),
    (
        "a merge is begun of ranges that one server holds",
        Map,
        &[BEGIN_SPLIT, COMPLETE_SPLIT, BEGIN_MERGE],
        &[BEGIN_SPLIT, COMPLETE_SPLIT, ASSIGN_2, BEGIN_MERGE],
    ),
    (
        "a merge is begun once",
        Map,
        &[BEGIN_SPLIT, COMPLETE_SPLIT, BEGIN_MERGE],
        &[BEGIN_SPLIT, COMPLETE_SPLIT, BEGIN_MERGE, BEGIN_MERGE],
    ),
    (
        "a merge is done that was begun",
        Map,
        &[BEGIN_SPLIT, COMPLETE_SPLIT, BEGIN_MERGE, COMPLETE_MERGE],
        &[BEGIN_SPLIT, COMPLETE_SPLIT, COMPLETE_MERGE],
    ),
    (
        "an assignment has all its bytes",
        Map,
        &[ASSIGN],
        &[SHORT_ASSIGN],
    ),
    (
        "a lease's end is the last of a record",
        Map,
        &[ASSIGN, RENEW],
        &[ASSIGN, LONG_RENEW],
    ),
    (
        "a key is the last of a record",
        Map,
        &[BEGIN_SPLIT],
        &[LONG_BEGIN],
    ),
    ("a key has a byte", Map, &[BEGIN_SPLIT], &[NO_KEY]),
    ("a key has all its bytes", Map, &[BEGIN_SPLIT], &[LONG_KEY]),
    (
        "a range is the last of a record",
        Map,
        &[BEGIN_SPLIT, COMPLETE_SPLIT],
        &[BEGIN_SPLIT, LONG_COMPLETE],
    ),
    (
        "the map has no record of a node",
        Map,
        &[ASSIGN],
        &[ASSIGN, MAKE],
    ),
    (
        "the map has no record of the manager",
        Map,
        &[ASSIGN],
        &[ASSIGN, FIRST],
    ),
    (
        "the map knows no other kind",
        Map,
        &[ASSIGN],
        &[ASSIGN, UNKNOWN],
    ),
];

#[test]
fn the_map_starts_from_records_that_fit(rt: HostRuntime) {
    for (shows, who, fit, unfit) in CASES {
        assert!(rt; is_told_apart(rt.alloc(), *who, fit, unfit), "{shows}");
    }
}
