//! Of a node.
use super::{ASSIGN, Case, FIRST, MAKE, Who, is_told_apart};
use Who::Node;

// Extent 1 is made at nodes 4, 2 and 3, and extent 2 at nodes 1, 2 and 3.
const MAKE_AT_4: &[u8] = b"\x01\0\0\0\0\0\0\0\x01\0\0\0\0\0\0\0\x01\0\0\x10\0\x04\x02\x03";

const MAKE_2: &[u8] = b"\x01\0\0\0\0\0\0\0\x02\0\0\0\0\0\0\0\x01\0\0\x10\0\x01\x02\x03";

// A group of the blocks "abc" and "de" at 0, and one of the block "f" at 5.
const APPEND_0: &[u8] = b"\x02\0\0\0\0\0\0\0\x01\0\0\0\0\x02\0\0\0\x03abc\0\0\0\x02de";

const APPEND_5: &[u8] = b"\x02\0\0\0\0\0\0\0\x01\0\0\0\x05\x01\0\0\0\x01f";

const FENCE_1: &[u8] = b"\x03\0\0\0\0\0\0\0\x01\0\0\0\0\0\0\0\x01";

const FENCE_5: &[u8] = b"\x03\0\0\0\0\0\0\0\x01\0\0\0\0\0\0\0\x05";

const FENCE_6: &[u8] = b"\x03\0\0\0\0\0\0\0\x01\0\0\0\0\0\0\0\x06";

const FREEZE: &[u8] = b"\x04\0\0\0\0\0\0\0\x01";

const SEAL_0: &[u8] = b"\x05\0\0\0\0\0\0\0\x01\0\0\0\0";

const SEAL_3: &[u8] = b"\x05\0\0\0\0\0\0\0\x01\0\0\0\x03";

const SEAL_5: &[u8] = b"\x05\0\0\0\0\0\0\0\x01\0\0\0\x05";

const SEAL_6: &[u8] = b"\x05\0\0\0\0\0\0\0\x01\0\0\0\x06";

// A group of the block "ghi", from 0 to 3, and from 5 to 8.
const FILL_0: &[u8] = b"\x06\0\0\0\0\0\0\0\x01\0\0\0\0\0\0\0\x03\0\0\0\x01\x01\0\0\0\x03ghi";

const FILL_5: &[u8] = b"\x06\0\0\0\0\0\0\0\x01\0\0\0\x05\0\0\0\x08\0\0\0\x01\x01\0\0\0\x03ghi";

const CASES: &[Case] = &[
    (
        "an extent is made once",
        Node(1),
        &[MAKE, MAKE_2],
        &[MAKE, MAKE],
    ),
    ("a node makes its own", Node(4), &[MAKE_AT_4], &[MAKE]),
    (
        "an append is of an extent that is there",
        Node(1),
        &[MAKE, APPEND_0],
        &[MAKE_2, APPEND_0],
    ),
    (
        "a fence is of an extent that is there",
        Node(1),
        &[MAKE, FENCE_5],
        &[MAKE_2, FENCE_5],
    ),
    (
        "a freeze is of an extent that is there",
        Node(1),
        &[MAKE, FREEZE],
        &[MAKE_2, FREEZE],
    ),
    (
        "a seal is of an extent that is there",
        Node(1),
        &[MAKE, SEAL_0],
        &[MAKE_2, SEAL_0],
    ),
    (
        "a fill is of an extent that is there",
        Node(1),
        &[MAKE, FREEZE, FILL_0],
        &[MAKE_2, FILL_0],
    ),
    (
        "a frozen replica takes no append",
        Node(1),
        &[MAKE, APPEND_0, FREEZE],
        &[MAKE, FREEZE, APPEND_0],
    ),
    (
        "a sealed one takes none",
        Node(1),
        &[MAKE, APPEND_0, SEAL_5],
        &[MAKE, SEAL_0, APPEND_0],
    ),
    (
        "an append is not behind the end",
        Node(1),
        &[MAKE, APPEND_0, APPEND_5],
        &[MAKE, APPEND_5],
    ),
    (
        "an append is not before the end",
        Node(1),
        &[MAKE, APPEND_0],
        &[MAKE, APPEND_0, APPEND_0],
    ),
    (
        "a frozen replica's fence stays",
        Node(1),
        &[MAKE, FENCE_5, FREEZE],
        &[MAKE, FREEZE, FENCE_5],
    ),
    (
        "a sealed one's stays",
        Node(1),
        &[MAKE, FENCE_5, SEAL_0],
        &[MAKE, SEAL_0, FENCE_5],
    ),
    (
        "a fence is above that of the extent",
        Node(1),
        &[MAKE, FENCE_5],
        &[MAKE, FENCE_1],
    ),
    (
        "a fence is above the last one",
        Node(1),
        &[MAKE, FENCE_5, FENCE_6],
        &[MAKE, FENCE_5, FENCE_5],
    ),
    (
        "a fence never falls",
        Node(1),
        &[MAKE, FENCE_5, FENCE_6],
        &[MAKE, FENCE_6, FENCE_5],
    ),
    (
        "a frozen replica is not frozen again",
        Node(1),
        &[MAKE, FREEZE],
        &[MAKE, FREEZE, FREEZE],
    ),
    (
        "a sealed one is not frozen",
        Node(1),
        &[MAKE, FREEZE, SEAL_0],
        &[MAKE, SEAL_0, FREEZE],
    ),
    (
        "a replica is sealed once",
        Node(1),
        &[MAKE, FREEZE, SEAL_0],
        &[MAKE, SEAL_0, SEAL_0],
    ),
    (
        "a seal cuts no group",
        Node(1),
        &[MAKE, APPEND_0, SEAL_5],
        &[MAKE, APPEND_0, SEAL_3],
    ),
    (
        "a seal is not behind the end",
        Node(1),
        &[MAKE, APPEND_0, APPEND_5, SEAL_6],
        &[MAKE, APPEND_0, SEAL_6],
    ),
    (
        "an open replica is not filled",
        Node(1),
        &[MAKE, FREEZE, FILL_0],
        &[MAKE, FILL_0],
    ),
    (
        "a sealed one is not filled",
        Node(1),
        &[MAKE, FREEZE, FILL_0],
        &[MAKE, SEAL_0, FILL_0],
    ),
    (
        "a fill is not before the end",
        Node(1),
        &[MAKE, APPEND_0, FREEZE, FILL_5],
        &[MAKE, APPEND_0, FREEZE, FILL_0],
    ),
    (
        "a fill is not behind the end",
        Node(1),
        &[MAKE, FREEZE, FILL_0],
        &[MAKE, FREEZE, FILL_5],
    ),
    (
        "a node has no record of the manager",
        Node(1),
        &[MAKE],
        &[MAKE, FIRST],
    ),
    (
        "a node has no record of the map",
        Node(1),
        &[MAKE],
        &[MAKE, ASSIGN],
    ),
];

#[test]
fn nodes_start_from_records_that_fit(rt: HostRuntime) {
    for (shows, who, fit, unfit) in CASES {
        assert!(rt; is_told_apart(rt.alloc(), *who, fit, unfit), "{shows}");
    }
}
