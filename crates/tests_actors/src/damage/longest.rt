//! Of a node whose replica has its target, or the greatest length that there is.
use super::{MAKE, Who, starts};
use crate::written_disks::{Parts, disk_of_parts};

// One block of 4,095 bytes at 0, and the block "f" behind it; and one of 4,096, and then as before.
const APPEND_4095: Parts = &[
    (b"\x02\0\0\0\0\0\0\0\x01\0\0\0\0\x01\0\0\x0f\xff", 1),
    (b"x", 4_095),
];

const AT_4095: &[u8] = b"\x02\0\0\0\0\0\0\0\x01\0\0\x0f\xff\x01\0\0\0\x01f";

const APPEND_4096: Parts = &[
    (b"\x02\0\0\0\0\0\0\0\x01\0\0\0\0\x01\0\0\x10\0", 1),
    (b"x", 4_096),
];

const AT_4096: &[u8] = b"\x02\0\0\0\0\0\0\0\x01\0\0\x10\0\x01\0\0\0\x01f";

const FREEZE: &[u8] = b"\x04\0\0\0\0\0\0\0\x01";

// Groups of 64 blocks of 65,536 bytes: what is the size of each, four bytes, is also what its bytes repeat. So five times these four
// are a fifth of a block and its size.
const FIVE_TIMES: &[u8] = b"\0\x01\0\0\0\x01\0\0\0\x01\0\0\0\x01\0\0\0\x01\0\0";

// Five such groups, from 0 to 20,971,520; and to 20,971,519, where the last block is one byte shorter.
const FILL_TO_520: Parts = &[
    (b"\x06\0\0\0\0\0\0\0\x01\0\0\0\0\x01\x40\0\0\0\0\0\x05", 1),
    (b"\x40", 1),
    (FIVE_TIMES, 64 * 3_277),
    (b"\x40", 1),
    (FIVE_TIMES, 64 * 3_277),
    (b"\x40", 1),
    (FIVE_TIMES, 64 * 3_277),
    (b"\x40", 1),
    (FIVE_TIMES, 64 * 3_277),
    (b"\x40", 1),
    (FIVE_TIMES, 64 * 3_277),
];

const FILL_TO_519: Parts = &[
    (
        b"\x06\0\0\0\0\0\0\0\x01\0\0\0\0\x01\x3f\xff\xff\0\0\0\x05",
        1,
    ),
    (b"\x40", 1),
    (FIVE_TIMES, 64 * 3_277),
    (b"\x40", 1),
    (FIVE_TIMES, 64 * 3_277),
    (b"\x40", 1),
    (FIVE_TIMES, 64 * 3_277),
    (b"\x40", 1),
    (FIVE_TIMES, 64 * 3_277),
    (b"\x40", 1),
    (FIVE_TIMES, 63 * 3_277),
    (b"\0\0\xff\xff", 1),
    (b"x", 65_535),
];

/// What a case shows, records that fit, and others of which the last does not.
const CASES: &[(&str, &[Parts], &[Parts])] = &[
    (
        "an append is below the target",
        &[&[(MAKE, 1)], APPEND_4095, &[(AT_4095, 1)]],
        &[&[(MAKE, 1)], APPEND_4096, &[(AT_4096, 1)]],
    ),
    (
        "no extent is longer than the longest",
        &[&[(MAKE, 1)], &[(FREEZE, 1)], FILL_TO_519],
        &[&[(MAKE, 1)], &[(FREEZE, 1)], FILL_TO_520],
    ),
];

#[test]
fn nodes_start_from_the_longest_records_that_fit(rt: HostRuntime) {
    let alloc = rt.alloc();
    for (shows, fit, unfit) in CASES {
        let starts_fit = starts(alloc, Who::Node(1), disk_of_parts(alloc, fit));
        let starts_unfit = starts(alloc, Who::Node(1), disk_of_parts(alloc, unfit));
        assert!(rt; starts_fit == Some(true), "{shows}: fit");
        assert!(rt; starts_unfit == Some(false), "{shows}");
    }
}
