//! Indexes that no server writes, in the extents of a range: what a load makes of them, which page a Get reads, and what is combined.
//!
//! Where the first keys of an index do not ascend it is damaged. Where they do, but the keys of its pages do not, a load shows what
//! all pages say, the later page over the earlier, in the order of the keys, and what is combined is the same; a Get looks into the one
//! page that may have its key, whatever others say that are held, and then into the older index. The values that are wanted were worked
//! out by hand from the rules.
use crate::checkpoint_runs::{Observed, Stand, Step, begun, goes, has_loads};
use crate::page_rows::{A_B, A_C, A_D, B_C, C_D};
use Observed::{Acked, Sees};
use Step::{
    Appends, Assigns, Checkpoints, Combines, Commits, Finds, Misses, Refuses, Shows, StartsAgain,
};
use range::RangeFault;
use std::alloc::Global;

/// An index of two pages: one that it says begins with `a`, and one that it says begins with `c`.
const INDEX: &[u8] = &[
    0, 0, 0, 47, 0, 0, 0, 2, 0, 0, 1, b'a', 0, 0, 0, 0, 0, 0, 0, 2, 0, 0, 0, 39, 0, 0, 0, 20, 0, 1,
    b'c', 0, 0, 0, 0, 0, 0, 0, 2, 0, 0, 0, 59, 0, 0, 0, 20,
];

/// The same with the two keys the other way round.
const DESCENDING: &[u8] = &[
    0, 0, 0, 47, 0, 0, 0, 2, 0, 0, 1, b'c', 0, 0, 0, 0, 0, 0, 0, 2, 0, 0, 0, 39, 0, 0, 0, 20, 0, 1,
    b'a', 0, 0, 0, 0, 0, 0, 0, 2, 0, 0, 0, 59, 0, 0, 0, 20,
];

/// The same with one key twice.
const EQUAL: &[u8] = &[
    0, 0, 0, 47, 0, 0, 0, 2, 0, 0, 1, b'a', 0, 0, 0, 0, 0, 0, 0, 2, 0, 0, 0, 39, 0, 0, 0, 20, 0, 1,
    b'a', 0, 0, 0, 0, 0, 0, 0, 2, 0, 0, 0, 59, 0, 0, 0, 20,
];

/// The second record of the metadata: a checkpoint whose index has 47 bytes at 79 of extent 2, and leaves of the log what stands
/// after 24 bytes, from number 2 on.
const RECORD: &[u8] = &[
    0, 0, 0, 0, 0, 0, 0, 2, 2, 0, 0, 0, 0, 0, 0, 0, 0, 2, 0, 0, 0, 79, 0, 0, 0, 47, 0, 0, 0, 0, 0,
    0, 0, 0, 0, 0, 0, 24, 0, 0, 0, 0, 0, 0, 0, 2,
];

/// The older index, of a page that has `o` at `d`, and then a newer one of two pages are written and loaded.
struct Case {
    about: &'static str,
    /// The two pages of the newer index, and its text.
    pages: &'static [&'static [u8]],
    index: &'static [&'static [u8]],
    /// What happens once the load has ended, and what is observed then.
    steps: &'static [Step],
    observed: &'static [Observed],
    /// The number that each load shows to be the next.
    loads: &'static [u64],
}

/// What is observed until the newer index was read.
const UNTIL_READ: &[Observed] = &[
    Acked(1, 0, 24),
    Acked(2, 0, 11),
    Acked(2, 11, 28),
    Acked(3, 0, 46),
    Acked(2, 39, 40),
    Acked(2, 79, 47),
    Acked(3, 46, 46),
    Sees(3, 0, 92),
    Sees(1, 0, 24),
    Sees(2, 11, 28),
    Sees(2, 79, 47),
];

const CASES: &[Case] = &[
    Case {
        about: "a page reaches over the next",
        pages: &[A_D, B_C],
        index: &[INDEX],
        steps: &[
            Shows(&[(b"a", b"p"), (b"b", b"q"), (b"c", b"r"), (b"d", b"u")]),
            Finds(b"d", 1, b'o'),
            Misses(b"b"),
            Finds(b"a", 1, b'p'),
            Finds(b"d", 1, b'o'),
            Finds(b"c", 1, b'r'),
            Combines,
            Finds(b"d", 1, b'u'),
            Finds(b"b", 1, b'q'),
            StartsAgain(3),
            Assigns(3),
            Shows(&[(b"a", b"p"), (b"b", b"q"), (b"c", b"r"), (b"d", b"u")]),
        ],
        observed: &[
            Sees(2, 59, 20),
            Sees(2, 0, 11),
            Sees(2, 39, 20),
            Acked(2, 126, 38),
            Acked(2, 164, 28),
            Acked(3, 92, 46),
            Sees(2, 126, 38),
            Sees(3, 0, 138),
            Sees(1, 0, 24),
            Sees(2, 164, 28),
        ],
        loads: &[1, 2, 2],
    },
    Case {
        about: "a page ends with the key with which the next begins",
        pages: &[A_C, C_D],
        index: &[INDEX],
        steps: &[
            Shows(&[(b"a", b"p"), (b"c", b"r"), (b"d", b"s")]),
            Finds(b"c", 1, b'r'),
            Finds(b"a", 1, b'p'),
            Finds(b"c", 1, b'r'),
            Finds(b"d", 1, b's'),
            Combines,
            Finds(b"c", 1, b'r'),
        ],
        observed: &[
            Sees(2, 59, 20),
            Sees(2, 39, 20),
            Sees(2, 0, 11),
            Acked(2, 126, 29),
            Acked(2, 155, 28),
            Acked(3, 92, 46),
            Sees(2, 126, 29),
        ],
        loads: &[1, 2],
    },
    Case {
        about: "pages stand the other way round",
        pages: &[C_D, A_B],
        index: &[INDEX],
        steps: &[
            Shows(&[(b"a", b"p"), (b"b", b"q"), (b"c", b"r"), (b"d", b"s")]),
            Misses(b"a"),
            Combines,
            Finds(b"a", 1, b'p'),
            Finds(b"d", 1, b's'),
        ],
        observed: &[
            Sees(2, 39, 20),
            Sees(2, 0, 11),
            Sees(2, 59, 20),
            Acked(2, 126, 38),
            Acked(2, 164, 28),
            Acked(3, 92, 46),
            Sees(2, 126, 38),
        ],
        loads: &[1, 2],
    },
    Case {
        about: "first keys that descend are damage, which drops the range",
        pages: &[A_B, C_D],
        index: &[DESCENDING],
        steps: &[Refuses(RangeFault::NotOwner)],
        observed: &[],
        loads: &[1],
    },
    Case {
        about: "first keys that are equal are damage, which drops the range",
        pages: &[A_B, C_D],
        index: &[EQUAL],
        steps: &[Refuses(RangeFault::NotOwner)],
        observed: &[],
        loads: &[1],
    },
];

/// Whether the indexes of a case are written, and the newer one is read by a load.
fn is_loaded(alloc: Global, stand: &mut Stand, case: &Case) -> bool {
    let steps = [
        Assigns(1),
        Commits(b"d", 1, b'o'),
        Checkpoints,
        Appends(2, case.pages),
        Appends(2, case.index),
        Appends(3, &[RECORD]),
        StartsAgain(2),
        Assigns(2),
    ];
    goes(alloc, stand, &steps, 0, UNTIL_READ)
}

/// Whether a case goes as it says.
fn holds(alloc: Global, case: &Case) -> bool {
    match begun(alloc) {
        None => false,
        Some(mut stand) => {
            is_loaded(alloc, &mut stand, case)
                && goes(
                    alloc,
                    &mut stand,
                    case.steps,
                    UNTIL_READ.len(),
                    case.observed,
                )
                && has_loads(&stand, case.loads)
        }
    }
}

#[test]
fn each_index_is_read_as_it_should(rt: HostRuntime) {
    for case in CASES {
        assert!(rt; holds(rt.alloc(), case), "{}", case.about);
    }
}
