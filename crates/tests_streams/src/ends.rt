//! Where groups end, found by themselves.
use replica::Ends;
use std::alloc::{AllocError, Global};

/// How many of the ends 3, 5 and 9 are kept, an offset, and how many ends are at or below it.
const FINDS: &[(&str, usize, u32, usize)] = &[
    ("of no ends, at the start", 0, 0, 0),
    ("of no ends, past it", 0, 7, 0),
    ("of one end, before it", 1, 2, 0),
    ("of one end, exactly", 1, 3, 1),
    ("of one end, past it", 1, 4, 1),
    ("before the first", 3, 2, 0),
    ("exactly the first", 3, 3, 1),
    ("between two", 3, 4, 1),
    ("exactly the second", 3, 5, 2),
    ("between the last two", 3, 8, 2),
    ("exactly the last", 3, 9, 3),
    ("past the last", 3, 10, 3),
    ("past all that there can be", 3, u32::MAX, 3),
];

/// An index among the same ends, and the end that it has, with how many probes that took.
const READS: &[(usize, Option<(u32, u64)>)] = &[
    (0, Some((3, 1))),
    (1, Some((5, 1))),
    (2, Some((9, 1))),
    (3, None),
];

fn three_ends(alloc: Global) -> Result<Ends, AllocError> {
    let mut ends = Ends::new(alloc);
    ends.reserve(3)?;
    ends.push(3);
    ends.push(5);
    ends.push(9);
    Ok(ends)
}

/// The end with an index, and how many probes that took.
fn end_at(ends: &Ends, index: usize) -> Option<(u32, u64)> {
    if index >= ends.len() {
        return None;
    }
    let mut probes = 0;
    let end = ends.end_at(index, &mut probes);
    Some((end, probes))
}

/// Whether so many of the first ends are found at or below an offset, by at most two probes.
fn finds(alloc: Global, kept: usize, offset: u32, wanted: usize) -> bool {
    let Ok(mut ends) = three_ends(alloc) else {
        return false;
    };
    ends.truncate(kept);
    let mut probes = 0;
    ends.find(offset, &mut probes) == wanted && probes <= 2
}

#[test]
fn an_end_is_found_by_its_offset(rt: HostRuntime) {
    for (shows, kept, offset, wanted) in FINDS {
        assert!(rt; finds(rt.alloc(), *kept, *offset, *wanted), "{shows}");
    }
}

#[test]
fn an_end_is_read_by_its_index(rt: HostRuntime) -> Result<(), AllocError> {
    let ends = three_ends(rt.alloc())?;
    for (index, wanted) in READS {
        assert!(rt; end_at(&ends, *index) == *wanted, "{index}");
    }
    Ok(())
}
