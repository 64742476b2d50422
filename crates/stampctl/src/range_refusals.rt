//! Splits and merges that are refused: each by its number, and each leaves the server as it was. A run with them goes on as one without
//! them: another split or merge may begin, and all that the ranges do then, they do in both.
use crate::drills::{
    Drill, MOST_DELIVERIES, NONE, assign, assign_all, change, deliver_some, drilled, merge_of,
    settle_all, started, transact,
};
use crate::drives::{Drive, asked, restart_of, step, stop_of};
use crate::same_runs::is_same_run;
use Step::{Assigns, Checkpoints, Delivers, Ends, Merges, Settles, Splits};
use bytes::Bytes;
use model_streams::Event;
use std::alloc::Global;
use std::test::Fail;
use wire::{ActorId, RangeId, ReqNo, ServerNo, TableBody};

/// What happens in a run.
#[derive(Clone, Copy)]
enum Step {
    /// The next packet comes.
    Delivers,
    /// All that is sent comes.
    Settles,
    /// All that is sent comes, and each extent is sealed for which that is asked.
    Ends,
    /// The range is assigned.
    Assigns(u64),
    /// The range is to be split at a key, which may be refused with this number.
    Splits(u64, &'static [u8], Option<u8>),
    /// The two are to be merged, which may be refused with this number.
    Merges(u64, u64, Option<u8>),
    /// A checkpoint of the range is to be made, which may be refused with this number.
    Checkpoints(u64, Option<u8>),
}

/// The range 1 is split into 2 and 3, and both are served.
const PARTED: &[Step] = &[
    Ends,
    Splits(1, b"m", None),
    Ends,
    Assigns(2),
    Assigns(3),
    Ends,
];

/// Neither is split, merged, or makes a checkpoint.
const ARE_BUSY: &[Step] = &[
    Merges(2, 3, Some(35)),
    Splits(2, b"c", Some(35)),
    Splits(3, b"z", Some(35)),
    Checkpoints(2, Some(35)),
    Checkpoints(3, Some(35)),
];

/// What each shows, and its steps, part after part.
const CASES: &[(&str, &[&[Step]])] = &[
    (
        "a range is split where it is served",
        &[&[
            Splits(1, b"m", Some(30)),
            Delivers,
            Splits(1, b"m", Some(38)),
            Settles,
            Splits(1, b"m", None),
        ]],
    ),
    (
        "its first key splits no range, and neither does one of more than 256 bytes",
        &[&[
            Settles,
            Splits(1, b"", Some(39)),
            Splits(1, &[b'k'; 257], Some(39)),
            Splits(1, &[b'k'; 256], None),
        ]],
    ),
    (
        "a range that makes a checkpoint is not split",
        &[&[
            Settles,
            Checkpoints(1, None),
            Splits(1, b"m", Some(35)),
            Settles,
            Splits(1, b"m", None),
        ]],
    ),
    (
        "a range that is being split is not split, and makes no other checkpoint",
        &[&[
            Settles,
            Splits(1, b"m", None),
            Splits(1, b"m", Some(35)),
            Splits(1, b"", Some(35)),
            Checkpoints(1, Some(35)),
            Delivers,
            Splits(1, b"n", Some(35)),
            Delivers,
            Splits(1, b"n", Some(35)),
            Checkpoints(1, Some(35)),
            Settles,
            Splits(1, b"n", Some(34)),
            Splits(1, b"", Some(34)),
            Checkpoints(1, Some(34)),
        ]],
    ),
    (
        "two ranges are merged where both are served",
        &[
            PARTED,
            &[
                Merges(1, 3, Some(30)),
                Merges(2, 9, Some(30)),
                Assigns(3),
                Delivers,
                Merges(9, 3, Some(30)),
                Merges(3, 2, Some(38)),
                Merges(2, 3, Some(38)),
                Settles,
                Merges(2, 3, None),
            ],
        ],
    ),
    (
        "only two that lie side by side are merged, the left one first",
        &[
            PARTED,
            &[
                Merges(3, 2, Some(40)),
                Merges(2, 2, Some(40)),
                Splits(2, b"c", None),
                Ends,
                Assigns(4),
                Assigns(5),
                Ends,
                Merges(4, 3, Some(40)),
                Merges(5, 4, Some(40)),
                Merges(4, 5, None),
                Merges(5, 3, Some(35)),
            ],
        ],
    ),
    (
        "a range that makes a checkpoint is not merged",
        &[
            PARTED,
            &[
                Checkpoints(2, None),
                Merges(2, 3, Some(35)),
                Settles,
                Checkpoints(3, None),
                Merges(2, 3, Some(35)),
                Merges(3, 2, Some(35)),
                Settles,
                Merges(2, 3, None),
            ],
        ],
    ),
    (
        "a left range that is being split is not merged",
        &[
            PARTED,
            &[
                Splits(2, b"c", None),
                Merges(2, 3, Some(35)),
                Settles,
                Merges(2, 3, Some(34)),
                Merges(3, 2, Some(34)),
            ],
        ],
    ),
    (
        "a right range that is being split is not merged",
        &[
            PARTED,
            &[
                Splits(3, b"z", None),
                Merges(2, 3, Some(35)),
                Settles,
                Merges(2, 3, Some(34)),
            ],
        ],
    ),
    (
        "a range that is being merged is not split, not merged, and makes no other checkpoint",
        &[
            PARTED,
            &[Merges(2, 3, None)],
            ARE_BUSY,
            &[Delivers, Delivers],
            ARE_BUSY,
            &[
                Settles,
                Merges(2, 3, Some(34)),
                Splits(2, b"c", Some(34)),
                Splits(3, b"z", Some(34)),
                Checkpoints(2, Some(34)),
                Checkpoints(3, Some(34)),
                Ends,
                Merges(2, 3, Some(30)),
            ],
        ],
    ),
];

/// With which number the event is refused, if it is. The event is handed over whole: one that lives on is dropped at each exit.
fn refusal(drive: &mut Drive, alloc: Global, event: Event) -> Result<Option<u8>, Fail> {
    let answer = drive.run.step(alloc, &event);
    drop(event);
    match answer {
        Ok(number) => Ok(number),
        Err(_) => Err(Fail::from("no memory")),
    }
}

/// Whether the event is refused with this number, or is not.
fn answers(
    drive: &mut Drive,
    alloc: Global,
    event: Event,
    wanted: Option<u8>,
) -> Result<bool, Fail> {
    Ok(refusal(drive, alloc, event)? == wanted)
}

fn split_of(range: u64, key: &'static [u8]) -> Event {
    Event::Split {
        server: ServerNo(1),
        range: RangeId(range),
        key: Bytes::from_static(key),
    }
}

fn checkpoint_in(range: u64) -> Event {
    Event::Checkpoint {
        server: ServerNo(1),
        range: RangeId(range),
        combine: false,
    }
}

fn delivers(drill: &mut Drill, alloc: Global, most: usize) -> Result<bool, Fail> {
    deliver_some(&mut drill.drive, alloc, &NONE, most)?;
    Ok(true)
}

fn ends(drill: &mut Drill, alloc: Global) -> Result<bool, Fail> {
    settle_all(drill, alloc, &NONE)?;
    Ok(true)
}

fn assigns(drill: &mut Drill, alloc: Global, range: u64) -> Result<bool, Fail> {
    assign(&mut drill.drive, alloc, RangeId(range))?;
    Ok(true)
}

fn takes(drill: &mut Drill, alloc: Global, next: Step) -> Result<bool, Fail> {
    match next {
        Step::Delivers => delivers(drill, alloc, 1),
        Step::Settles => delivers(drill, alloc, MOST_DELIVERIES),
        Step::Ends => ends(drill, alloc),
        Step::Assigns(range) => assigns(drill, alloc, range),
        Step::Splits(range, key, wanted) => {
            answers(&mut drill.drive, alloc, split_of(range, key), wanted)
        }
        Step::Merges(left, right, wanted) => {
            answers(&mut drill.drive, alloc, merge_of(left, right), wanted)
        }
        Step::Checkpoints(range, wanted) => {
            answers(&mut drill.drive, alloc, checkpoint_in(range), wanted)
        }
    }
}

/// Whether the step is to be refused.
fn is_refused(next: &Step) -> bool {
    match next {
        Step::Splits(_, _, wanted) => wanted.is_some(),
        Step::Merges(_, _, wanted) => wanted.is_some(),
        Step::Checkpoints(_, wanted) => wanted.is_some(),
        _ => false,
    }
}

/// Which steps of a case a run takes.
#[derive(Clone, Copy, PartialEq, Eq)]
enum Taken {
    All,
    /// Those that are to be refused are left out.
    Others,
}

fn take_part(drill: &mut Drill, alloc: Global, steps: &[Step], taken: Taken) -> Result<bool, Fail> {
    for next in steps {
        if taken == Taken::Others && is_refused(next) {
            continue;
        }
        if !takes(drill, alloc, *next)? {
            return Ok(false);
        }
    }
    Ok(true)
}

/// Whether the steps of a case are answered as it says.
fn take_parts(
    drill: &mut Drill,
    alloc: Global,
    parts: &[&[Step]],
    taken: Taken,
) -> Result<bool, Fail> {
    for part in parts {
        if !take_part(drill, alloc, part, taken)? {
            return Ok(false);
        }
    }
    Ok(true)
}

/// The highest range that a run comes to have.
const LAST_RANGE: u64 = 6;

/// Each range of a case has one of these.
const KEYS: [u8; 2] = [b'a', b'z'];

fn get(drive: &mut Drive, alloc: Global, range: u64, key: u8) -> Result<(), Fail> {
    let body = TableBody::Get {
        range: RangeId(range),
        key: Bytes::copy_from_slice(alloc, &[key])?,
        request: ReqNo::User { user: 1, ticket: 2 },
    };
    step(drive, alloc, asked(body))
}

fn put(drive: &mut Drive, alloc: Global, range: u64, key: u8) -> Result<(), Fail> {
    let mut changes = Vec::new(alloc);
    changes.push(change(alloc, key, Some(b'x'))?)?;
    transact(drive, alloc, RangeId(range), changes)
}

/// Each key is put and asked for in the range, and the range makes a checkpoint, where it can.
fn ask_all(drill: &mut Drill, alloc: Global, range: u64) -> Result<(), Fail> {
    for key in KEYS {
        put(&mut drill.drive, alloc, range, key)?;
        get(&mut drill.drive, alloc, range, key)?;
    }
    settle_all(drill, alloc, &NONE)?;
    step(&mut drill.drive, alloc, checkpoint_in(range))?;
    settle_all(drill, alloc, &NONE)
}

/// Each range that the map has is loaded.
fn load_all(drill: &mut Drill, alloc: Global) -> Result<(), Fail> {
    assign_all(&mut drill.drive, alloc)?;
    settle_all(drill, alloc, &NONE)
}

fn start_again(drive: &mut Drive, alloc: Global) -> Result<(), Fail> {
    let server = ActorId::Server(ServerNo(1));
    step(drive, alloc, stop_of(&server))?;
    step(drive, alloc, restart_of(&server))
}

/// What is under way ends, each range is loaded and asked for all that it does, and the server stops and loads them again. What a
/// refused event has changed of a range's phase, keys, position, indexes, numbers or jobs shows here.
fn go_on(drill: &mut Drill, alloc: Global) -> Result<(), Fail> {
    settle_all(drill, alloc, &NONE)?;
    for range in 1..=LAST_RANGE {
        ask_all(drill, alloc, range)?;
    }
    load_all(drill, alloc)?;
    for range in 1..=LAST_RANGE {
        ask_all(drill, alloc, range)?;
    }
    start_again(&mut drill.drive, alloc)?;
    load_all(drill, alloc)
}

fn take_all(
    drill: &mut Drill,
    alloc: Global,
    parts: &[&[Step]],
    taken: Taken,
) -> Result<bool, Fail> {
    if !take_parts(drill, alloc, parts, taken)? {
        return Ok(false);
    }
    go_on(drill, alloc)?;
    Ok(true)
}

/// The whole run of a case, if its steps are answered as it says.
fn played(alloc: Global, parts: &[&[Step]], taken: Taken) -> Result<Option<Drive>, Fail> {
    let mut drill = started(alloc)?;
    match take_all(&mut drill, alloc, parts, taken) {
        Ok(true) => Ok(Some(drilled(drill, Ok(()))?)),
        Ok(false) => {
            drop(drill);
            Ok(None)
        }
        Err(fail) => {
            drop(drill);
            Err(fail)
        }
    }
}

fn are_same(alloc: Global, all: Drive, others: Drive) -> Result<bool, Fail> {
    let same = is_same_run(alloc, &all.run, &others.run);
    drop(all);
    drop(others);
    same
}

/// Whether the steps of a case are answered as it says, and what follows is the same as without those that are refused.
fn goes(alloc: Global, parts: &[&[Step]]) -> Result<bool, Fail> {
    let Some(all) = played(alloc, parts, Taken::All)? else {
        return Ok(false);
    };
    match played(alloc, parts, Taken::Others) {
        Ok(Some(others)) => are_same(alloc, all, others),
        Ok(None) => {
            drop(all);
            Ok(false)
        }
        Err(fail) => {
            drop(all);
            Err(fail)
        }
    }
}

#[test]
fn refused_splits_and_merges_change_nothing(rt: HostRuntime) -> Result<(), Fail> {
    for (shows, parts) in CASES {
        assert!(rt; goes(rt.alloc(), parts)?, "{shows}");
    }
    Ok(())
}
