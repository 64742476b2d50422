//! Splits of a range, followed by hand from their beginning to the end of the range.
ghost use Rattle.std.specs.Prelude.{◌≤◌, length};

use crate::asking::{answer_of, context, number};
use crate::cases::{Case, Tested, holds};
use crate::jobs::{Answer, Sends, body_of, sends_of};
use crate::ranges::{begun, got, put_once, serves};
use bytes::Bytes;
use model_partition::{ServerContext, SplitJob};
use range_core::{Phase, RangeState};
use range_split::{SplitRoom, SplitTaken, awaits, begin, follow, give_up, reply, split_fault};
use std::alloc::Global;
use std::test::Fail;
use wire::{Packet, Refusal, StreamExtent};

/// What is done with a range or its split, or what is known of them.
pub(crate) enum Step {
    /// The range is served, and has no extent.
    Serves,
    /// A split at this key begins, under the number 3, or why none does.
    Begins(&'static [u8], Option<Refusal>),
    /// The range's request of the first number is answered, where the server's next request has the second: what is sent first.
    Range(u64, u32, Answer, Sends),
    /// The same of the split.
    Split(u64, u32, Answer, Sends),
    /// The split is answered, and the range goes with it.
    Ends(u64, u32, Answer),
    /// The split waits for an answer of this number.
    Awaits(u64),
    /// No answer comes, where the server's next request has this number: what is sent again for the split first.
    GivesUp(u32, Sends),
    /// A transaction comes, under the number 30 where it sends, and why it is refused, if it is.
    Transacts(Option<Refusal>),
    Gets(Option<Refusal>),
    /// The last extents of the range's streams are known to be sealed.
    LastsAreSealed,
    IsPaused,
    Resumes,
    Pauses,
}

/// The split has begun, and the map has told the numbers of the two.
const BEGUN: &[Step] = &[
    Step::Serves,
    Step::Begins(b"m", None),
    Step::Awaits(3),
    Step::GivesUp(4, Sends::BeginSplit),
    Step::Split(3, 4, Answer::SplitBegun, Sends::Extend),
    Step::GivesUp(99, Sends::Nothing),
];

/// The checkpoint writes its index into the extent 8 and its record into the extent 7, and trims the log.
const TRIMS: &[Step] = &[
    Step::Range(4, 5, Answer::Extended(8), Sends::Append),
    Step::Range(5, 6, Answer::Appended(8), Sends::Extend),
    Step::Range(6, 7, Answer::Extended(7), Sends::Append),
    Step::Range(7, 8, Answer::Appended(7), Sends::Other),
];

/// The checkpoint ends, and the record of the split is appended.
const RECORDS: &[Step] = &[
    Step::Range(8, 9, Answer::Trimmed, Sends::Append),
    Step::GivesUp(99, Sends::Nothing),
    Step::IsPaused,
];

/// The record stands, and the last extents of the metadata and of row data are sealed.
const SEALS: &[Step] = &[
    Step::Range(9, 10, Answer::Appended(7), Sends::SealExtent),
    Step::Awaits(11),
    Step::GivesUp(99, Sends::SealExtent),
    Step::Split(11, 12, Answer::SealedIs(9), Sends::Nothing),
    Step::Split(11, 12, Answer::Refused(Refusal::Busy), Sends::Nothing),
    Step::Split(11, 12, Answer::SealedIs(7), Sends::SealExtent),
    Step::Split(12, 13, Answer::SealedIs(8), Sends::MultiModify),
    Step::Awaits(13),
    Step::GivesUp(99, Sends::MultiModify),
];

/// The streams are built, and the keys of the two are appended.
const KEYS: &[Step] = &[
    Step::Awaits(14),
    Step::GivesUp(99, Sends::Extend),
    Step::Split(14, 15, Answer::Extended(9), Sends::Append),
    Step::Split(15, 16, Answer::Appended(9), Sends::Extend),
    Step::Split(16, 17, Answer::Extended(10), Sends::Append),
    Step::Split(17, 18, Answer::Appended(10), Sends::CompleteSplit),
    Step::Awaits(18),
    Step::GivesUp(99, Sends::CompleteSplit),
];

const BUILT: &[Step] = &[Step::Split(13, 14, Answer::Modified, Sends::Extend)];

const CASES: &[Case<Step>] = &[
    (
        "a range is split",
        &[
            BEGUN,
            TRIMS,
            RECORDS,
            SEALS,
            BUILT,
            KEYS,
            &[Step::Ends(18, 19, Answer::SplitDone)],
        ],
    ),
    (
        "no split begins of a range that is loaded, at a key that does not split it, or beside another",
        &[&[
            Step::Begins(b"m", Some(Refusal::Loading)),
            Step::Serves,
            Step::Begins(b"", Some(Refusal::BadSplitKey)),
            Step::Begins(&[b'a'; 257], Some(Refusal::BadSplitKey)),
            Step::Begins(b"m", None),
            Step::Begins(b"n", Some(Refusal::Busy)),
        ]],
    ),
    (
        "nothing is taken while a range is paused",
        &[
            BEGUN,
            TRIMS,
            RECORDS,
            &[
                Step::Begins(b"n", Some(Refusal::Paused)),
                Step::Transacts(Some(Refusal::Paused)),
                Step::Gets(Some(Refusal::Paused)),
            ],
        ],
    ),
    (
        "transactions that wait are appended first",
        &[
            BEGUN,
            &[Step::Transacts(None)],
            TRIMS,
            &[
                Step::Range(8, 9, Answer::Trimmed, Sends::Nothing),
                Step::Transacts(Some(Refusal::Paused)),
                Step::Gets(None),
                Step::GivesUp(99, Sends::Nothing),
                Step::Range(30, 31, Answer::Extended(9), Sends::Append),
                Step::Range(31, 32, Answer::Appended(9), Sends::Other),
                Step::IsPaused,
                Step::Range(33, 34, Answer::Appended(7), Sends::SealExtent),
                Step::Split(35, 36, Answer::SealedIs(7), Sends::SealExtent),
                Step::Split(36, 37, Answer::SealedIs(9), Sends::SealExtent),
                Step::Split(37, 38, Answer::SealedIs(8), Sends::MultiModify),
            ],
        ],
    ),
    (
        "extents that are sealed already are not sealed again",
        &[
            BEGUN,
            TRIMS,
            RECORDS,
            &[
                Step::LastsAreSealed,
                Step::Range(9, 10, Answer::Appended(7), Sends::MultiModify),
            ],
        ],
    ),
    (
        "streams that there are count as built",
        &[
            BEGUN,
            TRIMS,
            RECORDS,
            SEALS,
            &[Step::Split(13, 14, Answer::Refused(Refusal::NameTaken), Sends::Extend)],
            KEYS,
        ],
    ),
    (
        "a range that the map has under another generation goes",
        &[
            BEGUN,
            TRIMS,
            RECORDS,
            SEALS,
            BUILT,
            KEYS,
            &[Step::Ends(18, 19, Answer::Refused(Refusal::GenerationChanged))],
        ],
    ),
    (
        "a range of an old generation goes",
        &[
            BEGUN,
            TRIMS,
            RECORDS,
            SEALS,
            &[Step::Ends(13, 14, Answer::Refused(Refusal::Stale))],
        ],
    ),
    (
        "a range whose keys are refused as those of an old generation goes",
        &[
            BEGUN,
            TRIMS,
            RECORDS,
            SEALS,
            BUILT,
            &[Step::Ends(14, 15, Answer::Refused(Refusal::Stale))],
        ],
    ),
    (
        "keys that are not answered are appended to another extent",
        &[
            BEGUN,
            TRIMS,
            RECORDS,
            SEALS,
            BUILT,
            &[
                Step::Split(14, 15, Answer::Extended(9), Sends::Append),
                Step::GivesUp(16, Sends::SealExtent),
                Step::Split(16, 17, Answer::SealedIs(9), Sends::Extend),
                Step::Split(17, 18, Answer::Extended(10), Sends::Append),
                Step::Split(18, 19, Answer::Appended(10), Sends::Extend),
            ],
        ],
    ),
    (
        "a range that is paused goes on where it is resumed",
        &[&[
            Step::Serves,
            Step::Pauses,
            Step::IsPaused,
            Step::Gets(Some(Refusal::Paused)),
            Step::Resumes,
            Step::Gets(None),
        ]],
    ),
];

/// A range, and its split, if one is under way.
#[derive(Drop)]
struct Splitting {
    state: RangeState,
    job: Option<SplitJob>,
}

/// Why no split begins, if none does.
fn split_begun(splitting: &mut Splitting, key: &'static [u8]) -> Result<Option<Refusal>, Fail> {
    let key = Bytes::from_static(key);
    let splits = splitting.job.is_some();
    if let Some(refusal) = split_fault(&splitting.state, splits, &key) {
        return Ok(Some(refusal));
    }
    let (job, packet) = begin(&context(3, 1), &splitting.state, &key)?;
    drop(packet);
    splitting.job = Some(job);
    Ok(None)
}

/// What is sent first behind a step of the range that left this number and these packets.
fn followed(
    state: &mut RangeState,
    job: &mut SplitJob,
    alloc: Global,
    count: u64,
    sent: Vec<Packet>,
) -> Result<Sends, Fail>
    requires { length sent.items ≤ 1400 }
{
    let told = ServerContext {
        count,
        ..context(1, 1)
    };
    match SplitRoom::for_step(alloc, job)? {
        None => Ok(sends_of(&sent)),
        Some(room) => {
            let taken = follow(&told, state, job, room, sent);
            Ok(sends_of(&taken.packets))
        }
    }
}

/// What is sent first where the range's request is answered.
fn range_sends(
    splitting: &mut Splitting,
    alloc: Global,
    asked: u64,
    count: u32,
    answer: &Answer,
) -> Result<Sends, Fail> {
    let request = number(asked);
    let packet = answer_of(body_of(request, answer));
    let taken = splitting
        .state
        .answer(alloc, &context(count, 1), &request, &packet);
    drop(packet);
    let taken = taken?;
    let count = taken.count;
    let (packets, notes) = taken.into_parts();
    drop(notes);
    match &mut splitting.job {
        None => Ok(sends_of(&packets)),
        Some(job) => followed(&mut splitting.state, job, alloc, count, packets),
    }
}

/// What the split does with an answer, if there is one.
fn split_taken(
    splitting: &mut Splitting,
    alloc: Global,
    asked: u64,
    count: u32,
    answer: &Answer,
) -> Result<Option<SplitTaken>, Fail> {
    let packet = answer_of(body_of(number(asked), answer));
    match &mut splitting.job {
        None => Ok(None),
        Some(job) => {
            let taken = reply(
                alloc,
                &context(count, 1),
                &mut splitting.state,
                job,
                &packet,
            );
            Ok(Some(taken?))
        }
    }
}

fn split_awaits(splitting: &Splitting, asked: u64) -> bool {
    match &splitting.job {
        None => false,
        Some(job) => awaits(job, &number(asked)),
    }
}

/// What the split sends again first.
fn sends_again(splitting: &mut Splitting, alloc: Global, count: u32) -> Result<Sends, Fail> {
    match &mut splitting.job {
        None => Ok(Sends::Nothing),
        Some(job) => {
            let room = SplitRoom::for_give_up(alloc, job)?;
            let sent = Vec::new(alloc);
            let taken = give_up(&context(count, 1), &splitting.state, job, room, sent);
            Ok(sends_of(&taken.packets))
        }
    }
}

fn seal_last(extents: &mut Vec<StreamExtent>) {
    let count = extents.len();
    if count == 0 {
        return;
    }
    let mut last = extents[count - 1];
    last.length = Some(100);
    extents[count - 1] = last;
}

pub(crate) fn lasts_are_sealed(state: &mut RangeState) {
    seal_last(&mut state.content.metadata.extents);
    seal_last(&mut state.content.rows.extents);
}

fn is_sent(taken: &Option<SplitTaken>, first: Sends) -> bool {
    match taken {
        None => false,
        Some(taken) => !taken.dropped && !taken.ended && sends_of(&taken.packets) == first,
    }
}

fn ends(taken: &Option<SplitTaken>) -> bool {
    match taken {
        None => false,
        Some(taken) => taken.dropped && taken.ended,
    }
}

impl Tested for Splitting {
    type Step = Step;

    fn takes(&mut self, alloc: Global, step: &Step) -> Result<bool, Fail> {
        match step {
            Step::Serves => serves(&mut self.state, alloc),
            Step::Begins(key, refusal) => Ok(split_begun(self, *key)? == *refusal),
            Step::Range(asked, count, answer, first) => {
                Ok(range_sends(self, alloc, *asked, *count, answer)? == *first)
            }
            Step::Split(asked, count, answer, first) => {
                let taken = split_taken(self, alloc, *asked, *count, answer)?;
                Ok(is_sent(&taken, *first))
            }
            Step::Ends(asked, count, answer) => {
                let taken = split_taken(self, alloc, *asked, *count, answer)?;
                Ok(ends(&taken))
            }
            Step::Awaits(asked) => Ok(split_awaits(self, *asked)),
            Step::GivesUp(count, first) => Ok(sends_again(self, alloc, *count)? == *first),
            Step::Transacts(refusal) => {
                Ok(put_once(&mut self.state, alloc, 30, b"a")? == *refusal)
            }
            Step::Gets(refusal) => Ok(got(&mut self.state, alloc, 1, b"a")? == *refusal),
            Step::LastsAreSealed => {
                lasts_are_sealed(&mut self.state);
                Ok(true)
            }
            Step::IsPaused => Ok(self.state.phase() == Phase::Paused),
            Step::Pauses => {
                self.state.pause();
                Ok(true)
            }
            Step::Resumes => {
                self.state.resume();
                Ok(true)
            }
        }
    }
}

#[test]
fn splits_go_as_their_cases_say(rt: HostRuntime) -> Result<(), Fail> {
    for (name, parts) in CASES {
        let splitting = Splitting {
            state: begun(rt.alloc())?,
            job: None,
        };
        assert!(rt; holds(rt.alloc(), splitting, *parts)?, "{name}");
    }
    Ok(())
}
