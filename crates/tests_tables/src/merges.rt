//! Merges of two ranges, followed by hand from their beginning to the end of both.
ghost use Rattle.std.specs.Prelude.{◌≤◌, length, IfOk};

use crate::asking::{answer_of, context, number};
use crate::cases::{Case, Tested, holds};
use crate::gets::install;
use crate::jobs::{Answer, Sends, body_of, sends_of};
use crate::ranges::{got, put_once, serves};
use crate::records::INDEX;
use crate::splits::lasts_are_sealed;
use Answer::{
    Appended, Created, Extended, MergeBegun, MergeDone, Modified, Refused, SealedIs, Trimmed,
};
use Step::{
    ArePaused, Begins, Frees, Gets, GivesUp, HasIndexes, LastsAreSealed, Leaves, OfLeft, OfRight,
    Pauses, Serves, Tells, Transacts,
};
use bytes::Bytes;
use model_partition::{MergeJob, MergeSide, ServerContext};
use range_core::{Phase, RangeState, RangeStep};
use range_merge::{
    MergeFollowUp, MergeRoom, MergeTaken, StepBehind, awaits, begin, follow, free, give_up,
    left_trim, left_trimmed, merge_fault, reply,
};
use std::alloc::Global;
use std::test::Fail;
use wire::{Fence, Packet, RangeId, Refusal};

const LEFT: MergeSide = MergeSide::Left;

const RIGHT: MergeSide = MergeSide::Right;

/// What is done with two ranges or their merge, or what is known of them.
pub(crate) enum Step {
    /// The range is served, and has no extent.
    Serves(MergeSide),
    /// A merge begins, under the number 3, or why none does.
    Begins(Option<Refusal>),
    /// The left range's request of the first number is answered, where the server's next request has the second: what is sent first.
    OfLeft(u64, u32, Answer, Sends),
    /// The same of the right one.
    OfRight(u64, u32, Answer, Sends),
    /// The same of the merge.
    Tells(u64, u32, Answer, Sends),
    /// The merge is answered, and ends: whether the left range goes with it, and whether the right one does.
    Leaves(u64, u32, Answer, bool, bool),
    /// No answer comes, where the server's next request has this number: what is sent again for the merge first.
    GivesUp(u32, Sends),
    /// A transaction comes, under the number 30 where it sends, and why it is refused, if it is.
    Transacts(MergeSide, Option<Refusal>),
    Gets(MergeSide, Option<Refusal>),
    /// The range has so many indexes more.
    HasIndexes(MergeSide, usize),
    /// The last extents of the ranges' streams are known to be sealed.
    LastsAreSealed,
    ArePaused,
    Pauses(MergeSide),
    /// The range's merge is no more.
    Frees(MergeSide),
}

const SERVED: &[Step] = &[Serves(LEFT), Serves(RIGHT)];

/// The merge has begun, and the map has told the number of the new range.
const BEGUN: &[Step] = &[
    Begins(None),
    GivesUp(4, Sends::BeginMerge),
    Tells(3, 4, Refused(Refusal::Busy), Sends::Nothing),
    Tells(3, 4, MergeBegun, Sends::Extend),
    GivesUp(99, Sends::Nothing),
];

/// The checkpoint of the left range writes its index into the extent 8 and its record into the extent 7, and trims the log: then that
/// of the right one begins.
const LEFT_TRIMS: &[Step] = &[
    OfLeft(4, 5, Extended(8), Sends::Append),
    OfLeft(5, 6, Appended(8), Sends::Extend),
    OfLeft(6, 7, Extended(7), Sends::Append),
    OfLeft(7, 8, Appended(7), Sends::Other),
    OfLeft(8, 9, Trimmed, Sends::Extend),
    GivesUp(99, Sends::Nothing),
];

/// The same into the extents 18 and 17.
const RIGHT_WRITES: &[Step] = &[
    OfRight(9, 10, Extended(18), Sends::Append),
    OfRight(10, 11, Appended(18), Sends::Extend),
    OfRight(11, 12, Extended(17), Sends::Append),
    OfRight(12, 13, Appended(17), Sends::Other),
];

/// The right log is trimmed: both ranges are paused, and the last extent of the left row data is to be sealed.
const RIGHT_TRIMS: &[Step] = &[
    OfRight(13, 14, Trimmed, Sends::SealExtent),
    ArePaused,
    GivesUp(99, Sends::SealExtent),
];

/// Both last extents are sealed.
const SEALS: &[Step] = &[
    Tells(14, 15, SealedIs(9), Sends::Nothing),
    Tells(14, 15, Refused(Refusal::Busy), Sends::Nothing),
    Tells(14, 15, SealedIs(8), Sends::SealExtent),
    Tells(15, 16, SealedIs(18), Sends::MultiModify),
    GivesUp(99, Sends::MultiModify),
];

/// The new range's metadata is there, and both records are appended to it.
const RECORDS: &[Step] = &[
    GivesUp(99, Sends::Extend),
    Tells(18, 19, Extended(30), Sends::Append),
    Tells(19, 20, Appended(30), Sends::Append),
    Tells(20, 21, Appended(30), Sends::CompleteMerge),
    GivesUp(99, Sends::CompleteMerge),
    Tells(21, 22, Refused(Refusal::Busy), Sends::Nothing),
];

const BUILT: &[Step] = &[
    Tells(16, 17, Modified, Sends::CreateStream),
    GivesUp(99, Sends::CreateStream),
];

const CREATED: &[Step] = &[Tells(17, 18, Created, Sends::Extend)];

const CASES: &[Case<Step>] = &[
    (
        "two ranges are merged",
        &[
            SERVED,
            BEGUN,
            LEFT_TRIMS,
            RIGHT_WRITES,
            RIGHT_TRIMS,
            SEALS,
            BUILT,
            CREATED,
            RECORDS,
            &[Leaves(21, 22, MergeDone, true, true)],
        ],
    ),
    (
        "no merge begins while either is loaded or paused",
        &[&[
            Begins(Some(Refusal::Loading)),
            Serves(LEFT),
            Begins(Some(Refusal::Loading)),
            Serves(RIGHT),
            Pauses(RIGHT),
            Begins(Some(Refusal::Paused)),
            Pauses(LEFT),
            Begins(Some(Refusal::Paused)),
        ]],
    ),
    (
        "no merge of more than 64 indexes begins",
        &[
            SERVED,
            &[
                HasIndexes(LEFT, 40),
                HasIndexes(RIGHT, 25),
                Begins(Some(Refusal::TooLarge)),
            ],
        ],
    ),
    (
        "one of 64 indexes begins, and no other beside it",
        &[
            SERVED,
            &[
                HasIndexes(LEFT, 40),
                HasIndexes(RIGHT, 24),
                Begins(None),
                Begins(Some(Refusal::Busy)),
            ],
        ],
    ),
    (
        "a merge that the map does not begin ends, and both ranges are served on",
        &[
            SERVED,
            &[
                Begins(None),
                Leaves(3, 4, Refused(Refusal::NotOwner), false, false),
                Begins(None),
                Leaves(3, 4, Refused(Refusal::NotAdjacent), false, false),
                Begins(None),
                Leaves(3, 4, Refused(Refusal::GenerationChanged), false, false),
                Transacts(LEFT, None),
                Transacts(RIGHT, None),
            ],
        ],
    ),
    (
        "a left range of an old generation goes where the map begins no merge of it, and the right one is served on",
        &[
            SERVED,
            &[
                Begins(None),
                Leaves(3, 4, Refused(Refusal::Stale), true, false),
                Transacts(RIGHT, None),
            ],
        ],
    ),
    (
        "transactions that wait are appended first, at either range",
        &[
            SERVED,
            BEGUN,
            &[Transacts(LEFT, None)],
            LEFT_TRIMS,
            RIGHT_WRITES,
            &[
                OfRight(13, 14, Trimmed, Sends::Nothing),
                Transacts(LEFT, Some(Refusal::Paused)),
                Transacts(RIGHT, Some(Refusal::Paused)),
                Gets(LEFT, None),
                Gets(RIGHT, Some(Refusal::Paused)),
                GivesUp(99, Sends::Nothing),
                OfLeft(30, 31, Extended(9), Sends::Append),
                OfLeft(31, 32, Appended(9), Sends::Other),
                ArePaused,
                Tells(33, 34, SealedIs(9), Sends::SealExtent),
                Tells(34, 35, SealedIs(8), Sends::SealExtent),
                Tells(35, 36, SealedIs(18), Sends::MultiModify),
            ],
        ],
    ),
    (
        "extents that are sealed already are not sealed again",
        &[
            SERVED,
            BEGUN,
            LEFT_TRIMS,
            RIGHT_WRITES,
            &[LastsAreSealed, OfRight(13, 14, Trimmed, Sends::MultiModify)],
        ],
    ),
    (
        "streams that there are count as built and as made",
        &[
            SERVED,
            BEGUN,
            LEFT_TRIMS,
            RIGHT_WRITES,
            RIGHT_TRIMS,
            SEALS,
            &[
                Tells(16, 17, Refused(Refusal::NameTaken), Sends::CreateStream),
                Tells(17, 18, Refused(Refusal::NameTaken), Sends::Extend),
            ],
            RECORDS,
            &[Leaves(21, 22, Refused(Refusal::GenerationChanged), true, true)],
        ],
    ),
    (
        "a left range of an old generation goes, and the other stays paused",
        &[
            SERVED,
            BEGUN,
            LEFT_TRIMS,
            RIGHT_WRITES,
            RIGHT_TRIMS,
            &[
                Leaves(14, 15, Refused(Refusal::Stale), true, false),
                Gets(RIGHT, Some(Refusal::Paused)),
            ],
        ],
    ),
    (
        "a right range of an old generation goes, and the other stays paused",
        &[
            SERVED,
            BEGUN,
            LEFT_TRIMS,
            RIGHT_WRITES,
            RIGHT_TRIMS,
            &[
                Tells(14, 15, SealedIs(8), Sends::SealExtent),
                Leaves(15, 16, Refused(Refusal::Stale), false, true),
                Gets(LEFT, Some(Refusal::Paused)),
            ],
        ],
    ),
    (
        "both go where the streams of the new range are of an old generation",
        &[
            SERVED,
            BEGUN,
            LEFT_TRIMS,
            RIGHT_WRITES,
            RIGHT_TRIMS,
            SEALS,
            &[Leaves(16, 17, Refused(Refusal::Stale), true, true)],
        ],
    ),
    (
        "both go where its metadata is",
        &[
            SERVED,
            BEGUN,
            LEFT_TRIMS,
            RIGHT_WRITES,
            RIGHT_TRIMS,
            SEALS,
            BUILT,
            &[Leaves(17, 18, Refused(Refusal::Stale), true, true)],
        ],
    ),
    (
        "both go where a record of it is refused as one of an old generation",
        &[
            SERVED,
            BEGUN,
            LEFT_TRIMS,
            RIGHT_WRITES,
            RIGHT_TRIMS,
            SEALS,
            BUILT,
            CREATED,
            &[Leaves(18, 19, Refused(Refusal::Stale), true, true)],
        ],
    ),
    (
        "a record that is not answered is appended to another extent",
        &[
            SERVED,
            BEGUN,
            LEFT_TRIMS,
            RIGHT_WRITES,
            RIGHT_TRIMS,
            SEALS,
            BUILT,
            CREATED,
            &[
                Tells(18, 19, Extended(30), Sends::Append),
                GivesUp(20, Sends::SealExtent),
                Tells(20, 21, SealedIs(30), Sends::Extend),
                Tells(21, 22, Extended(31), Sends::Append),
                Tells(22, 23, Appended(31), Sends::Append),
            ],
        ],
    ),
    (
        "a range whose merge is no more stays paused, or takes transactions again",
        &[
            SERVED,
            &[
                Transacts(LEFT, None),
                Pauses(LEFT),
                Transacts(LEFT, Some(Refusal::Paused)),
                Frees(LEFT),
                Transacts(LEFT, None),
                Pauses(RIGHT),
                Frees(RIGHT),
                Transacts(RIGHT, Some(Refusal::Paused)),
            ],
        ],
    ),
];

/// Two ranges.
#[derive(Drop)]
struct Two {
    left: RangeState,
    right: RangeState,
}

/// Two ranges, and their merge, if one is under way.
#[derive(Drop)]
struct Merging {
    two: Two,
    job: Option<MergeJob>,
}

/// The range is served, the left one with the keys below `m`, and the right one with those from it on.
fn side_serves(two: &mut Two, alloc: Global, side: MergeSide) -> Result<bool, Fail> {
    match side {
        MergeSide::Left => {
            let served = serves(&mut two.left, alloc);
            two.left.content.said.keys.high = Some(Bytes::from_static(b"m"));
            served
        }
        MergeSide::Right => {
            let served = serves(&mut two.right, alloc);
            two.right.content.said.keys.low = Bytes::from_static(b"m");
            served
        }
    }
}

/// Why no merge begins, if none does.
fn merge_begun(merging: &mut Merging) -> Option<Refusal> {
    let merges = merging.job.is_some();
    if let Some(refusal) = merge_fault(&merging.two.left, &merging.two.right, merges, merges) {
        return Some(refusal);
    }
    let (job, packet) = begin(&context(3, 1), &merging.two.left, &merging.two.right);
    drop(packet);
    merging.job = Some(job);
    None
}

/// What is sent first behind a step of the range of this side, which sent these.
fn followed(
    two: &mut Two,
    job: &mut MergeJob,
    alloc: Global,
    told: &ServerContext,
    side: MergeSide,
    sent: Vec<Packet>,
) -> Result<Sends, Fail>
    requires { length sent.items ≤ 1400 }
{
    match MergeRoom::for_step(alloc, job)? {
        None => Ok(sends_of(&sent)),
        Some(room) => {
            let behind = StepBehind { side, room, sent };
            let MergeFollowUp { taken, pauses } = follow(told, &two.left, &two.right, job, behind);
            if pauses {
                two.left.pause();
                two.right.pause();
            }
            Ok(sends_of(&taken.packets))
        }
    }
}

/// What a range does with an answer.
fn range_taken(
    state: &mut RangeState,
    alloc: Global,
    asked: u64,
    count: u32,
    answer: &Answer,
) -> Result<RangeStep, Fail>
    ensures { IfOk result (λ taken. length taken.packets ≤ 1400) }
{
    let request = number(asked);
    let packet = answer_of(body_of(request, answer));
    let taken = state.answer(alloc, &context(count, 1), &request, &packet);
    drop(packet);
    Ok(taken?)
}

/// What is sent first behind a range's step that left this.
fn step_followed(
    merging: &mut Merging,
    alloc: Global,
    side: MergeSide,
    taken: RangeStep,
) -> Result<Sends, Fail>
    requires { length taken.packets ≤ 1400 }
{
    let count = taken.count;
    let (packets, notes) = taken.into_parts();
    drop(notes);
    let told = ServerContext {
        count,
        ..context(1, 1)
    };
    match &mut merging.job {
        None => Ok(sends_of(&packets)),
        Some(job) => followed(&mut merging.two, job, alloc, &told, side, packets),
    }
}

/// The Trim with which the checkpoint of the left range ends, if this is the answer to it.
fn trim_of(merging: &Merging, asked: u64, answer: &Answer) -> Option<(u64, bool)> {
    let request = number(asked);
    let body = body_of(request, answer);
    match &merging.job {
        None => None,
        Some(job) => left_trim(job, &merging.two.left, &request, &body),
    }
}

/// What is sent first where the checkpoint of the left range ends.
fn right_begins(
    merging: &mut Merging,
    alloc: Global,
    count: u32,
    trim: (u64, bool),
) -> Result<Sends, Fail> {
    match &mut merging.job {
        None => Ok(Sends::Nothing),
        Some(job) => {
            let told = context(count, 1);
            let Two { left, right } = &mut merging.two;
            let taken = left_trimmed(alloc, &told, left, right, job, trim)?;
            Ok(sends_of(&taken.packets))
        }
    }
}

/// What is sent first where the left range's request is answered.
fn left_sends(
    merging: &mut Merging,
    alloc: Global,
    asked: u64,
    count: u32,
    answer: &Answer,
) -> Result<Sends, Fail> {
    match trim_of(merging, asked, answer) {
        Some(trim) => right_begins(merging, alloc, count, trim),
        None => {
            let taken = range_taken(&mut merging.two.left, alloc, asked, count, answer)?;
            step_followed(merging, alloc, MergeSide::Left, taken)
        }
    }
}

fn right_sends(
    merging: &mut Merging,
    alloc: Global,
    asked: u64,
    count: u32,
    answer: &Answer,
) -> Result<Sends, Fail> {
    let taken = range_taken(&mut merging.two.right, alloc, asked, count, answer)?;
    step_followed(merging, alloc, MergeSide::Right, taken)
}

/// What the merge does with an answer, if it waits for it.
fn merge_taken(
    merging: &mut Merging,
    alloc: Global,
    asked: u64,
    count: u32,
    answer: &Answer,
) -> Result<Option<MergeTaken>, Fail> {
    let request = number(asked);
    let packet = answer_of(body_of(request, answer));
    match &mut merging.job {
        Some(job) if awaits(job, &request) => {
            let told = context(count, 1);
            let Two { left, right } = &mut merging.two;
            let taken = reply(alloc, &told, left, right, job, &packet);
            Ok(Some(taken?))
        }
        _ => Ok(None),
    }
}

/// What the merge sends again first.
fn sends_again(merging: &mut Merging, alloc: Global, count: u32) -> Result<Sends, Fail> {
    match &mut merging.job {
        None => Ok(Sends::Nothing),
        Some(job) => {
            let room = MergeRoom::for_give_up(alloc, job)?;
            let told = context(count, 1);
            let sent = Vec::new(alloc);
            let taken = give_up(
                &told,
                &merging.two.left,
                &merging.two.right,
                job,
                room,
                sent,
            );
            Ok(sends_of(&taken.packets))
        }
    }
}

fn is_sent(taken: &Option<MergeTaken>, first: Sends) -> bool {
    match taken {
        None => false,
        Some(taken) => {
            !taken.left_dropped
                && !taken.right_dropped
                && !taken.ended
                && sends_of(&taken.packets) == first
        }
    }
}

fn is_end(taken: &Option<MergeTaken>, left_goes: bool, right_goes: bool) -> bool {
    match taken {
        None => false,
        Some(taken) => {
            taken.ended && taken.left_dropped == left_goes && taken.right_dropped == right_goes
        }
    }
}

fn transacted(two: &mut Two, alloc: Global, side: MergeSide) -> Result<Option<Refusal>, Fail> {
    match side {
        MergeSide::Left => put_once(&mut two.left, alloc, 30, b"a"),
        MergeSide::Right => put_once(&mut two.right, alloc, 30, b"z"),
    }
}

fn side_got(two: &mut Two, alloc: Global, side: MergeSide) -> Result<Option<Refusal>, Fail> {
    match side {
        MergeSide::Left => got(&mut two.left, alloc, 1, b"a"),
        MergeSide::Right => got(&mut two.right, alloc, 1, b"z"),
    }
}

fn installs(state: &mut RangeState, alloc: Global, count: usize) -> Result<bool, Fail> {
    for _ in 0..count {
        install(alloc, &mut state.content.indexes, INDEX)?;
    }
    Ok(true)
}

fn side_installs(
    two: &mut Two,
    alloc: Global,
    side: MergeSide,
    count: usize,
) -> Result<bool, Fail> {
    match side {
        MergeSide::Left => installs(&mut two.left, alloc, count),
        MergeSide::Right => installs(&mut two.right, alloc, count),
    }
}

fn are_paused(two: &Two) -> bool {
    two.left.phase() == Phase::Paused && two.right.phase() == Phase::Paused
}

fn side_pauses(two: &mut Two, side: MergeSide) {
    match side {
        MergeSide::Left => two.left.pause(),
        MergeSide::Right => two.right.pause(),
    }
}

fn side_frees(two: &mut Two, side: MergeSide) {
    match side {
        MergeSide::Left => free(&mut two.left),
        MergeSide::Right => free(&mut two.right),
    }
}

impl Tested for Merging {
    type Step = Step;

    fn takes(&mut self, alloc: Global, step: &Step) -> Result<bool, Fail> {
        match step {
            Step::Serves(side) => side_serves(&mut self.two, alloc, *side),
            Step::Begins(refusal) => Ok(merge_begun(self) == *refusal),
            Step::OfLeft(asked, count, answer, first) => {
                Ok(left_sends(self, alloc, *asked, *count, answer)? == *first)
            }
            Step::OfRight(asked, count, answer, first) => {
                Ok(right_sends(self, alloc, *asked, *count, answer)? == *first)
            }
            Step::Tells(asked, count, answer, first) => {
                let taken = merge_taken(self, alloc, *asked, *count, answer)?;
                Ok(is_sent(&taken, *first))
            }
            Step::Leaves(asked, count, answer, left_goes, right_goes) => {
                let taken = merge_taken(self, alloc, *asked, *count, answer)?;
                self.job = None;
                Ok(is_end(&taken, *left_goes, *right_goes))
            }
            Step::GivesUp(count, first) => Ok(sends_again(self, alloc, *count)? == *first),
            Step::Transacts(side, refusal) => {
                Ok(transacted(&mut self.two, alloc, *side)? == *refusal)
            }
            Step::Gets(side, refusal) => Ok(side_got(&mut self.two, alloc, *side)? == *refusal),
            Step::HasIndexes(side, count) => side_installs(&mut self.two, alloc, *side, *count),
            Step::LastsAreSealed => {
                lasts_are_sealed(&mut self.two.left);
                lasts_are_sealed(&mut self.two.right);
                Ok(true)
            }
            Step::ArePaused => Ok(are_paused(&self.two)),
            Step::Pauses(side) => {
                side_pauses(&mut self.two, *side);
                Ok(true)
            }
            Step::Frees(side) => {
                side_frees(&mut self.two, *side);
                Ok(true)
            }
        }
    }
}

/// A range of this number and generation, whose streams are asked for under the number 1.
fn assigned(alloc: Global, range: u64) -> Result<RangeState, Fail> {
    let (state, packet) = RangeState::assign(
        alloc,
        &context(1, 1),
        RangeId(range),
        Fence(range),
        100,
    )?;
    drop(packet);
    Ok(state)
}

fn two_assigned(alloc: Global) -> Result<Merging, Fail> {
    let left = assigned(alloc, 2)?;
    let right = assigned(alloc, 3)?;
    Ok(Merging {
        two: Two { left, right },
        job: None,
    })
}

#[test]
fn merges_go_as_their_cases_say(rt: HostRuntime) -> Result<(), Fail> {
    for (name, parts) in CASES {
        let start = two_assigned(rt.alloc())?;
        assert!(rt; holds(rt.alloc(), start, *parts)?, "{name}");
    }
    Ok(())
}
