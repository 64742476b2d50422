//! What no clause says: that calls succeed where there is memory, and each refusal once.
ghost use Rattle.std.specs.Prelude.{◌+◌, ◌<◌, ◌^◌};

mod answers;

use crate::asking::{answer_of, context, number, puts};
use crate::cases::{Case, Tested, holds};
use crate::groups::pushes;
use answers::{Answer, appended, body_of};
use bytes::Bytes;
use model_partition::ServerContext;
use range_core::{Phase, RangeState, RangeStep, Waiter};
use std::alloc::Global;
use std::test::Fail;
use streams::Position;
use wire::{ActorId, AppendBody, Body, Changes, Fence, RangeId, Refusal, ReqNo};

/// What is done with a range, or what is known of it.
pub(crate) enum Step {
    /// The request of the first number is answered, where the server's next request has the second. Whether the range is dropped.
    Answered(u64, u32, Answer, bool),
    /// At a moment, a key, the length of each value, and how many changes are put there. Why they are refused, if they are.
    Transacts(u64, &'static [u8], usize, usize, Option<Refusal>),
    /// So many transactions of one byte at `a` are taken.
    TakesMany(u32),
    /// At a moment, the key of a Get, and why it is refused, if it is.
    Gets(u64, &'static [u8], Option<Refusal>),
    /// The lease ends at this moment.
    Renews(u64),
    /// No answer comes, and so many packets are sent.
    GivesUp(usize),
    /// The load itself goes on by the answer to the request of the first number, where the server's next request has the second.
    Loads(u64, u32, Answer),
    /// A transaction of this ticket is queued, and no group is formed yet.
    Queues(u64),
    /// The next group is formed, if one is, and so many transactions are shown as begun.
    Forms(usize),
    /// The append of this number is answered: the group that is out stands at this offset, and so many packets are sent, to users and
    /// for the next group.
    LogDone(u64, u32, usize),
    /// The number of the next transaction.
    Next(u64),
    /// The index and the offset of the end of what was appended and acknowledged.
    EndsAt(u64, u32),
    /// The request of this number is awaited.
    Awaits(u64),
    /// So many are refused.
    Refuses(usize),
    /// A checkpoint begins, or why none does.
    Checkpoints(Option<Refusal>),
    IsLoading,
    IsCheckpointing,
    /// It is served, has nothing in it, and tells what it was assigned as.
    IsEmpty,
}

/// The range is served, and has no extent.
const SERVED: &[Step] = &[
    Step::Answered(1, 2, Answer::Empty, false),
    Step::Answered(2, 3, Answer::Confirmed, false),
];

/// The range is served, and has the keys below `m`.
const SERVED_BELOW_M: &[Step] = &[
    Step::Answered(1, 2, Answer::Metadata(15), false),
    Step::Answered(
        2,
        3,
        Answer::Group(&[0, 0, 0, 0, 0, 0, 0, 1, 1, 0, 0, 1, 0, 1, b'm']),
        false,
    ),
    Step::Answered(3, 5, Answer::Confirmed, false),
];

const CASES: &[Case<Step>] = &[
    (
        "transactions are refused by name",
        &[
            SERVED_BELOW_M,
            &[
                Step::Transacts(100, b"a", 1, 1, Some(Refusal::LeaseEnded)),
                Step::Transacts(1, b"a", 1, 0, Some(Refusal::TooLarge)),
                Step::Transacts(1, b"a", 1, 33, Some(Refusal::TooLarge)),
                Step::Transacts(1, b"", 1, 1, Some(Refusal::BadKey)),
                Step::Transacts(1, &[b'a'; 257], 1, 1, Some(Refusal::BadKey)),
                Step::Transacts(1, b"a", 65_537, 1, Some(Refusal::TooLarge)),
                Step::Transacts(1, b"m", 1, 1, Some(Refusal::OutOfRange)),
                Step::Next(1),
                Step::Transacts(99, b"a", 65_536, 32, None),
                Step::Next(2),
            ],
        ],
    ),
    (
        "a range that is loaded refuses",
        &[&[
            Step::Transacts(1, b"a", 1, 1, Some(Refusal::Loading)),
            Step::Gets(1, b"a", Some(Refusal::Loading)),
        ]],
    ),
    (
        "no more than 1,024 wait",
        &[
            SERVED,
            &[
                Step::TakesMany(1_024),
                Step::Transacts(1, b"a", 1, 1, Some(Refusal::Busy)),
                Step::Refuses(1_024),
            ],
        ],
    ),
    (
        "Gets are refused by name",
        &[
            SERVED_BELOW_M,
            &[
                Step::Gets(100, b"a", Some(Refusal::LeaseEnded)),
                Step::Gets(1, b"", Some(Refusal::BadKey)),
                Step::Gets(1, b"z", Some(Refusal::OutOfRange)),
                Step::Renews(200),
                Step::Gets(100, b"a", None),
            ],
        ],
    ),
    (
        "a damaged log drops the range",
        &[&[
            Step::Answered(1, 2, Answer::Log(3), false),
            Step::Answered(2, 3, Answer::Group(b"bad"), true),
        ]],
    ),
    (
        "damaged metadata drops the range",
        &[&[
            Step::Answered(1, 2, Answer::Metadata(3), false),
            Step::Answered(2, 3, Answer::Group(b"bad"), true),
        ]],
    ),
    (
        "a range is known by its readers",
        &[&[Step::IsLoading], SERVED, &[Step::IsEmpty]],
    ),
    (
        "a load goes on by its own answers",
        &[&[
            Step::Loads(1, 2, Answer::Empty),
            Step::IsLoading,
            Step::Loads(2, 3, Answer::Confirmed),
            Step::IsEmpty,
        ]],
    ),
    (
        "a group is formed of those that wait",
        &[
            SERVED,
            &[
                Step::Forms(0),
                Step::Queues(1),
                Step::Queues(2),
                Step::Queues(3),
                Step::Forms(2),
                Step::Next(3),
                Step::Forms(0),
            ],
        ],
    ),
    (
        "a group that stands is answered, and the next one is formed",
        &[
            SERVED,
            &[
                Step::Transacts(1, b"a", 1, 1, None),
                Step::Transacts(1, b"a", 1, 1, None),
                Step::Answered(9, 10, Answer::Extended, false),
                Step::LogDone(10, 100, 2),
                Step::EndsAt(0, 124),
                Step::Next(3),
            ],
        ],
    ),
    (
        "a checkpoint begins where none is under way, and is asked for again",
        &[
            &[Step::Checkpoints(Some(Refusal::Loading))],
            SERVED,
            &[
                Step::Checkpoints(None),
                Step::IsCheckpointing,
                Step::Checkpoints(Some(Refusal::Busy)),
                Step::Awaits(9),
                Step::GivesUp(1),
            ],
        ],
    ),
    (
        "a group that is not answered is asked for again",
        &[
            SERVED,
            &[
                Step::Transacts(1, b"a", 1, 1, None),
                Step::Awaits(9),
                Step::GivesUp(1),
            ],
        ],
    ),
];

const USER: ActorId = ActorId::User(7);

const TICKET: ReqNo = ReqNo::User { user: 7, ticket: 0 };

/// A range under the generation 2 and a lease up to the moment 100, whose streams are asked for under the number 1.
pub(crate) fn begun(alloc: Global) -> Result<RangeState, Fail> {
    let (state, packet) = RangeState::assign(alloc, &context(1, 1), RangeId(1), Fence(2), 100)?;
    drop(packet);
    Ok(state)
}

/// Whether an answer drops the range.
fn drops(
    state: &mut RangeState,
    alloc: Global,
    asked: u64,
    count: u32,
    answer: &Answer,
) -> Result<bool, Fail> {
    let request = number(asked);
    let packet = answer_of(body_of(alloc, request, answer)?);
    let taken = state.answer(alloc, &context(count, 1), &request, &packet);
    drop(packet);
    Ok(taken?.dropped)
}

/// Why the first packet refuses, if it does.
fn refusal_of(taken: &RangeStep) -> Option<Refusal> {
    match taken.packets.as_slice() {
        [packet, ..] => match &packet.body {
            Body::Append(AppendBody::Refused { refusal, .. }) => Some(*refusal),
            _ => None,
        },
        [] => None,
    }
}

/// Why a transaction of these changes is refused, if it is.
fn changed(
    state: &mut RangeState,
    alloc: Global,
    told: &ServerContext,
    changes: Changes,
) -> Result<Option<Refusal>, Fail>
    requires { told.now.count + 1024 < 2 ^ 64 }
{
    let taken = state.transact(alloc, told, USER, &TICKET, &changes);
    drop(changes);
    Ok(refusal_of(&taken?))
}

fn transacted(
    state: &mut RangeState,
    alloc: Global,
    moment: u64,
    key: &'static [u8],
    length: usize,
    count: usize,
) -> Result<Option<Refusal>, Fail> {
    let changes = puts(alloc, key, length, count)?;
    changed(state, alloc, &context(9, moment), changes)
}

/// Why a change of one byte at this key is refused, if it is; where its group is sent, under this number.
pub(crate) fn put_once(
    state: &mut RangeState,
    alloc: Global,
    count: u32,
    key: &'static [u8],
) -> Result<Option<Refusal>, Fail> {
    let changes = puts(alloc, key, 1, 1)?;
    changed(state, alloc, &context(count, 1), changes)
}

/// Whether the range is served, by the answers to its first two requests.
pub(crate) fn serves(state: &mut RangeState, alloc: Global) -> Result<bool, Fail> {
    if drops(state, alloc, 1, 2, &Answer::Empty)? {
        return Ok(false);
    }
    Ok(!drops(state, alloc, 2, 3, &Answer::Confirmed)?)
}

fn takes_many(state: &mut RangeState, alloc: Global, times: u32) -> Result<bool, Fail> {
    for _ in 0..times {
        if transacted(state, alloc, 1, b"a", 1, 1)?.is_some() {
            return Ok(false);
        }
    }
    Ok(true)
}

pub(crate) fn got(
    state: &mut RangeState,
    alloc: Global,
    moment: u64,
    key: &'static [u8],
) -> Result<Option<Refusal>, Fail> {
    let key = Bytes::from_static(key);
    let taken = state.get(alloc, &context(9, moment), USER, &TICKET, &key);
    drop(key);
    Ok(refusal_of(&taken?))
}

fn given_up(state: &mut RangeState, alloc: Global) -> Result<usize, Fail> {
    Ok(state.give_up(alloc, &context(10, 1))?.packets.len())
}

fn refusal_count(state: &RangeState, alloc: Global) -> Result<usize, Fail> {
    Ok(state.refusals(alloc, &context(9, 1))?.len())
}

/// Whether the load goes on by an answer to itself, and the range is not dropped.
#[tactic(auto, using(range_core::proofs::LogAnswers::load_awaited))]
fn loads(
    state: &mut RangeState,
    alloc: Global,
    asked: u64,
    count: u32,
    answer: &Answer,
) -> Result<bool, Fail> {
    let request = number(asked);
    if !state.content.load.awaits(&request) {
        return Ok(false);
    }
    let packet = answer_of(body_of(alloc, request, answer)?);
    let taken = state.load(alloc, &context(count, 1), Waiter::Load, &packet);
    drop(packet);
    Ok(!taken?.dropped)
}

/// Why no checkpoint begins, if none does.
fn checkpointed(state: &mut RangeState, alloc: Global) -> Result<Option<Refusal>, Fail> {
    if let Some(refusal) = state.checkpoint_fault() {
        return Ok(Some(refusal));
    }
    let taken = state.freeze(alloc, &context(9, 1), false)?;
    drop(taken);
    Ok(None)
}

fn begun_count(state: &mut RangeState, alloc: Global) -> Result<usize, Fail> {
    Ok(state.form(alloc, &context(9, 1))?.notes.len())
}

/// How many packets are sent once the append of this number is answered; none where the answer does not count.
fn done_count(
    state: &mut RangeState,
    alloc: Global,
    asked: u64,
    offset: u32,
) -> Result<usize, Fail> {
    let answer = answer_of(appended(number(asked), offset));
    let told = match state.appended(&answer.body) {
        Some((extent, at)) if state.queue.is_out() && state.may_stand(at) => {
            let taken = state.log_done(alloc, &context(11, 1), &answer, extent, at);
            taken?.packets.len()
        }
        _ => 0,
    };
    drop(answer);
    Ok(told)
}

fn ends_at(state: &RangeState, index: u64, offset: u32) -> bool {
    state.position() == Position { index, offset }
}

fn is_empty(state: &RangeState) -> bool {
    state.phase() == Phase::Serving
        && state.content.load.generation == Fence(2)
        && state.content.load.range == RangeId(1)
        && state.indexes().is_empty()
        && state.regions().len() == 1
        && ends_at(state, 0, 0)
        && state.content.table.live().is_empty()
}

impl Tested for RangeState {
    type Step = Step;

    fn takes(&mut self, alloc: Global, step: &Step) -> Result<bool, Fail> {
        match step {
            Step::Answered(asked, count, answer, dropped) => {
                Ok(drops(self, alloc, *asked, *count, answer)? == *dropped)
            }
            Step::Transacts(moment, key, length, count, refusal) => {
                Ok(transacted(self, alloc, *moment, *key, *length, *count)? == *refusal)
            }
            Step::TakesMany(times) => takes_many(self, alloc, *times),
            Step::Gets(moment, key, refusal) => Ok(got(self, alloc, *moment, *key)? == *refusal),
            Step::Renews(until) => {
                self.renew(*until);
                Ok(true)
            }
            Step::GivesUp(packets) => Ok(given_up(self, alloc)? == *packets),
            Step::Loads(asked, count, answer) => loads(self, alloc, *asked, *count, answer),
            Step::Queues(ticket) => pushes(alloc, &mut self.queue, *ticket),
            Step::Forms(count) => Ok(begun_count(self, alloc)? == *count),
            Step::LogDone(asked, offset, count) => {
                Ok(done_count(self, alloc, *asked, *offset)? == *count)
            }
            Step::Next(number) => Ok(self.next_number() == *number),
            Step::EndsAt(index, offset) => Ok(ends_at(self, *index, *offset)),
            Step::Awaits(count) => Ok(self.awaits(&number(*count))),
            Step::Refuses(count) => Ok(refusal_count(self, alloc)? == *count),
            Step::Checkpoints(refusal) => Ok(checkpointed(self, alloc)? == *refusal),
            Step::IsLoading => Ok(self.phase() == Phase::Loading),
            Step::IsCheckpointing => Ok(self.phase() == Phase::Checkpointing),
            Step::IsEmpty => Ok(is_empty(self)),
        }
    }
}

#[test]
fn ranges_go_as_their_cases_say(rt: HostRuntime) -> Result<(), Fail> {
    for (name, parts) in CASES {
        let state = begun(rt.alloc())?;
        assert!(rt; holds(rt.alloc(), state, *parts)?, "{name}");
    }
    Ok(())
}
