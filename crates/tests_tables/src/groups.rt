//! What no clause says: that calls succeed where there is memory, and groups from the push to the answer.
use crate::asking::{context, puts};
use crate::cases::{Case, Tested, holds};
use bytes::Bytes;
use memtable::Cell;
use metadata::KeyRange;
use model_partition::{TableNote, WaitingTransaction};
use range_commit::{MAX_WAITING, Queue, change_fault};
use range_core::form;
use std::alloc::Global;
use std::test::Fail;
use wire::{ActorId, Body, ExtentId, Fence, Packet, RangeId, Refusal, ReqNo, TableBody};

/// What is done with a queue, or what is known of it.
pub(crate) enum Step {
    /// The next transaction has this number.
    SetsNext(u64),
    /// A transaction of this ticket is pushed, with a value of 5,000 bytes at `a`.
    Pushes(u64),
    TakesBack,
    /// A group is begun of so many transactions, bytes and blocks, or none is.
    Begins(Option<(usize, u32, usize)>),
    /// A group of so many bytes is out, and the next transaction has this number.
    IsOut(u32, u64),
    /// So many wait, those that are out counted.
    Waits(usize),
    /// So many are answered once the group is acknowledged, the last with this number, which is shown as done.
    Answers(usize, u64),
    /// Where the value of the last change stands, if the group stands at offset 100.
    KeepsAt(u32),
    Finishes,
    /// So many are refused.
    Refuses(usize),
}

const CASES: &[Case<Step>] = &[
    (
        "a group is appended and answered",
        &[
            &[Step::Pushes(1), Step::Pushes(2), Step::Pushes(3)],
            &[
                Step::Begins(Some((2, 10_034, 3))),
                Step::IsOut(10_034, 3),
                Step::Answers(2, 2),
                Step::KeepsAt(5_134),
                Step::Finishes,
                Step::Waits(1),
                Step::Begins(Some((1, 5_024, 2))),
                Step::Answers(1, 3),
            ],
        ],
    ),
    (
        "a group is out alone",
        &[
            &[Step::SetsNext(9), Step::Begins(None)],
            &[
                Step::Pushes(1),
                Step::Begins(Some((1, 5_024, 2))),
                Step::IsOut(5_024, 10),
                Step::Pushes(2),
                Step::Answers(1, 9),
                Step::Refuses(2),
                Step::Waits(2),
            ],
        ],
    ),
    (
        "the last is taken back",
        &[&[Step::Pushes(1), Step::TakesBack, Step::Waits(0)]],
    ),
];

/// How many changes, the key and the length of each value, and why they are refused.
const FAULTS: &[(usize, &[u8], usize, Option<Refusal>)] = &[
    (0, b"", 0, Some(Refusal::TooLarge)),
    (1, b"", 65_537, Some(Refusal::BadKey)),
    (1, b"z", 65_537, Some(Refusal::TooLarge)),
    (1, b"z", 1, Some(Refusal::OutOfRange)),
    (1, b"a", 65_536, None),
];

/// The keys below `m`.
fn keys() -> KeyRange {
    KeyRange {
        low: Bytes::from_static(b""),
        high: Some(Bytes::from_static(b"m")),
    }
}

fn fault(
    alloc: Global,
    count: usize,
    key: &'static [u8],
    length: usize,
) -> Result<Option<Refusal>, Fail> {
    let changes = puts(alloc, key, length, count)?;
    Ok(change_fault(changes.as_slice(), &keys()))
}

fn sets_next(queue: &mut Queue, next: u64) -> bool {
    if queue.is_out() || next == 0 {
        return false;
    }
    queue.set_next(next);
    true
}

/// Whether there was room for a transaction of user 7.
pub(crate) fn pushes(alloc: Global, queue: &mut Queue, ticket: u64) -> Result<bool, Fail> {
    let changes = puts(alloc, b"a", 5_000, 1)?;
    if queue.count() >= MAX_WAITING || change_fault(changes.as_slice(), &keys()).is_some() {
        return Ok(false);
    }
    queue.push(WaitingTransaction {
        from: ActorId::User(7),
        request: ReqNo::User { user: 7, ticket },
        changes,
    })?;
    Ok(true)
}

fn takes_back(queue: &mut Queue) -> bool {
    if queue.is_out() || queue.count() == 0 {
        return false;
    }
    queue.take_back();
    true
}

/// How many transactions and bytes the group has that is begun, and how many blocks.
fn begins(alloc: Global, queue: &mut Queue) -> Result<Option<(usize, u32, usize)>, Fail> {
    if queue.is_out() {
        return Ok(None);
    }
    match queue.plan(alloc, &context(1, 5), RangeId(3), Fence(2))? {
        None => Ok(None),
        Some(plan) => {
            queue.begin(plan.count, plan.size);
            Ok(Some((plan.count, plan.size, plan.blocks.as_slice().len())))
        }
    }
}

fn is_out(queue: &Queue, size: u32, next: u64) -> bool {
    queue.is_out() && queue.out_size() == size && queue.next() == next
}

fn commits(packet: &Packet, wanted: u64) -> bool {
    match &packet.body {
        Body::Table(TableBody::Committed { number, .. }) => *number == wanted,
        _ => false,
    }
}

fn are_answers(packets: &[Packet], notes: &[TableNote], count: usize, wanted: u64) -> bool {
    match (packets, notes) {
        ([.., packet], [.., TableNote::Done { number, .. }]) => {
            packets.len() == count && commits(packet, wanted) && *number == wanted
        }
        _ => false,
    }
}

fn answers(alloc: Global, queue: &Queue, count: usize, last: u64) -> Result<bool, Fail> {
    let (packets, notes) = queue.acknowledge(alloc, &context(1, 5), RangeId(3), Fence(2))?;
    Ok(are_answers(&packets, &notes, count, last))
}

fn keeps_at(alloc: Global, queue: &Queue, offset: u32) -> Result<bool, Fail> {
    // Its clause says how long the group that is out can be.
    let _size = queue.out_size();
    let kept = queue.changes(alloc, ExtentId(7), 100)?;
    match kept.as_slice() {
        [.., (_, Cell::Placed(place))] => Ok(place.offset == offset),
        _ => Ok(false),
    }
}

fn refusal_count(alloc: Global, queue: &Queue) -> Result<usize, Fail> {
    Ok(queue.refusals(alloc, &context(1, 5))?.len())
}

impl Tested for Queue {
    type Step = Step;

    fn takes(&mut self, alloc: Global, step: &Step) -> Result<bool, Fail> {
        match step {
            Step::SetsNext(next) => Ok(sets_next(self, *next)),
            Step::Pushes(ticket) => pushes(alloc, self, *ticket),
            Step::TakesBack => Ok(takes_back(self)),
            Step::Begins(group) => Ok(begins(alloc, self)? == *group),
            Step::IsOut(size, next) => Ok(is_out(self, *size, *next)),
            Step::Waits(count) => Ok(self.count() == *count && self.waiting().len() == *count),
            Step::Answers(count, last) => answers(alloc, self, *count, *last),
            Step::KeepsAt(offset) => keeps_at(alloc, self, *offset),
            Step::Finishes => {
                self.finish();
                Ok(true)
            }
            Step::Refuses(count) => Ok(refusal_count(alloc, self)? == *count),
        }
    }
}

#[test]
fn groups_go_as_their_cases_say(rt: HostRuntime) -> Result<(), Fail> {
    for (name, parts) in CASES {
        let queue = Queue::new(rt.alloc());
        assert!(rt; holds(rt.alloc(), queue, *parts)?, "{name}");
    }
    Ok(())
}

#[test]
fn changes_are_refused_by_the_first_test(rt: HostRuntime) -> Result<(), Fail> {
    for (count, key, length, refusal) in FAULTS {
        assert!(rt; fault(rt.alloc(), *count, *key, *length)? == *refusal);
    }
    Ok(())
}

/// How many of three transactions the group has that is formed with this batch, and how many were encoded.
fn formed(alloc: Global, batch: u16) -> Result<(usize, u64), Fail> {
    let mut queue = Queue::new(alloc);
    for ticket in 1..4 {
        // That it was pushed shows in how many transactions the group has.
        let _is_pushed = pushes(alloc, &mut queue, ticket)?;
    }
    let mut encodings = 0;
    let made = form(alloc, 1, &queue, batch, &mut encodings);
    drop(queue);
    let (_group, count) = made?;
    Ok((count, encodings))
}

#[test]
fn each_is_encoded_once(rt: HostRuntime) -> Result<(), Fail> {
    assert!(rt; formed(rt.alloc(), 2)? == (2, 2));
    assert!(rt; formed(rt.alloc(), 64)? == (3, 3));
    Ok(())
}
