//! What no clause says: that calls succeed where there is memory, and loads followed by hand.
pub(crate) mod answers;

use crate::asking::{answer_of, context, number};
use crate::cases::{Case, Tested, holds};
use crate::records::{CHECKPOINT, FIRST, GAP, INDEX, KEYS, NO_INDEX, PAGE};
use answers::{Answer, body_of};
use model_partition::{Progress, RangeContent, ServerContext, Stage};
use range_load::{
    begin_load, give_up, index_reply, load_reply, log_load_reply, metadata_reply, reads_under,
};
use std::alloc::{AllocError, Global};
use std::test::Fail;
use streams::Position;
use wire::{Body, Fence, Packet, RangeId, StreamBody, StreamKind};

/// The part of a load that an answer is for.
pub(crate) enum Part {
    Load,
    Metadata,
    Log,
    Index,
}

/// What comes of an answer.
pub(crate) enum Outcome {
    /// Nothing has changed.
    Rests,
    Silence,
    /// A packet that does not ask for confirmation.
    Request,
    /// A request for confirmation, under the number of the server's next request.
    Confirm,
    Dropped,
    /// The range is served: the number of its next transaction, and the offset where its log ends.
    Serves(u64, u32),
}

/// What is done with a load, or what is known of it.
pub(crate) enum Step {
    /// The request of the first number is answered, where the server's next request has the second, and this comes of it.
    Answered(Part, u32, u32, Answer, Outcome),
    /// No answer comes, where the server's next request has this number. Whether the opening, the metadata's job, the log's and the
    /// read of an index are asked for again.
    GivesUp(u32, (bool, bool, bool, bool)),
    IsAt(Stage),
    /// How many keys the table has.
    Keys(usize),
    /// The number of the next record of the metadata.
    NextRecord(u64),
    /// How many indexes were read.
    Indexes(usize),
}

use Outcome::{Confirm, Dropped, Request, Rests, Serves, Silence};
use Part::{Index, Load, Log, Metadata};
use Step::{Answered, GivesUp, Indexes, IsAt, Keys, NextRecord};

/// The metadata of a range is read, which names an index, and that index is asked for under the number 3.
const ASKED: &[Step] = &[
    Answered(Load, 1, 2, Answer::MetadataAndRows(46), Request),
    Answered(Metadata, 2, 3, Answer::Group(CHECKPOINT), Request),
    IsAt(Stage::Indexing { position: 0 }),
];

const CASES: &[Case<Step>] = &[
    (
        "an index is read before the generation is confirmed",
        &[
            ASKED,
            &[
                Answered(Index, 4, 4, Answer::Bytes(INDEX), Rests),
                Answered(Index, 3, 4, Answer::Bytes(PAGE), Rests),
                Indexes(0),
                Answered(Index, 3, 4, Answer::Bytes(INDEX), Confirm),
                Indexes(1),
                Answered(Load, 4, 5, Answer::Confirmed, Serves(2, 24)),
            ],
        ],
    ),
    (
        "bytes that spell no index drop the range",
        &[
            ASKED,
            &[Answered(Index, 3, 4, Answer::Bytes(NO_INDEX), Dropped)],
        ],
    ),
    (
        "an index in an extent that was not told drops the range",
        &[&[
            Answered(Load, 1, 2, Answer::Metadata(46), Request),
            Answered(Metadata, 2, 3, Answer::Group(CHECKPOINT), Dropped),
        ]],
    ),
    (
        "an old generation drops a range whose index is being read",
        &[ASKED, &[Answered(Index, 3, 4, Answer::Stale, Dropped)]],
    ),
    (
        "an index that does not come is asked for again",
        &[
            ASKED,
            &[
                GivesUp(4, (false, false, false, true)),
                Answered(Index, 3, 6, Answer::Bytes(INDEX), Confirm),
            ],
        ],
    ),
    (
        "an empty range is served",
        &[&[
            Answered(Load, 1, 2, Answer::Empty, Confirm),
            Answered(Load, 2, 3, Answer::Confirmed, Serves(1, 0)),
            IsAt(Stage::Serving),
            Answered(Load, 2, 4, Answer::Confirmed, Rests),
        ]],
    ),
    (
        "a sealed log is read",
        &[&[
            Answered(Load, 1, 2, Answer::Log(Some(24)), Request),
            Answered(Log, 2, 3, Answer::Group(FIRST), Confirm),
            Answered(Load, 3, 4, Answer::Confirmed, Serves(2, 24)),
            Keys(1),
        ]],
    ),
    (
        "an open log is checked first",
        &[&[
            Answered(Load, 1, 2, Answer::Log(None), Request),
            IsAt(Stage::Checking {
                kind: StreamKind::Log,
            }),
            Answered(Log, 2, 3, Answer::Checked(24), Request),
            Answered(Log, 3, 4, Answer::Group(FIRST), Confirm),
        ]],
    ),
    (
        "a gap drops the range",
        &[&[
            Answered(Load, 1, 2, Answer::Log(Some(24)), Request),
            Answered(Log, 2, 3, Answer::Group(GAP), Dropped),
        ]],
    ),
    (
        "the metadata is read before the log",
        &[&[
            Answered(Load, 1, 2, Answer::Metadata(15), Request),
            Answered(Metadata, 1, 3, Answer::Group(KEYS), Silence),
            Answered(Metadata, 2, 4, Answer::Group(KEYS), Confirm),
            NextRecord(2),
        ]],
    ),
    (
        "an old generation drops the range",
        &[&[Answered(Load, 1, 2, Answer::Stale, Dropped)]],
    ),
    (
        "what is not answered is asked for again",
        &[&[
            GivesUp(2, (true, false, false, false)),
            Answered(Load, 1, 4, Answer::Log(None), Request),
            GivesUp(5, (false, false, true, false)),
        ]],
    ),
];

/// A load under the generation 2, whose first request has the number 1.
fn begun(alloc: Global) -> Result<RangeContent, Fail> {
    let (content, packet) = begin_load(alloc, &context(1, 5), RangeId(5), Fence(2))?;
    drop(packet);
    Ok(content)
}

/// An empty range that is served, under the generation 2; the server's next request has the number 3.
pub(crate) fn served(alloc: Global) -> Result<RangeContent, Fail> {
    let mut content = begun(alloc)?;
    answered(&mut content, alloc, &Load, 1, 2, &Answer::Empty, &Confirm)?;
    answered(
        &mut content,
        alloc,
        &Load,
        2,
        3,
        &Answer::Confirmed,
        &Serves(1, 0),
    )?;
    Ok(content)
}

/// What comes of an answer for a part, if its range is not served yet or the part is the load.
fn reply(
    content: &mut RangeContent,
    alloc: Global,
    context: &ServerContext,
    part: &Part,
    packet: &Packet,
) -> Result<Option<Progress>, AllocError> {
    let progress = match part {
        Part::Load => load_reply(content, alloc, context, packet)?,
        Part::Metadata => {
            if content.stage == Stage::Serving {
                return Ok(None);
            }
            metadata_reply(content, alloc, context, packet)?
        }
        Part::Log => {
            if content.stage == Stage::Serving {
                return Ok(None);
            }
            log_load_reply(content, alloc, context, packet)?
        }
        Part::Index => index_reply(content, alloc, context, packet)?,
    };
    Ok(Some(progress))
}

fn is_confirm(packet: &Packet, count: u32) -> bool {
    match &packet.body {
        Body::Stream(StreamBody::Confirm { request, .. }) => *request == number(u64::from(count)),
        _ => false,
    }
}

fn is_outcome(progress: &Progress, count: u32, outcome: &Outcome) -> bool {
    match (progress, outcome) {
        (Progress::Rests, Rests) | (Progress::Goes(None), Silence) | (Progress::Dropped, Dropped) =>
            { true }
        (Progress::Goes(Some(packet)), Request) => !is_confirm(packet, count),
        (Progress::Goes(Some(packet)), Confirm) => is_confirm(packet, count),
        (Progress::Serves(service), Serves(next, offset)) => {
            service.next == *next
                && service.position
                    == Position {
                        index: 0,
                        offset: *offset,
                    }
        }
        _ => false,
    }
}

fn comes_to(progress: Option<Progress>, count: u32, outcome: &Outcome) -> bool {
    let told = match &progress {
        Some(progress) => is_outcome(progress, count, outcome),
        None => false,
    };
    drop(progress);
    told
}

fn answered(
    content: &mut RangeContent,
    alloc: Global,
    part: &Part,
    asked: u32,
    count: u32,
    answer: &Answer,
    outcome: &Outcome,
) -> Result<bool, Fail> {
    if matches!(part, Part::Index) && !reads_under(&content.reading, &number(u64::from(asked))) {
        return Ok(matches!(outcome, Rests));
    }
    let packet = answer_of(body_of(alloc, asked, answer)?);
    let told = reply(content, alloc, &context(count, 5), part, &packet);
    drop(packet);
    Ok(comes_to(told?, count, outcome))
}

fn gives_up(content: &mut RangeContent, count: u32) -> (bool, bool, bool, bool) {
    let given = give_up(content, &context(count, 5));
    let asked = (
        given.load.is_some(),
        given.metadata.is_some(),
        given.log.is_some(),
        given.reading.is_some(),
    );
    drop(given);
    asked
}

impl Tested for RangeContent {
    type Step = Step;

    fn takes(&mut self, alloc: Global, step: &Step) -> Result<bool, Fail> {
        match step {
            Answered(part, asked, count, answer, outcome) => {
                answered(self, alloc, part, *asked, *count, answer, outcome)
            }
            GivesUp(count, asked) => Ok(gives_up(self, *count) == *asked),
            IsAt(stage) => Ok(self.stage == *stage),
            Keys(count) => Ok(self.table.live().len() == *count),
            NextRecord(number) => Ok(self.said.next == *number),
            Indexes(count) => Ok(self.indexes.as_slice().len() == *count),
        }
    }
}

#[test]
fn loads_go_as_their_cases_say(rt: HostRuntime) -> Result<(), Fail> {
    for (name, parts) in CASES {
        let content = begun(rt.alloc())?;
        assert!(rt; holds(rt.alloc(), content, *parts)?, "{name}");
    }
    Ok(())
}
