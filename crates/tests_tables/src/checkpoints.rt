//! What no clause says: that calls succeed where there is memory, and checkpoints followed by hand.
mod answers;
mod packets;
mod tables;

use crate::asking::{answer_of, context, extent, number};
use crate::cases::{Case, Tested, holds};
use crate::loads::served;
use answers::{Answer, body_of};
use memtable::Place;
use model_partition::{Pause, Progress, RangeContent, ServerContext, Stage};
use packets::{Comes, are_sent, comes_to};
use range_checkpoint::{
    CheckpointStart, begin, checkpoint_fault, give_up, install, is_recorded, page_reply,
    record_reply, rows_reply, trim_awaits, trim_reply,
};
use range_reads::Lookups;
use std::alloc::{AllocError, Global};
use std::test::Fail;
use streams::Position;
use tables::{fill, put_large, put_small};
use wire::{ExtentId, Packet, Refusal};

/// What an answer is for.
pub(crate) enum Part {
    Rows,
    Metadata,
    Log,
    /// The read of a page that is merged.
    Page,
}

/// What is done with a range, or what is known of it.
pub(crate) enum Step {
    /// A stream has the extent 7 once more.
    Has(Part),
    PutsSmall(u8),
    PutsLarge(u8),
    Fills(u16),
    IsLoading,
    /// A checkpoint begins under this number of the server's next request, at the position 24 of the extent of this index.
    Begins(u32, u64, Comes),
    /// The same of a checkpoint that combines.
    Combines(u32, u64, Comes),
    /// The request of the first number is answered, where the server's next request has the second.
    Answered(Part, u32, u32, Answer, Comes),
    /// No answer comes: what row data's client sends, and whether the log is trimmed again.
    GivesUp(u32, Comes, Comes),
    Faults(Option<Refusal>),
    /// How many entries the live layer has, and whether there is a fixed one.
    Table(usize, bool),
    /// How many indexes count, and how many the metadata says.
    Indexes(usize, usize),
    /// The index of the log's first extent, and how many extents the log and the blob stream have.
    Log(u64, usize, usize),
    /// The page of this position in the newest index stands at this offset and has this length.
    PageAt(usize, u32, u32),
}

use Comes::{Appends, AppendsMany, Dropped, Extends, Reads, Rests, Seals, Silence, Trims};
use Part::{Metadata, Page, Rows};
use Step::{
    Answered, Begins, Combines, Faults, Fills, GivesUp, Has, Indexes, IsLoading, PageAt, PutsLarge,
    PutsSmall, Table,
};

/// The page of the keys `ka` and `kb`, each with the value `x`.
const TWO_KEYS: &[u8] = &[
    0, 2, 0, 2, b'k', b'a', 1, 0, 0, 0, 1, b'x', 0, 2, b'k', b'b', 1, 0, 0, 0, 1, b'x',
];

/// The index of that page at 0 of the extent 7.
const TWO_INDEX: &[u8] = &[
    0, 0, 0, 29, 0, 0, 0, 1, 0, 0, 2, b'k', b'a', 0, 0, 0, 0, 0, 0, 0, 7, 0, 0, 0, 0, 0, 0, 0, 22,
];

/// The record of that index at 22: the position 24 of the extent of index 1, and the number 3.
const TWO_RECORD: &[u8] = &[
    0, 0, 0, 0, 0, 0, 0, 1, 2, 0, 0, 0, 0, 0, 0, 0, 0, 7, 0, 0, 0, 22, 0, 0, 0, 29, 0, 0, 0, 0, 0,
    0, 0, 1, 0, 0, 0, 24, 0, 0, 0, 0, 0, 0, 0, 3,
];

/// The page of the keys `ka`, `kb` and `kc`.
const THREE_KEYS: &[u8] = &[
    0, 3, 0, 2, b'k', b'a', 1, 0, 0, 0, 1, b'x', 0, 2, b'k', b'b', 1, 0, 0, 0, 1, b'x', 0, 2, b'k',
    b'c', 1, 0, 0, 0, 1, b'x',
];

/// The index of that page at 60 of the extent 7.
const THREE_INDEX: &[u8] = &[
    0, 0, 0, 29, 0, 0, 0, 1, 0, 0, 2, b'k', b'a', 0, 0, 0, 0, 0, 0, 0, 7, 0, 0, 0, 60, 0, 0, 0, 32,
];

/// The record of that index at 92, which stands for all older ones.
const THREE_RECORD: &[u8] = &[
    0, 0, 0, 0, 0, 0, 0, 2, 2, 1, 0, 0, 0, 0, 0, 0, 0, 7, 0, 0, 0, 92, 0, 0, 0, 29, 0, 0, 0, 0, 0,
    0, 0, 1, 0, 0, 0, 24, 0, 0, 0, 0, 0, 0, 0, 3,
];

/// As many bytes as the page of two keys has, which say that they have three.
const NO_PAGE: &[u8] = &[
    0, 3, 0, 2, b'k', b'a', 1, 0, 0, 0, 1, b'x', 0, 2, b'k', b'b', 1, 0, 0, 0, 1, b'x',
];

/// The index of no page.
const NO_PAGES: &[u8] = &[0, 0, 0, 9, 0, 0, 0, 0, 0];

/// Row data and the metadata have an extent each, and the log has two.
const STREAMS: &[Step] = &[Has(Rows), Has(Metadata), Has(Part::Log), Has(Part::Log)];

/// A checkpoint of two keys begins, and its pages are out under the number 3.
const TWO: &[Step] = &[
    PutsSmall(b'a'),
    PutsSmall(b'b'),
    Begins(3, 1, Appends(&[TWO_KEYS])),
    Table(0, true),
];

/// Its record is out to the metadata under the number 5.
const RECORDED: &[Step] = &[
    Answered(Rows, 3, 4, Answer::Appended(0), Appends(&[TWO_INDEX])),
    Answered(Rows, 4, 5, Answer::Appended(22), Appends(&[TWO_RECORD])),
    Indexes(0, 0),
    Table(0, true),
];

/// Its Trim is out under the number 6.
const TRIMMING: &[Step] = &[
    Answered(Metadata, 5, 6, Answer::Appended(0), Trims(1, false, 6)),
    Indexes(1, 1),
    Table(0, false),
];

/// And it is done. Then a key is put, and a checkpoint begins that combines: the page is read under the number 7.
const COMBINING: &[Step] = &[
    Answered(Part::Log, 6, 7, Answer::Trimmed, Rests),
    PutsSmall(b'c'),
    Combines(7, 1, Reads(0, 22)),
    Table(0, true),
];

/// A checkpoint of no key begins, where row data has no extent.
const NONE_BEGUN: &[Step] = &[Begins(3, 0, Extends)];

const CASES: &[Case<Step>] = &[
    (
        "a table of two keys is written, recorded and trimmed",
        &[
            STREAMS,
            TWO,
            RECORDED,
            TRIMMING,
            &[
                PageAt(0, 0, 22),
                Answered(Part::Log, 6, 7, Answer::Trimmed, Rests),
                Step::Log(1, 1, 0),
                Faults(None),
            ],
        ],
    ),
    (
        "what combines reads the page, and writes an index that stands for both",
        &[
            STREAMS,
            TWO,
            RECORDED,
            TRIMMING,
            COMBINING,
            &[
                Answered(
                    Page,
                    7,
                    8,
                    Answer::Bytes(0, TWO_KEYS),
                    Appends(&[THREE_KEYS]),
                ),
                Answered(Rows, 8, 9, Answer::Appended(60), Appends(&[THREE_INDEX])),
                Answered(Rows, 9, 10, Answer::Appended(92), Appends(&[THREE_RECORD])),
                Indexes(1, 1),
                Answered(Metadata, 10, 11, Answer::Appended(46), Trims(1, false, 11)),
                Indexes(1, 1),
                PageAt(0, 60, 32),
                Table(0, false),
            ],
        ],
    ),
    (
        "what combines nothing goes at once",
        &[STREAMS, &[PutsSmall(b'a'), Combines(3, 1, AppendsMany(1))]],
    ),
    (
        "bytes that are not the page that is read change nothing",
        &[
            STREAMS,
            TWO,
            RECORDED,
            TRIMMING,
            COMBINING,
            &[
                Answered(Page, 7, 8, Answer::Bytes(0, NO_PAGE), Rests),
                Answered(Page, 7, 8, Answer::Bytes(1, TWO_KEYS), Rests),
                Answered(Page, 7, 8, Answer::Refused(Refusal::Memory), Rests),
                Answered(
                    Page,
                    7,
                    8,
                    Answer::Bytes(0, TWO_KEYS),
                    Appends(&[THREE_KEYS]),
                ),
            ],
        ],
    ),
    (
        "an old generation drops the range while a page is read",
        &[
            STREAMS,
            TWO,
            RECORDED,
            TRIMMING,
            COMBINING,
            &[Answered(Page, 7, 8, Answer::Refused(Refusal::Stale), Dropped)],
        ],
    ),
    (
        "row data with no extent gets one first",
        &[&[
            PutsSmall(b'a'),
            PutsSmall(b'b'),
            Begins(3, 1, Extends),
            Answered(Rows, 3, 4, Answer::Extended, Appends(&[TWO_KEYS])),
        ]],
    ),
    (
        "a value by its place takes the log's extents to the blob stream",
        &[
            STREAMS,
            &[
                PutsLarge(b'a'),
                Begins(3, 1, AppendsMany(1)),
                Answered(Rows, 3, 4, Answer::Appended(0), AppendsMany(1)),
                Answered(Rows, 4, 5, Answer::Appended(24), AppendsMany(1)),
                Answered(Metadata, 5, 6, Answer::Appended(0), Trims(1, true, 6)),
                Answered(Part::Log, 6, 7, Answer::Trimmed, Rests),
                Step::Log(1, 1, 1),
                Faults(None),
            ],
        ],
    ),
    (
        "the index of no entry goes at once",
        &[STREAMS, &[Begins(3, 0, Appends(&[NO_PAGES]))]],
    ),
    (
        "many pages go in two groups, each page behind the one before",
        &[
            STREAMS,
            &[
                Fills(1_100),
                Begins(3, 1, AppendsMany(64)),
                Answered(Rows, 3, 4, Answer::Appended(100), AppendsMany(5)),
                Answered(Rows, 4, 5, Answer::Appended(5_000_000), AppendsMany(1)),
                Answered(Rows, 5, 6, Answer::Appended(6_000_000), AppendsMany(1)),
                Answered(Metadata, 6, 7, Answer::Appended(0), Trims(1, false, 7)),
                PageAt(0, 100, 64_146),
                PageAt(63, 4_041_298, 64_146),
                PageAt(64, 5_000_000, 64_146),
                PageAt(68, 5_256_584, 48_110),
            ],
        ],
    ),
    (
        "writes while a checkpoint runs stay in the live layer",
        &[
            STREAMS,
            TWO,
            &[PutsSmall(b'c'), Table(1, true)],
            &[
                Answered(Rows, 3, 4, Answer::Appended(0), Appends(&[TWO_INDEX])),
                PutsSmall(b'd'),
                Answered(Rows, 4, 5, Answer::Appended(22), Appends(&[TWO_RECORD])),
                PutsSmall(b'e'),
                Answered(Metadata, 5, 6, Answer::Appended(0), Trims(1, false, 6)),
                Table(3, false),
                Answered(Part::Log, 6, 7, Answer::Trimmed, Rests),
                Table(3, false),
            ],
        ],
    ),
    (
        "the log keeps its last extent where the position is behind it",
        &[
            STREAMS,
            &[
                Begins(3, 9, Appends(&[NO_PAGES])),
                Answered(Rows, 3, 4, Answer::Appended(0), AppendsMany(1)),
                Answered(Metadata, 4, 5, Answer::Appended(0), Trims(1, false, 5)),
            ],
        ],
    ),
    (
        "an answer of another number changes nothing",
        &[
            STREAMS,
            TWO,
            &[Answered(Rows, 2, 4, Answer::Appended(0), Silence)],
            RECORDED,
            &[Answered(Metadata, 4, 6, Answer::Appended(0), Silence)],
            TRIMMING,
            &[
                Answered(Part::Log, 5, 7, Answer::Trimmed, Rests),
                Step::Log(0, 2, 0),
                Faults(Some(Refusal::Busy)),
            ],
        ],
    ),
    (
        "a group whose end is beyond 2^32 changes nothing",
        &[
            STREAMS,
            TWO,
            &[Answered(Rows, 3, 4, Answer::Appended(4_294_967_290), Rests)],
            RECORDED,
        ],
    ),
    (
        "another refusal than that of an old generation changes nothing",
        &[
            STREAMS,
            TWO,
            &[Answered(Rows, 3, 4, Answer::Refused(Refusal::Memory), Silence)],
            RECORDED,
            &[Answered(Metadata, 5, 6, Answer::Refused(Refusal::Memory), Silence)],
            TRIMMING,
            &[
                Answered(Part::Log, 6, 7, Answer::Refused(Refusal::Memory), Rests),
                Faults(Some(Refusal::Busy)),
            ],
        ],
    ),
    (
        "an old generation drops the range while its pages are out",
        &[
            STREAMS,
            TWO,
            &[Answered(Rows, 3, 4, Answer::Refused(Refusal::Stale), Dropped)],
        ],
    ),
    (
        "an old generation drops the range while its record is out",
        &[
            STREAMS,
            TWO,
            RECORDED,
            &[Answered(Metadata, 5, 6, Answer::Refused(Refusal::Stale), Dropped)],
        ],
    ),
    (
        "an old generation drops the range while its Trim is out",
        &[
            STREAMS,
            TWO,
            RECORDED,
            TRIMMING,
            &[Answered(Part::Log, 6, 7, Answer::Refused(Refusal::Stale), Dropped)],
        ],
    ),
    (
        "no checkpoint begins while one runs or the range is loaded",
        &[
            &[Faults(None)],
            NONE_BEGUN,
            &[
                Faults(Some(Refusal::Busy)),
                IsLoading,
                Faults(Some(Refusal::Loading)),
            ],
        ],
    ),
    (
        "an extent of row data that does not answer is sealed, and that is asked again",
        &[
            STREAMS,
            TWO,
            &[
                GivesUp(4, Seals, Silence),
                GivesUp(7, Seals, Silence),
                Answered(Rows, 6, 10, Answer::Sealed(0), Extends),
                Answered(Rows, 10, 11, Answer::Extended, Appends(&[TWO_KEYS])),
            ],
        ],
    ),
    (
        "a Trim goes again with its number, and the answer to the first one counts",
        &[
            STREAMS,
            TWO,
            RECORDED,
            TRIMMING,
            &[
                GivesUp(7, Silence, Trims(1, false, 6)),
                Answered(Part::Log, 6, 10, Answer::Trimmed, Rests),
                Step::Log(1, 1, 0),
                Faults(None),
            ],
        ],
    ),
];

fn has_extent(content: &mut RangeContent, part: &Part) -> Result<(), Fail> {
    match part {
        Part::Rows => content.rows.extents.push(extent(None))?,
        Part::Metadata => content.metadata.extents.push(extent(None))?,
        Part::Log => content.log.extents.push(extent(Some(24)))?,
        Part::Page => {}
    }
    Ok(())
}

fn begins(
    checkpointed: &mut Checkpointed,
    alloc: Global,
    count: u32,
    start: &CheckpointStart,
    comes: &Comes,
) -> Result<bool, Fail> {
    if checkpointed.content.table.fixed().is_some() {
        return Ok(false);
    }
    let progress = begin(
        &mut checkpointed.content,
        alloc,
        &context(count, 5),
        start,
        &checkpointed.pages,
    )?;
    let told = comes_to(&progress, comes);
    drop(progress);
    Ok(told)
}

/// Where the log is read from behind a checkpoint that begins in the extent of this index, and the number that is applied next.
fn start_in(index: u64, combine: bool) -> CheckpointStart {
    CheckpointStart {
        position: Position { index, offset: 24 },
        next: 3,
        combine,
    }
}

/// What comes of an answer for a part, if its range is served.
fn reply(
    checkpointed: &mut Checkpointed,
    alloc: Global,
    context: &ServerContext,
    part: &Part,
    packet: &Packet,
) -> Result<Progress, AllocError> {
    let content = &mut checkpointed.content;
    match part {
        Part::Page => page_reply(content, alloc, context, packet, &checkpointed.pages),
        Part::Rows => rows_reply(content, alloc, context, packet),
        Part::Metadata => {
            if content.stage != Stage::Serving {
                return Ok(Progress::Rests);
            }
            if is_recorded(content, &packet.body) {
                let trim = install(content, alloc, context, packet)?;
                return Ok(Progress::Goes(trim));
            }
            record_reply(content, alloc, context, packet)
        }
        Part::Log => trim_reply(content, context, packet),
    }
}

fn answered(
    checkpointed: &mut Checkpointed,
    alloc: Global,
    part: &Part,
    asked: u32,
    count: u32,
    answer: &Answer,
) -> Result<Progress, Fail> {
    let control = &checkpointed.content.control;
    if matches!(part, Part::Log) && !trim_awaits(control, &number(u64::from(asked))) {
        return Ok(Progress::Rests);
    }
    let packet = answer_of(body_of(asked, answer));
    let told = reply(checkpointed, alloc, &context(count, 5), part, &packet);
    drop(packet);
    Ok(told?)
}

fn gives_up(content: &mut RangeContent, count: u32, rows: &Comes, trim: &Comes) -> bool {
    let given = give_up(content, &context(count, 5));
    let told = are_sent(given.rows.as_ref(), rows) && are_sent(given.trim.as_ref(), trim);
    drop(given);
    told
}

fn is_page_at(content: &RangeContent, position: usize, offset: u32, length: u32) -> bool {
    let wanted = Place {
        extent: ExtentId(7),
        offset,
        length,
    };
    match content.indexes.as_slice().first() {
        None => false,
        Some(newest) => match newest.index.pages.as_slice().get(position) {
            None => false,
            Some(page) => page.place == wanted,
        },
    }
}

fn knows(content: &RangeContent, step: &Step) -> bool {
    match step {
        Faults(fault) => checkpoint_fault(content, Pause::Off) == *fault,
        Table(live, fixed) => {
            content.table.live().len() == *live && content.table.fixed().is_some() == *fixed
        }
        Indexes(installed, said) => {
            content.indexes.as_slice().len() == *installed
                && content.said.indexes.items.len() == *said
        }
        Step::Log(base, log, blob) => {
            content.log.base == *base
                && content.log.extents.len() == *log
                && content.blob_data.extents.items.len() == *blob
        }
        PageAt(position, offset, length) => is_page_at(content, *position, *offset, *length),
        _ => false,
    }
}

/// A range of which a checkpoint is made, and what it holds of pages, which is none.
#[derive(Drop)]
struct Checkpointed {
    content: RangeContent,
    pages: Lookups,
}

fn takes(checkpointed: &mut Checkpointed, alloc: Global, step: &Step) -> Result<bool, Fail> {
    let content = &mut checkpointed.content;
    match step {
        Has(part) => has_extent(content, part)?,
        PutsSmall(key) => put_small(alloc, &mut content.table, *key)?,
        PutsLarge(key) => put_large(alloc, &mut content.table, *key)?,
        Fills(count) => fill(alloc, &mut content.table, *count)?,
        IsLoading => content.stage = Stage::Confirming,
        Begins(count, index, comes) => {
            return begins(checkpointed, alloc, *count, &start_in(*index, false), comes);
        }
        Combines(count, index, comes) => {
            return begins(checkpointed, alloc, *count, &start_in(*index, true), comes);
        }
        Answered(part, asked, count, answer, comes) => {
            let progress = answered(checkpointed, alloc, part, *asked, *count, answer)?;
            let told = comes_to(&progress, comes);
            drop(progress);
            return Ok(told);
        }
        GivesUp(count, rows, trim) => return Ok(gives_up(content, *count, rows, trim)),
        _ => return Ok(knows(content, step)),
    }
    Ok(true)
}

impl Tested for Checkpointed {
    type Step = Step;

    fn takes(&mut self, alloc: Global, step: &Step) -> Result<bool, Fail> {
        takes(self, alloc, step)
    }
}

#[test]
fn checkpoints_go_as_their_cases_say(rt: HostRuntime) -> Result<(), Fail> {
    for (name, parts) in CASES {
        let start = Checkpointed {
            content: served(rt.alloc())?,
            pages: Lookups::new(rt.alloc())?,
        };
        assert!(rt; holds(rt.alloc(), start, *parts)?, "{name}");
    }
    Ok(())
}
