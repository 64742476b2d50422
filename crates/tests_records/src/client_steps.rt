//! The cases that `clients` goes through: what is done with a client, step by step, and what comes of each step. Each number is
//! told by its count, and extents by theirs.
use client::ClientFault;
use wire::Refusal;

/// What a client is called for.
pub(crate) enum Call {
    /// An append of two blocks.
    Append,
    /// An append of one block.
    AppendOne,
    CheckLength,
    /// A read of the extent at this position of the list.
    ReadSealed(usize),
    ReadChecked,
    GiveUp,
}

/// An answer, first with the number that it repeats.
pub(crate) enum Answer {
    /// The append stands at this offset.
    Appended(u64, u32),
    Refused(u64, Refusal),
    /// The extent is sealed at this length.
    SealedIs(u64, u32),
    /// There is this new extent.
    Extended(u64, u64),
    /// The extent has this length on all places, or not the same on each.
    Checked(u64, Option<u32>),
    Groups(u64),
}

/// A packet that a client sends.
pub(crate) enum Sent {
    Any,
    /// An append of two blocks, to this node and extent.
    Append(u8, u64),
    /// The extent 1 is to be sealed.
    Seal,
    /// The first extent of the stream is asked for.
    FirstExtend,
    /// An extent after the extent 1 is asked for.
    Extend,
    /// A read of a sealed extent up to the length 6, at this node.
    ReadSealed(u8),
    /// A read of an open extent up to the length 5, at the node 1.
    ReadOpen,
}

/// What comes of a call or an answer: a packet, news, neither or a fault.
pub(crate) enum Outcome {
    Silent,
    /// This packet, which bears this number.
    Sends(u64, Sent),
    /// The append stands at this extent and offset.
    Appended(u64, u32),
    /// The extent 1 has this length.
    Checked(u32),
    /// The extent 1 is sealed at this length.
    Sealed(u32),
    /// The extent 1 was read up to this length.
    Content(u32),
    Fenced,
    Refused(ClientFault),
}

/// What a client knows.
pub(crate) enum Known {
    Idle,
    /// It is idle, and tells what it was made of.
    AtRest,
    /// Whether it awaits the answer of this number.
    Awaits(u64, bool),
    /// Whether groups under this number would bring the content of the extent 1 up to the length 6.
    Content(u64, bool),
    /// It is idle once its read is ended.
    ReadEnded,
    /// How many extents there are.
    Extents(usize),
    /// The length at which the last extent was checked.
    Checked(u32),
}

/// What is done with a client, which counts its packets by numbers, and what comes of it.
pub(crate) enum Step {
    /// It is called, and sends under this number.
    Does(u64, Call, Outcome),
    /// An answer comes, and it sends under this number.
    Gets(u64, Answer, Outcome),
    Knows(Known),
}

/// What a client goes through, whose stream begins with the extent 1 or with none.
pub(crate) struct Case {
    pub(crate) name: &'static str,
    pub(crate) has_extent: bool,
    /// The length in bytes of the extent, if it is sealed.
    pub(crate) length: Option<u32>,
    pub(crate) steps: &'static [Step],
}

const APPENDS: Step = Step::Does(1, Call::Append, Outcome::Sends(1, Sent::Append(1, 1)));

const READS: Step = Step::Does(
    1,
    Call::ReadSealed(0),
    Outcome::Sends(1, Sent::ReadSealed(1)),
);

const CHECKS: Step = Step::Does(1, Call::CheckLength, Outcome::Sends(1, Sent::Any));

pub(crate) const CASES: &[Case] = &[
    Case {
        name: "appends to an open extent",
        has_extent: true,
        length: None,
        steps: &[
            APPENDS,
            Step::Gets(9, Answer::Appended(1, 7), Outcome::Appended(1, 7)),
            Step::Knows(Known::AtRest),
        ],
    },
    Case {
        name: "appends what was made beforehand",
        has_extent: true,
        length: None,
        steps: &[
            Step::Does(1, Call::AppendOne, Outcome::Sends(1, Sent::Any)),
            Step::Knows(Known::Awaits(1, true)),
            Step::Knows(Known::Awaits(2, false)),
            Step::Does(2, Call::AppendOne, Outcome::Refused(ClientFault::Busy)),
        ],
    },
    Case {
        name: "takes content by itself",
        has_extent: true,
        length: Some(6),
        steps: &[
            READS,
            Step::Knows(Known::Content(1, true)),
            Step::Knows(Known::Content(2, false)),
            Step::Knows(Known::ReadEnded),
        ],
    },
    Case {
        name: "appends again behind a sealed extent",
        has_extent: true,
        length: None,
        steps: &[
            APPENDS,
            Step::Does(2, Call::GiveUp, Outcome::Sends(2, Sent::Seal)),
            Step::Gets(9, Answer::Appended(1, 0), Outcome::Silent),
            Step::Does(3, Call::GiveUp, Outcome::Sends(2, Sent::Seal)),
            Step::Gets(4, Answer::SealedIs(2, 3), Outcome::Sends(4, Sent::Extend)),
            Step::Does(5, Call::GiveUp, Outcome::Sends(4, Sent::Extend)),
            Step::Gets(
                6,
                Answer::Extended(4, 2),
                Outcome::Sends(6, Sent::Append(3, 2)),
            ),
            Step::Gets(7, Answer::Appended(6, 0), Outcome::Appended(2, 0)),
            Step::Knows(Known::Extents(2)),
        ],
    },
    Case {
        name: "begins a stream",
        has_extent: false,
        length: None,
        steps: &[
            Step::Does(
                1,
                Call::CheckLength,
                Outcome::Refused(ClientFault::NoSuchExtent),
            ),
            Step::Does(1, Call::Append, Outcome::Sends(1, Sent::FirstExtend)),
            Step::Gets(
                2,
                Answer::Extended(1, 4),
                Outcome::Sends(2, Sent::Append(3, 4)),
            ),
        ],
    },
    Case {
        name: "leaves a full extent",
        has_extent: true,
        length: None,
        steps: &[
            APPENDS,
            Step::Gets(
                2,
                Answer::Refused(1, Refusal::ExtentFull),
                Outcome::Sends(2, Sent::Seal),
            ),
        ],
    },
    Case {
        name: "appends behind a sealed extent",
        has_extent: true,
        length: Some(3),
        steps: &[Step::Does(1, Call::Append, Outcome::Sends(1, Sent::Extend))],
    },
    Case {
        name: "ends where its generation is old",
        has_extent: true,
        length: None,
        steps: &[
            APPENDS,
            Step::Gets(2, Answer::Refused(1, Refusal::Busy), Outcome::Silent),
            Step::Gets(2, Answer::Refused(1, Refusal::Stale), Outcome::Fenced),
            Step::Knows(Known::Idle),
            Step::Does(3, Call::GiveUp, Outcome::Silent),
        ],
    },
    Case {
        name: "reads what was checked",
        has_extent: true,
        length: None,
        steps: &[
            Step::Does(
                1,
                Call::ReadChecked,
                Outcome::Refused(ClientFault::NotSealed),
            ),
            CHECKS,
            Step::Does(2, Call::CheckLength, Outcome::Refused(ClientFault::Busy)),
            Step::Gets(2, Answer::Checked(1, Some(5)), Outcome::Checked(5)),
            Step::Knows(Known::Checked(5)),
            Step::Does(2, Call::ReadChecked, Outcome::Sends(2, Sent::ReadOpen)),
        ],
    },
    Case {
        name: "tells how far it read",
        has_extent: true,
        length: Some(6),
        steps: &[READS, Step::Gets(2, Answer::Groups(1), Outcome::Content(6))],
    },
    Case {
        name: "seals what cannot be checked",
        has_extent: true,
        length: None,
        steps: &[
            CHECKS,
            Step::Gets(2, Answer::Checked(1, None), Outcome::Sends(2, Sent::Seal)),
            Step::Does(3, Call::GiveUp, Outcome::Sends(2, Sent::Seal)),
            Step::Gets(3, Answer::SealedIs(2, 6), Outcome::Sealed(6)),
            Step::Does(4, Call::CheckLength, Outcome::Refused(ClientFault::NotOpen)),
            Step::Does(4, Call::ReadChecked, Outcome::Refused(ClientFault::NotOpen)),
            Step::Does(
                4,
                Call::ReadSealed(0),
                Outcome::Sends(4, Sent::ReadSealed(1)),
            ),
        ],
    },
    Case {
        name: "reads sealed extents at each place in turn",
        has_extent: true,
        length: Some(6),
        steps: &[
            Step::Does(
                1,
                Call::ReadSealed(1),
                Outcome::Refused(ClientFault::NoSuchExtent),
            ),
            READS,
            Step::Does(2, Call::GiveUp, Outcome::Sends(1, Sent::ReadSealed(2))),
            Step::Does(2, Call::GiveUp, Outcome::Sends(1, Sent::ReadSealed(3))),
            Step::Does(2, Call::GiveUp, Outcome::Sends(1, Sent::ReadSealed(1))),
        ],
    },
    Case {
        name: "seals what is not checked in time",
        has_extent: true,
        length: None,
        steps: &[
            Step::Does(
                1,
                Call::ReadSealed(0),
                Outcome::Refused(ClientFault::NotSealed),
            ),
            CHECKS,
            Step::Does(2, Call::GiveUp, Outcome::Sends(2, Sent::Seal)),
            Step::Gets(3, Answer::Checked(1, Some(5)), Outcome::Silent),
        ],
    },
];
