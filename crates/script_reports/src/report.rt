//! The lines of output.
use crate::hex_text::HexText;
use crate::line::{write_four, write_one, write_three, write_two};
use std::fmt;
use wire::{Refusal, ServerNo};

/// What an answer tells a user.
#[derive(Drop)]
pub enum Answer {
    Created,
    Extended(u64),
    Appended(u32),
    Bytes(HexText),
    /// How many bytes the groups have together.
    Content(u128),
    Sealed {
        extent: u64,
        length: u32,
    },
    /// The transaction has this number.
    Committed(u64),
    /// What stands under the key.
    Value(HexText),
    /// Nothing stands under the key.
    NoValue,
    /// The key is of this range, which this server holds, if one does.
    Route {
        range: u64,
        server: Option<ServerNo>,
    },
    Refused(Refusal),
}

/// What a replica does.
#[derive(Clone, Copy)]
pub enum Standing {
    Open,
    Frozen,
    Sealed,
}

/// A line of output.
#[derive(Drop)]
pub enum Report {
    /// The primary acknowledged a group.
    Acked {
        extent: u64,
        offset: u32,
        size: u32,
    },
    /// An extent was sealed at this length.
    SealedAt {
        extent: u64,
        length: u32,
    },
    /// A sealed replica showed its content: how many bytes and how many groups.
    Content {
        extent: u64,
        node: u8,
        size: u128,
        groups: u64,
    },
    /// A replica showed so many bytes from an offset on.
    Seen {
        extent: u64,
        node: u8,
        offset: u32,
        count: u64,
    },
    /// A server gave a transaction its number.
    Began {
        range: u64,
        generation: u64,
        number: u64,
    },
    /// A server answered that a transaction is done.
    Done {
        range: u64,
        generation: u64,
        number: u64,
    },
    /// A server loaded a range: the number of its next transaction, and how many rows it has.
    Loaded {
        range: u64,
        generation: u64,
        next: u64,
        rows: u64,
    },
    /// A server answered a Get of a key: how many bytes the value has, if there is one.
    Got {
        range: u64,
        generation: u64,
        key: HexText,
        length: Option<u64>,
    },
    /// The map split a range at a key: the numbers of its halves, and the key.
    Split {
        range: u64,
        low: u64,
        high: u64,
        key: HexText,
    },
    /// The map joined two ranges: their numbers, and the one of what they became.
    Merged {
        left: u64,
        right: u64,
        range: u64,
    },
    /// The event was refused.
    Refused(Refusal),
    /// An answer came to a user.
    Told {
        user: u64,
        ticket: u64,
        answer: Answer,
    },
    Replica {
        node: u8,
        extent: u64,
        standing: Standing,
        length: u32,
        fence: u64,
    },
    NoReplica {
        node: u8,
        extent: u64,
    },
    /// The node is stopped, so nobody knows what it has.
    Stopped {
        node: u8,
        extent: u64,
    },
}

impl fmt::Display for Answer {
    ghost use Rattle.std.specs.Prelude.{Some};
    ghost use Rattle.script_reports.specs.Reports.{answer_text};

    ghost output = { λ answer. Some (answer_text answer) };

    fn fmt<W: fmt::Write>(&self, f: &mut fmt::Formatter<W>) -> fmt::Result {
        match self {
            Answer::Created => f.write_str("created"),
            Answer::Extended(extent) => write_one(f, "extended", extent),
            Answer::Appended(offset) => write_one(f, "appended", offset),
            Answer::Bytes(bytes) => write_one(f, "bytes", bytes),
            Answer::Content(size) => write_one(f, "content", size),
            Answer::Sealed { extent, length } => write_two(f, "sealedis", extent, length),
            Answer::Committed(number) => write_one(f, "committed", number),
            Answer::Value(bytes) => write_one(f, "value", bytes),
            Answer::NoValue => f.write_str("value none"),
            Answer::Route {
                range,
                server: Some(server),
            } => write_two(f, "route", range, &server.0),
            Answer::Route {
                range,
                server: None,
            } => write_two(f, "route", range, &"0"),
            Answer::Refused(refusal) => write_one(f, "refused", refusal),
        }
    }
}

impl fmt::Display for Standing {
    ghost use Rattle.std.specs.Prelude.{Some};
    ghost use Rattle.script_reports.specs.Reports.{standing_text};

    ghost output = { λ standing. Some (standing_text standing) };

    fn fmt<W: fmt::Write>(&self, f: &mut fmt::Formatter<W>) -> fmt::Result {
        match self {
            Standing::Open => f.write_str("open"),
            Standing::Frozen => f.write_str("frozen"),
            Standing::Sealed => f.write_str("sealed"),
        }
    }
}

impl fmt::Display for Report {
    ghost use Rattle.std.specs.Prelude.{Some};
    ghost use Rattle.script_reports.specs.Reports.{report_text};

    ghost output = { λ report. Some (report_text report) };

    fn fmt<W: fmt::Write>(&self, f: &mut fmt::Formatter<W>) -> fmt::Result {
        match self {
            Report::Acked {
                extent,
                offset,
                size,
            } => write_three(f, "acked", extent, offset, size),
            Report::SealedAt { extent, length } => write_two(f, "sealed", extent, length),
            Report::Content {
                extent,
                node,
                size,
                groups,
            } => write_four(f, "content", extent, node, size, groups),
            Report::Seen {
                extent,
                node,
                offset,
                count,
            } => write_four(f, "seen", extent, node, offset, count),
            Report::Began {
                range,
                generation,
                number,
            } => write_three(f, "began", range, generation, number),
            Report::Done {
                range,
                generation,
                number,
            } => write_three(f, "done", range, generation, number),
            Report::Loaded {
                range,
                generation,
                next,
                rows,
            } => write_four(f, "loaded", range, generation, next, rows),
            Report::Got {
                range,
                generation,
                key,
                length: Some(length),
            } => write_four(f, "got", range, generation, key, length),
            Report::Got {
                range,
                generation,
                key,
                length: None,
            } => write_four(f, "got", range, generation, key, &"none"),
            Report::Split {
                range,
                low,
                high,
                key,
            } => write_four(f, "split", range, low, high, key),
            Report::Merged { left, right, range } => write_three(f, "merged", left, right, range),
            Report::Refused(refusal) => write_one(f, "refused", refusal),
            Report::Told {
                user,
                ticket,
                answer,
            } => write_three(f, "user", user, ticket, answer),
            Report::Replica {
                node,
                extent,
                standing,
                length,
                fence,
            } => write!(f, "replica {node} {extent} {standing} {length} {fence}"),
            Report::NoReplica { node, extent } => write_three(f, "replica", node, extent, &"none"),
            Report::Stopped { node, extent } => write_three(f, "replica", node, extent, &"stopped"),
        }
    }
}
