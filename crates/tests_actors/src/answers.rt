//! What a step of an actor comes to.
use wire::{
    ActorId, AppendBody, Body, CheckBody, Packet, ReadBody, Refusal, SealBody, Step, StreamBody,
    StreamList,
};

/// What a case wants of a step. Where no more is said, the step sends one packet, which says this.
#[derive(Clone, Copy)]
pub enum Answer {
    /// The step is taken, whatever it sends.
    Taken,
    /// The step is not taken: the disk fails.
    Fails,
    /// So many packets are sent, and so many notes are shown.
    Sends(usize, usize),
    Refuses(Refusal),
    /// Two packets put a group at this offset of nodes 2 and 3.
    Puts(u32),
    /// Two packets probe nodes 2 and 3 with this generation.
    Probes(u64),
    /// The length of a replica.
    Has(u32),
    /// These bytes of a replica are read.
    Gives(&'static [u8]),
    /// So many groups of a replica are read.
    GivesGroups(usize),
    /// The replica is frozen at this length.
    Freezes(u32),
    /// The replica is too short with this length.
    IsShort(u32),
    IsSealed,
    /// The groups of a tail, from one length to the other.
    SendsTail(u32, u32),
    /// The generation of a probe, and the length of the replica.
    Finds(u64, u32),
    /// The length that all three places have, if they have one.
    Checks(Option<u32>),
    /// So many packets and no note; the last packet names this extent as the end of its stream.
    Names(usize, u64),
    /// The last packet tells this length of a sealed extent.
    Tells(u32),
    /// A range is opened with so many extents of row data, the first of this length, and an empty log.
    Opens(usize, Option<u32>),
    /// A range is opened with a log of this base and so many extents.
    OpensLog(u64, usize),
    Confirms,
    Trims,
    Modifies,
}

fn append_says(body: &AppendBody, wanted: Answer) -> bool {
    match (body, wanted) {
        (AppendBody::Refused { refusal, .. }, Answer::Refuses(wanted)) => *refusal == wanted,
        (AppendBody::Put { offset, .. }, Answer::Puts(wanted)) => *offset == wanted,
        (AppendBody::Have { length, .. }, Answer::Has(wanted)) => *length == wanted,
        _ => false,
    }
}

fn check_says(body: &CheckBody, wanted: Answer) -> bool {
    match (body, wanted) {
        (CheckBody::Probe { generation, .. }, Answer::Probes(wanted)) => generation.0 == wanted,
        (
            CheckBody::Probed {
                generation,
                length,
                ..
            },
            Answer::Finds(number, wanted),
        ) => { generation.0 == number && *length == wanted }
        (CheckBody::Checked { length, .. }, Answer::Checks(wanted)) => *length == wanted,
        _ => false,
    }
}

fn seal_says(body: &SealBody, wanted: Answer) -> bool {
    match (body, wanted) {
        (SealBody::SealedIs { length, .. }, Answer::Tells(wanted)) => *length == wanted,
        (SealBody::Frozen { length, .. }, Answer::Freezes(wanted)) => *length == wanted,
        (SealBody::IsSealed { .. }, Answer::IsSealed) => true,
        (SealBody::Short { length, .. }, Answer::IsShort(wanted)) => *length == wanted,
        (SealBody::Tail { from, length, .. }, Answer::SendsTail(start, end)) => {
            *from == start && *length == end
        }
        _ => false,
    }
}

fn read_says(body: &ReadBody, wanted: Answer) -> bool {
    match (body, wanted) {
        (ReadBody::Bytes { bytes, .. }, Answer::Gives(wanted)) => bytes.as_slice() == wanted,
        (ReadBody::Groups { groups, .. }, Answer::GivesGroups(wanted)) => {
            groups.items.len() == wanted
        }
        _ => false,
    }
}

/// How many extents a list tells, and the length of the first of them.
fn told_of(list: &StreamList) -> (usize, Option<u32>) {
    match list.extents.items.as_slice() {
        [] => (0, None),
        [first, rest @ ..] => (rest.len() + 1, first.length),
    }
}

fn stream_says(body: &StreamBody, wanted: Answer) -> bool {
    match (body, wanted) {
        (StreamBody::Opened { streams, .. }, Answer::Opens(extents, first)) => {
            let lists = streams.lists();
            told_of(&lists.row_data) == (extents, first) && told_of(&lists.log) == (0, None)
        }
        (StreamBody::Opened { streams, .. }, Answer::OpensLog(base, extents)) => {
            let log = &streams.lists().log;
            log.base == base && log.extents.items.len() == extents
        }
        (StreamBody::Confirmed { .. }, Answer::Confirms) => true,
        (StreamBody::Trimmed { .. }, Answer::Trims) => true,
        (StreamBody::Modified { .. }, Answer::Modifies) => true,
        (StreamBody::Extended { extent, .. }, Answer::Names(_, wanted)) => extent.0 == wanted,
        _ => false,
    }
}

fn says(packet: &Packet, wanted: Answer) -> bool {
    match &packet.body {
        Body::Append(body) => append_says(body, wanted),
        Body::Check(body) => check_says(body, wanted),
        Body::Seal(body) => seal_says(body, wanted),
        Body::Read(body) => read_says(body, wanted),
        Body::Stream(body) => stream_says(body, wanted),
        _ => false,
    }
}

fn says_to(packet: &Packet, node: u8, wanted: Answer) -> bool {
    packet.to == ActorId::Node(node) && says(packet, wanted)
}

fn both_say(packets: &[Packet], wanted: Answer) -> bool {
    match packets {
        [second, third] => says_to(second, 2, wanted) && says_to(third, 3, wanted),
        _ => false,
    }
}

fn last_says(packets: &[Packet], wanted: Answer) -> bool {
    match packets {
        [.., last] => says(last, wanted),
        [] => false,
    }
}

fn only_says(packets: &[Packet], wanted: Answer) -> bool {
    match packets {
        [only] => says(only, wanted),
        _ => false,
    }
}

/// How many packets a step sends, and how many notes it shows.
pub fn counts(step: &Step) -> (usize, usize) {
    (step.packets.items.len(), step.notes.items.len())
}

pub fn is_answer(step: &Step, wanted: Answer) -> bool {
    let packets = &step.packets.items;
    match wanted {
        Answer::Taken => true,
        Answer::Sends(sent, shown) => counts(step) == (sent, shown),
        Answer::Puts(_) | Answer::Probes(_) => both_say(packets, wanted),
        Answer::Names(sent, _) => counts(step) == (sent, 0) && last_says(packets, wanted),
        Answer::Tells(_) => last_says(packets, wanted),
        _ => only_says(packets, wanted),
    }
}

/// Whether a step comes to an answer. It is handed over whole: a local that lives on costs the proof at each exit.
pub fn comes_to<E: Drop>(taken: Result<Step, E>, wanted: Answer) -> bool {
    match taken {
        Ok(step) => is_answer(&step, wanted),
        Err(_fault) => matches!(&wanted, Answer::Fails),
    }
}
