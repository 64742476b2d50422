//! A server that makes a checkpoint, over real nodes and the real manager: what is appended, sealed and read, and what a load
//! after it shows. The values that are wanted were worked out by hand from the formats.
use crate::page_rows::{Shown, are_rows, rows_after};
use crate::requests::PLACES;
use crate::runs::{Run, decides, settles, started};
use Observed::{Acked, Seals, Sees};
use Step::{
    Appends, Assigns, Checkpoints, Combines, Commits, Decides, Finds, Misses, Refuses, Shows,
    StartsAgain,
};
use block_types::Group;
use bytes::Bytes;
use model_partition::TableNote;
use range::{RangeFault, RangeServer, Sent};
use std::alloc::{AllocError, Global};
use wire::{
    ActorId, AppendBody, Blocks, Body, Change, Changes, ExtentId, Fence, MapBody, Note, Packet,
    RangeId, ReqNo, Rows, ServerNo, TableBody,
};
use world_streams::StreamLayer;

/// What is observed of extents: the extent, an offset and a length in bytes.
#[derive(Clone, Copy, PartialEq, Eq)]
pub(crate) enum Observed {
    Acked(u64, u32, usize),
    Seals(u64, u32),
    Sees(u64, u32, usize),
}

/// What happens at the server of range 1, after which all that it sends comes, and what is wanted of it.
#[derive(Drop)]
pub(crate) enum Step {
    /// The map assigns the range under this generation.
    Assigns(u64),
    /// A user sets a key to so many bytes of a letter.
    Commits(&'static [u8], usize, u8),
    /// The manager seals an extent.
    Decides(u64),
    /// A checkpoint begins.
    Checkpoints,
    /// A checkpoint begins that combines the indexes.
    Combines,
    /// A checkpoint is refused for this reason.
    Refuses(RangeFault),
    /// The server stops, and starts under this number.
    StartsAgain(u64),
    /// A user reads a key: so many bytes of a letter.
    Finds(&'static [u8], usize, u8),
    /// A user reads a key, which has no value.
    Misses(&'static [u8]),
    /// These blocks are appended to an extent under generation 1, though the server's rules send no such thing.
    Appends(u64, &'static [&'static [u8]]),
    /// The last load showed these rows.
    Shows(&'static [Shown]),
}

/// What a case shows, its steps, what is observed, and each number that a load shows to be the next.
type Case = (
    &'static str,
    &'static [Step],
    &'static [Observed],
    &'static [u64],
);

const CASES: &[Case] = &[
    (
        "a load after a checkpoint begins behind it, and a Get finds the page",
        &[
            Assigns(1),
            Commits(b"a", 1, b'x'),
            Checkpoints,
            StartsAgain(2),
            Assigns(2),
            Finds(b"a", 1, b'x'),
        ],
        &[
            Acked(1, 0, 24),
            Acked(2, 0, 11),
            Acked(2, 11, 28),
            Acked(3, 0, 46),
            Sees(3, 0, 46),
            Sees(1, 0, 24),
            Sees(2, 11, 28),
            Sees(2, 0, 11),
        ],
        &[1, 2],
    ),
    (
        "a value by its place outlives the extent of the log in which it stands",
        &[
            Assigns(1),
            Commits(b"k", 5000, b'q'),
            Commits(b"a", 1, b'x'),
            Decides(1),
            Checkpoints,
            StartsAgain(2),
            Assigns(2),
            Finds(b"k", 5000, b'q'),
            Finds(b"a", 1, b'x'),
        ],
        &[
            Acked(1, 0, 5024),
            Seals(1, 5024),
            Acked(2, 0, 24),
            Acked(3, 0, 31),
            Acked(3, 31, 28),
            Acked(4, 0, 46),
            Sees(4, 0, 46),
            Sees(2, 0, 24),
            Sees(3, 31, 28),
            Sees(3, 0, 31),
            Sees(1, 24, 5000),
        ],
        &[1, 3],
    ),
    (
        "a load after a checkpoint that combines reads one index, and a value by its place is still found",
        &[
            Assigns(1),
            Commits(b"k", 5000, b'q'),
            Checkpoints,
            Commits(b"a", 1, b'x'),
            Decides(1),
            Checkpoints,
            Combines,
            StartsAgain(2),
            Assigns(2),
            Finds(b"k", 5000, b'q'),
            Finds(b"a", 1, b'x'),
        ],
        &[
            Acked(1, 0, 5024),
            Acked(2, 0, 22),
            Acked(2, 22, 28),
            Acked(3, 0, 46),
            Seals(1, 5024),
            Acked(4, 0, 24),
            Acked(2, 50, 11),
            Acked(2, 61, 28),
            Acked(3, 46, 46),
            Sees(2, 0, 22),
            Sees(2, 50, 11),
            Acked(2, 89, 31),
            Acked(2, 120, 28),
            Acked(3, 92, 46),
            Sees(3, 0, 138),
            Sees(4, 0, 24),
            Sees(2, 120, 28),
            Sees(2, 89, 31),
            Sees(1, 24, 5000),
        ],
        &[1, 3],
    ),
    (
        "a page that was read for a Get is not read again to be combined",
        &[
            Assigns(1),
            Commits(b"a", 1, b'x'),
            Checkpoints,
            Finds(b"a", 1, b'x'),
            Combines,
            Finds(b"a", 1, b'x'),
        ],
        &[
            Acked(1, 0, 24),
            Acked(2, 0, 11),
            Acked(2, 11, 28),
            Acked(3, 0, 46),
            Sees(2, 0, 11),
            Acked(2, 39, 11),
            Acked(2, 50, 28),
            Acked(3, 46, 46),
            Sees(2, 39, 11),
        ],
        &[1],
    ),
    (
        "a table with no entry has an index alone, and a checkpoint wants a range that is served",
        &[
            Refuses(RangeFault::NotOwner),
            Assigns(1),
            Checkpoints,
            Checkpoints,
            Commits(b"a", 1, b'x'),
            Finds(b"a", 1, b'x'),
        ],
        &[
            Acked(1, 0, 9),
            Acked(2, 0, 46),
            Acked(1, 9, 9),
            Acked(2, 46, 46),
            Acked(3, 0, 24),
        ],
        &[1],
    ),
];

/// A server over a stream layer, what users were told, the next number that each load showed, and the rows.
#[derive(Drop)]
pub(crate) struct Stand {
    run: Run,
    server: RangeServer,
    told: Vec<Packet>,
    loads: Vec<u64>,
    rows: Vec<Rows>,
}

const SERVER: ServerNo = ServerNo(1);

fn server_of(alloc: Global, session: u64) -> RangeServer {
    RangeServer::start(alloc, SERVER, session, 1, PLACES, 1)
}

fn to_server(from: ActorId, body: Body) -> Packet {
    Packet {
        from,
        to: ActorId::Server(SERVER),
        body,
    }
}

fn request(ticket: u64) -> ReqNo {
    ReqNo::User { user: 1, ticket }
}

fn repeated(alloc: Global, count: usize, letter: u8) -> Result<Bytes, AllocError> {
    let mut bytes = Vec::new(alloc);
    bytes.resize(count, letter)?;
    Ok(Bytes::from_vec(bytes)?)
}

/// Notes the next numbers that loads show.
fn note_loads(loads: &mut Vec<u64>, notes: &[TableNote]) -> Result<(), AllocError> {
    for note in notes {
        if let TableNote::Loaded { next, .. } = note {
            loads.push(*next)?;
        }
    }
    Ok(())
}

/// Sends packets on their way: those to users are told, and the others come.
fn send_all(alloc: Global, stand: &mut Stand, sent: Sent) -> bool {
    let Sent { packets, notes } = sent;
    if note_loads(&mut stand.loads, &notes).is_err() {
        return false;
    }
    for packet in packets {
        if !send(stand, packet) {
            return false;
        }
    }
    settles(alloc, &mut stand.run, &[])
}

fn send(stand: &mut Stand, packet: Packet) -> bool {
    match packet.to {
        ActorId::User(_) => stand.told.push(packet).is_ok(),
        to => stand.run.stream_layer.ask(SERVER, to, packet.body).is_ok(),
    }
}

/// The rows of the table that an answer is about to show, if there is one.
fn note_rows(
    rows: &mut Vec<Rows>,
    server: &RangeServer,
    alloc: Global,
    layer: &StreamLayer,
    packet: &Packet,
) -> Result<(), AllocError> {
    if let Some(table) = server.loading(&packet.body) {
        rows.push(rows_after(alloc, layer.observations(), &table)?)?;
    }
    Ok(())
}

/// What a server makes of the packets to it from one on: its packets and observations, one after another. The rows of what it loads
/// are noted before.
fn take_answers(
    server: &mut RangeServer,
    rows: &mut Vec<Rows>,
    alloc: Global,
    layer: &StreamLayer,
    from: usize,
) -> Result<Sent, AllocError> {
    let mut all = Sent::nothing(alloc);
    for packet in layer.sent().iter().skip(from) {
        if packet.to == ActorId::Server(SERVER) {
            note_rows(rows, server, alloc, layer, packet)?;
            let Sent {
                mut packets,
                mut notes,
            } = server.handle(alloc, packet)?;
            all.packets.append(&mut packets)?;
            all.notes.append(&mut notes)?;
        }
    }
    Ok(all)
}

/// What the server makes of the packets to it from one on.
fn answers(alloc: Global, stand: &mut Stand, from: usize) -> Result<Sent, AllocError> {
    let layer = &stand.run.stream_layer;
    take_answers(&mut stand.server, &mut stand.rows, alloc, layer, from)
}

/// All that is sent comes, and what comes of it, until nothing follows.
fn follows(alloc: Global, stand: &mut Stand, sent: Sent) -> bool {
    let mut sent = sent;
    for _ in 0..100 {
        let before = stand.run.next;
        if !send_all(alloc, stand, sent) {
            return false;
        }
        match answers(alloc, stand, before) {
            Ok(next) => sent = next,
            Err(_full) => return false,
        }
        if sent.packets.is_empty() && sent.notes.is_empty() {
            return true;
        }
    }
    false
}

fn gives(alloc: Global, stand: &mut Stand, packet: Packet) -> bool {
    match stand.server.handle(alloc, &packet) {
        Ok(sent) => follows(alloc, stand, sent),
        Err(_full) => false,
    }
}

fn assigns(alloc: Global, stand: &mut Stand, generation: u64) -> bool {
    let body = MapBody::Assign {
        range: RangeId(1),
        generation: Fence(generation),
        until: 100,
    };
    gives(alloc, stand, to_server(ActorId::Map, Body::Map(body)))
}

fn transaction(
    alloc: Global,
    key: &[u8],
    count: usize,
    letter: u8,
) -> Result<TableBody, AllocError> {
    let mut changes = Vec::new(alloc);
    changes.push(Change {
        key: Bytes::copy_from_slice(alloc, key)?,
        value: Some(repeated(alloc, count, letter)?),
    })?;
    Ok(TableBody::Transact {
        range: RangeId(1),
        changes: Changes::of(changes)?,
        request: request(0),
    })
}

fn asks(alloc: Global, stand: &mut Stand, body: Result<TableBody, AllocError>) -> bool {
    match body {
        Ok(body) => gives(alloc, stand, to_server(ActorId::User(1), Body::Table(body))),
        Err(_full) => false,
    }
}

fn question(alloc: Global, key: &[u8]) -> Result<TableBody, AllocError> {
    Ok(TableBody::Get {
        range: RangeId(1),
        key: Bytes::copy_from_slice(alloc, key)?,
        request: request(1),
    })
}

fn is_value(packet: &Packet, count: usize, letter: u8) -> bool {
    match &packet.body {
        Body::Table(
            TableBody::Value {
                value: Some(value),
                ..
            },
        ) => value.len() == count && value.iter().all(|byte| *byte == letter),
        _ => false,
    }
}

/// A user reads a key: whether the user is told something.
fn reads(alloc: Global, stand: &mut Stand, key: &[u8]) -> bool {
    let before = stand.told.len();
    asks(alloc, stand, question(alloc, key)) && stand.told.len() > before
}

fn finds(alloc: Global, stand: &mut Stand, key: &[u8], count: usize, letter: u8) -> bool {
    reads(alloc, stand, key)
        && match stand.told.last() {
            Some(packet) => is_value(packet, count, letter),
            None => false,
        }
}

fn is_no_value(packet: &Packet) -> bool {
    match &packet.body {
        Body::Table(TableBody::Value { value: None, .. }) => true,
        _ => false,
    }
}

fn misses(alloc: Global, stand: &mut Stand, key: &[u8]) -> bool {
    reads(alloc, stand, key)
        && match stand.told.last() {
            Some(packet) => is_no_value(packet),
            None => false,
        }
}

fn blocks_of(alloc: Global, texts: &[&'static [u8]]) -> Result<Blocks, AllocError> {
    let mut blocks = Vec::new(alloc);
    for text in texts {
        blocks.push(Bytes::from_static(text))?;
    }
    Blocks::of(blocks)
}

fn append(alloc: Global, extent: u64, texts: &[&'static [u8]]) -> Result<Body, AllocError> {
    Ok(Body::Append(AppendBody::Append {
        extent: ExtentId(extent),
        generation: Fence(1),
        blocks: blocks_of(alloc, texts)?,
        request: request(0),
    }))
}

/// The blocks are appended, and the server is not told.
fn appends(alloc: Global, stand: &mut Stand, extent: u64, texts: &[&'static [u8]]) -> bool {
    let primary = ActorId::Node(PLACES.primary);
    match append(alloc, extent, texts) {
        Ok(body) => {
            stand.run.stream_layer.ask(SERVER, primary, body).is_ok()
                && settles(alloc, &mut stand.run, &[])
        }
        Err(_full) => false,
    }
}

fn shows(rows: &[Rows], wanted: &[Shown]) -> bool {
    match rows.last() {
        Some(last) => are_rows(&last.items, wanted),
        None => false,
    }
}

fn checkpoints(alloc: Global, stand: &mut Stand, combine: bool) -> bool {
    match stand.server.checkpoint(alloc, RangeId(1), combine) {
        Ok(sent) => follows(alloc, stand, sent),
        Err(_fault) => false,
    }
}

/// A seal that the manager decides comes, and what comes of it.
fn is_sealed(alloc: Global, stand: &mut Stand, extent: u64) -> bool {
    let before = stand.run.next;
    if !decides(alloc, &mut stand.run, extent, None) || !settles(alloc, &mut stand.run, &[]) {
        return false;
    }
    match answers(alloc, stand, before) {
        Ok(sent) => follows(alloc, stand, sent),
        Err(_full) => false,
    }
}

fn refuses(alloc: Global, stand: &mut Stand, wanted: &RangeFault) -> bool {
    match stand.server.checkpoint(alloc, RangeId(1), false) {
        Ok(_sent) => false,
        Err(fault) => fault == *wanted,
    }
}

fn takes(alloc: Global, stand: &mut Stand, step: &Step) -> bool {
    match step {
        Assigns(generation) => assigns(alloc, stand, *generation),
        Commits(key, count, letter) => {
            asks(alloc, stand, transaction(alloc, key, *count, *letter))
        }
        Decides(extent) => is_sealed(alloc, stand, *extent),
        Checkpoints => checkpoints(alloc, stand, false),
        Combines => checkpoints(alloc, stand, true),
        Refuses(fault) => refuses(alloc, stand, fault),
        StartsAgain(session) => {
            stand.server = server_of(alloc, *session);
            true
        }
        Finds(key, count, letter) => finds(alloc, stand, key, *count, *letter),
        Misses(key) => misses(alloc, stand, key),
        Appends(extent, texts) => appends(alloc, stand, *extent, texts),
        Shows(wanted) => shows(&stand.rows, wanted),
    }
}

fn size_of(groups: &[Group]) -> usize {
    let mut size = 0usize;
    for group in groups {
        size = size.saturating_add(group.size() as usize);
    }
    size
}

fn seen_of(note: &Note) -> Option<Observed> {
    match note {
        Note::Acked {
            extent: ExtentId(extent),
            offset,
            group,
        } => Some(Acked(*extent, *offset, group.size() as usize)),
        Note::SealedAt {
            extent: ExtentId(extent),
            length,
        } => Some(Seals(*extent, *length)),
        Note::Content {
            extent: ExtentId(extent),
            groups,
            ..
        } => Some(Sees(*extent, 0, size_of(&groups.items))),
        Note::Seen {
            extent: ExtentId(extent),
            offset,
            bytes,
            ..
        } => Some(Sees(*extent, *offset, bytes.len())),
        _ => None,
    }
}

/// Whether this is what was observed after so many observations.
fn are_observed(notes: &[Note], from: usize, wanted: &[Observed]) -> bool {
    notes.len().saturating_sub(from) == wanted.len()
        && notes
            .iter()
            .skip(from)
            .zip(wanted)
            .all(|(note, one)| seen_of(note) == Some(*one))
}

/// A server over a new stream layer.
pub(crate) fn begun(alloc: Global) -> Option<Stand> {
    let run = started(alloc)?;
    Some(Stand {
        run,
        server: server_of(alloc, 1),
        told: Vec::new(alloc),
        loads: Vec::new(alloc),
        rows: Vec::new(alloc),
    })
}

/// Whether the steps go as they say, and this is observed after so many observations.
pub(crate) fn goes(
    alloc: Global,
    stand: &mut Stand,
    steps: &[Step],
    from: usize,
    wanted: &[Observed],
) -> bool {
    for step in steps {
        if !takes(alloc, stand, step) {
            return false;
        }
    }
    are_observed(stand.run.stream_layer.observations(), from, wanted)
}

/// Whether the loads showed these next numbers.
pub(crate) fn has_loads(stand: &Stand, loads: &[u64]) -> bool {
    stand.loads.as_slice() == loads
}

/// Whether a case goes as it says.
fn holds(alloc: Global, steps: &[Step], wanted: &[Observed], loads: &[u64]) -> bool {
    match begun(alloc) {
        None => false,
        Some(mut stand) => { goes(alloc, &mut stand, steps, 0, wanted) && has_loads(&stand, loads) }
    }
}

#[test]
fn each_checkpoint_goes_as_it_should(rt: HostRuntime) {
    for (shows, steps, wanted, loads) in CASES {
        assert!(rt; holds(rt.alloc(), steps, wanted, loads), "{shows}");
    }
}
