//! Packets to a server whose sender gives no such packets: nothing is sent or shown, and the server goes on as if they had not come. What
//! it sends then bears the number that is due, so that no request was begun in between.
use crate::asking::{number, puts};
use crate::cases::{Case, Tested, holds};
use crate::records::{CHECKPOINT, FIRST, INDEX};
use crate::{jobs, loads};
use Comes::{Answers, Assign, Get, Loads, Renew, Transact};
use Sender::{Manager, Map, Node, Server, User};
use Step::{Ignores, Moment, Splits, Takes};
use Told::{
    Appends, Checks, Commits, Confirms, Extends, Has, Nothing, Opens, Reads, Refuses, Seals,
};
use block_types::Nodes;
use bytes::Bytes;
use jobs::Answer::{Appended, Extended, Refused, SealedIs, SplitBegun};
use loads::answers::Answer::{Checked, Confirmed, Empty, Group, Log, MetadataAndRows};
use range::{RangeServer, Sent};
use std::alloc::Global;
use std::test::Fail;
use wire::{
    ActorId, AppendBody, Body, CheckBody, Fence, MapBody, Packet, RangeId, ReadBody, Refusal,
    ReqNo, SealBody, ServerNo, StreamBody, TableBody,
};

/// One of each kind of actor: user 7, server 2, and a node of any number.
#[derive(Clone, Copy)]
pub(crate) enum Sender {
    Manager,
    Map,
    Node(u8),
    User,
    Server,
}

/// What a packet says. All is of range 1.
pub(crate) enum Comes {
    /// It is assigned under this generation, up to moment 100.
    Assign(u64),
    /// Its lease under generation 2 is renewed up to this moment.
    Renew(u64),
    /// The request of this number, of a load, is answered.
    Loads(u32, loads::answers::Answer),
    /// The request of this number is answered.
    Answers(u32, jobs::Answer),
    /// A user puts `x` at the key `a`.
    Transact,
    /// A user asks for the value of that key.
    Get,
}

/// What the first packet that is sent says, with the number of its request.
#[derive(Clone, Copy, PartialEq, Eq)]
pub(crate) enum Told {
    Nothing,
    Opens(u64),
    Confirms(u64),
    Extends(u64),
    Appends(u64),
    Checks(u64),
    Reads(u64),
    Seals(u64),
    BeginsSplit(u64),
    /// A transaction has this number.
    Commits(u64),
    /// A value has so many bytes, if there is one.
    Has(Option<usize>),
    Refuses(Refusal),
    Other,
}

/// What happens to a server.
pub(crate) enum Step {
    /// Such a packet of any of these is ignored.
    Ignores(Comes, &'static [Sender]),
    /// Such a packet of this sender is taken, and this is sent first.
    Takes(Comes, Sender, Told),
    /// The clock of leases shows this.
    Moment(u64),
    /// The range is split at `m`, under a request of this number.
    Splits(u64),
}

const BUT_THE_MANAGER: &[Sender] = &[User, Server, Map, Node(1)];

const BUT_THE_MAP: &[Sender] = &[User, Server, Manager, Node(1)];

const BUT_NODES: &[Sender] = &[User, Server, Manager, Map];

/// Nodes, the manager and the map refuse.
const NOBODY: &[Sender] = &[User, Server];

/// The range is served, and has no extent. The next request has the number 4, since each answer that is taken uses up one.
const SERVED: &[Step] = &[
    Takes(Assign(2), Map, Opens(1)),
    Takes(Loads(1, Empty), Manager, Confirms(2)),
    Takes(Loads(2, Confirmed), Manager, Nothing),
];

const CASES: &[Case<Step>] = &[
    (
        "the map assigns a range, and the manager opens and confirms it",
        &[&[
            Ignores(Assign(2), BUT_THE_MAP),
            Takes(Assign(2), Map, Opens(1)),
            Ignores(Loads(1, Empty), BUT_THE_MANAGER),
            Takes(Loads(1, Empty), Manager, Confirms(2)),
            Ignores(Loads(2, Confirmed), BUT_THE_MANAGER),
            Ignores(Answers(2, Refused(Refusal::Stale)), NOBODY),
            Takes(Get, User, Refuses(Refusal::Loading)),
            Takes(Loads(2, Confirmed), Manager, Nothing),
            Takes(Get, User, Has(None)),
        ]],
    ),
    (
        "the map renews a lease and assigns anew",
        &[
            SERVED,
            &[
                Ignores(Renew(300), BUT_THE_MAP),
                Ignores(Assign(3), BUT_THE_MAP),
                Takes(Get, User, Has(None)),
                Moment(100),
                Takes(Get, User, Refuses(Refusal::LeaseEnded)),
                Takes(Renew(300), Map, Nothing),
                Takes(Get, User, Has(None)),
            ],
        ],
    ),
    (
        "the manager extends and seals, and nodes append",
        &[
            SERVED,
            &[
                Takes(Transact, User, Extends(4)),
                Ignores(Answers(4, Extended(7)), BUT_THE_MANAGER),
                Ignores(Answers(4, Refused(Refusal::Stale)), NOBODY),
                Takes(Answers(4, Extended(7)), Manager, Appends(5)),
                Ignores(Answers(5, Appended(7)), BUT_NODES),
                Ignores(Answers(5, Refused(Refusal::NotOpen)), NOBODY),
                Takes(Answers(5, Refused(Refusal::NotOpen)), Node(1), Seals(6)),
                Ignores(Answers(6, SealedIs(7)), BUT_THE_MANAGER),
                Takes(Answers(6, SealedIs(7)), Manager, Extends(7)),
                Takes(Answers(7, Extended(8)), Manager, Appends(8)),
                Ignores(Answers(8, Appended(8)), BUT_NODES),
                Takes(Get, User, Has(None)),
                Takes(Answers(8, Appended(8)), Node(1), Commits(1)),
                Takes(Get, User, Has(Some(1))),
            ],
        ],
    ),
    (
        "nodes check a log and read it",
        &[&[
            Takes(Assign(2), Map, Opens(1)),
            Takes(Loads(1, Log(None)), Manager, Checks(2)),
            Ignores(Loads(2, Checked(24)), BUT_NODES),
            Takes(Loads(2, Checked(24)), Node(1), Reads(3)),
            Ignores(Loads(3, Group(FIRST)), BUT_NODES),
            Takes(Loads(3, Group(FIRST)), Node(1), Confirms(4)),
            Takes(Loads(4, Confirmed), Manager, Nothing),
            Takes(Get, User, Has(Some(1))),
        ]],
    ),
    (
        "nodes give an index",
        &[&[
            Takes(Assign(2), Map, Opens(1)),
            Takes(Loads(1, MetadataAndRows(46)), Manager, Reads(2)),
            Takes(Loads(2, Group(CHECKPOINT)), Node(1), Reads(3)),
            Ignores(Loads(3, loads::answers::Answer::Bytes(INDEX)), BUT_NODES),
            Takes(
                Loads(3, loads::answers::Answer::Bytes(INDEX)),
                Node(1),
                Confirms(4),
            ),
        ]],
    ),
    (
        "the map begins a split",
        &[
            SERVED,
            &[
                Splits(4),
                Ignores(Answers(4, SplitBegun), BUT_THE_MAP),
                Ignores(Answers(4, Refused(Refusal::GenerationChanged)), NOBODY),
                Takes(Answers(4, SplitBegun), Map, Extends(5)),
            ],
        ],
    ),
];

const PICK: Nodes = Nodes {
    primary: 1,
    second: 2,
    third: 3,
};

const TICKET: ReqNo = ReqNo::User { user: 7, ticket: 0 };

fn actor_of(sender: Sender) -> ActorId {
    match sender {
        Sender::Manager => ActorId::Manager,
        Sender::Map => ActorId::Map,
        Sender::Node(number) => ActorId::Node(number),
        Sender::User => ActorId::User(7),
        Sender::Server => ActorId::Server(ServerNo(2)),
    }
}

fn assign(generation: u64) -> MapBody {
    MapBody::Assign {
        range: RangeId(1),
        generation: Fence(generation),
        until: 100,
    }
}

fn renew(until: u64) -> MapBody {
    MapBody::Renew {
        range: RangeId(1),
        generation: Fence(2),
        until,
    }
}

fn transact(alloc: Global) -> Result<TableBody, Fail> {
    Ok(TableBody::Transact {
        range: RangeId(1),
        changes: puts(alloc, b"a", 1, 1)?,
        request: TICKET,
    })
}

fn get() -> TableBody {
    TableBody::Get {
        range: RangeId(1),
        key: Bytes::from_static(b"a"),
        request: TICKET,
    }
}

fn body_of(alloc: Global, comes: &Comes) -> Result<Body, Fail> {
    match comes {
        Assign(generation) => Ok(Body::Map(assign(*generation))),
        Renew(until) => Ok(Body::Map(renew(*until))),
        Loads(asked, answer) => loads::answers::body_of(alloc, *asked, answer),
        Answers(asked, answer) => Ok(jobs::body_of(number(u64::from(*asked)), answer)),
        Transact => Ok(Body::Table(transact(alloc)?)),
        Get => Ok(Body::Table(get())),
    }
}

/// The number of a server's request; users have none here.
fn count_of(request: &ReqNo) -> u64 {
    match request {
        ReqNo::Server { count, .. } => *count,
        _ => 0,
    }
}

fn append_told(body: &AppendBody) -> Told {
    match body {
        AppendBody::Append { request, .. } => Appends(count_of(request)),
        AppendBody::Refused { refusal, .. } => Refuses(*refusal),
        _ => Told::Other,
    }
}

fn stream_told(body: &StreamBody) -> Told {
    match body {
        StreamBody::OpenStreams { request, .. } => Opens(count_of(request)),
        StreamBody::Confirm { request, .. } => Confirms(count_of(request)),
        StreamBody::Extend { request, .. } => Extends(count_of(request)),
        _ => Told::Other,
    }
}

fn read_told(body: &ReadBody) -> Told {
    match body {
        ReadBody::ReadAt { request, .. } => Reads(count_of(request)),
        ReadBody::ReadGroups { request, .. } => Reads(count_of(request)),
        _ => Told::Other,
    }
}

fn table_told(body: &TableBody) -> Told {
    match body {
        TableBody::Committed { number, .. } => Commits(*number),
        TableBody::Value {
            value: Some(value),
            ..
        } => Has(Some(value.len())),
        TableBody::Value { value: None, .. } => Has(None),
        _ => Told::Other,
    }
}

fn told_of(packets: &[Packet]) -> Told {
    let [first, ..] = packets else {
        return Nothing;
    };
    match &first.body {
        Body::Append(body) => append_told(body),
        Body::Check(CheckBody::Check { request, .. }) => Checks(count_of(request)),
        Body::Seal(SealBody::SealExtent { request, .. }) => Seals(count_of(request)),
        Body::Read(body) => read_told(body),
        Body::Stream(body) => stream_told(body),
        Body::Map(MapBody::BeginSplit { request, .. }) => Told::BeginsSplit(count_of(request)),
        Body::Table(body) => table_told(body),
        _ => Told::Other,
    }
}

fn handled(
    server: &mut RangeServer,
    alloc: Global,
    from: Sender,
    comes: &Comes,
) -> Result<Sent, Fail> {
    let packet = Packet {
        from: actor_of(from),
        to: ActorId::Server(ServerNo(1)),
        body: body_of(alloc, comes)?,
    };
    let sent = server.handle(alloc, &packet);
    drop(packet);
    Ok(sent?)
}

// What is sent is handed over whole: a local that lives on is dropped at each exit, and each costs the proof.
fn is_silent(sent: Sent) -> bool {
    sent.packets.is_empty() && sent.notes.is_empty()
}

fn tells(sent: Sent, wanted: Told) -> bool {
    told_of(&sent.packets) == wanted
}

fn ignores(
    server: &mut RangeServer,
    alloc: Global,
    comes: &Comes,
    senders: &[Sender],
) -> Result<bool, Fail> {
    for from in senders {
        if !is_silent(handled(server, alloc, *from, comes)?) {
            return Ok(false);
        }
    }
    Ok(true)
}

fn splits(server: &mut RangeServer, alloc: Global, wanted: Told) -> bool {
    let key = Bytes::from_static(b"m");
    match server.split(alloc, RangeId(1), &key) {
        Ok(sent) => tells(sent, wanted),
        Err(_fault) => false,
    }
}

impl Tested for RangeServer {
    type Step = Step;

    fn takes(&mut self, alloc: Global, step: &Step) -> Result<bool, Fail> {
        match step {
            Ignores(comes, senders) => ignores(self, alloc, comes, senders),
            Takes(comes, from, wanted) => Ok(tells(handled(self, alloc, *from, comes)?, *wanted)),
            Moment(now) => {
                self.moment(*now);
                Ok(true)
            }
            Splits(asked) => Ok(splits(self, alloc, Told::BeginsSplit(*asked))),
        }
    }
}

#[test]
fn servers_ignore_strangers(rt: HostRuntime) -> Result<(), Fail> {
    for (name, parts) in CASES {
        let server = RangeServer::start(rt.alloc(), ServerNo(1), 1, 1, PICK, 2);
        assert!(rt; holds(rt.alloc(), server, *parts)?, "{name}");
    }
    Ok(())
}
