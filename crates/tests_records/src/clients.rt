//! The steps of a server's client: what each call and each answer makes it send, bring to an end or refuse.
use crate::client_steps::{Answer, CASES, Call, Case, Known, Outcome, Sent, Step};
use block_types::{Groups, Nodes};
use bytes::Bytes;
use client::{Appending, ClientFault, Job, News, Reaction, StreamClient};
use std::alloc::{AllocError, Global};
use std::test::Fail;
use wire::{
    ActorId, AppendBody, Blocks, Body, CheckBody, ExtentId, Fence, Packet, RangeId, ReadBody,
    Refusal, ReqNo, SealBody, ServerNo, StreamBody, StreamExtent, StreamExtents, StreamKind,
    StreamList, StreamName,
};

/// What a client makes of a call or an answer; none where there was no memory for it.
type Told = Option<Result<Reaction, ClientFault>>;

/// The nodes of the first extent.
const PLACES: Nodes = Nodes {
    primary: 1,
    second: 2,
    third: 3,
};

/// The nodes of each new extent.
const NEW_PLACES: Nodes = Nodes {
    primary: 3,
    second: 2,
    third: 1,
};

// Many of these calls pass no contract on, so that what calls them is proved from what it reads alone. They let go of what they
// look at by a call: at the end of its block a value is let go part by part, and each part costs the proof.
pub(crate) fn number(count: u64) -> ReqNo {
    number_in(1, count)
}

pub(crate) fn number_in(session: u64, count: u64) -> ReqNo {
    ReqNo::Server {
        server: ServerNo(1),
        session,
        count,
    }
}

pub(crate) fn refused(count: u64, refusal: Refusal) -> Body {
    Body::Append(AppendBody::Refused {
        request: number(count),
        refusal,
    })
}

fn log() -> StreamName {
    StreamName {
        range: RangeId(1),
        kind: StreamKind::Log,
    }
}

/// A client whose stream has the extent 1, sealed at this length if there is one, or no extent.
fn client(
    alloc: Global,
    has_extent: bool,
    length: Option<u32>,
) -> Result<StreamClient, AllocError> {
    let mut items = Vec::new(alloc);
    if has_extent {
        items.push(StreamExtent {
            extent: ExtentId(1),
            places: PLACES,
            length,
        })?;
    }
    let list = StreamList {
        base: 5,
        extents: StreamExtents { items },
    };
    StreamClient::new(alloc, ServerNo(1), log(), Fence(2), &list, PLACES)
}

fn two_blocks(alloc: Global) -> Result<Appending, AllocError> {
    let mut items = Vec::new(alloc);
    items.push(Bytes::copy_from_slice(alloc, b"abc")?)?;
    items.push(Bytes::copy_from_slice(alloc, b"de")?)?;
    Appending::of(&Blocks::of(items)?)
}

fn one_block(alloc: Global) -> Result<Appending, AllocError> {
    let mut items = Vec::new(alloc);
    items.push(Bytes::copy_from_slice(alloc, b"abc")?)?;
    Appending::of(&Blocks::of(items)?)
}

/// Begins an append, if there was memory for it.
fn append(client: &mut StreamClient, request: &ReqNo, made: Result<Appending, AllocError>) -> Told {
    match made {
        Ok(appending) => begun(client.append(request, appending)),
        Err(_full) => None,
    }
}

fn groups(alloc: Global, count: u64) -> Body {
    Body::Read(ReadBody::Groups {
        request: number(count),
        extent: ExtentId(1),
        groups: Groups {
            items: Vec::new(alloc),
        },
    })
}

/// What an answer says: of the extent 1, and of a new extent at the new places.
fn body_of(alloc: Global, answer: &Answer) -> Body {
    let extent = ExtentId(1);
    match answer {
        Answer::Appended(count, offset) => Body::Append(AppendBody::Appended {
            request: number(*count),
            extent,
            offset: *offset,
        }),
        Answer::Refused(count, refusal) => refused(*count, *refusal),
        Answer::SealedIs(count, length) => Body::Seal(SealBody::SealedIs {
            request: number(*count),
            extent,
            length: *length,
        }),
        Answer::Extended(count, made) => Body::Stream(StreamBody::Extended {
            request: number(*count),
            extent: ExtentId(*made),
            places: NEW_PLACES,
        }),
        Answer::Checked(count, length) => Body::Check(CheckBody::Checked {
            request: number(*count),
            length: *length,
        }),
        Answer::Groups(count) => groups(alloc, *count),
    }
}

fn reply(client: &mut StreamClient, alloc: Global, request: &ReqNo, answer: &Answer) -> Told {
    let packet = Packet {
        from: ActorId::Manager,
        to: ActorId::Server(ServerNo(1)),
        body: body_of(alloc, answer),
    };
    let told = client.on_reply(alloc, request, &packet);
    drop(packet);
    reacted(told)
}

fn reacted(told: Result<Reaction, AllocError>) -> Told {
    match told {
        Ok(reaction) => Some(Ok(reaction)),
        Err(_full) => None,
    }
}

fn begun(sent: Result<Packet, ClientFault>) -> Told {
    match sent {
        Ok(packet) => Some(Ok(sent_again(Some(packet)))),
        Err(fault) => Some(Err(fault)),
    }
}

fn sent_again(packet: Option<Packet>) -> Reaction {
    Reaction { packet, news: None }
}

fn called(client: &mut StreamClient, alloc: Global, request: &ReqNo, call: &Call) -> Told {
    match call {
        Call::Append => append(client, request, two_blocks(alloc)),
        Call::AppendOne => append(client, request, one_block(alloc)),
        Call::CheckLength => begun(client.check_length(request)),
        Call::ReadSealed(position) => begun(client.read_sealed(request, *position)),
        Call::ReadChecked => begun(client.read_checked(request)),
        Call::GiveUp => Some(Ok(sent_again(client.give_up(request, &PLACES)))),
    }
}

/// Whether this is an append of two blocks to this node and extent.
fn is_append(packet: &Packet, node: u8, extent: u64, count: u64) -> bool {
    match &packet.body {
        Body::Append(
            AppendBody::Append {
                extent: to,
                generation,
                blocks,
                request,
            },
        ) => {
            packet.to == ActorId::Node(node)
                && to.0 == extent
                && generation.0 == 2
                && blocks.as_slice().len() == 2
                && *request == number(count)
        }
        _ => false,
    }
}

fn is_seal(packet: &Packet, count: u64) -> bool {
    match &packet.body {
        Body::Seal(SealBody::SealExtent { extent, request }) => {
            packet.to == ActorId::Manager && extent.0 == 1 && *request == number(count)
        }
        _ => false,
    }
}

/// Whether another extent is asked for, after the extent 1 or as the first.
fn is_extend(packet: &Packet, behind: bool, count: u64) -> bool {
    match &packet.body {
        Body::Stream(StreamBody::Extend { last, request, .. }) => {
            *last == behind.then_some(ExtentId(1)) && *request == number(count)
        }
        _ => false,
    }
}

fn is_read(packet: &Packet, node: u8, upto: u32, sealed: bool, count: u64) -> bool {
    match &packet.body {
        Body::Read(
            ReadBody::ReadGroups {
                upto: end,
                sealed: asked,
                request,
                ..
            },
        ) => {
            packet.to == ActorId::Node(node)
                && *end == upto
                && *asked == sealed
                && *request == number(count)
        }
        _ => false,
    }
}

fn is_sent(packet: &Packet, sent: &Sent, count: u64) -> bool {
    match sent {
        Sent::Any => true,
        Sent::Append(node, extent) => is_append(packet, *node, *extent, count),
        Sent::Seal => is_seal(packet, count),
        Sent::FirstExtend => is_extend(packet, false, count),
        Sent::Extend => is_extend(packet, true, count),
        Sent::ReadSealed(node) => is_read(packet, *node, 6, true, count),
        Sent::ReadOpen => is_read(packet, 1, 5, false, count),
    }
}

fn sends(packet: &Option<Packet>, outcome: &Outcome) -> bool {
    match (packet, outcome) {
        (Some(packet), Outcome::Sends(count, sent)) => is_sent(packet, sent, *count),
        (Some(_packet), _) => false,
        (None, Outcome::Sends(_count, _sent)) => false,
        (None, _) => true,
    }
}

fn news_of(outcome: &Outcome) -> Option<News> {
    let extent = ExtentId(1);
    match outcome {
        Outcome::Appended(extent, offset) => Some(News::Appended {
            extent: ExtentId(*extent),
            offset: *offset,
        }),
        Outcome::Checked(length) => Some(News::Checked {
            extent,
            length: *length,
        }),
        Outcome::Sealed(length) => Some(News::Sealed {
            extent,
            length: *length,
        }),
        Outcome::Content(upto) => Some(News::Content {
            extent,
            upto: *upto,
        }),
        Outcome::Fenced => Some(News::Fenced),
        Outcome::Silent | Outcome::Sends(..) | Outcome::Refused(_) => None,
    }
}

fn is_outcome(told: &Told, outcome: &Outcome) -> bool {
    match (told, outcome) {
        (None, _) => false,
        (Some(Err(fault)), Outcome::Refused(expected)) => *fault == *expected,
        (Some(Err(_fault)), _) => false,
        (Some(Ok(_reaction)), Outcome::Refused(_expected)) => false,
        (Some(Ok(reaction)), _) => {
            reaction.news == news_of(outcome) && sends(&reaction.packet, outcome)
        }
    }
}

fn comes_to(told: Told, outcome: &Outcome) -> bool {
    let holds = is_outcome(&told, outcome);
    drop(told);
    holds
}

/// Whether a client with one open extent, which is at rest, tells what it was made of.
fn is_at_rest(client: &StreamClient) -> bool {
    matches!(client.job, Job::Idle)
        && client.base == 5
        && client.generation.0 == 2
        && client.stream == log()
        && client.extents.len() == 1
        && client.last_extent().is_some()
}

/// Whether an answer with groups would bring those of the extent 1 up to the length 6.
fn brings_content(client: &StreamClient, alloc: Global, count: u64) -> bool {
    let body = groups(alloc, count);
    let told = client.content(&body);
    drop(body);
    told == Some((ExtentId(1), 6))
}

fn knows(client: &mut StreamClient, alloc: Global, known: &Known) -> bool {
    match known {
        Known::Idle => matches!(client.job, Job::Idle),
        Known::AtRest => is_at_rest(client),
        Known::Awaits(count, awaited) => client.awaits(&number(*count)) == *awaited,
        Known::Content(count, brought) => brings_content(client, alloc, *count) == *brought,
        Known::ReadEnded => {
            client.end_read();
            matches!(client.job, Job::Idle)
        }
        Known::Extents(count) => client.extents.len() == *count,
        Known::Checked(length) => client.checked == Some(*length),
    }
}

fn takes(client: &mut StreamClient, alloc: Global, step: &Step) -> bool {
    match step {
        Step::Does(count, call, outcome) => {
            comes_to(called(client, alloc, &number(*count), call), outcome)
        }
        Step::Gets(count, answer, outcome) => {
            comes_to(reply(client, alloc, &number(*count), answer), outcome)
        }
        Step::Knows(known) => knows(client, alloc, known),
    }
}

/// The first step of a case, counted from 0, that does not come to what it should.
fn first_wrong(alloc: Global, case: &Case) -> Result<Option<usize>, Fail> {
    let mut client = client(alloc, case.has_extent, case.length)?;
    let mut wrong = None;
    for (index, step) in case.steps.iter().enumerate() {
        if !takes(&mut client, alloc, step) {
            wrong = Some(index);
            break;
        }
    }
    drop(client);
    Ok(wrong)
}

#[test]
fn each_step_comes_to_what_it_should(rt: HostRuntime) -> Result<(), Fail> {
    for case in CASES {
        assert_eq!(rt; first_wrong(rt.alloc(), case)?, None, "{}", case.name);
    }
    Ok(())
}
