//! What a client does with an answer.
ghost use Rattle.std.specs.Prelude.{◌≡◌, Some, None, true, IfOk, OnOk, OnErr};
ghost use Rattle.client.specs.Client.{awaits, needs_memory, stream_needs_memory, sealed_last, refused_job, append_reply, check_reply, seal_reply, read_reply, stream_reply, reply_rule, appended_job, checked_job, sealed_job, groups_job, extended_job, appends_again, ends, waits};
ghost use Rattle.wire.specs.declared.refusal.Refusal.TheVariants as refusals;

use crate::client::StreamClient;
use crate::job::{Job, News, Reaction};
use crate::pending::PendingBlocks;
use crate::sending::sent_append;
use block_types::Nodes;
use std::alloc::{AllocError, Global};
use wire::{
    AppendBody, Body, CheckBody, ExtentId, Packet, ReadBody, Refusal, ReqNo, SealBody, StreamBody,
    StreamExtent,
};

/// Whether an answer of this number is waited for.
pub(crate) fn awaits(job: Job, answered: &ReqNo) -> bool
    ensures { result ≡ awaits job answered.now }
{
    match &job {
        Job::Idle => false,
        Job::Sent { request, .. } => request == answered,
        Job::Closing { request, .. } => request == answered,
        Job::Growing { request, .. } => request == answered,
        Job::Checking { request, .. } => request == answered,
        Job::Shutting { request, .. } => request == answered,
        Job::Reading { request, .. } => request == answered,
    }
}

fn nothing() -> Reaction
    ensures { (result.packet ≡ None) × (result.news ≡ None) }
{
    Reaction {
        packet: None,
        news: None,
    }
}

/// Notes the length of the last extent.
fn seal_last(extents: &mut Vec<StreamExtent>, length: u32)
    ensures { extents.new.items ≡ sealed_last extents.old.items length }
{
    let count = extents.len();
    if count == 0 {
        return;
    }
    let mut sealed = extents[count - 1];
    sealed.length = Some(length);
    extents[count - 1] = sealed;
}

/// Nothing is waited for any more.
fn end(client: &mut StreamClient, told: News) -> Reaction
    ensures { ends client.old told ≡ record { after = client.new; packet = result.packet; news = result.news } }
{
    client.job = Job::Idle;
    client.group = PendingBlocks::none();
    Reaction {
        packet: None,
        news: Some(told),
    }
}

/// What an answer leaves, where nothing comes of it.
fn stays(client: &mut StreamClient) -> Reaction
    ensures { waits client.old ≡ record { after = client.new; packet = result.packet; news = result.news } }
{
    nothing()
}

/// A request is out.
fn asks(packet: Packet) -> Reaction
    ensures { (result.packet ≡ Some packet) × (result.news ≡ None) }
{
    Reaction {
        packet: Some(packet),
        news: None,
    }
}

/// An append is refused: an extent that takes no more of them is sealed.
fn left(client: &mut StreamClient, request: &ReqNo) -> Reaction
    ensures closed { refused_job client.old request.now refusals.NotOpen client.old.job ≡ record { after = client.new; packet = result.packet; news = result.news } }
    ensures full { refused_job client.old request.now refusals.ExtentFull client.old.job ≡ record { after = client.new; packet = result.packet; news = result.news } }
{
    let job = client.job;
    match job {
        Job::Sent { extent, .. } => asks(client.close(extent, request)),
        _ => stays(client),
    }
}

fn refused(client: &mut StreamClient, request: &ReqNo, refusal: Refusal) -> Reaction
    ensures { refused_job client.old request.now refusal client.old.job ≡ record { after = client.new; packet = result.packet; news = result.news } }
{
    match refusal {
        Refusal::Stale => end(client, News::Fenced),
        Refusal::NotOpen => left(client, request),
        Refusal::ExtentFull => left(client, request),
        _ => stays(client),
    }
}

fn appended(client: &mut StreamClient, offset: u32) -> Reaction
    ensures { appended_job client.old offset client.old.job ≡ record { after = client.new; packet = result.packet; news = result.news } }
{
    let job = client.job;
    match job {
        Job::Sent { extent, .. } => end(client, News::Appended { extent, offset }),
        _ => stays(client),
    }
}

fn append_reply(client: &mut StreamClient, request: &ReqNo, body: &AppendBody) -> Reaction
    ensures { append_reply client.old request.now body.now ≡ record { after = client.new; packet = result.packet; news = result.news } }
{
    match body {
        AppendBody::Appended {
            request: answered,
            offset,
            ..
        } => {
            if !awaits(client.job, answered) {
                return stays(client);
            }
            appended(client, *offset)
        }
        AppendBody::Refused {
            request: answered,
            refusal,
        } => {
            if !awaits(client.job, answered) {
                return stays(client);
            }
            refused(client, request, *refusal)
        }
        _ => stays(client),
    }
}

/// The check found a length, or the extent is sealed.
fn checked(client: &mut StreamClient, request: &ReqNo, found: Option<u32>) -> Reaction
    ensures { checked_job client.old request.now found client.old.job ≡ record { after = client.new; packet = result.packet; news = result.news } }
{
    let job = client.job;
    match job {
        Job::Checking { extent, .. } => match found {
            None => asks(client.shut(extent, request)),
            Some(length) => {
                client.checked = Some(length);
                end(client, News::Checked { extent, length })
            }
        },
        _ => stays(client),
    }
}

fn check_reply(client: &mut StreamClient, request: &ReqNo, body: &CheckBody) -> Reaction
    ensures { check_reply client.old request.now body.now ≡ record { after = client.new; packet = result.packet; news = result.news } }
{
    match body {
        CheckBody::Checked {
            request: answered,
            length,
        } => {
            if !awaits(client.job, answered) {
                return stays(client);
            }
            checked(client, request, *length)
        }
        _ => stays(client),
    }
}

/// The last extent is sealed: an append goes on after it, and a check is over.
fn sealed(client: &mut StreamClient, request: &ReqNo, length: u32) -> Reaction
    ensures { sealed_job client.old request.now length client.old.job ≡ record { after = client.new; packet = result.packet; news = result.news } }
{
    let job = client.job;
    match job {
        Job::Closing { extent, .. } => {
            seal_last(&mut client.extents, length);
            asks(client.grow(&Some(extent), request))
        }
        Job::Shutting { extent, .. } => {
            seal_last(&mut client.extents, length);
            end(client, News::Sealed { extent, length })
        }
        _ => stays(client),
    }
}

fn seal_reply(client: &mut StreamClient, request: &ReqNo, body: &SealBody) -> Reaction
    ensures { seal_reply client.old request.now body.now ≡ record { after = client.new; packet = result.packet; news = result.news } }
{
    match body {
        SealBody::SealedIs {
            request: answered,
            length,
            ..
        } => {
            if !awaits(client.job, answered) {
                return stays(client);
            }
            sealed(client, request, *length)
        }
        _ => stays(client),
    }
}

fn groups(client: &mut StreamClient) -> Reaction
    ensures { groups_job client.old client.old.job ≡ record { after = client.new; packet = result.packet; news = result.news } }
{
    let job = client.job;
    match job {
        Job::Reading { extent, upto, .. } => end(client, News::Content { extent, upto }),
        _ => stays(client),
    }
}

fn read_reply(client: &mut StreamClient, body: &ReadBody) -> Reaction
    ensures { read_reply client.old body.now ≡ record { after = client.new; packet = result.packet; news = result.news } }
{
    match body {
        ReadBody::Groups {
            request: answered,
            ..
        } => {
            if !awaits(client.job, answered) {
                return stays(client);
            }
            groups(client)
        }
        _ => stays(client),
    }
}

/// The extent that was made stands last, of it nothing was checked, and the append is out to it.
fn sends_to(
    client: &mut StreamClient,
    request: &ReqNo,
    extent: ExtentId,
    places: &Nodes,
) -> Result<(), AllocError>
    ensures ok { OnOk result (client.new ≡ (appends_again client.old request.now extent places.now).after) }
    ensures err { OnErr result (client.new ≡ client.old) }
{
    let added = StreamExtent {
        extent,
        places: *places,
        length: None,
    };
    match client.extents.push(added) {
        Ok(()) => {}
        Err(_full) => return Err(AllocError),
    }
    client.checked = None;
    client.job = Job::Sent {
        extent,
        request: *request,
    };
    Ok(())
}

/// The group goes to the extent that was made for it, and shares its bytes. What takes memory comes first.
fn append_again(
    client: &mut StreamClient,
    alloc: Global,
    request: &ReqNo,
    extent: ExtentId,
    places: &Nodes,
) -> Result<Reaction, AllocError>
    ensures ok { IfOk result (λ r. appends_again client.old request.now extent places.now ≡ record { after = client.new; packet = r.packet; news = r.news }) }
    ensures err { OnErr result (client.new ≡ client.old) }
{
    let blocks = match client.group.copy(alloc) {
        Ok(blocks) => blocks,
        Err(full) => return Err(full),
    };
    match sends_to(client, request, extent, places) {
        Ok(()) => Ok(asks(sent_append(
            client.server,
            places.primary,
            extent,
            client.generation,
            blocks,
            request,
        ))),
        Err(full) => Err(full),
    }
}

fn extended(
    client: &mut StreamClient,
    alloc: Global,
    request: &ReqNo,
    extent: ExtentId,
    places: &Nodes,
) -> Result<Reaction, AllocError>
    ensures ok { IfOk result (λ r. extended_job client.old request.now extent places.now client.old.job ≡ record { after = client.new; packet = r.packet; news = r.news }) }
    ensures err { OnErr result (client.new ≡ client.old) }
{
    let job = client.job;
    match job {
        Job::Growing { .. } => append_again(client, alloc, request, extent, places),
        _ => Ok(stays(client)),
    }
}

fn stream_reply(
    client: &mut StreamClient,
    alloc: Global,
    request: &ReqNo,
    body: &StreamBody,
) -> Result<Reaction, AllocError>
    ensures ok { IfOk result (λ r. stream_reply client.old request.now body.now ≡ record { after = client.new; packet = r.packet; news = r.news }) }
    ensures err { OnErr result (client.new ≡ client.old) }
    ensures needed { OnErr result (stream_needs_memory body.now ≡ true) }
{
    match body {
        StreamBody::Extended {
            request: answered,
            extent,
            places,
        } => {
            if !awaits(client.job, answered) {
                return Ok(stays(client));
            }
            extended(client, alloc, request, *extent, places)
        }
        _ => Ok(stays(client)),
    }
}

/// The rule of an answer.
pub(crate) fn reply(
    client: &mut StreamClient,
    alloc: Global,
    request: &ReqNo,
    body: &Body,
) -> Result<Reaction, AllocError>
    ensures ok { IfOk result (λ r. reply_rule client.old request.now body.now ≡ record { after = client.new; packet = r.packet; news = r.news }) }
    ensures err { OnErr result (client.new ≡ client.old) }
    ensures needed { OnErr result (needs_memory body.now ≡ true) }
{
    match body {
        Body::Append(body) => Ok(append_reply(client, request, body)),
        Body::Check(body) => Ok(check_reply(client, request, body)),
        Body::Seal(body) => Ok(seal_reply(client, request, body)),
        Body::Read(body) => Ok(read_reply(client, body)),
        Body::Stream(body) => stream_reply(client, alloc, request, body),
        _ => Ok(stays(client)),
    }
}
