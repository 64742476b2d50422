//! A server's work on one stream.
ghost use Rattle.std.specs.Prelude.{◌≡◌, Err, Some, None, true, IfOk, IfErr, OnErr};
ghost use Rattle.client.specs.Client.{last_extent, is_idle, new_client, check_rule, read_sealed_rule, read_checked_rule, reply_rule, give_up_rule, content_of, content_told, needs_memory, closes, shuts, grows, reads_groups};
ghost use Rattle.client.specs.Began.{Begins};
ghost use Rattle.client.specs.declared.fault.ClientFault.{ClientFault};
ghost use Rattle.client.specs.declared.job.News.TheVariants as news;

use crate::fault::ClientFault;
use crate::job::{Job, Place, Reaction};
use crate::pending::PendingBlocks;
use crate::replies::reply;
use crate::sending::{check_packet, extend_packet, next_place, node_at, read_packet, seal_packet};
use block_types::Nodes;
use std::alloc::{AllocError, Global};
use std::marker::Model;
use wire::{ExtentId, Fence, Packet, ReqNo, ServerNo, StreamExtent, StreamList, StreamName};

/// What a server knows of one of its streams under a generation, and the one request that it has out on it.
pub struct StreamClient {
    pub(crate) server: ServerNo,
    pub stream: StreamName,
    /// The generation that it works under.
    pub generation: Fence,
    /// The index of the first extent.
    pub base: u64,
    /// The extents that it knows, in order, with the length in bytes of each that it knows to be sealed.
    pub extents: Vec<StreamExtent>,
    /// The length in bytes at which the last extent was checked, if it was.
    pub checked: Option<u32>,
    /// The nodes at which a new extent is asked for, the primary first.
    pub pick: Nodes,
    pub(crate) group: PendingBlocks,
    /// What is waited for.
    pub job: Job,
}

// Written out, so that a crate above that lets one go has no proof of what is in it.
impl Drop for StreamClient {
    fn drop(self) {
        let StreamClient {
            server: _,
            stream: _,
            generation: _,
            base: _,
            extents: _,
            checked: _,
            pick: _,
            group: _,
            job: _,
        } = self;
    }
}

impl Model for StreamClient {
    ghost use Rattle.client.specs.Client.{ClientState};

    ghost Value = { ClientState };

    ghost view = { λ c. record { server = c.server; stream = c.stream; generation = c.generation; base = c.base; extents = c.extents.items; checked = c.checked; pick = c.pick; group = c.group; job = c.job } };
}

/// The last extent, if there is one.
pub(crate) fn last(extents: &[StreamExtent]) -> Option<StreamExtent>
    ensures { result ≡ last_extent extents.now }
{
    if extents.is_empty() {
        return None;
    }
    match extents.get(extents.len() - 1) {
        None => None,
        Some(found) => Some(*found),
    }
}

pub(crate) fn is_idle(job: Job) -> bool
    ensures { result ≡ is_idle job }
{
    matches!(job, Job::Idle)
}

impl StreamClient {
    /// The client of a stream as the manager told it, under a generation. A new extent of the stream is asked for at these
    /// nodes, the primary first. Nothing is out. An error is out of memory (22).
    pub fn new(
        alloc: Global,
        server: ServerNo,
        stream: StreamName,
        generation: Fence,
        list: &StreamList,
        pick: Nodes,
    ) -> Result<StreamClient, AllocError>
        ensures { IfOk result (λ c. c ≡ new_client server stream generation list.now pick) }
    {
        let mut extents = Vec::new(alloc);
        extents.extend_from_slice(&list.extents.items)?;
        Ok(StreamClient {
            server,
            stream,
            generation,
            base: list.base,
            extents,
            checked: None,
            pick,
            group: PendingBlocks::none(),
            job: Job::Idle,
        })
    }

    /// Begins the check of the last extent's length. The packet bears this number. 1: the stream has no extent. 4: the last
    /// is sealed. 35: another request is out. After a refusal nothing has changed.
    pub fn check_length(&mut self, request: &ReqNo) -> Result<Packet, ClientFault>
        ensures ok { IfOk result (λ p. Begins (check_rule self.old request.now) self.new p) }
        ensures err { OnErr result (self.new ≡ self.old) }
        ensures fault { IfErr result (λ f. check_rule self.old request.now ≡ Err f) }
    {
        if !is_idle(self.job) {
            return Err(ClientFault::Busy);
        }
        match last(&self.extents) {
            None => Err(ClientFault::NoSuchExtent),
            Some(extent) => match extent.length {
                Some(_length) => Err(ClientFault::NotOpen),
                None => {
                    self.job = Job::Checking {
                        extent: extent.extent,
                        request: *request,
                    };
                    Ok(check_packet(
                        self.server,
                        extent.places.primary,
                        extent.extent,
                        self.generation,
                        request,
                    ))
                }
            },
        }
    }

    /// Begins to read a sealed extent whole, the one that stands after so many others in the list, at its first place. The
    /// packet bears this number. 1: the list is no longer than that. 9: the extent is not known to be sealed. 35: another
    /// request is out. After a refusal nothing has changed.
    pub fn read_sealed(&mut self, request: &ReqNo, position: usize) -> Result<Packet, ClientFault>
        ensures ok { IfOk result (λ p. Begins (read_sealed_rule self.old request.now position) self.new p) }
        ensures err { OnErr result (self.new ≡ self.old) }
        ensures fault { IfErr result (λ f. read_sealed_rule self.old request.now position ≡ Err f) }
    {
        if !is_idle(self.job) {
            return Err(ClientFault::Busy);
        }
        let extent = match self.extents.get(position) {
            None => return Err(ClientFault::NoSuchExtent),
            Some(extent) => *extent,
        };
        match extent.length {
            None => Err(ClientFault::NotSealed),
            Some(length) => Ok(self.read(
                extent.extent,
                &extent.places,
                length,
                true,
                Place::First,
                request,
            )),
        }
    }

    /// Begins to read the last extent, which is open, as far as it was checked, at its primary. The packet bears this number.
    /// 1: the stream has no extent. 4: the last is sealed. 9: it was not checked. 35: another request is out. After a refusal
    /// nothing has changed.
    pub fn read_checked(&mut self, request: &ReqNo) -> Result<Packet, ClientFault>
        ensures ok { IfOk result (λ p. Begins (read_checked_rule self.old request.now) self.new p) }
        ensures err { OnErr result (self.new ≡ self.old) }
        ensures fault { IfErr result (λ f. read_checked_rule self.old request.now ≡ Err f) }
    {
        if !is_idle(self.job) {
            return Err(ClientFault::Busy);
        }
        match last(&self.extents) {
            None => Err(ClientFault::NoSuchExtent),
            Some(extent) => match extent.length {
                Some(_length) => Err(ClientFault::NotOpen),
                None => match self.checked {
                    None => Err(ClientFault::NotSealed),
                    Some(length) => Ok(self.read(
                        extent.extent,
                        &extent.places,
                        length,
                        false,
                        Place::First,
                        request,
                    )),
                },
            },
        }
    }

    /// What is done with a packet that has come: nothing where it repeats another number than that of the request that is
    /// out. What is sent next bears this number. An error is out of memory (22), which comes only where a new extent is
    /// told, and nothing has changed.
    pub fn on_reply(
        &mut self,
        alloc: Global,
        request: &ReqNo,
        packet: &Packet,
    ) -> Result<Reaction, AllocError>
        ensures ok { IfOk result (λ r. reply_rule self.old request.now packet.now.body ≡ record { after = self.new; packet = r.packet; news = r.news }) }
        ensures content { IfOk result (λ r. content_told r.news ≡ content_of self.old.job packet.now.body) }
        ensures err { OnErr result (self.new ≡ self.old) }
        ensures needed { OnErr result (needs_memory packet.now.body ≡ true) }
    {
        match reply(self, alloc, request, &packet.body) {
            Ok(reaction) => Ok(reaction),
            Err(full) => Err(full),
        }
    }

    /// What is done where no answer comes: an append or a check that is out has its extent sealed, under this number; a
    /// read of a sealed extent goes to its next place, and all else is asked again, each under its own number. A new extent
    /// is asked for at these nodes from now on. Nothing is sent where nothing is out.
    pub fn give_up(&mut self, request: &ReqNo, pick: &Nodes) -> Option<Packet>
        ensures { give_up_rule self.old request.now pick.now ≡ record { after = self.new; packet = result; news = None } }
    {
        self.pick = *pick;
        let job = self.job;
        match &job {
            Job::Idle => None,
            Job::Sent { extent, request: _ } => Some(self.close(*extent, request)),
            Job::Closing {
                extent,
                request: same,
            } => Some(self.close(*extent, same)),
            Job::Growing {
                last,
                request: same,
            } => Some(self.grow(last, same)),
            Job::Checking { extent, request: _ } => Some(self.shut(*extent, request)),
            Job::Shutting {
                extent,
                request: same,
            } => Some(self.shut(*extent, same)),
            Job::Reading {
                extent,
                places,
                upto,
                sealed,
                place,
                request: same,
            } => {
                if *sealed {
                    return Some(self.read(*extent, places, *upto, true, next_place(*place), same));
                }
                Some(self.shut(*extent, request))
            }
        }
    }

    /// Has an extent sealed that takes no more of the appends.
    pub(crate) fn close(&mut self, extent: ExtentId, request: &ReqNo) -> Packet
        ensures { closes self.old extent request.now ≡ record { after = self.new; packet = Some result; news = None } }
    {
        self.job = Job::Closing {
            extent,
            request: *request,
        };
        seal_packet(self.server, extent, request)
    }

    /// Has an extent sealed that could not be checked.
    pub(crate) fn shut(&mut self, extent: ExtentId, request: &ReqNo) -> Packet
        ensures { shuts self.old extent request.now ≡ record { after = self.new; packet = Some result; news = None } }
    {
        self.job = Job::Shutting {
            extent,
            request: *request,
        };
        seal_packet(self.server, extent, request)
    }

    /// Asks for another extent.
    pub(crate) fn grow(&mut self, last: &Option<ExtentId>, request: &ReqNo) -> Packet
        ensures { grows self.old last.now request.now ≡ record { after = self.new; packet = Some result; news = None } }
    {
        self.job = Job::Growing {
            last: *last,
            request: *request,
        };
        extend_packet(
            self.server,
            self.stream,
            self.generation,
            last,
            &self.pick,
            request,
        )
    }

    /// Asks a place for groups.
    fn read(
        &mut self,
        extent: ExtentId,
        places: &Nodes,
        upto: u32,
        sealed: bool,
        place: Place,
        request: &ReqNo,
    ) -> Packet
        ensures { reads_groups self.old extent places.now upto sealed place request.now ≡ record { after = self.new; packet = Some result; news = None } }
    {
        self.job = Job::Reading {
            extent,
            places: *places,
            upto,
            sealed,
            place,
            request: *request,
        };
        read_packet(
            self.server,
            node_at(places, place),
            extent,
            upto,
            sealed,
            request,
        )
    }
}
