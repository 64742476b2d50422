//! Appends, with what takes memory made beforehand.
ghost use Rattle.std.specs.Prelude.{◌≡◌, Err, Some, None, IfOk, IfErr, OnErr};
ghost use Rattle.client.specs.Client.{append_rule, append_behind};
ghost use Rattle.client.specs.Began.{Begins};

use crate::client::{StreamClient, is_idle, last};
use crate::fault::ClientFault;
use crate::job::Job;
use crate::pending::PendingBlocks;
use crate::sending::sent_append;
use std::alloc::AllocError;
use std::marker::Model;
use wire::{Blocks, Packet, ReqNo, StreamExtent};

/// The blocks of an append, all that it takes of memory: for the packet, and for another one if the extent takes no more.
#[derive(Drop)]
pub struct Appending {
    sent: Blocks,
    group: Blocks,
}

impl Model for Appending {
    ghost use Rattle.std.specs.Prelude.{◌≡◌, ℕ, List};

    ghost Value = { List (List ℕ) };

    ghost view = { λ a. a.group };

    ghost invariant = { λ a. a.sent ≡ a.group };
}

impl Appending {
    /// An append of these blocks, whose list it shares. An error is out of memory (22).
    pub fn of(blocks: &Blocks) -> Result<Appending, AllocError>
        ensures { IfOk result (λ a. a ≡ blocks.now) }
    {
        Ok(Appending {
            sent: blocks.copy()?,
            group: blocks.copy()?,
        })
    }
}

impl StreamClient {
    /// Begins an append of these blocks: to the last extent where it is open, else to a new one after it. The packet bears
    /// this number. All that takes memory is made, so it is refused only where another request is out (35), and nothing has
    /// changed then.
    pub fn append(&mut self, request: &ReqNo, appending: Appending) -> Result<Packet, ClientFault>
        ensures ok { IfOk result (λ p. Begins (append_rule self.old request.now appending) self.new p) }
        ensures err { OnErr result (self.new ≡ self.old) }
        ensures fault { IfErr result (λ f. append_rule self.old request.now appending ≡ Err f) }
    {
        if !is_idle(self.job) {
            return Err(ClientFault::Busy);
        }
        let Appending { sent, group } = appending;
        self.group = PendingBlocks::of(group);
        match last(&self.extents) {
            None => Ok(self.grow(&None, request)),
            Some(extent) => Ok(self.append_behind(request, sent, &extent)),
        }
    }

    /// To this extent, which is the last, where it is open, else to one after it. The blocks are those of the group.
    fn append_behind(&mut self, request: &ReqNo, blocks: Blocks, extent: &StreamExtent) -> Packet
        requires { blocks ≡ self.old.group }
        ensures { append_behind self.old request.now extent.now extent.now.length
            ≡ record { after = self.new; packet = Some result; news = None } }
    {
        match extent.length {
            None => {
                self.job = Job::Sent {
                    extent: extent.extent,
                    request: *request,
                };
                sent_append(
                    self.server,
                    extent.places.primary,
                    extent.extent,
                    self.generation,
                    blocks,
                    request,
                )
            }
            Some(_length) => self.grow(&Some(extent.extent), request),
        }
    }
}
