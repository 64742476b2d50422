//! Reads of groups, looked at before their answer is taken.
ghost use Rattle.std.specs.Prelude.{◌≡◌, [], IfSome};
ghost use Rattle.block_types.specs.declared.record.Nodes.{Nodes};
ghost use Rattle.wire.specs.declared.actor.ReqNo.{ReqNo};
ghost use Rattle.client.specs.Client.{content_of, reading_of, reply_rule, ends};
ghost use Rattle.client.specs.declared.job.Job.TheVariants as jobs;
ghost use Rattle.client.specs.declared.job.News.TheVariants as news;

use crate::client::StreamClient;
use crate::job::Job;
use crate::pending::PendingBlocks;
use crate::replies::awaits;
use wire::{Body, ExtentId, ReadBody};

/// The extent whose groups are asked for, and how far.
fn reading(job: Job) -> Option<(ExtentId, u32)>
    ensures { result ≡ reading_of job }
{
    match job {
        Job::Reading { extent, upto, .. } => Some((extent, upto)),
        _ => None,
    }
}

impl StreamClient {
    /// The extent whose groups an answer brings, and up to which length in bytes: those that are asked for, where it repeats
    /// their number.
    pub fn content(&self, body: &Body) -> Option<(ExtentId, u32)>
        ensures value { result ≡ content_of self.now.job body.now }

        // All that is done with it is that nothing is waited for any more.
        ensures told { IfSome result (λ x. (request : ReqNo) (pick : Nodes) → reply_rule (record self.now { pick = pick }) request body.now
            ≡ ends (record self.now { pick = pick }) (news.Content x.0 x.1)) }
    {
        match body {
            Body::Read(ReadBody::Groups { request, .. }) => {
                if !awaits(self.job, request) {
                    return None;
                }
                reading(self.job)
            }
            _ => None,
        }
    }

    /// Nothing is waited for any more: the answer was taken by its content.
    pub fn end_read(&mut self)
        ensures { self.new ≡ record self.old { job = jobs.Idle; group = [] } }
    {
        self.job = Job::Idle;
        self.group = PendingBlocks::none();
    }
}
