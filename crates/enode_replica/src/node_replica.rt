//! A replica at a node, with what a stop drops.
ghost use Rattle.std.specs.Prelude.{◌≡◌, ◌≤◌, drop, length};
ghost use Rattle.block_types.specs.Limits.{IsTarget};
ghost use Rattle.replica.specs.Content.{new_content};
ghost use Rattle.replica.specs.State.{content_of};
ghost use Rattle.model_streams.specs.Node.{fresh};

use crate::waiting::Waiting;
use block_types::Nodes;
use model_streams::Checking;
use replica::Replica;
use std::alloc::Global;
use std::marker::Model;
use wire::Fence;

/// A replica, and at its primary how long each secondary is known to be, the appends that wait for both, and the check
/// that is under way.
pub struct NodeReplica {
    pub(crate) replica: Replica,
    /// How long its second place is known to be, in bytes.
    pub second_has: u32,
    /// How long its third place is known to be, in bytes.
    pub third_has: u32,
    /// The appends that wait for both secondaries. While the replica is open they end within it.
    pub(crate) waiting: Waiting,
    /// The check that is under way.
    pub check: Option<Checking>,
}

// Written out, so that a crate above that lets one go has no proof of what is in it.
impl Drop for NodeReplica {
    fn drop(self) {
        let NodeReplica {
            replica: _,
            second_has: _,
            third_has: _,
            waiting: _,
            check: _,
        } = self;
    }
}

impl Model for NodeReplica {
    ghost use Rattle.replica.specs.State.{content_of};
    ghost use Rattle.model_streams.specs.Node.{Replica as State};
    ghost use Rattle.enode_replica.specs.Ends.{EndWithin};

    ghost Value = { State };

    ghost view = { λ h. record { content = content_of h.replica; second_has = h.second_has; third_has = h.third_has; waiting = h.waiting; check = h.check } };

    ghost invariant = { λ h. EndWithin (content_of h.replica) h.waiting };
}

impl NodeReplica {
    /// A new replica: open and empty, of a target from 4,096 to 16,777,216 bytes, with nothing of what a stop drops;
    /// takes no memory.
    pub fn new(alloc: Global, places: Nodes, target: u32, fence: Fence) -> NodeReplica
        requires { IsTarget target }
        ensures { result ≡ fresh (new_content places target fence) }
    {
        NodeReplica {
            replica: Replica::new(alloc, places, target, fence.0),
            second_has: 0,
            third_has: 0,
            waiting: Waiting::new(alloc),
            check: None,
        }
    }

    /// What a stop leaves of it.
    pub fn replica(&self) -> &Replica
        ensures { content_of result.now ≡ self.now.content }
    {
        &self.replica
    }

    /// The appends that wait for both secondaries, the oldest first.
    pub fn waiting(&self) -> &Waiting
        ensures { result.now ≡ self.now.waiting }
    {
        &self.waiting
    }

    /// The secondaries are known to be so long, and the first of the waiting appends wait no more.
    pub fn answer(&mut self, second_has: u32, third_has: u32, count: usize)
        requires { count ≤ length self.old.waiting }
        ensures { self.new ≡ record self.old { second_has = second_has; third_has = third_has; waiting = drop count self.old.waiting } }
    {
        self.second_has = second_has;
        self.third_has = third_has;
        self.waiting.drop_first(count);
    }

    /// What a stop drops is gone.
    pub(crate) fn forget(&mut self)
        ensures { self.new ≡ fresh self.old.content }
    {
        self.second_has = 0;
        self.third_has = 0;
        self.waiting.clear();
        self.check = None;
    }
}
