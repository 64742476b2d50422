//! What a step of a merge leaves.
ghost use Rattle.std.specs.Prelude.{◌≡◌, [], false, true};

use std::alloc::Global;
use std::marker::Model;
use wire::Packet;

/// What a step leaves beside the ranges and their merge: whether either range goes, whether the merge has ended, the number of the
/// server's next request, and what is sent, in order.
#[derive(Drop)]
pub struct MergeTaken {
    pub left_dropped: bool,
    pub right_dropped: bool,
    pub ended: bool,
    pub count: u64,
    pub packets: Vec<Packet>,
}

impl Model for MergeTaken {
    ghost use Rattle.range_merge.specs.Steps as specs;

    ghost Value = { specs.MergeTaken };

    ghost view = { λ t. record { left_dropped = t.left_dropped; right_dropped = t.right_dropped; ended = t.ended; count = t.count; packets = t.packets.items } };
}

impl MergeTaken {
    /// All go on, these packets are sent, and the server's next number is this.
    pub(crate) fn sends(count: u64, packets: Vec<Packet>) -> MergeTaken
        ensures { result ≡ record { left_dropped = false; right_dropped = false; ended = false; count = count; packets = packets.items } }
    {
        MergeTaken {
            left_dropped: false,
            right_dropped: false,
            ended: false,
            count,
            packets,
        }
    }

    /// Nothing changes.
    pub(crate) fn rests(alloc: Global, count: u64) -> MergeTaken
        ensures { result ≡ record { left_dropped = false; right_dropped = false; ended = false; count = count; packets = [] } }
    {
        MergeTaken::sends(count, Vec::new(alloc))
    }

    /// The merge ends, these ranges go, and these packets are sent.
    pub(crate) fn ends(
        left_dropped: bool,
        right_dropped: bool,
        count: u64,
        packets: Vec<Packet>,
    ) -> MergeTaken
        ensures { result ≡ record { left_dropped = left_dropped; right_dropped = right_dropped; ended = true; count = count; packets = packets.items } }
    {
        MergeTaken {
            left_dropped,
            right_dropped,
            ended: true,
            count,
            packets,
        }
    }
}
