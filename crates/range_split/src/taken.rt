//! What a step of a split leaves.
ghost use Rattle.std.specs.Prelude.{◌≡◌, [], true, false};

use std::alloc::Global;
use std::marker::Model;
use wire::Packet;

/// What a step of a split leaves besides the range and the split: whether the range goes, whether the split has ended, the number
/// of the server's next request, and what is sent, in order.
#[derive(Drop)]
pub struct SplitTaken {
    pub dropped: bool,
    pub ended: bool,
    pub count: u64,
    pub packets: Vec<Packet>,
}

impl Model for SplitTaken {
    ghost use Rattle.range_split.specs.Steps as specs;

    ghost Value = { specs.SplitTaken };

    ghost view = { λ t. record { dropped = t.dropped; ended = t.ended; count = t.count; packets = t.packets.items } };
}

impl SplitTaken {
    /// Both go on, these packets are sent, and the server's next number is this.
    pub(crate) fn sends(count: u64, packets: Vec<Packet>) -> SplitTaken
        ensures { result ≡ record { dropped = false; ended = false; count = count; packets = packets.items } }
    {
        SplitTaken {
            dropped: false,
            ended: false,
            count,
            packets,
        }
    }

    /// Nothing changes.
    pub(crate) fn rests(alloc: Global, count: u64) -> SplitTaken
        ensures { result ≡ record { dropped = false; ended = false; count = count; packets = [] } }
    {
        SplitTaken::sends(count, Vec::new(alloc))
    }

    /// The range goes, its split with it, and these packets are sent.
    pub(crate) fn ends(count: u64, packets: Vec<Packet>) -> SplitTaken
        ensures { result ≡ record { dropped = true; ended = true; count = count; packets = packets.items } }
    {
        SplitTaken {
            dropped: true,
            ended: true,
            count,
            packets,
        }
    }
}
