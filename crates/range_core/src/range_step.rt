//! What a step of a range leaves.
ghost use Rattle.std.specs.Prelude.{◌≡◌, ◌<◌, ◌≤◌, ◌+◌, ◌++◌, [], true, false, vec_len, vec_capacity, option_to_list};

use model_partition::TableNote;
use range_reads::Tried;
use std::alloc::{AllocError, Global};
use std::marker::Model;
use wire::Packet;

/// What a step of a range leaves besides the range: whether it is dropped, the number of the server's next request, and
/// what is sent and shown, in order.
#[derive(Drop)]
pub struct RangeStep {
    pub dropped: bool,
    pub count: u64,
    pub packets: Vec<Packet>,
    pub notes: Vec<TableNote>,
}

impl Model for RangeStep {
    ghost use Rattle.range_core.specs.Steps as specs;

    ghost Value = { specs.RangeStep };

    ghost view = { λ t. record { dropped = t.dropped; count = t.count; packets = t.packets.items; notes = t.notes.items } };
}

/// Adds a packet, if there is one, into room that is there.
pub fn push_some(packets: &mut Vec<Packet>, packet: Option<Packet>)
    requires { vec_len packets.old < vec_capacity packets.old }
    ensures items { packets.new.items ≡ packets.old.items ++ option_to_list packet }
    ensures grows { vec_len packets.new ≤ vec_len packets.old + 1 }
    ensures room { vec_capacity packets.old ≤ vec_capacity packets.new }
{
    if let Some(packet) = packet {
        packets.push_reserved(packet);
    }
}

/// Moves items to the end of others, into room that is there.
pub fn append_reserved<T: Drop>(items: &mut Vec<T>, mut more: Vec<T>)
    requires { vec_len items.old + vec_len more ≤ vec_capacity items.old }
    ensures items { items.new.items ≡ items.old.items ++ more.items }
    ensures room { vec_capacity items.old ≤ vec_capacity items.new }
{
    let moved: Result<(), AllocError> = items.append(&mut more);
    moved.unwrap();
}

impl RangeStep {
    /// Nothing but these packets, and the server's next number is this.
    pub(crate) fn sends(alloc: Global, count: u64, packets: Vec<Packet>) -> RangeStep
        ensures { result ≡ record { dropped = false; count = count; packets = packets.items; notes = [] } }
    {
        RangeStep {
            dropped: false,
            count,
            packets,
            notes: Vec::new(alloc),
        }
    }

    /// What tries of Gets leave.
    pub(crate) fn of_gets(tried: Tried) -> RangeStep
        ensures { result ≡ record { dropped = false; count = tried.count; packets = tried.packets.items; notes = tried.notes.items } }
    {
        RangeStep {
            dropped: false,
            count: tried.count,
            packets: tried.packets,
            notes: tried.notes,
        }
    }

    /// The range is dropped, and these packets are sent.
    pub(crate) fn drops(alloc: Global, count: u64, packets: Vec<Packet>) -> RangeStep
        ensures { result ≡ record { dropped = true; count = count; packets = packets.items; notes = [] } }
    {
        RangeStep {
            dropped: true,
            count,
            packets,
            notes: Vec::new(alloc),
        }
    }

    /// Its packets and observations.
    pub fn into_parts(self) -> (Vec<Packet>, Vec<TableNote>)
        ensures packets { result.0.items ≡ self.packets }
        ensures notes { result.1.items ≡ self.notes }
    {
        (self.packets, self.notes)
    }
}
