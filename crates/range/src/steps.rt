//! Ranges of a server and their splits, by their numbers.
ghost use Rattle.std.specs.Prelude.{◌≡◌, OnErr, OnOk};
ghost use Rattle.std.specs.BTreeMap.{insert_entry};
ghost use Rattle.std.specs.Ordering.{nat_cmp};
ghost use Rattle.model_partition.specs.Range.{refuses};
ghost use Rattle.model_partition.specs.Server.{awaiting};

use model_partition::ServerContext;
use range_core::RangeState;
use std::alloc::AllocError;
use std::collections::BTreeMap;
use wire::{ActorId, AppendBody, Body, Packet, Refusal, ReqNo};

/// The range that waits for an answer of this number, if there is one.
pub(crate) fn awaiting(ranges: &BTreeMap<u64, RangeState>, request: &ReqNo) -> Option<u64>
    ensures { result ≡ awaiting ranges.now.entries request.now }
{
    for (range, state) in ranges {
        if state.awaits(request) {
            return Some(*range);
        }
    }
    None
}

/// A refusal from the server to one who asked.
pub(crate) fn refusal(
    context: &ServerContext,
    to: ActorId,
    request: &ReqNo,
    refusal: Refusal,
) -> Packet
    ensures { result ≡ refuses context.now to request.now refusal }
{
    Packet {
        from: ActorId::Server(context.server),
        to,
        body: Body::Append(AppendBody::Refused {
            request: *request,
            refusal,
        }),
    }
}

/// Holds a range, a split or a merge, under a number from now on, in place of what was known of it. Where memory runs out (22) nothing has
/// changed.
pub(crate) fn put<T: Drop>(
    held: &mut BTreeMap<u64, T>,
    range: u64,
    value: T,
) -> Result<(), AllocError>
    ensures ok { OnOk result (held.new.entries ≡ insert_entry nat_cmp held.old.entries range value) }
    ensures err { OnErr result (held.new.entries ≡ held.old.entries) }
{
    match held.insert(range, value) {
        Ok(old) => {
            drop(old);
            Ok(())
        }
        Err(full) => {
            drop(full);
            Err(AllocError)
        }
    }
}
