//! Gets whose reads were answered.
ghost use Rattle.std.specs.Prelude.{◌≡◌, filter, not, IfOk};
ghost use Rattle.client.specs.Requests.{is_same as are_same};
ghost use Rattle.model_partition.specs.Getting.{without as without_read};

use model_partition::{PlaceRead, PlaceReads, WaitingGet};
use std::alloc::{AllocError, Global};
use wire::ReqNo;

fn other_reads(
    alloc: Global,
    reads: &[PlaceRead],
    answered: &ReqNo,
) -> Result<Vec<PlaceRead>, AllocError>
    ensures { IfOk result (λ made. made.items ≡ filter (λ read. not (are_same read.request answered.now)) reads.now) }
{
    reads
        .iter()
        .filter(|read| read.request != *answered)
        .copied()
        .collect(alloc)
}

/// The Get without the read that was answered. It shares its key.
pub(crate) fn without(
    alloc: Global,
    answered: &ReqNo,
    get: &WaitingGet,
) -> Result<WaitingGet, AllocError>
    ensures { IfOk result (λ made. made ≡ without_read answered.now get.now) }
{
    let key = get.key.clone()?;
    let reads = PlaceReads {
        items: other_reads(alloc, &get.reads.items, answered)?,
    };
    Ok(WaitingGet {
        from: get.from,
        request: get.request,
        key,
        reads,
    })
}
