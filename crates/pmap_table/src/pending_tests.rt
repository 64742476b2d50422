//! Tests of what is begun at a range, and of who holds it.
ghost use Rattle.std.specs.Prelude.{◌≡◌};
ghost use Rattle.model_partition.specs.Map.{halves_at, is_merge_with, union_with};
ghost use Rattle.model_partition.specs.MapRules.{is_same_holder, is_split};

use model_partition::Pending;
use wire::{RangeId, ServerNo};

/// The numbers of the two halves, where a split at this key is pending.
pub fn halves_at(pending: &Option<Pending>, key: &[u8]) -> Option<(RangeId, RangeId)>
    ensures { result ≡ halves_at key.now pending.now }
{
    match pending {
        Some(Pending::Split { key: at, low, high }) if at.as_slice() == key => Some((*low, *high)),
        _ => None,
    }
}

/// Whether a split is pending.
pub fn is_split(pending: &Option<Pending>) -> bool
    ensures { result ≡ is_split pending.now }
{
    matches!(pending, Some(Pending::Split { .. }))
}

/// Whether a merge is pending whose right one is this range.
pub(crate) fn is_merge_with(pending: &Option<Pending>, range: RangeId) -> bool
    ensures { result ≡ is_merge_with range pending.now }
{
    match pending {
        Some(Pending::Merge { right, .. }) => *right == range,
        _ => false,
    }
}

/// The number of what the two become, where a merge is pending whose right one is this range.
pub fn union_with(pending: &Option<Pending>, range: RangeId) -> Option<RangeId>
    ensures { result ≡ union_with range pending.now }
{
    match pending {
        Some(Pending::Merge { right, into }) if *right == range => Some(*into),
        _ => None,
    }
}

/// Whether one server holds both, or nobody holds either.
pub fn is_same_holder(holder: Option<ServerNo>, other: Option<ServerNo>) -> bool
    ensures { result ≡ is_same_holder holder other }
{
    match (holder, other) {
        (None, None) => true,
        (Some(holder), Some(other)) => holder == other,
        _ => false,
    }
}
