//! What is told of an extent: where groups were acknowledged, and at which length it was sealed.
ghost use Rattle.std.specs.Bool.{Decides};
ghost use Rattle.std.specs.BTreeMap.{get};
ghost use Rattle.std.specs.Ordering.{nat_cmp};
ghost use Rattle.world_checker.specs.Checking.{IsTold};
ghost use Rattle.world_checker.specs.Orderly.{IsOrderly};

use std::collections::BTreeMap;
use wire::Note;

/// Whether an observation tells of an extent: a group was acknowledged, or it was sealed.
pub fn is_told(note: &Note) -> bool
    ensures { Decides result (IsTold note.now) }
{
    match note {
        Note::Acked { .. } | Note::SealedAt { .. } => true,
        _ => false,
    }
}

/// What was told of one extent.
#[derive(Drop)]
pub struct Told {
    /// Where each acknowledged group begins, by where it ends.
    pub starts: BTreeMap<u64, u32>,
    /// The length at which the extent was sealed, where it was.
    pub sealed: Option<u32>,
    ghost orderly: { IsOrderly (get nat_cmp starts) },
}
