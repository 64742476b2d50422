//! What a replica keeps in each of its states.
ghost use Rattle.std.specs.Prelude.{◌≡◌, ◌==◌, true};
ghost use Rattle.std.specs.List.{AllByRecursion};
ghost use Rattle.std.specs.Option.{IfNone};
ghost use Rattle.block_types.specs.Limits.{IsGroup};
ghost use Rattle.replica.specs.Groups.{text_length};
ghost use Rattle.replica.specs.Kept.{held_as};
ghost use Rattle.replica.specs.Put.{fill_fault};

use crate::fault::FillFault;
use crate::phase::Phase;
use crate::placed::PlacedGroups;
use block_types::{Group, Groups, MAX_GROUP, MAX_TARGET, Nodes};

/// The longest extent, in bytes: the greatest target and a group, less one.
const LONGEST: u32 = MAX_TARGET + MAX_GROUP - 1;

/// The places of its extent, its target, its fence, and its groups in order.
#[derive(Drop)]
pub(crate) struct Kept {
    pub(crate) places: Nodes,
    pub(crate) target: u32,
    pub(crate) fence: u64,
    pub(crate) held: PlacedGroups,
}

/// Whether the groups have so many bytes together.
fn add_up(groups: &[Group], sum: u32) -> bool
    ensures value { result ≡ (text_length groups.now == sum) }
    ensures groups { result ≡ true → AllByRecursion IsGroup groups.now }
{
    let mut left = sum;
    for group in groups {
        // Asked for, so that the proof knows that it is a group.
        let _blocks = group.blocks();
        let Some(rest) = left.checked_sub(group.size()) else {
            return false;
        };
        left = rest;
    }
    left == 0
}

impl Kept {
    /// Why groups do not bring it from an offset to a length, the first reason.
    pub(crate) fn fill_fault(&self, from: u32, end: u32, groups: &Groups) -> Option<FillFault>
        ensures value { result ≡ fill_fault (held_as Phase.Frozen self.now).content from end groups.now }
        ensures groups { IfNone result (AllByRecursion IsGroup groups.now) }
    {
        if groups.items.is_empty() {
            return Some(FillFault::PastEnd);
        }
        if from != self.held.len() {
            return Some(FillFault::PastEnd);
        }
        if end > LONGEST {
            return Some(FillFault::ExtentFull);
        }
        match end.checked_sub(from) {
            Some(sum) if add_up(&groups.items, sum) => None,
            _ => Some(FillFault::PastEnd),
        }
    }
}
