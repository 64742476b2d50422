//! Extents that stand in no stream any more.
ghost use Rattle.std.specs.Prelude.{◌≡◌, ℕ, ◌||◌, ◌&&◌, not, IfOk, OnOk};
ghost use Rattle.std.specs.BTreeSet.{contains, keys, IsOrdered};
ghost use Rattle.std.specs.Ordering.{nat_cmp};
ghost use Rattle.streams.specs.Garbage.{has, has_gone, is_listed};
ghost use Rattle.streams.specs.Table.{IsGarbage};

use crate::listed::Listed;
use std::alloc::{AllocError, Global};
use std::collections::BTreeSet;
use wire::ExtentId;

/// Adds extents to a set. Without memory some of them may be in it.
fn add(set: &mut BTreeSet<ExtentId>, extents: &[ExtentId]) -> Result<(), AllocError>
    ensures { OnOk result ((e : ℕ) → contains nat_cmp set.new e ≡ (contains nat_cmp set.old e || has extents.now e)) }
{
    for extent in extents {
        set.insert(*extent)?;
    }
    Ok(())
}

/// Takes extents out of a set.
fn remove(set: &mut BTreeSet<ExtentId>, extents: &[ExtentId])
    ensures { (e : ℕ) → contains nat_cmp set.new e ≡ (contains nat_cmp set.old e && not (has extents.now e)) }
{
    for extent in extents {
        set.remove(extent);
    }
}

/// The extents that have left a stream.
fn gone(alloc: Global, entries: &Vec<Listed>) -> Result<BTreeSet<ExtentId>, AllocError>
    ensures { IfOk result (λ set. (e : ℕ) → contains nat_cmp set e ≡ has_gone entries.now.items e) }
{
    let mut set = BTreeSet::new(alloc);
    for listed in entries {
        add(&mut set, listed.gone())?;
    }
    Ok(set)
}

/// Takes the extents that stand in a stream out of a set.
fn remove_listed(set: &mut BTreeSet<ExtentId>, entries: &Vec<Listed>)
    ensures { (e : ℕ) → contains nat_cmp set.new e ≡ (contains nat_cmp set.old e && not (is_listed entries.now.items e)) }
{
    for listed in entries {
        remove(set, listed.extents());
    }
}

/// The extents of a set, in ascending order.
fn listing(alloc: Global, set: &BTreeSet<ExtentId>) -> Result<Vec<ExtentId>, AllocError>
    ensures items { IfOk result (λ extents. extents.items ≡ keys set.now) }
    ensures ordered { IsOrdered nat_cmp set.now }
{
    set.iter().copied().collect(alloc)
}

/// All extents that have left a stream and stand in none now, in ascending order.
pub(crate) fn garbage(alloc: Global, entries: &Vec<Listed>) -> Result<Vec<ExtentId>, AllocError>
    ensures { IfOk result (λ extents. IsGarbage entries.now.items extents.items) }
{
    let mut set = gone(alloc, entries)?;
    remove_listed(&mut set, entries);
    listing(alloc, &set)
}
