//! Whether two observations of one extent are compatible.
ghost use Rattle.std.specs.Prelude.{◌≡◌, ℕ, ◌+◌, ◌≤◌, ◌⊎◌, Some};
ghost use Rattle.std.specs.Bool.{Decides};
ghost use Rattle.wire.specs.declared.note.Note.TheVariants as kinds;
ghost use Rattle.replica.specs.Groups.{joined, size};
ghost use Rattle.model_streams.specs.Honest.{SameWhereBoth};
ghost use Rattle.model_streams.specs.Pairs.{Compatible};
ghost use Rattle.world_checker.specs.Checking.{extent_of};

use crate::texts::{
    has_length, is_same_groups, is_same_in_blocks, is_same_in_groups, is_same_where_both, stands_at,
};
use block_types::{Group, Groups};
use bytes::Bytes;
use wire::Note;

/// Whether the group ends at this length or before.
fn ends_within(offset: u32, group: &Group, length: u32) -> bool
    ensures { Decides result (offset + size group.now ≤ length) }
{
    u64::from(offset) + u64::from(group.size()) <= u64::from(length)
}

/// Whether two groups do not overlap where they stand.
fn is_apart(offset: u32, group: &Group, other: u32, behind: &Group) -> bool
    ensures { Decides result ((offset + size group.now ≤ other) ⊎ (other + size behind.now ≤ offset)) }
{
    ends_within(offset, group, other) || ends_within(other, behind, offset)
}

/// Whether bytes that were seen are those of a group wherever both cover.
fn is_seen(offset: u32, group: &Group, at: u32, bytes: &Bytes) -> bool
    ensures { Decides result (SameWhereBoth offset (joined group.now) at bytes.now) }
{
    is_same_in_blocks(at, bytes, u64::from(offset), group.blocks())
}

/// Whether an acknowledged group is compatible with another observation of its extent.
fn meets_acked(offset: u32, group: &Group, note: &Note) -> bool
    ensures { (extent : ℕ) → extent_of note.now ≡ Some extent
        → Decides result (Compatible (kinds.Acked extent offset group.now) note.now) }
{
    match note {
        Note::Acked {
            offset: at,
            group: behind,
            ..
        } => is_apart(offset, group, *at, behind),
        Note::SealedAt { length, .. } => ends_within(offset, group, *length),
        Note::Content { groups, .. } => stands_at(group, offset, &groups.items),
        Note::Seen {
            offset: at,
            bytes,
            ..
        } => is_seen(offset, group, *at, bytes),
        _ => true,
    }
}

/// Whether a sealed length is compatible with another observation of its extent.
fn meets_sealed(length: u32, note: &Note) -> bool
    ensures { (extent : ℕ) → extent_of note.now ≡ Some extent
        → Decides result (Compatible (kinds.SealedAt extent length) note.now) }
{
    match note {
        Note::Acked { offset, group, .. } => ends_within(*offset, group, length),
        Note::SealedAt { length: other, .. } => length == *other,
        Note::Content { groups, .. } => has_length(&groups.items, length),
        _ => true,
    }
}

/// Whether all groups of a replica are compatible with another observation of its extent.
fn meets_content(groups: &Groups, note: &Note) -> bool
    ensures { (extent node : ℕ) → extent_of note.now ≡ Some extent
        → Decides result (Compatible (kinds.Content extent node groups.now) note.now) }
{
    match note {
        Note::Acked { offset, group, .. } => stands_at(group, *offset, &groups.items),
        Note::SealedAt { length, .. } => has_length(&groups.items, *length),
        Note::Content { groups: others, .. } => { is_same_groups(&groups.items, &others.items) }
        Note::Seen { offset, bytes, .. } => is_same_in_groups(*offset, bytes, &groups.items),
        _ => true,
    }
}

/// Whether bytes that were seen are compatible with another observation of their extent.
fn meets_seen(offset: u32, bytes: &Bytes, note: &Note) -> bool
    ensures { (extent node : ℕ) → extent_of note.now ≡ Some extent
        → Decides result (Compatible (kinds.Seen extent node offset bytes.now) note.now) }
{
    match note {
        Note::Acked {
            offset: at,
            group,
            ..
        } => is_seen(*at, group, offset, bytes),
        Note::Content { groups, .. } => is_same_in_groups(offset, bytes, &groups.items),
        Note::Seen {
            offset: at,
            bytes: others,
            ..
        } => is_same_where_both(u64::from(offset), bytes, u64::from(*at), others),
        _ => true,
    }
}

/// Whether two observations of one extent are compatible.
pub fn is_compatible(first: &Note, second: &Note) -> bool
    ensures { (extent : ℕ) → extent_of first.now ≡ Some extent → extent_of second.now ≡ Some extent
        → Decides result (Compatible first.now second.now) }
{
    match first {
        Note::Acked { offset, group, .. } => meets_acked(*offset, group, second),
        Note::SealedAt { length, .. } => meets_sealed(*length, second),
        Note::Content { groups, .. } => meets_content(groups, second),
        Note::Seen { offset, bytes, .. } => meets_seen(*offset, bytes, second),
        _ => true,
    }
}
