//! How many bytes a record's body has.
ghost use Rattle.std.specs.Prelude.{◌≡◌, ◌≤◌, ◌<◌, ◌^◌, length};
ghost use Rattle.blocks.specs.Record.{group, groups, body, Fits};

use block_types::{Group, Record, Version};

fn group_len(version: Version, text: &Group) -> usize
    ensures value { result ≡ length (group version text.now) }
    ensures bound { result ≤ 4196609 }
{
    let count = text.blocks().len();
    let size = text.size() as usize;
    match version {
        Version::V1 => 1 + 4 * count + size,
        Version::V2 => 1 + 36 * count + size,
    }
}

fn groups_len(version: Version, all: &[Group]) -> usize
    requires { length (groups version all.now) < 2 ^ 32 }
    ensures { result ≡ length (groups version all.now) }
{
    let mut len = 4;
    for one in all {
        len += group_len(version, one);
    }
    len
}

/// The size of a record's body.
pub(crate) fn body_len(version: Version, written: &Record) -> u32
    requires { Fits version written.now }
    ensures { result ≡ length (body version written.now) }
{
    match written {
        Record::Make { .. } => 24,
        Record::Append { group, .. } => 13 + group_len(version, group) as u32,
        Record::Fence { .. } => 17,
        Record::Freeze { .. } => 9,
        Record::Seal { .. } => 13,
        Record::Fill { groups, .. } => 17 + groups_len(version, &groups.items) as u32,
        Record::Manage { text } => 1 + text.len() as u32,
    }
}
