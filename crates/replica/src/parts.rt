//! Parts of the bytes of groups, and parts of bytes.
ghost use Rattle.std.specs.Prelude.{◌≡◌, ◌-◌, ◌≤◌, ◌++◌, take, drop, length, IfOk, OnOk};
ghost use Rattle.replica.specs.Groups.{text, joined};

use block_types::Group;
use bytes::Bytes;
use std::alloc::{AllocError, Global};

/// Copies bytes from one on, at most so many.
pub(crate) fn copy_part(
    out: &mut Vec<u8>,
    bytes: &[u8],
    from: usize,
    most: usize,
) -> Result<(), AllocError>
    ensures { OnOk result (out.new.items ≡ out.old.items ++ take most (drop from bytes.now)) }
{
    let Some(rest) = bytes.get(from..) else {
        return Ok(());
    };
    match rest.get(..most) {
        Some(part) => out.extend_from_slice(part),
        None => out.extend_from_slice(rest),
    }
}

/// Copies a group's bytes from one on, at most so many.
fn copy_group(out: &mut Vec<u8>, group: &Group, from: usize, most: usize) -> Result<(), AllocError>
    ensures { OnOk result (out.new.items ≡ out.old.items ++ take most (drop from (joined group.now))) }
{
    let mut from = from;
    let mut most = most;
    for block in group.blocks() {
        let before = out.len();
        copy_part(out, block.as_slice(), from, most)?;
        from = from.saturating_sub(block.len());
        most -= out.len() - before;
    }
    Ok(())
}

/// Copies the bytes of groups from one on, at most so many.
fn copy_groups(
    out: &mut Vec<u8>,
    groups: &[Group],
    from: usize,
    most: usize,
) -> Result<(), AllocError>
    ensures { OnOk result (out.new.items ≡ out.old.items ++ take most (drop from (text groups.now))) }
{
    let mut from = from;
    let mut most = most;
    for group in groups {
        if most == 0 {
            break;
        }
        let before = out.len();
        copy_group(out, group, from, most)?;
        from = from.saturating_sub(group.size() as usize);
        most -= out.len() - before;
    }
    Ok(())
}

/// A copy of a group's bytes from an offset on, at most so many. An error is out of memory.
pub fn part_of_group(
    alloc: Global,
    group: &Group,
    from: usize,
    most: usize,
) -> Result<Bytes, AllocError>
    ensures { IfOk result (λ bytes. bytes ≡ take most (drop from (joined group.now))) }
{
    let mut out = Vec::new(alloc);
    copy_group(&mut out, group, from, most)?;
    Ok(Bytes::from_vec(out)?)
}

/// A copy of the bytes of groups from an offset on, at most so many. An error is out of memory.
pub fn part_of_text(
    alloc: Global,
    groups: &[Group],
    from: usize,
    most: usize,
) -> Result<Bytes, AllocError>
    ensures { IfOk result (λ bytes. bytes ≡ take most (drop from (text groups.now))) }
{
    let mut out = Vec::new(alloc);
    copy_groups(&mut out, groups, from, most)?;
    Ok(Bytes::from_vec(out)?)
}

/// Writes bytes from one on into the places from one on, as far as there are any, and says where they end.
pub(crate) fn write_part(out: &mut [u8], at: usize, bytes: &[u8], from: usize) -> usize
    requires { at ≤ length out.old }
    ensures written { take result out.new ≡ take at out.old ++ take (length out.old - at) (drop from bytes.now) }
    ensures within { result ≤ length out.old }
    ensures len { length out.new ≡ length out.old }
{
    let Some(rest) = bytes.get(from..) else {
        return at;
    };
    let count = rest.len().min(out.len() - at);
    let end = at + count;
    out[at..end].copy_from_slice(&rest[..count]);
    end
}
