//! Writing a record as bytes, of which the long pieces are shared. Each writer appends what its clause says; where one runs out of
//! memory, a part of it may stand after what was there.
ghost use Rattle.std.specs.Prelude.{◌≡◌, [], ◌∷◌, ◌++◌, ◌<◌, ◌^◌, get_or, length, OnOk, OnErr};
ghost use Rattle.block_types.specs.declared.record.Version.TheVariants.{V1};
ghost use Rattle.blocks.specs.Record.{number, block, group, groups, nodes, body, spelling, Fits, IsInRange};

use crate::measures::body_len;
use crate::woven::Woven;
use block_types::{Group, Groups, Memory, Nodes, Record, Version};
use byteorder::{BigEndian, ByteOrder};
use bytes::Bytes;
use std::alloc::AllocError;

#[tactic(auto, unfolding(crate::specs::Record::number))]
fn put_u8(out: &mut Woven, n: u8) -> Result<(), AllocError>
    ensures { OnOk result (out.new.bytes ≡ out.old.bytes ++ n ∷ []) }
{
    out.put(&[n])
}

#[tactic(auto, unfolding(crate::specs::Record::number))]
fn put_u32(out: &mut Woven, n: u32) -> Result<(), AllocError>
    ensures { OnOk result (out.new.bytes ≡ out.old.bytes ++ number 4 n) }
{
    let mut bytes = [0u8; 4];
    BigEndian::write_u32(&mut bytes, n);
    out.put(&bytes)
}

#[tactic(auto, unfolding(crate::specs::Record::number))]
fn put_u64(out: &mut Woven, n: u64) -> Result<(), AllocError>
    ensures { OnOk result (out.new.bytes ≡ out.old.bytes ++ number 8 n) }
{
    let mut bytes = [0u8; 8];
    BigEndian::write_u64(&mut bytes, n);
    out.put(&bytes)
}

/// Appends the block of a group at an index, whose digest is computed only where the group does not know it.
fn put_block(
    out: &mut Woven,
    version: Version,
    text: &Group,
    index: usize,
) -> Result<(), AllocError>
    requires { index < length text.now }
    ensures ok { OnOk result (out.new.bytes ≡ out.old.bytes ++ block version (get_or text.now index [])) }
{
    let bytes = &text.blocks()[index];
    put_u32(out, bytes.len() as u32)?;
    out.share(bytes)?;
    match version {
        Version::V1 => Ok(()),
        Version::V2 => out.put(&text.digest(index)),
    }
}

#[tactic(auto, unfolding(crate::specs::Record::number))]
fn put_group(out: &mut Woven, version: Version, text: &Group) -> Result<(), AllocError>
    ensures ok { OnOk result (out.new.bytes ≡ out.old.bytes ++ group version text.now) }
{
    let count = text.blocks().len();
    put_u8(out, count as u8)?;
    for index in 0..count {
        put_block(out, version, text, index)?;
    }
    Ok(())
}

fn put_groups(out: &mut Woven, version: Version, all: &[Group]) -> Result<(), AllocError>
    requires { length all.now < 2 ^ 32 }
    ensures ok { OnOk result (out.new.bytes ≡ out.old.bytes ++ groups version all.now) }
{
    put_u32(out, all.len() as u32)?;
    for one in all {
        put_group(out, version, one)?;
    }
    Ok(())
}

fn put_nodes(out: &mut Woven, places: &Nodes) -> Result<(), AllocError>
    ensures ok { OnOk result (out.new.bytes ≡ out.old.bytes ++ nodes places.now) }
{
    put_u8(out, places.primary)?;
    put_u8(out, places.second)?;
    put_u8(out, places.third)
}

fn put_make(
    out: &mut Woven,
    extent: u64,
    fence: u64,
    target: u32,
    places: &Nodes,
) -> Result<(), AllocError>
    ensures { OnOk result (out.new.bytes
        ≡ out.old.bytes ++ 1 ∷ (number 8 extent ++ (number 8 fence ++ (number 4 target ++ nodes places.now)))) }
{
    put_u8(out, 1)?;
    put_u64(out, extent)?;
    put_u64(out, fence)?;
    put_u32(out, target)?;
    put_nodes(out, places)
}

fn put_append(
    out: &mut Woven,
    version: Version,
    extent: u64,
    offset: u32,
    text: &Group,
) -> Result<(), AllocError>
    ensures { OnOk result (out.new.bytes
        ≡ out.old.bytes ++ 2 ∷ (number 8 extent ++ (number 4 offset ++ group version text.now))) }
{
    put_u8(out, 2)?;
    put_u64(out, extent)?;
    put_u32(out, offset)?;
    put_group(out, version, text)
}

fn put_fence(out: &mut Woven, extent: u64, generation: u64) -> Result<(), AllocError>
    ensures ok { OnOk result (out.new.bytes ≡ out.old.bytes ++ 3 ∷ (number 8 extent ++ number 8 generation)) }
{
    put_u8(out, 3)?;
    put_u64(out, extent)?;
    put_u64(out, generation)
}

fn put_freeze(out: &mut Woven, extent: u64) -> Result<(), AllocError>
    ensures ok { OnOk result (out.new.bytes ≡ out.old.bytes ++ 4 ∷ number 8 extent) }
{
    put_u8(out, 4)?;
    put_u64(out, extent)
}

fn put_seal(out: &mut Woven, extent: u64, length: u32) -> Result<(), AllocError>
    ensures ok { OnOk result (out.new.bytes ≡ out.old.bytes ++ 5 ∷ (number 8 extent ++ number 4 length)) }
{
    put_u8(out, 5)?;
    put_u64(out, extent)?;
    put_u32(out, length)
}

fn put_fill(
    out: &mut Woven,
    version: Version,
    extent: u64,
    from: u32,
    upto: u32,
    all: &Groups,
) -> Result<(), AllocError>
    requires { length all.now < 2 ^ 32 }
    ensures { OnOk result (out.new.bytes
        ≡ out.old.bytes ++ 6 ∷ (number 8 extent ++ (number 4 from ++ (number 4 upto ++ groups version all.now)))) }
{
    put_u8(out, 6)?;
    put_u64(out, extent)?;
    put_u32(out, from)?;
    put_u32(out, upto)?;
    put_groups(out, version, &all.items)
}

fn put_manage(out: &mut Woven, text: &Bytes) -> Result<(), AllocError>
    ensures ok { OnOk result (out.new.bytes ≡ out.old.bytes ++ 7 ∷ text.now) }
{
    put_u8(out, 7)?;
    out.share(text)
}

fn put_body(out: &mut Woven, version: Version, written: &Record) -> Result<(), AllocError>
    requires { IsInRange written.now }
    ensures ok { OnOk result (out.new.bytes ≡ out.old.bytes ++ body version written.now) }
{
    match written {
        Record::Make {
            extent,
            fence,
            target,
            nodes,
        } => put_make(out, *extent, *fence, *target, nodes),
        Record::Append {
            extent,
            offset,
            group,
        } => put_append(out, version, *extent, *offset, group),
        Record::Fence { extent, generation } => put_fence(out, *extent, *generation),
        Record::Freeze { extent } => put_freeze(out, *extent),
        Record::Seal { extent, length } => put_seal(out, *extent, *length),
        Record::Fill {
            extent,
            from,
            length,
            groups,
        } => put_fill(out, version, *extent, *from, *length, groups),
        Record::Manage { text } => put_manage(out, text),
    }
}

// Appends a record.
fn put_record(out: &mut Woven, version: Version, written: &Record) -> Result<(), AllocError>
    requires { Fits version written.now }
    ensures { OnOk result (out.new.bytes ≡ out.old.bytes ++ spelling version written.now) }
{
    put_u32(out, body_len(version, written))?;
    put_body(out, version, written)
}

/// The one spelling of a record in the version, in the place of what was there. It shares the blocks of 512 bytes and more, and a text
/// that is so long. Where memory runs out (22) no bytes are there.
///
/// That the record fits the version is the caller's condition: its fields are in range, and its body's size fits 32 bits.
pub fn weave_as(version: Version, written: &Record, out: &mut Woven) -> Result<(), Memory>
    requires { Fits version written.now }
    ensures ok { OnOk result (out.new.bytes ≡ spelling version written.now) }
    ensures err { OnErr result (out.new.bytes ≡ []) }
{
    out.clear();
    match put_record(out, version, written) {
        Ok(()) => Ok(()),
        Err(_) => {
            out.release();
            Err(Memory)
        }
    }
}

/// Appends the one spelling of a record in the version, which `weave_as` makes. Where memory runs out (22) it changes nothing.
pub fn encode_as(version: Version, written: &Record, out: &mut Vec<u8>) -> Result<(), Memory>
    requires { Fits version written.now }
    ensures ok { OnOk result (out.new.items ≡ out.old.items ++ spelling version written.now) }
    ensures err { OnErr result (out.new.items ≡ out.old.items) }
{
    let mut text = Woven::new(*out.allocator());
    weave_as(version, written, &mut text)?;
    match text.append_to(out) {
        Ok(()) => Ok(()),
        Err(_) => Err(Memory),
    }
}

/// As `encode_as` in version 1.
pub fn encode(written: &Record, out: &mut Vec<u8>) -> Result<(), Memory>
    requires { Fits V1 written.now }
    ensures ok { OnOk result (out.new.items ≡ out.old.items ++ spelling V1 written.now) }
    ensures err { OnErr result (out.new.items ≡ out.old.items) }
{
    encode_as(Version::V1, written, out)
}
