//! Streams to be built from the lists of others, as bytes (docs/FORMATS.md).
ghost use Rattle.std.specs.Prelude.{◌≡◌, ◌∷◌, ◌++◌, ◌<◌, ◌^◌, true, length, OnOk};
ghost use Rattle.blocks.specs.Format.{Gives, many_at};
ghost use Rattle.model_streams.specs.RecordBytes.{source, sources, modify, modifies, source_at, modify_at, multi_modify_at, counted_at};
ghost use Rattle.streams.specs.Streams.{may_list};

use crate::record_bytes::{kind_at, named, put_stream};
use block_types::BlockFault;
use blocks::reader::{ended, u8_at, u64_at};
use blocks::writer::{put_u8, put_u64};
use model_streams::ManagerRecord;
use std::alloc::{AllocError, Global};
use wire::{Fence, Modifies, Modify, Source, Sources};

// ---- writing

fn put_source(out: &mut Vec<u8>, written: &Source) -> Result<(), AllocError>
    ensures { OnOk result (out.new.items ≡ out.old.items ++ source written.now) }
{
    put_stream(out, &written.stream)?;
    put_u64(out, written.generation.0)
}

fn put_sources(out: &mut Vec<u8>, all: &[Source]) -> Result<(), AllocError>
    requires few { length all.now < 2 ^ 8 }
    ensures { OnOk result (out.new.items ≡ out.old.items ++ length all.now ∷ sources all.now) }
{
    put_u8(out, all.len() as u8)?;
    for one in all {
        put_source(out, one)?;
    }
    Ok(())
}

fn put_modify(out: &mut Vec<u8>, written: &Modify) -> Result<(), AllocError>
    requires few { length written.now.sources < 2 ^ 8 }
    ensures { OnOk result (out.new.items ≡ out.old.items ++ modify written.now) }
{
    put_stream(out, &written.stream)?;
    put_sources(out, &written.sources.items)
}

pub(crate) fn put_multi_modify(out: &mut Vec<u8>, list: &[Modify]) -> Result<(), AllocError>
    requires few { may_list list.now ≡ true }
    ensures { OnOk result (out.new.items ≡ out.old.items ++ 7 ∷ length list.now ∷ modifies list.now) }
{
    put_u8(out, 7)?;
    put_u8(out, list.len() as u8)?;
    for one in list {
        put_modify(out, one)?;
    }
    Ok(())
}

// ---- reading

#[tactic(auto, unfolding(model_streams::specs::RecordBytes::source_at, model_streams::specs::RecordBytes::stream_at))]
fn source_at(bytes: &[u8]) -> Result<(Source, &[u8]), BlockFault>
    ensures { Gives (λ x. (x.0, x.1.now)) result (source_at bytes.now) }
{
    let (range, rest) = u64_at(bytes)?;
    let (kind, rest) = kind_at(rest)?;
    let (generation, rest) = u64_at(rest)?;
    let read = Source {
        stream: named(range, kind),
        generation: Fence(generation),
    };
    Ok((read, rest))
}

fn all_sources_at(
    alloc: Global,
    count: u8,
    bytes: &[u8],
) -> Result<(Vec<Source>, &[u8]), BlockFault>
    ensures { Gives (λ x. (x.0.items, x.1.now)) result (many_at source_at count bytes.now) }
{
    let mut read = Vec::new(alloc);
    let mut rest = bytes;
    for _ in 0..count {
        match source_at(rest) {
            Ok((one, after)) => {
                read.push(one)?;
                rest = after;
            }
            Err(fault) => return Err(fault),
        }
    }
    Ok((read, rest))
}

fn sources_at(alloc: Global, bytes: &[u8]) -> Result<(Sources, &[u8]), BlockFault>
    ensures { Gives (λ x. (x.0, x.1.now)) result (counted_at source_at bytes.now) }
{
    let (count, rest) = u8_at(bytes)?;
    let (items, rest) = all_sources_at(alloc, count, rest)?;
    Ok((Sources { items }, rest))
}

#[tactic(auto, unfolding(model_streams::specs::RecordBytes::modify_at, model_streams::specs::RecordBytes::stream_at))]
fn modify_at(alloc: Global, bytes: &[u8]) -> Result<(Modify, &[u8]), BlockFault>
    ensures { Gives (λ x. (x.0, x.1.now)) result (modify_at bytes.now) }
{
    let (range, rest) = u64_at(bytes)?;
    let (kind, rest) = kind_at(rest)?;
    let (sources, rest) = sources_at(alloc, rest)?;
    let stream = named(range, kind);
    Ok((Modify { stream, sources }, rest))
}

fn all_modifies_at(
    alloc: Global,
    count: u8,
    bytes: &[u8],
) -> Result<(Vec<Modify>, &[u8]), BlockFault>
    ensures { Gives (λ x. (x.0.items, x.1.now)) result (many_at modify_at count bytes.now) }
{
    let mut read = Vec::new(alloc);
    let mut rest = bytes;
    for _ in 0..count {
        let (one, after) = modify_at(alloc, rest)?;
        read.push(one)?;
        rest = after;
    }
    Ok((read, rest))
}

fn modifies_at(alloc: Global, bytes: &[u8]) -> Result<(Modifies, &[u8]), BlockFault>
    ensures { Gives (λ x. (x.0, x.1.now)) result (counted_at modify_at bytes.now) }
{
    let (count, rest) = u8_at(bytes)?;
    let (items, rest) = all_modifies_at(alloc, count, rest)?;
    Ok((Modifies { items }, rest))
}

/// The record of kind 7 in its fields.
#[tactic(auto, unfolding(model_streams::specs::RecordBytes::multi_modify_at))]
pub(crate) fn multi_modify_at(alloc: Global, fields: &[u8]) -> Result<ManagerRecord, BlockFault>
    ensures { Gives (λ r. r) result (multi_modify_at fields.now) }
{
    let (list, rest) = modifies_at(alloc, fields)?;
    ended(ManagerRecord::MultiModify { list }, rest)
}
