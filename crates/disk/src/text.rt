//! The text of records: of one that is appended, in buffers that are used again, and of all those of a new file.
ghost use Rattle.std.specs.Prelude.{◌≡◌, ◌++◌, ◌∷◌, [], IfOk};
ghost use Rattle.std.specs.List.{AllByRecursion};
ghost use Rattle.blocks.specs.Record.{spelling, Fits};
ghost use Rattle.disk.specs.File.{opened};

use block_types::{Memory, Record, Version};
use blocks::{Woven, encode_as, weave_as};
use std::alloc::Global;

// Longer buffers are let go, so that one long record does not keep its room.
const MOST_KEPT: usize = 65_536;

// What was kept, or nothing.
fn taken(kept: Option<Woven>, alloc: Global) -> Woven {
    match kept {
        Some(text) => text,
        None => Woven::new(alloc),
    }
}

/// A record and a closed gate after it, in the buffers that were kept or in new ones.
pub(crate) fn spelled(
    kept: &mut Option<Woven>,
    alloc: Global,
    version: Version,
    added: &Record,
) -> Result<Woven, Memory>
    requires { Fits version added.now }
    ensures { IfOk result (λ text. text.bytes ≡ spelling version added.now ++ 0 ∷ []) }
{
    let mut text = taken(kept.take(), alloc);
    weave_as(version, added, &mut text)?;
    text.put(&[0])?;
    Ok(text)
}

/// The buffers to be kept, if they are not too long.
pub(crate) fn kept(text: Woven) -> Option<Woven> {
    if text.own_room() <= MOST_KEPT {
        Some(text)
    } else {
        None
    }
}

/// Records with an open gate before each, and a closed gate after the last.
pub(crate) fn opened_text(
    alloc: Global,
    version: Version,
    records: &[Record],
) -> Result<Vec<u8>, Memory>
    requires { AllByRecursion (Fits version) records.now }
    ensures { IfOk result (λ text. text.items ≡ opened version records.now ++ 0 ∷ []) }
{
    let mut text = Vec::new(alloc);
    for written in records {
        text.push(1)?;
        encode_as(version, written, &mut text)?;
    }
    text.push(0)?;
    Ok(text)
}
