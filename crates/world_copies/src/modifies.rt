//! The copy of streams that are to be built.
ghost use Rattle.std.specs.Prelude.{◌≡◌, IfOk};

use std::alloc::{AllocError, Global};
use wire::{Modifies, Modify, Source, Sources};

fn sources(alloc: Global, all: &[Source]) -> Result<Sources, AllocError>
    ensures { IfOk result (λ copy. copy ≡ all.now) }
{
    let mut items = Vec::new(alloc);
    items.extend_from_slice(all)?;
    Ok(Sources { items })
}

/// The same streams again, in order. An error is out of memory (22).
pub(crate) fn modifies(alloc: Global, all: &[Modify]) -> Result<Modifies, AllocError>
    ensures { IfOk result (λ copy. copy ≡ all.now) }
{
    let mut items = Vec::with_capacity(alloc, all.len())?;
    for modify in all {
        items.push(Modify {
            stream: modify.stream,
            sources: sources(alloc, &modify.sources.items)?,
        })?;
    }
    Ok(Modifies { items })
}
