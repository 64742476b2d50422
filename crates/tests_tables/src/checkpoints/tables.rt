//! What is written before a checkpoint, and while one runs.
ghost use Rattle.std.specs.Prelude.{◌≡◌};
ghost use Rattle.memtable.specs.Cell.{IsCell};

use bytes::Bytes;
use memtable::{Cell, MemTable, Place};
use std::alloc::Global;
use std::test::Fail;
use wire::ExtentId;

fn put(alloc: Global, table: &mut MemTable, key: [u8; 2], cell: Cell) -> Result<(), Fail>
    requires { IsCell cell }
{
    let mut changes = Vec::new(alloc);
    changes.push((Bytes::from_vec(vec![in alloc; key[0], key[1]]?)?, cell))?;
    table.apply(alloc, changes)?;
    Ok(())
}

/// The value `x` at a key, `k` and this byte.
pub(crate) fn put_small(alloc: Global, table: &mut MemTable, key: u8) -> Result<(), Fail> {
    put(
        alloc,
        table,
        [b'k', key],
        Cell::Inline(Bytes::from_static(b"x")),
    )
}

fn large_place() -> Place
    ensures { result.length ≡ 5000 }
{
    Place {
        extent: ExtentId(7),
        offset: 100,
        length: 5_000,
    }
}

/// A value by its place.
pub(crate) fn put_large(alloc: Global, table: &mut MemTable, key: u8) -> Result<(), Fail> {
    put(alloc, table, [b'k', key], Cell::Placed(large_place()))
}

/// So many keys, each with a value of 4,000 bytes.
pub(crate) fn fill(alloc: Global, table: &mut MemTable, count: u16) -> Result<(), Fail> {
    for key in 0..count {
        let value = Bytes::from_vec(vec![in alloc; b'x'; 4_000]?)?;
        put(alloc, table, key.to_be_bytes(), Cell::Inline(value))?;
    }
    Ok(())
}
