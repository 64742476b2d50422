//! What no clause says: that calls succeed, and walks through both layers.
ghost use Rattle.memtable.specs.Cell.{IsCell};

use bytes::Bytes;
use memtable::{Cell, Key, MemTable};
use std::alloc::Global;
use std::test::Fail;

/// What is done with a table.
enum Step {
    /// `a` is deleted.
    Delete,
    /// `a` has a value of one byte.
    Put,
    /// The live layer is frozen.
    Freeze,
    /// There is a frozen layer already.
    RefuseFreeze,
    DropLayer,
}

/// What is done with a new table, step by step, and what it is then: the length of the value at `a`, its size, how many cells
/// the live layer has, and whether there is a frozen one.
const WALKS: &[&[(Step, Option<usize>, u64, usize, bool)]] = &[
    &[
        (Step::Delete, None, 4, 1, false),
        (Step::Put, Some(1), 9, 1, false),
        (Step::Freeze, Some(1), 9, 0, true),
        (Step::RefuseFreeze, Some(1), 9, 0, true),
        (Step::Delete, None, 13, 1, true),
    ],
    &[
        (Step::Delete, None, 4, 1, false),
        (Step::Put, Some(1), 9, 1, false),
        (Step::Freeze, Some(1), 9, 0, true),
        (Step::DropLayer, None, 0, 0, false),
    ],
];

fn put(alloc: Global, table: &mut MemTable, cell: Cell) -> Result<bool, Fail>
    requires { IsCell cell }
{
    let mut changes = Vec::new(alloc);
    changes.push((Bytes::from_static(b"a"), cell))?;
    table.apply(alloc, changes)?;
    Ok(true)
}

fn takes(alloc: Global, table: &mut MemTable, step: &Step) -> Result<bool, Fail> {
    match step {
        Step::Delete => put(alloc, table, Cell::Deleted),
        Step::Put => put(alloc, table, Cell::Inline(Bytes::from_static(b"x"))),
        Step::Freeze => Ok(table.freeze_layer(alloc)),
        Step::RefuseFreeze => Ok(!table.freeze_layer(alloc)),
        Step::DropLayer => {
            table.drop_layer();
            Ok(true)
        }
    }
}

/// The length of the value at `a`.
fn length_at(table: &MemTable) -> Option<usize> {
    match table.get(&Key::of(Bytes::from_static(b"a"))) {
        Some(Cell::Inline(value)) => Some(value.len()),
        _ => None,
    }
}

/// The first step, counted from 0, that does not come to what it should.
fn first_wrong(
    alloc: Global,
    table: &mut MemTable,
    steps: &[(Step, Option<usize>, u64, usize, bool)],
) -> Result<Option<usize>, Fail> {
    for (index, (step, length, size, live, fixed)) in steps.iter().enumerate() {
        let holds = takes(alloc, table, step)?
            && length_at(table) == *length
            && table.size() == *size
            && table.live().len() == *live
            && table.fixed().is_some() == *fixed;
        if !holds {
            return Ok(Some(index));
        }
    }
    Ok(None)
}

#[test]
fn each_step_comes_to_what_it_should(rt: HostRuntime) -> Result<(), Fail> {
    for steps in WALKS {
        let mut table = MemTable::new(rt.alloc());
        let wrong = first_wrong(rt.alloc(), &mut table, *steps);
        drop(table);
        assert!(rt; wrong? == None);
    }
    Ok(())
}
