//! Entries whose keys ascend: newer ones come over older ones in one walk, with no map.
ghost use Rattle.std.specs.Prelude.{◌≡◌, ◌<◌, ◌++◌, ◌∷◌, [], true, IfOk, OnOk, IfSome, IfNone};
ghost use Rattle.std.specs.VecDeque.{deque_len};
ghost use Rattle.memtable.specs.Entries.{put_all};
ghost use Rattle.checkpoint_format.specs.Page.{is_ascending};
ghost use Rattle.world_servers.specs.Runs.{entries_above, entries_below, merged_entries};

use bytes::Bytes;
use memtable::{Cell, Cells, Key};
use std::alloc::{AllocError, Global};
use std::cmp::Ordering;
use std::collections::{BTreeMap, VecDeque};
use std::marker::Model;

/// Entries, each with a key above that of the one before.
#[derive(Drop)]
pub(crate) struct AscendingRun {
    entries: Vec<(Bytes, Cell)>,
}

impl Model for AscendingRun {
    ghost use Rattle.std.specs.Prelude.{◌≡◌, true};
    ghost use Rattle.memtable.specs.Entries.{Entries};
    ghost use Rattle.checkpoint_format.specs.Page.{is_ascending};

    ghost Value = { Entries };

    ghost view = { λ run. run.entries.items };

    ghost invariant = { λ run. is_ascending run.entries.items ≡ true };
}

/// Whether each key is above the one before.
fn is_ascending(entries: &[(Bytes, Cell)]) -> bool
    ensures { result ≡ is_ascending entries.now }
{
    for at in 1..entries.len() {
        let before = entries[at - 1].0.as_slice();
        if !before.cmp(entries[at].0.as_slice()).is_lt() {
            return false;
        }
    }
    true
}

/// Takes the first entry, if its key is below this one; one of this key goes.
fn pop_below(entries: &mut VecDeque<(Bytes, Cell)>, key: &Bytes) -> Option<(Bytes, Cell)>
    ensures below { IfSome result (λ e. entries_below key.now entries.old.items ≡ e ∷ entries_below key.now entries.new.items) }
    ensures above { IfSome result (λ e. entries_above key.now entries.new.items ≡ entries_above key.now entries.old.items) }
    ensures shorter { IfSome result (λ e. deque_len entries.new < deque_len entries.old) }
    ensures none { IfNone result (entries_below key.now entries.old.items ≡ []) }
    ensures left { IfNone result (entries.new.items ≡ entries_above key.now entries.old.items) }
{
    let order = match entries.front() {
        None => return None,
        Some(first) => key.as_slice().cmp(first.0.as_slice()),
    };
    match order {
        Ordering::Less => None,
        Ordering::Equal => {
            drop(entries.pop_front());
            None
        }
        Ordering::Greater => entries.pop_front(),
    }
}

/// Moves the entries in front whose keys are below this one to the end of others; one of this key goes.
fn move_below(
    entries: &mut VecDeque<(Bytes, Cell)>,
    key: &Bytes,
    to: &mut Vec<(Bytes, Cell)>,
) -> Result<(), AllocError>
    ensures moved { OnOk result (to.new.items ≡ to.old.items ++ entries_below key.now entries.old.items) }
    ensures left { OnOk result (entries.new.items ≡ entries_above key.now entries.old.items) }
{
    while let Some(entry) = pop_below(entries, key) {
        to.push(entry)?;
    }
    Ok(())
}

/// Newer entries over older ones, where the keys of both ascend.
fn merged(
    alloc: Global,
    older: Vec<(Bytes, Cell)>,
    newer: Vec<(Bytes, Cell)>,
) -> Result<Vec<(Bytes, Cell)>, AllocError>
    ensures { IfOk result (λ all. all.items ≡ merged_entries older.items newer.items) }
{
    let mut all = Vec::with_capacity(alloc, older.len() + newer.len())?;
    let mut older = VecDeque::from_vec(older);
    for (key, cell) in newer {
        move_below(&mut older, &key, &mut all)?;
        all.push((key, cell))?;
    }
    for entry in older {
        all.push(entry)?;
    }
    Ok(all)
}

/// Puts changes at their keys, from left to right.
fn put_changes(map: &mut Cells, changes: Vec<(Bytes, Cell)>) -> Result<(), AllocError>
    ensures { OnOk result (map.new.entries ≡ put_all map.old.entries changes.items) }
{
    for (key, cell) in changes {
        map.insert(Key::of(key), cell)?;
    }
    Ok(())
}

impl AscendingRun {
    /// Of no entry; takes no memory.
    pub(crate) fn new(alloc: Global) -> AscendingRun
        ensures { result ≡ [] }
    {
        AscendingRun {
            entries: Vec::new(alloc),
        }
    }

    /// The entries of a map, which share its keys and values.
    pub(crate) fn copied(alloc: Global, map: &Cells) -> Result<AscendingRun, AllocError>
        ensures { IfOk result (λ run. run ≡ map.now.entries) }
    {
        let mut entries = Vec::with_capacity(alloc, map.len())?;
        for (key, cell) in map {
            entries.push((key.bytes().clone()?, cell.copy()?))?;
        }
        Ok(AscendingRun { entries })
    }

    pub(crate) fn as_slice(&self) -> &[(Bytes, Cell)]
        ensures { result.now ≡ self.now }
    {
        self.entries.as_slice()
    }

    /// These entries with newer ones over them. An error is out of memory (22).
    pub(crate) fn with_newer(
        self,
        alloc: Global,
        newer: AscendingRun,
    ) -> Result<AscendingRun, AllocError>
        ensures { IfOk result (λ run. run ≡ put_all self newer) }
    {
        let AscendingRun { entries: older } = self;
        let AscendingRun { entries: newer } = newer;
        let entries = merged(alloc, older, newer)?;
        Ok(AscendingRun { entries })
    }

    /// The same by a map, as changes need whose keys do not ascend.
    fn with_unordered(
        self,
        alloc: Global,
        changes: Vec<(Bytes, Cell)>,
    ) -> Result<AscendingRun, AllocError>
        ensures { IfOk result (λ run. run ≡ put_all self changes.items) }
    {
        let AscendingRun { entries } = self;
        let mut map = BTreeMap::new(alloc);
        put_changes(&mut map, entries)?;
        put_changes(&mut map, changes)?;
        AscendingRun::copied(alloc, &map)
    }

    /// These entries with changes put over them, from left to right. An error is out of memory (22).
    pub(crate) fn with_changes(
        self,
        alloc: Global,
        changes: Vec<(Bytes, Cell)>,
    ) -> Result<AscendingRun, AllocError>
        ensures { IfOk result (λ run. run ≡ put_all self changes.items) }
    {
        if is_ascending(&changes) {
            self.with_newer(alloc, AscendingRun { entries: changes })
        } else {
            self.with_unordered(alloc, changes)
        }
    }
}
