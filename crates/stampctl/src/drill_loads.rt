//! What a load may show of the keys `a` and `z`, in a run whose range 1 is split into 2 and 3, and these are merged into 4: each of the
//! two keys has all that was done of the range that had it, and nothing but what was begun there.
use wire::{Note, RangeId, Row};

/// What stands under `a` and under `z` after the first so many transactions of the ranges that have them, beginning with none.
#[derive(Clone, Copy)]
pub(crate) struct Tables {
    pub(crate) low: &'static [Option<u8>],
    pub(crate) high: &'static [Option<u8>],
}

/// The highest numbers of one key's transactions that were begun and are done, up to some observation.
#[derive(Clone, Copy)]
struct Side {
    begun: u64,
    done: u64,
}

/// What was observed up to some observation, of either key, and how many loads there were.
#[derive(Clone, Copy)]
struct Seen {
    low: Side,
    high: Side,
    loads: usize,
}

/// What a load shows of either key.
#[derive(Clone, Copy)]
struct Shown {
    low: Option<u8>,
    high: Option<u8>,
}

const NOTHING: Side = Side { begun: 0, done: 0 };

fn has_low(range: RangeId) -> bool {
    range != RangeId(3)
}

fn has_high(range: RangeId) -> bool {
    range != RangeId(2)
}

fn begins(side: &mut Side, number: u64) {
    side.begun = side.begun.max(number);
}

fn ends(side: &mut Side, number: u64) {
    side.done = side.done.max(number);
}

fn note_begun(seen: &mut Seen, range: RangeId, number: u64) {
    if has_low(range) {
        begins(&mut seen.low, number);
    }
    if has_high(range) {
        begins(&mut seen.high, number);
    }
}

fn note_done(seen: &mut Seen, range: RangeId, number: u64) {
    if has_low(range) {
        ends(&mut seen.low, number);
    }
    if has_high(range) {
        ends(&mut seen.high, number);
    }
}

/// The one byte that the row puts at a key.
fn byte_of(row: &Row) -> Option<u8> {
    match row.value.as_slice() {
        [byte] => Some(*byte),
        _ => None,
    }
}

fn is_at(row: &Row, key: u8) -> bool {
    row.key.as_slice() == [key].as_slice()
}

/// What the rows say of the two keys, where they are of no other.
fn shown_by(rows: &[Row]) -> Option<Shown> {
    match rows {
        [] => Some(Shown {
            low: None,
            high: None,
        }),
        [row] if is_at(row, b'a') => Some(Shown {
            low: byte_of(row),
            high: None,
        }),
        [row] if is_at(row, b'z') => Some(Shown {
            low: None,
            high: byte_of(row),
        }),
        [row, other] if is_at(row, b'a') && is_at(other, b'z') => Some(Shown {
            low: byte_of(row),
            high: byte_of(other),
        }),
        _ => None,
    }
}

/// Whether a key may have this value after so many transactions.
fn is_at_number(values: &[Option<u8>], side: &Side, value: Option<u8>, number: u64) -> bool {
    side.done <= number && number <= side.begun && values.get(number as usize) == Some(&value)
}

/// Whether a key may have this value after as many transactions as may be.
fn is_at_some(values: &[Option<u8>], side: &Side, value: Option<u8>) -> bool {
    (side.done..=side.begun).any(|number| is_at_number(values, side, value, number))
}

/// Whether a load may show this, which has these next number.
fn is_table(seen: &Seen, tables: &Tables, range: RangeId, shown: &Shown, next: u64) -> bool {
    let number = next.saturating_sub(1);
    let is_low = is_at_number(tables.low, &seen.low, shown.low, number);
    let is_high = is_at_number(tables.high, &seen.high, shown.high, number);
    match range.0 {
        1 => is_low && is_high,
        2 => is_low && shown.high == None,
        3 => shown.low == None && is_high,
        4 => {
            next == 1
                && is_at_some(tables.low, &seen.low, shown.low)
                && is_at_some(tables.high, &seen.high, shown.high)
        }
        _ => false,
    }
}

fn is_load(seen: &Seen, tables: &Tables, range: RangeId, rows: &[Row], next: u64) -> bool {
    match shown_by(rows) {
        Some(shown) => is_table(seen, tables, range, &shown, next),
        None => false,
    }
}

/// Takes an observation, and answers whether a load has all that is done, and nothing but what was begun.
fn is_right(seen: &mut Seen, tables: &Tables, note: &Note) -> bool {
    match note {
        Note::Began { range, number, .. } => {
            note_begun(seen, *range, *number);
            true
        }
        Note::Done { range, number, .. } => {
            note_done(seen, *range, *number);
            true
        }
        Note::Loaded {
            range,
            rows,
            next,
            ..
        } => {
            seen.loads = seen.loads.saturating_add(1);
            is_load(seen, tables, *range, rows.items.as_slice(), *next)
        }
        _ => true,
    }
}

/// How many loads there were, where each is right.
pub(crate) fn right_loads(notes: &[Note], tables: &Tables) -> Option<usize> {
    let mut seen = Seen {
        low: NOTHING,
        high: NOTHING,
        loads: 0,
    };
    for note in notes {
        if !is_right(&mut seen, tables, note) {
            return None;
        }
    }
    Some(seen.loads)
}
