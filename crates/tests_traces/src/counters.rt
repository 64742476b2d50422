//! Two counters take events in turn, a trace is full, and a step comes late.
ghost use Rattle.std.specs.Prelude.{◌≡◌};

use crate::named_marks::NamedMarks;
use crate::pair::Pair;
use stamp_marks::{Identity, Marks};
use stamp_traces::{Counter, Entry, EventBooking, TraceFault, commit, count};
use std::marker::Brand;
use std::process::Abort;
use std::sync::Wait;
use std::test::Fail;

/// The reply of the first counter, by the call for counters.
fn count_first<K: Identity, W: Wait + AllocGlobal>(
    rt: &W,
    pair: &mut Pair<Counter, K>,
    event: u64,
) -> Result<u64, TraceFault> {
    let Pair {
        marks,
        journal,
        pass,
        first,
        ..
    } = pair;
    let (_, reply) = count(first, journal, rt, marks.all(), pass, event)?;
    Ok(reply)
}

/// How many entries are booked once one more is, for this actor.
fn book<K: Identity, W: Wait>(
    rt: &W,
    pair: &mut Pair<Counter, K>,
    number: usize,
) -> Result<usize, TraceFault> {
    pair.journal
        .book(rt, pair.marks.all(), &pair.pass, number, &7)?;
    Ok(pair.journal.booked())
}

/// The second counter steps, and gives its step to the trace once the booking was given back.
fn commit_late<K: Identity, W: Wait + AllocGlobal>(
    rt: &W,
    pair: &mut Pair<Counter, K>,
) -> Result<u64, TraceFault> {
    let Pair {
        marks,
        journal,
        pass,
        first: _,
        second,
    } = pair;
    let EventBooking { event, prefix } = journal.book(rt, marks.all(), pass, 1, &7)?;
    let step = second.step(rt.alloc(), &marks.all().events, event, 7)?;
    journal.unbook(1);
    let (_, reply) = commit(second, journal, marks.all(), pass, step, prefix)?;
    Ok(reply)
}

/// The actor of an entry.
fn actor_at<K: Identity>(pair: &Pair<Counter, K>, at: usize) -> Option<usize> {
    let entry = pair.journal.entries().get(at)?;
    Some(entry.takers.first)
}

/// In turn, until there is no room.
fn take_turns<K: Identity, R: Wait + Abort + AllocGlobal>(rt: &R, pair: &mut Pair<Counter, K>) {
    let replies = [
        count_first(rt, pair, 7),
        pair.act_second(rt, 8),
        count_first(rt, pair, 9),
        pair.act_second(rt, 10),
    ];
    assert_eq!(rt; replies, [Ok(1), Ok(1), Ok(2), Err(TraceFault::Full)]);
    assert_eq!(rt; pair.journal.len(), 3);
    let actors = [actor_at(pair, 0), actor_at(pair, 1), actor_at(pair, 2)];
    assert_eq!(rt; actors, [Some(0), Some(1), Some(0)]);
    assert_eq!(rt; pair.first.actor().count, 2);
}

fn two_in_turn<K: Identity, R: Wait + Abort + AllocGlobal>(
    rt: &R,
    marks: Marks<u64, Counter, Entry<u64, u64>>,
) -> Result<(), Fail>
    requires named { (marks.events ≡ K.events) × (marks.prefixes ≡ K.prefixes) }
{
    let marks = NamedMarks::<Counter, K>::new(marks);
    let mut pair = Pair::new(rt.alloc(), marks, Counter::new(), Counter::new(), 3)?;
    take_turns(rt, &mut pair);
    Ok(())
}

#[test]
fn two_counters(rt: HostRuntime) -> Result<(), Fail> {
    two_in_turn::<Brand, _>(&rt, Marks::new(rt.alloc())?)
}

/// What was booked is given back, and then the step that it was booked for comes.
fn book_and_unbook<K: Identity, R: Wait + Abort + AllocGlobal>(
    rt: &R,
    pair: &mut Pair<Counter, K>,
) {
    let booked = [book(rt, pair, 0), book(rt, pair, 2), book(rt, pair, 1)];
    assert_eq!(rt; booked, [Ok(1), Err(TraceFault::Stopped), Ok(2)]);
    assert_eq!(rt; book(rt, pair, 0), Err(TraceFault::Full));
    pair.journal.unbook(0);
    assert_eq!(rt; pair.journal.booked(), 1);
    let late = [commit_late(rt, pair), pair.act_second(rt, 8)];
    assert_eq!(rt; late, [Err(TraceFault::Stopped), Err(TraceFault::Stopped)]);
    assert_eq!(rt; (pair.journal.len(), pair.journal.booked()), (0, 1));
    assert_eq!(rt; pair.act_first(rt, 9), Ok(1));
}

fn late_step<K: Identity, R: Wait + Abort + AllocGlobal>(
    rt: &R,
    marks: Marks<u64, Counter, Entry<u64, u64>>,
) -> Result<(), Fail>
    requires named { (marks.events ≡ K.events) × (marks.prefixes ≡ K.prefixes) }
{
    let marks = NamedMarks::<Counter, K>::new(marks);
    let mut pair = Pair::new(rt.alloc(), marks, Counter::new(), Counter::new(), 2)?;
    book_and_unbook(rt, &mut pair);
    Ok(())
}

#[test]
fn bookings(rt: HostRuntime) -> Result<(), Fail> {
    late_step::<Brand, _>(&rt, Marks::new(rt.alloc())?)
}
