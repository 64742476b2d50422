//! Two clocks take one event, both or neither.
ghost use Rattle.std.specs.Prelude.{◌≡◌};

use crate::named_marks::NamedMarks;
use crate::pair::Pair;
use stamp_marks::{Identity, Marks};
use stamp_traces::{Actor, Entry, MomentBooking, Takers, Timed, TraceFault};
use std::alloc::Global;
use std::marker::Brand;
use std::process::Abort;
use std::sync::Wait;
use std::test::Fail;

/// The time that an actor was told last.
#[derive(Drop)]
struct Clock {
    now: u64,
}

impl Actor<u64, u64> for Clock {
    ghost use Rattle.std.specs.Prelude.{◌≡◌};

    ghost first = { λ ns n. record { now = 0 } };

    ghost goes = { λ s e t r. (t.now ≡ e) × (r ≡ 0) };

    fn step(&mut self, _alloc: Global, event: &u64) -> Result<u64, TraceFault> {
        self.now = *event;
        Ok(0)
    }
}

impl Timed<u64, u64> for Clock {
    ghost use Rattle.std.specs.Prelude.{⊤};

    ghost is_moment = { λ e. ⊤ };

    ghost quiet = { 0 };

    fn tick(&mut self, event: &u64) {
        self.now = *event;
    }
}

const BOTH: Takers = Takers { first: 0, end: 2 };

fn book<K: Identity, W: Wait + AllocGlobal>(
    rt: &W,
    pair: &mut Pair<Clock, K>,
    takers: Takers,
) -> Result<MomentBooking<Clock, u64, u64, K>, TraceFault> {
    pair.journal
        .book_moment(rt, pair.marks.all(), &pair.pass, takers, 5)
}

fn tick_first<K: Identity>(
    pair: &mut Pair<Clock, K>,
    moment: &mut MomentBooking<Clock, u64, u64, K>,
) -> Result<(), TraceFault> {
    pair.first.tick(&pair.marks.all().events, moment)
}

fn tick_second<K: Identity>(
    pair: &mut Pair<Clock, K>,
    moment: &mut MomentBooking<Clock, u64, u64, K>,
) -> Result<(), TraceFault> {
    pair.second.tick(&pair.marks.all().events, moment)
}

fn append<K: Identity>(
    pair: &mut Pair<Clock, K>,
    moment: MomentBooking<Clock, u64, u64, K>,
) -> Result<(), TraceFault> {
    pair.journal
        .append_moment(pair.marks.all(), &mut pair.pass, moment, &0)
}

/// Both take the event, each in its turn.
fn take_both<K: Identity, W: Wait + AllocGlobal>(
    rt: &W,
    pair: &mut Pair<Clock, K>,
) -> Result<[Result<(), TraceFault>; 4], TraceFault> {
    let mut moment = book(rt, pair, BOTH)?;
    let early = tick_second(pair, &mut moment);
    let first = tick_first(pair, &mut moment);
    let second = tick_second(pair, &mut moment);
    Ok([early, first, second, append(pair, moment)])
}

/// One takes the event, and the trace is given the moment.
fn take_one<K: Identity, W: Wait + AllocGlobal>(
    rt: &W,
    pair: &mut Pair<Clock, K>,
) -> Result<[Result<(), TraceFault>; 2], TraceFault> {
    let mut moment = book(rt, pair, BOTH)?;
    let first = tick_first(pair, &mut moment);
    Ok([first, append(pair, moment)])
}

/// How many entries there are, and how many are booked.
fn counts<K: Identity>(pair: &Pair<Clock, K>) -> (usize, usize) {
    (pair.journal.len(), pair.journal.booked())
}

/// A moment of both is appended.
fn all_take<K: Identity, R: Wait + Abort + AllocGlobal>(rt: &R, pair: &mut Pair<Clock, K>) {
    let taken = take_both(rt, pair);
    assert_eq!(rt;
        taken,
        Ok([Err(TraceFault::Stopped), Ok(()), Ok(()), Ok(())])
    );
    assert_eq!(rt; counts(pair), (1, 0));
}

/// A moment of one is not appended.
fn one_takes<K: Identity, R: Wait + Abort + AllocGlobal>(rt: &R, pair: &mut Pair<Clock, K>) {
    let taken = take_one(rt, pair);
    assert_eq!(rt; taken, Ok([Ok(()), Err(TraceFault::Stopped)]));
    assert_eq!(rt; counts(pair), (1, 1));
}

/// The one is stopped, since the trace knows nothing of its step.
fn one_is_stopped<K: Identity, R: Wait + Abort + AllocGlobal>(rt: &R, pair: &mut Pair<Clock, K>) {
    assert_eq!(rt; pair.act_first(rt, 6), Err(TraceFault::Stopped));
    let taken = take_one(rt, pair);
    assert_eq!(rt;
        taken,
        Ok([Err(TraceFault::Stopped), Err(TraceFault::Stopped)])
    );
}

/// What is booked has no room left, and is given back.
fn unbook<K: Identity, R: Wait + Abort + AllocGlobal>(rt: &R, pair: &mut Pair<Clock, K>) {
    let full = book(rt, pair, BOTH).err();
    pair.journal.unbook_moment();
    pair.journal.unbook_moment();
    let three = book(rt, pair, Takers { first: 0, end: 3 }).err();
    assert_eq!(rt;
        [full, three],
        [Some(TraceFault::Full), Some(TraceFault::Stopped)]
    );
    assert_eq!(rt; counts(pair), (1, 0));
}

/// The other one goes on until it is stopped too.
fn stop<K: Identity, R: Wait + Abort + AllocGlobal>(rt: &R, pair: &mut Pair<Clock, K>) {
    let before = pair.act_second(rt, 7);
    pair.second.stop();
    let after = pair.act_second(rt, 8);
    assert_eq!(rt; [before, after], [Ok(0), Err(TraceFault::Stopped)]);
    assert_eq!(rt; pair.second.actor().now, 7);
}

fn some_moments<K: Identity, R: Wait + Abort + AllocGlobal>(rt: &R, pair: &mut Pair<Clock, K>) {
    all_take(rt, pair);
    one_takes(rt, pair);
    one_is_stopped(rt, pair);
    unbook(rt, pair);
    stop(rt, pair);
}

fn two_clocks<K: Identity, R: Wait + Abort + AllocGlobal>(
    rt: &R,
    marks: Marks<u64, Clock, Entry<u64, u64>>,
) -> Result<(), Fail>
    requires named { (marks.events ≡ K.events) × (marks.prefixes ≡ K.prefixes) }
{
    let marks = NamedMarks::<Clock, K>::new(marks);
    let mut pair = Pair::new(rt.alloc(), marks, Clock { now: 0 }, Clock { now: 0 }, 3)?;
    some_moments(rt, &mut pair);
    Ok(())
}

#[test]
fn moments(rt: HostRuntime) -> Result<(), Fail> {
    two_clocks::<Brand, _>(&rt, Marks::new(rt.alloc())?)
}
