//! One pass puts events into the trace, another looks, and one of another trace is refused.
ghost use Rattle.std.specs.Prelude.{◌≡◌};

use crate::named_marks::NamedMarks;
use crate::pair::Pair;
use stamp_marks::{Identity, Marks};
use stamp_traces::{Counter, Entry, Journal, Pass, TraceFault};
use std::alloc::Global;
use std::marker::Brand;
use std::process::Abort;
use std::sync::Wait;
use std::test::Fail;

fn look<K: Identity, W: Wait>(
    rt: &W,
    pair: &mut Pair<Counter, K>,
    pass: &mut Pass<u64, u64, K>,
) -> Result<(), TraceFault> {
    pair.journal.look(rt, pair.marks.all(), pass)
}

fn note<K: Identity, W: Wait>(
    rt: &W,
    pair: &mut Pair<Counter, K>,
    pass: &mut Pass<u64, u64, K>,
) -> Result<(), TraceFault> {
    pair.journal.note(rt, pair.marks.all(), pass, &7, &0)
}

fn stands<K: Identity>(pair: &Pair<Counter, K>, pass: &Pass<u64, u64, K>) -> bool {
    pair.journal.stands(pair.marks.all(), pass)
}

/// One puts events into the trace, another looks and puts one there too.
fn put_and_look<K: Identity, R: Wait + Abort + AllocGlobal>(
    rt: &R,
    pair: &mut Pair<Counter, K>,
    pass: &mut Pass<u64, u64, K>,
) {
    let put = pair.act_first(rt, 7);
    let calls = [look(rt, pair, pass), note(rt, pair, pass)];
    assert_eq!(rt; (put, calls), (Ok(1), [Ok(()), Ok(())]));
}

/// The trace is full, and both passes stand.
fn fill<K: Identity, R: Wait + Abort + AllocGlobal>(
    rt: &R,
    pair: &mut Pair<Counter, K>,
    pass: &mut Pass<u64, u64, K>,
) {
    let put = pair.act_first(rt, 8);
    let calls = [note(rt, pair, pass), look(rt, pair, pass)];
    assert_eq!(rt; (put, calls), (Ok(2), [Err(TraceFault::Full), Ok(())]));
    assert!(rt; stands(pair, pass) && stands(pair, &pair.pass));
}

/// A pass that another trace has admitted.
fn stranger<K: Identity>(alloc: Global) -> Result<Pass<u64, u64, K>, Fail> {
    let mut journal = Journal::<Counter, u64, u64, K>::new(alloc, 1, 1)?;
    Ok(journal.admit()?)
}

/// The first pass has put events into the trace, of which the stranger, which has its number, knows nothing.
fn refuse<K: Identity, R: Wait + Abort + AllocGlobal>(
    rt: &R,
    pair: &mut Pair<Counter, K>,
    pass: &mut Pass<u64, u64, K>,
) {
    assert!(rt; !stands(pair, pass));
    let calls = [look(rt, pair, pass), note(rt, pair, pass)];
    assert_eq!(rt; calls, [Err(TraceFault::Stopped), Err(TraceFault::Stopped)]);
}

fn three_passes<K: Identity, R: Wait + Abort + AllocGlobal>(
    rt: &R,
    pair: &mut Pair<Counter, K>,
) -> Result<(), Fail> {
    let mut pass = pair.journal.admit()?;
    assert_eq!(rt; (pair.pass.number(), pass.number()), (0, 1));
    put_and_look(rt, pair, &mut pass);
    fill(rt, pair, &mut pass);
    let mut pass = stranger::<K>(rt.alloc())?;
    refuse(rt, pair, &mut pass);
    Ok(())
}

fn one_trace<K: Identity, R: Wait + Abort + AllocGlobal>(
    rt: &R,
    marks: Marks<u64, Counter, Entry<u64, u64>>,
) -> Result<(), Fail>
    requires named { (marks.events ≡ K.events) × (marks.prefixes ≡ K.prefixes) }
{
    let marks = NamedMarks::<Counter, K>::new(marks);
    let mut pair = Pair::new(rt.alloc(), marks, Counter::new(), Counter::new(), 3)?;
    three_passes(rt, &mut pair)
}

#[test]
fn passes(rt: HostRuntime) -> Result<(), Fail> {
    one_trace::<Brand, _>(&rt, Marks::new(rt.alloc())?)
}
