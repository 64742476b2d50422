//! How a case is run.
use std::alloc::Global;
use std::test::Fail;

/// What a case is about.
pub(crate) trait Tested: Drop {
    type Step;

    /// Whether a step comes to what it should.
    fn takes(&mut self, alloc: Global, step: &Self::Step) -> Result<bool, Fail>;
}

/// What a case shows, and its parts, each a list of steps.
pub(crate) type Case<S> = (&'static str, &'static [&'static [S]]);

fn part_holds<T: Tested>(alloc: Global, tested: &mut T, part: &[T::Step]) -> Result<bool, Fail> {
    for step in part {
        if !tested.takes(alloc, step)? {
            return Ok(false);
        }
    }
    Ok(true)
}

fn all_hold<T: Tested>(alloc: Global, tested: &mut T, parts: &[&[T::Step]]) -> Result<bool, Fail> {
    for part in parts {
        if !part_holds(alloc, tested, part)? {
            return Ok(false);
        }
    }
    Ok(true)
}

/// Whether every step of a case comes to what it should, part after part. What is tested is let go of here alone: each exit of a
/// function lets go of what it owns part by part, and each part costs the proof.
pub(crate) fn holds<T: Tested>(
    alloc: Global,
    start: T,
    parts: &[&[T::Step]],
) -> Result<bool, Fail> {
    let mut tested = start;
    let told = all_hold(alloc, &mut tested, parts);
    drop(tested);
    told
}
