//! How a case is run.
use std::alloc::Global;

/// What a case is about.
pub(crate) trait Subject: Drop {
    type Event: Copy;

    /// Whether an event goes as the case says.
    fn takes(&mut self, alloc: Global, event: Self::Event) -> bool;
}

fn part_holds<S: Subject>(alloc: Global, subject: &mut S, part: &[S::Event]) -> bool {
    for event in part {
        if !subject.takes(alloc, *event) {
            return false;
        }
    }
    true
}

/// Whether the events of a case, part after part, go as it says.
pub(crate) fn holds<S: Subject>(alloc: Global, start: S, parts: &[&[S::Event]]) -> bool {
    let mut subject = start;
    for part in parts {
        if !part_holds(alloc, &mut subject, part) {
            return false;
        }
    }
    true
}
