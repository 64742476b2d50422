//! What no clause says of cells and of a trace: that their calls succeed where there is memory, in turn and on two threads. The tests
//! of `stamp_traces` stand here, so that it is not proved a second time for its tests.
#![tactic(auto)]

#[cfg(test)]
mod counters;
#[cfg(test)]
mod moments;
#[cfg(test)]
mod named_marks;
#[cfg(test)]
mod pair;
#[cfg(test)]
mod passes;
#[cfg(test)]
mod threads;
