//! The laws of the numbers of ranges and of their generations: what the map, the servers, the stream manager and the packets between
//! them have to do with each other in every run without merges.
//!
//! This crate has no code, and touches nothing. Its lemmas prove of whole runs (`model_partition`), with splits, and with stops and
//! restarts of all actors (the first of them also with merges):
//! - `run_is_sound`: the map's ranges have each key once, and no number is that of two ranges, nor of two that are to come.
//! - `run_is_given`: each number of a range that anybody names is one that the map has given.
//! - `run_is_within`: no generation that anybody names is above that of the range's entry in the map.
//! - `run_loses_range`, `run_drops_range`: of a range that the map has no more, nothing above the generation that it had is ever named.
//! - `run_is_settled`, `run_never_assigns`: a range that is only to come is not assigned, and where it is dropped it never is.
//! - `run_takes_first`: no split gives the number of the first range to one of its two.
//! - `run_asks_one_key`: all who ask to split a range under one generation ask for one key.
//! - `run_gives_once`: each number that the map gave to a split is of one pair, and its range is assigned only where the split was to end.
//! - `run_is_paired`: the two numbers that a split was told are those that are pending at its range, while that keeps its generation.
#![tactic(auto)]
