//! Measures appends; bench/run.sh calls it and prints ratios.
//!
//! `bench node N` makes extents on one node over a disk in memory and appends N groups of 1 KiB to them, 256 to an
//! extent. `bench restart N` does the same, and then starts the node again from its disk. `bench file N FILE` appends N
//! records of 1 KiB to a record file over FILE, and writes and syncs as many bytes to FILE.plain, a write and two syncs each,
//! by turns of a tenth of N. `bench check N` checks the observations that N acknowledged appends of 1 KiB give, 64 to an
//! extent, and `bench extent N` those of N appends to one extent, at most 16,384. `bench streams N` makes streams of N
//! extents and finds each extent in its stream. Times are printed in microseconds. Without words it appends ten groups and
//! prints how many were taken. `bench replay` and `bench records` measure nothing: they are rows for bench/refuse.py.
#![tactic(auto)]

mod checking;
mod device;
mod error;
mod extents;
mod node;
mod rows;

use crate::error::Failure;
use std::process::ExitCode;
use std::rt::{Clock, Env, Files};
use std::{env, fs, io};

const USAGE: &str =
    "usage: bench node N | bench restart N | bench file N FILE | bench check N | bench extent N | bench streams N | bench replay | bench records";

fn run<R: AllocGlobal + Env + Files<File = fs::File> + Clock + Print>(
    rt: &R,
) -> Result<(), Failure> {
    let words: Vec<String> = env::args(rt)?.collect(rt.alloc())?;
    let mut texts = Vec::new(rt.alloc());
    for word in &words {
        texts.push(word.as_str())?;
    }
    measured(rt, texts.as_slice())
}

fn number_of(word: &str) -> Result<u64, Failure> {
    word.parse().map_err(|_| Failure::Words)
}

/// Measures what the words name.
fn measured<R: AllocGlobal + Files<File = fs::File> + Clock + Print>(
    rt: &R,
    words: &[&str],
) -> Result<(), Failure> {
    match words {
        [_] => {
            let taken = node::appended(rt.alloc(), 10)?;
            rt.println(format_args!("taken {taken}"))?;
            Ok(())
        }
        [_, "replay"] => rows::replay(rt),
        [_, "records"] => rows::records(rt),
        [_, name, count] => measure(rt, name, number_of(count)?),
        [_, "file", count, path] => device::measure(rt, number_of(count)?, path),
        _ => Err(Failure::Words),
    }
}

/// Measures what is named, over so many.
fn measure<R: AllocGlobal + Clock + Print>(rt: &R, name: &str, count: u64) -> Result<(), Failure> {
    match name {
        "node" => node::measure(rt, count),
        "restart" => node::measure_restart(rt, count),
        "check" => checking::measure(rt, count),
        "extent" => checking::measure_extent(rt, count),
        "streams" => extents::measure(rt, count),
        _ => Err(Failure::Words),
    }
}

fn main(rt: HostRuntime) -> io::Result<ExitCode> {
    match run(&rt) {
        Ok(()) => Ok(ExitCode::SUCCESS),
        Err(Failure::Words) => {
            rt.println(USAGE)?;
            Ok(ExitCode::from(2))
        }
        Err(Failure::Io(error)) => Err(error),
        Err(failure) => {
            rt.println(failure.line())?;
            Ok(ExitCode::FAILURE)
        }
    }
}
