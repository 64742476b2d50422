//! `stampctl`: runs a script of events on one stamp and prints what is observed.
//!
//! # Words
//!
//!     stampctl                                runs the script on standard input
//!     stampctl run [FILE]                     runs the script of a file
//!     stampctl trace [FILE]                   runs it, and prints each event with the packets that it sent
//!     stampctl draw [FILE] [--from N] [--to M]    runs it, and writes a drawing of events N to M, as SVG
//!     stampctl dump FILE                      prints the records of an actor's record file
//!     stampctl migrate FILE NEW               makes a record file of version 2 with the records of another
//!     stampctl --help                         tells these, on standard output
//!
//! Without FILE the script is that on standard input; a record file and a new one must be named. A `--` may stand before a file's
//! name, so that it may begin with a hyphen. What the words name is told by `stampctl_words`, and `stampctl_tasks` does it.
//!
//! # What it touches
//!
//! The program reads its words, one file or the standard input, makes the new file of a migration, and writes lines to the standard
//! output and texts about wrong words, about a line that cannot be read and about a file that cannot be read or made to the standard
//! error; it touches nothing else. The disks of nodes, of the manager and of the map are in memory, and so is the network, so that a script always prints the same. The whole script is read and tested before its
//! first event runs; then output leaves as it comes, whole lines at a time, of which at most 64 KiB are kept unless one line is
//! longer. Where memory runs out, the lines so far are printed, and 22 is told. Where the output cannot be written, nothing more is
//! printed. A record file is opened for reading alone, and read whole before its first line or before a new file is made. A
//! migration that is refused leaves no new file.
//!
//! # Statuses
//!
//! - 0: the script ran to its end, the file was dumped or migrated, or help was asked for.
//! - 1: a refusal, told by the line `refused N Name` at the end of the output, or the output could not be written. N is
//!   - 60: the text is no script. The standard error names the first line at which it is none, as `line 2 cannot be read: foo`;
//!   - 62: the file cannot be read, or the new one is there or cannot be made. The standard error gives the system's reason;
//!   - 20: the new file cannot be written;
//!   - 21: the file that is to be dumped or migrated is no record file, or a Fill in one that is to be migrated is longer than any extent;
//!   - 22: memory ran out.
//! - 2: wrong words. The standard error says how, and nothing runs.
//!
//! # Scripts
//!
//! The lines of a script, and those that are printed, are in docs/FORMATS.md. docs/WALKS.md goes through six. The
//! gate runs the program on the file `stdin` beside this folder, and what it prints must be the file `stdout`.
//!
//! # What is proved of it
//!
//! `main` is the system's entry, and can have no contract of its own. What it calls has: `command` names the task that the
//! words spell, exactly; `perform` answers the status; and what is printed is what `script_run::run_text` wrote into a spool, which
//! promises that it is what the lines of the text print, run in order over one run of `world`, and that the line which it names
//! of a text that is no script is the first at which it is none. The `spool` hands on all that it was given. Of that run `world` promises
//! that what is observed of extents agrees and keeps each acknowledged append, and that what is observed of tables replays where
//! no event merges ranges.
//! docs/PROOFS.md leads from here to each part.
//!
//! # Tests
//!
//! No test reads the standard error; it is looked at by hand. What no clause says of scripts, of runs and of the program's words is
//! tested here: what drawings show, texts that are no scripts, failing readers and writers, each stop of a run with transactions, words
//! that are read or wrong, and what no clause of `world_streams` says: that its calls succeed where there is memory, runs of it followed
//! by hand, with clients of streams over them, and the rows that a loaded table shows. Of these a test goes through cases, each a list
//! of steps in their order: what is done, with the answer that is wanted, or what is seen then. Whole scripts, with all that they
//! print, are files, and `tests_rows` runs them.
//!
//! Each actor of a run is asked whether it may go to another thread, in a struct of its own and behind a lock: a missing proof of it
//! would show only where two threads share an actor.
#![tactic(auto)]

#[cfg(test)]
mod checkpoint_runs;
#[cfg(test)]
mod clients;
#[cfg(test)]
mod drawings;
#[cfg(test)]
mod drill_loads;
#[cfg(test)]
mod drills;
#[cfg(test)]
mod drives;
#[cfg(test)]
mod failover;
#[cfg(test)]
mod many_values;
#[cfg(test)]
mod merge_giving_up;
#[cfg(test)]
mod migrations;
#[cfg(test)]
mod page_rows;
#[cfg(test)]
mod range_failover;
#[cfg(test)]
mod range_refusals;
#[cfg(test)]
mod refused_scripts;
#[cfg(test)]
mod requests;
#[cfg(test)]
mod rows;
#[cfg(test)]
mod runs;
#[cfg(test)]
mod same_runs;
#[cfg(test)]
mod stops;
#[cfg(test)]
mod threads;
#[cfg(test)]
mod unordered_pages;
#[cfg(test)]
mod words_read;

use stampctl_tasks::perform;
use stampctl_words::{CommandError, command};
use std::alloc::Global;
use std::env;
use std::io::ErrorKind;
use std::process::ExitCode;
use std::rt::Env;

/// Why the words of the command line were not had.
enum NoWords {
    /// Memory ran out, which ends in status 1.
    Memory,
    /// A word is no UTF-8, which ends in status 2.
    NoText,
}

/// The words of the command line, of which the first is the program's name.
fn words<R: AllocGlobal + Env>(rt: &R, alloc: Global) -> Result<Vec<String>, NoWords> {
    match env::args(rt) {
        Ok(args) => args.collect(alloc).map_err(|_| NoWords::Memory),
        Err(error) if error.kind() == ErrorKind::OutOfMemory => Err(NoWords::Memory),
        Err(_) => Err(NoWords::NoText),
    }
}

/// Reads the words, has done what they name, and ends with its status.
fn main(rt: HostRuntime) -> ExitCode {
    match words(&rt, rt.alloc()) {
        Ok(words) => perform(&rt, rt.alloc(), command(rt.alloc(), words.as_slice())),
        Err(NoWords::Memory) => perform(&rt, rt.alloc(), Err(CommandError::Memory)),
        Err(NoWords::NoText) => {
            let _ = rt.eprintln("error: the arguments are no text");
            ExitCode::from(2)
        }
    }
}
