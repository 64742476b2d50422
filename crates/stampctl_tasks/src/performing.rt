//! Tasks.
ghost use Rattle.std.specs.Prelude.{◌≡◌, ◌≢◌, ◌<◌, ◌⊎◌, Err, IfErr, IfOk};
ghost use Rattle.std.specs.Process.{exit_status};
ghost use Rattle.clap.specs.Words.{kind_of};
ghost use Rattle.clap.specs.declared.error.kind.ErrorKind.TheVariants.{DisplayHelp, DisplayVersion};
ghost use Rattle.clap.specs.declared.error.Error.{Error};
ghost use Rattle.spool.specs.Spool.{HasHandedOnLines, given};
ghost use Rattle.script_run.specs.Script.{Writes};
ghost use Rattle.record_dump.specs.Dump.{IsDumpOf};
ghost use Rattle.stampctl_tasks.specs.Printed.{IsPrinted};
ghost use Rattle.stampctl_words.specs.declared.named.CommandError.TheVariants.{Memory, WrongWords};

use crate::ending::{finish, refused, unread};
use crate::escaped::Escaped;
use crate::input::text_of;
use crate::migration::migrate;
use record_dump::{BytesFault, dump_bytes};
use script_drawing::Part;
use script_lines::lines_of;
use script_run::{Failure, run_text};
use spool::LineSpool;
use stampctl_words::{CommandError, Task};
use std::alloc::Global;
use std::fs;
use std::io::{self, Eprint, Print, Write};
use std::process::ExitCode;
use std::rt::Files;
use wire::Refusal;

/// Tells the help that was asked for, or how the words are wrong.
fn tell<R: Eprint + Print>(rt: &R, error: &clap::Error) -> ExitCode
    ensures mistake { (kind_of error.now ≢ DisplayHelp)
        → (kind_of error.now ≢ DisplayVersion) → exit_status result ≡ 2 }
    ensures help { (kind_of error.now ≡ DisplayHelp) ⊎ (kind_of error.now ≡ DisplayVersion) → exit_status result < 2 }
{
    let status = ExitCode::from(error.exit_code() as u8);
    match error.print(rt) {
        Err(_) if !error.use_stderr() => ExitCode::FAILURE,
        _ => status,
    }
}

/// Tells where a text is no script: the number of the line, and its text, unless memory runs out for that. A line after the
/// last is the setup of a text of empty lines alone.
fn tell_line<R: Eprint>(rt: &R, alloc: Global, text: &[u8], number: usize) {
    let _ = match lines_of(alloc, text) {
        Ok(lines) => match lines.get(number.saturating_sub(1)) {
            Some(line) => rt.eprintln(format_args!(
                "line {number} cannot be read: {}",
                Escaped(line)
            )),
            None => rt.eprintln(format_args!(
                "line {number} is missing: a script begins with its setup"
            )),
        },
        Err(_) => rt.eprintln(format_args!("line {number} cannot be read")),
    };
}

/// Prints what is left of what a script printed, and how it ended, and where it is none tells the line. A script that could print no
/// more ended out of memory, unless the output could not be written.
fn end<R: Eprint + Print, W: Write + Drop>(
    rt: &R,
    alloc: Global,
    text: &[u8],
    ended: Result<(), Failure>,
    spool: &mut LineSpool<W>,
) -> ExitCode
    ensures refused { IfErr ended (λ _. exit_status result ≡ 1) }
    ensures told { exit_status result < 2 }
    ensures same { given spool.new ≡ given spool.old }
    ensures printed { exit_status result ≡ 0 → HasHandedOnLines spool.new }
{
    match ended {
        Ok(()) => finish(rt, Ok(()), spool),
        Err(failure) => {
            let refusal = failure.refusal().unwrap_or(Refusal::Memory);
            let status = finish(rt, Err(refusal), spool);
            if let Failure::BadScript(number) = failure {
                tell_line(rt, alloc, text, number);
            }
            status
        }
    }
}

/// Runs the script of this text, and prints as it runs.
fn print_run<R: Eprint + Print, W: Write + Drop>(
    rt: &R,
    alloc: Global,
    text: &mut Vec<u8>,
    spool: &mut LineSpool<W>,
) -> ExitCode
    ensures told { exit_status result < 2 }
    ensures printed { exit_status result ≡ 0 → IsPrinted (Writes text.old.items) spool.old spool.new }
{
    let ended = run_text(alloc, text, spool);
    end(rt, alloc, text.as_slice(), ended, spool)
}

/// Runs the script that is named.
fn run<R: Eprint + Files + Input + Print>(rt: &R, alloc: Global, path: Option<&str>) -> ExitCode
    ensures { exit_status result < 2 }
{
    let mut text = match text_of(rt, alloc, path) {
        Ok(text) => text,
        Err(error) => return unread(rt, path, error),
    };
    match LineSpool::new(alloc, io::writer(rt)) {
        Ok(mut spool) => print_run(rt, alloc, &mut text, &mut spool),
        Err(_) => refused(rt, Refusal::Memory),
    }
}

/// The events from one to another, which are the first and the last where none is named.
fn part_of(from: Option<u64>, to: Option<u64>) -> Part {
    Part {
        from: from.unwrap_or(1) as usize,
        to: to.unwrap_or(u64::MAX) as usize,
    }
}

/// Prints the trace of a script.
fn trace<R: Eprint + Files + Input + Print>(rt: &R, alloc: Global, path: Option<&str>) -> ExitCode
    ensures { exit_status result < 2 }
{
    let text = match text_of(rt, alloc, path) {
        Ok(text) => text,
        Err(error) => return unread(rt, path, error),
    };
    let mut spool = match LineSpool::new(alloc, io::writer(rt)) {
        Ok(spool) => spool,
        Err(_) => return refused(rt, Refusal::Memory),
    };
    let ended = script_steps::trace(alloc, &text, &mut spool);
    end(rt, alloc, &text, ended, &mut spool)
}

/// Prints the drawing of a part of a script.
fn draw<R: Eprint + Files + Input + Print>(
    rt: &R,
    alloc: Global,
    path: Option<&str>,
    part: Part,
) -> ExitCode
    ensures { exit_status result < 2 }
{
    let text = match text_of(rt, alloc, path) {
        Ok(text) => text,
        Err(error) => return unread(rt, path, error),
    };
    let mut spool = match LineSpool::new(alloc, io::writer(rt)) {
        Ok(spool) => spool,
        Err(_) => return refused(rt, Refusal::Memory),
    };
    let ended = script_drawing::draw(alloc, &text, part, &mut spool);
    end(rt, alloc, &text, ended, &mut spool)
}

/// The refusal that is told of bytes that were not dumped. Where a line found no room, memory ran out.
fn dump_refusal(fault: BytesFault) -> Refusal
    ensures damaged { fault ≡ BytesFault.Damaged → result ≡ Refusal.Damaged }
    ensures memory { fault ≢ BytesFault.Damaged → result ≡ Refusal.Memory }
{
    match fault {
        BytesFault::Damaged => Refusal::Damaged,
        BytesFault::Memory | BytesFault::Output(_) => Refusal::Memory,
    }
}

/// Prints the records of the record file that these bytes are.
fn print_dump<R: Print, W: Write + Drop>(
    rt: &R,
    alloc: Global,
    bytes: Vec<u8>,
    spool: &mut LineSpool<W>,
) -> ExitCode
    ensures told { exit_status result < 2 }
    ensures printed { exit_status result ≡ 0 → IsPrinted (IsDumpOf bytes.items) spool.old spool.new }
{
    let ended = match dump_bytes(alloc, bytes, spool) {
        Ok(()) => Ok(()),
        Err(fault) => Err(dump_refusal(fault)),
    };
    finish(rt, ended, spool)
}

/// Prints the records of a record file, which is opened for reading alone.
fn dump<R: Eprint + Files + Input + Print>(rt: &R, alloc: Global, path: &str) -> ExitCode
    ensures { exit_status result < 2 }
{
    let bytes = match text_of(rt, alloc, Some(path)) {
        Ok(bytes) => bytes,
        Err(error) => return unread(rt, Some(path), error),
    };
    match LineSpool::new(alloc, io::writer(rt)) {
        Ok(mut spool) => print_dump(rt, alloc, bytes, &mut spool),
        Err(_) => refused(rt, Refusal::Memory),
    }
}

/// Performs a task, or tells why the words name none, and answers the status to end with. A script ends in 0 where it ran to
/// its end, and in 1 where it was refused or what it wrote could not be printed; where a text is no script the standard error
/// names the line, and where a file could not be read or made the reason. A record file that is dumped ends in 0, or in 1 where it could
/// not be read, is none, or its lines could not be printed; it is never written to. Nor is one that is migrated, which ends in 0, or in
/// 1 where it could not be read, is none, or the new file was there or could not be made or written, which is then left as it was, and
/// where the count could not be printed. Where memory for the words ran out it is 1; wrong words are
/// told on the standard error and end in 2, and help that was asked for in 0, or in 1 where it could not be printed.
pub fn perform<R: AllocGlobal + Eprint + Files<File = fs::File> + Input + Print>(
    rt: &R,
    alloc: Global,
    task: Result<Task<'_>, CommandError>,
) -> ExitCode
    ensures ran { IfOk task.entry (λ _. exit_status result < 2) }
    ensures memory { task.entry ≡ Err Memory → exit_status result ≡ 1 }
    ensures mistake { (e : Error) → task.entry ≡ Err (WrongWords e) → kind_of e ≢ DisplayHelp → kind_of e ≢ DisplayVersion
        → exit_status result ≡ 2 }
    ensures help { (e : Error) → task.entry ≡ Err (WrongWords e) → (kind_of e ≡ DisplayHelp) ⊎ (kind_of e ≡ DisplayVersion)
        → exit_status result < 2 }
{
    match task {
        Ok(Task::Run(path)) => run(rt, alloc, path),
        Ok(Task::Trace(path)) => trace(rt, alloc, path),
        Ok(Task::Draw { file, from, to }) => draw(rt, alloc, file, part_of(from, to)),
        Ok(Task::Dump(path)) => dump(rt, alloc, path),
        Ok(Task::Migrate { file, new }) => migrate(rt, alloc, file, new),
        Err(CommandError::Memory) => refused(rt, Refusal::Memory),
        Err(CommandError::WrongWords(error)) => tell(rt, &error),
    }
}
