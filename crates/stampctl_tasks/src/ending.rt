//! How a task ends.
ghost use Rattle.std.specs.Prelude.{◌≡◌, ◌<◌, IfErr};
ghost use Rattle.std.specs.Process.{exit_status};
ghost use Rattle.spool.specs.Spool.{HasHandedOnLines, given};

use script_run::Failure;
use spool::LineSpool;
use std::io::{self, Eprint, Print, Write};
use std::process::ExitCode;
use wire::Refusal;

/// Tells why a task ended early, where there is no buffered writer to tell it.
pub(crate) fn refused<R: Print>(rt: &R, refusal: Refusal) -> ExitCode
    ensures { exit_status result ≡ 1 }
{
    let _ = rt.println(format_args!("refused {refusal}"));
    ExitCode::FAILURE
}

/// Tells why no text was had: the name of what was to be read, and the system's reason.
pub(crate) fn unread<R: Eprint + Print>(rt: &R, path: Option<&str>, error: io::Error) -> ExitCode
    ensures { exit_status result ≡ 1 }
{
    match Failure::of_input(error) {
        Failure::NoFile(error) => {
            let status = refused(rt, Refusal::NoFile);
            let name = path.unwrap_or("standard input");
            let _ = rt.eprintln(format_args!("{name}: {error}"));
            status
        }
        _ => refused(rt, Refusal::Memory),
    }
}

/// Prints the whole lines that are left, and how a task ended. Where the output could not be written, nothing more is printed.
pub(crate) fn finish<R: Print, W: Write + Drop>(
    rt: &R,
    ended: Result<(), Refusal>,
    spool: &mut LineSpool<W>,
) -> ExitCode
    ensures refused { IfErr ended (λ _. exit_status result ≡ 1) }
    ensures told { exit_status result < 2 }
    ensures same { given spool.new ≡ given spool.old }
    ensures printed { exit_status result ≡ 0 → HasHandedOnLines spool.new }
{
    if spool.flush().is_err() {
        return ExitCode::FAILURE;
    }
    match ended {
        Ok(()) => ExitCode::SUCCESS,
        Err(refusal) => refused(rt, refusal),
    }
}
